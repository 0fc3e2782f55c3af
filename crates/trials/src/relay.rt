//! `trials relay`: rows through a relay between ends in memory that cost next to nothing.
ghost use Rattle.std.specs.Prelude.{◌≤◌};

use crate::keys::key;
use crate::links::row_link;
use crate::rows::Counter;
use message_view::KeyWord;
use relay_core::relay::Relay;
use relay_model::Next;
use server_end::gate::Ready;
use std::alloc::{AllocError, Global};

/// The greatest length of a frame.
const LIMIT: u32 = 2_147_483_647;

/// Relays rows until the server has no more; how many bytes the client was given.
pub fn relayed(alloc: Global, size: u32, total: u64) -> Result<u64, AllocError>
    requires { 11 ≤ size }
{
    let link = row_link(alloc, key(alloc, b"bench", 0, 0)?, size, total)?;
    let word = KeyWord {
        pid: 1,
        secret: 2,
        salt: [0; 4],
    };
    let Ok(mut relay) = Relay::begin(alloc, Counter::new(), link, word, LIMIT) else {
        return Err(AllocError);
    };
    let ready = Ready {
        client: true,
        server: true,
    };
    for _ in 0..u64::MAX {
        match relay.pump(ready) {
            Next::Again | Next::Wait => {}
            Next::ClientDone | Next::Refuse(_) | Next::Closed => break,
        }
    }
    let (client, _) = relay.close();
    Ok(client.given())
}
