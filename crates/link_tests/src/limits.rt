//! Messages at the greatest length that there is, and above the one that a relay allows.
ghost use Rattle.std.specs.Prelude.{◌≤◌};
ghost use Rattle.frame_view.specs.declared.frames.TheConstants.{MAX_FRAME};

use crate::making::server;
use crate::resets::link;
use frame_view::MAX_FRAME;
use memory_ends::memory_client::MemoryClient;
use memory_ends::memory_server::ServerAuth;
use message_view::{KeyWord, Refusal};
use relay_core::relay::{Relay, Returned};
use relay_model::Next;
use server_end::gate::Ready;
use std::alloc::Global;
use std::test::Fail;

/// What a client comes to that sends this under this limit, and whether no byte of it went to the link.
fn told(alloc: Global, limit: u32, sent: &[u8]) -> Result<(Next, bool), Fail>
    requires low { 4 ≤ limit }
    requires high { limit ≤ MAX_FRAME }
{
    let word = KeyWord {
        pid: 1,
        secret: 2,
        salt: [0; 4],
    };
    let both = Ready {
        client: true,
        server: true,
    };
    let link = link(alloc, server(alloc, ServerAuth::Trust, 100, None)?)?;
    let client = MemoryClient::new(alloc, sent, 100)?;
    let Ok(mut relay) = Relay::begin(alloc, client, link, word, limit) else {
        return Err("no lease")?;
    };
    for _ in 0..100 {
        let next = relay.pump(both);
        if next != Next::Again {
            let (_, link) = relay.close();
            return Ok((next, matches!(link, Returned::Unused(_))));
        }
    }
    Err("bytes move on and on")?
}

/// The head of a Query of 2,147,483,647 bytes goes on, and more is waited for.
#[test]
fn the_longest_message_is_waited_for(rt: HostRuntime) -> Result<(), Fail> {
    let longest = told(rt.alloc(), MAX_FRAME, b"Q\x7f\xff\xff\xff")?;
    assert!(rt; longest == (Next::Wait, false));
    Ok(())
}

/// Of a message above the limit no byte goes to the link, which is as clean as it was.
#[test]
fn a_message_above_the_limit_is_refused(rt: HostRuntime) -> Result<(), Fail> {
    let refused = (Next::Refuse(Refusal::ClientMessageTooLong), true);
    assert!(rt; told(rt.alloc(), 1_000, b"Q\0\0\x03\xe9")? == refused);
    assert!(rt; told(rt.alloc(), 1_000, b"Q\x7f\xff\xff\xff")? == refused);
    assert!(rt; told(rt.alloc(), 1_000, b"Q\0\0\x03\xe8")? == (Next::Wait, false));
    Ok(())
}
