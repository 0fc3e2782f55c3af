//! How far a client of a play is.
ghost use Rattle.std.specs.Prelude.{◌≡◌, ◌++◌, IfOk, IfSome};
ghost use Rattle.message_view.specs.Refusals.{refusal as refused};
ghost use Rattle.play.specs.Players.{IsAt, IsAtPiece, IsDone};
ghost use Rattle.memory_pool.specs.MemoryPools.{MemoryPoolOf};

use act_client::ActClient;
use login_core::Login;
use memory_ends::memory_server::MemoryServer;
use memory_pool::MemoryPool;
use message_view::{KeyWord, Refusal, refusal_bytes};
use relay_core::relay::Relay;
use start_keys::StartKey;
use std::alloc::AllocError;
use std::sync::Arc;

/// How far a client is. Its number is the lease book's.
#[derive(Drop)]
pub(crate) enum Stage<'a> {
    /// Its login waits for a packet. It has a number once it has arrived.
    LoggingIn {
        client: ActClient<'a>,
        login: Login,
        number: Option<u64>,
    },
    /// Its login has passed with this key, and it waits for a link.
    Waiting {
        client: ActClient<'a>,
        key: Arc<StartKey>,
        number: u64,
    },
    /// It has a link.
    Served {
        relay: Relay<ActClient<'a>, MemoryServer>,
        number: u64,
    },
    /// It is given nothing more.
    Closed(ActClient<'a>),
    /// It is at its turn; a turn that finds no memory leaves it so.
    Absent,
}

/// The client is closed, and leaves the book, where it is in it.
pub(crate) fn leave<'a>(
    pool: &mut MemoryPool,
    word: KeyWord,
    client: ActClient<'a>,
    number: Option<u64>,
) -> Stage<'a>
    requires { IsDone pool.old word client }
    ensures same { pool.new ≡ pool.old }
    ensures at { IsAt pool.old word client.entry.input result }
{
    if let Some(number) = number {
        pool.leave(number);
    }
    Stage::Closed(client)
}

/// The client is given this refusal, and leaves.

pub(crate) fn refuse<'a>(
    pool: &mut MemoryPool,
    word: KeyWord,
    mut client: ActClient<'a>,
    number: Option<u64>,
    refusal: Refusal,
) -> Result<Stage<'a>, AllocError>
    requires { IsAtPiece pool.old word client }
    ensures same { pool.new ≡ pool.old }
    ensures at { IfOk result (IsAt pool.old word client.entry.input) }
{
    client.give(refusal_bytes(refusal))?;
    Ok(leave(pool, word, client, number))
}
