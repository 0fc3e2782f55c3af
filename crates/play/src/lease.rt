//! A client that has a link.
ghost use Rattle.std.specs.Prelude.{◌≡◌, IfOk};
ghost use Rattle.act_client.specs.Clients.{facts_of};
ghost use Rattle.play.specs.Players.{IsAt, IsDone, IsServed};

use crate::stage::{Stage, leave, refuse};
use act_client::{ActClient, Script};
use frame_view::laws::are_bytes;
use memory_ends::memory_server::MemoryServer;
use memory_pool::MemoryPool;
use message_view::KeyWord;
use relay_core::relay::{Relay, Returned};
use relay_model::Next;
use server_end::gate::Ready;
use server_end::{ClientEnd, ServerEnd};
use std::alloc::AllocError;

/// A turn of a client that has a link: its lease is pumped once. At its end the client is refused, if it is, and leaves.
#[tactic(auto, using(crate::proofs::Leases::lease_goes, crate::proofs::Leases::lease_stops, crate::proofs::Leases::lease_piece, crate::proofs::Leases::lease_done, crate::proofs::Leases::lease_input))]
pub(crate) fn serve<'a>(
    pool: &mut MemoryPool,
    word: KeyWord,
    script: &Script,
    mut relay: Relay<ActClient<'a>, MemoryServer>,
    number: u64,
) -> Result<(Stage<'a>, bool), AllocError>
    requires { IsServed pool.old word script.now.bytes relay }
    ensures same { pool.new ≡ pool.old }
    ensures at { IfOk result (λ r. IsAt pool.old word script.now.bytes r.0) }
{
    are_bytes(script.input());
    let next = relay.pump(Ready {
        client: true,
        server: true,
    });
    let stage = match next {
        Next::Again => return Ok((Stage::Served { relay, number }, true)),
        Next::Wait => return Ok((Stage::Served { relay, number }, false)),
        Next::Refuse(refusal) => {
            let client = part(pool, word, script, relay)?;
            refuse(pool, word, client, Some(number), refusal)?
        }
        Next::ClientDone | Next::Closed => {
            let client = part(pool, word, script, relay)?;
            leave(pool, word, client, Some(number))
        }
    };
    Ok((stage, true))
}

/// The lease ends: its link is given back, where it can be used again, and the client's end is left.
#[tactic(auto, using(crate::proofs::Leases::lease_home))]
fn part<'a>(
    pool: &mut MemoryPool,
    word: KeyWord,
    script: &Script,
    relay: Relay<ActClient<'a>, MemoryServer>,
) -> Result<ActClient<'a>, AllocError>
    requires { IsServed pool.old word script.now.bytes relay }
    ensures same { pool.new ≡ pool.old }
    ensures client { IfOk result (λ c. facts_of c ≡ relay.entry.client) }
{
    let (client, link) = relay.close();
    match link {
        Returned::Unused(link) => pool.give_back(link),
        Returned::Used(link) => pool.reset(link),
        Returned::Gone(lent, _) => {
            pool.lose(lent.number);
            if lent.end.faults() > 0 {
                return Err(AllocError);
            }
        }
    }
    if client.faults() > 0 {
        return Err(AllocError);
    }
    Ok(client)
}

/// The client's end, once nothing more comes.
#[tactic(auto, using(crate::proofs::Logins::logs_in_piece, crate::proofs::Logins::waits_piece, crate::proofs::Pieces::piece_done, crate::proofs::Leases::lease_done, crate::proofs::Leases::lease_input))]
pub(crate) fn last<'a>(
    pool: &mut MemoryPool,
    word: KeyWord,
    script: &Script,
    stage: Stage<'a>,
) -> Result<ActClient<'a>, AllocError>
    requires { IsAt pool.old word script.now.bytes stage }
    ensures same { pool.new ≡ pool.old }
    ensures done { IfOk result (λ c. (c.input ≡ script.now.bytes) × IsDone pool.old word c) }
{
    are_bytes(script.input());
    match stage {
        Stage::LoggingIn {
            client,
            login: _,
            number: _,
        } => Ok(client),
        Stage::Waiting {
            client,
            key: _,
            number: _,
        } => Ok(client),
        Stage::Served { relay, number: _ } => part(pool, word, script, relay),
        Stage::Closed(client) => Ok(client),
        Stage::Absent => Err(AllocError),
    }
}
