//! A client that waits for its link.
ghost use Rattle.std.specs.Prelude.{◌≡◌, IfOk};
ghost use Rattle.std.specs.Arc.{arc_value};
ghost use Rattle.play.specs.Players.{IsAt, Waits};
ghost use Rattle.memory_pool.specs.MemoryPools.{IsAtHome};

use crate::stage::{Stage, leave, refuse};
use act_client::ActClient;
use link_run::links::CleanLink;
use link_start::close::close_link;
use login_core::laws::login_is_of_its_row;
use login_laws::laws::{bounded_rows_are_lawful, passed_keys_are_link_keys};
use memory_ends::memory_server::MemoryServer;
use memory_pool::MemoryPool;
use memory_pool::answers::Taken;
use message_view::KeyWord;
use relay_core::relay::Relay;
use start_keys::StartKey;
use std::alloc::{AllocError, Global};
use std::sync::Arc;

/// A turn of a client that waits: it takes its link, if it may have one now, and leaves if it has hung up. The link's number is
/// kept.
#[tactic(auto, using(crate::proofs::Logins::waits_piece, crate::proofs::Pieces::piece_done, crate::proofs::Leases::start_fails, crate::proofs::Logins::key_starts))]
pub(crate) fn wait<'a>(
    alloc: Global,
    pool: &mut MemoryPool,
    word: KeyWord,
    links: &mut Vec<u64>,
    mut client: ActClient<'a>,
    key: Arc<StartKey>,
    number: u64,
) -> Result<(Stage<'a>, bool), AllocError>
    requires { Waits pool.old word client (arc_value key) }
    ensures same { pool.new ≡ pool.old }
    ensures at { IfOk result (λ r. IsAt pool.old word client.entry.input r.0) }
{
    pool.is_bounded();
    bounded_rows_are_lawful();
    passed_keys_are_link_keys();
    if client.script().has_gone() {
        return Ok((leave(pool, word, client, Some(number)), true));
    }
    let stage = match pool.take(number, &key)? {
        Taken::Link(link) => {
            links.push(link.number())?;
            begin(alloc, pool, word, client, link, number)?
        }
        Taken::Waits => {
            let stage = Stage::Waiting {
                client,
                key,
                number,
            };
            return Ok((stage, false));
        }
        Taken::Refused(refusal) => refuse(pool, word, client, Some(number), refusal)?,
        Taken::Failed(error) => {
            client.give(error.as_bytes())?;
            leave(pool, word, client, Some(number))
        }
        Taken::Strange => leave(pool, word, client, Some(number)),
    };
    Ok((stage, true))
}

/// The lease of a link to a client begins.
#[tactic(auto, using(crate::proofs::Leases::lease_begins))]
fn begin<'a>(
    alloc: Global,
    pool: &MemoryPool,
    word: KeyWord,
    client: ActClient<'a>,
    link: CleanLink<MemoryServer>,
    number: u64,
) -> Result<Stage<'a>, AllocError>
    requires waits { Waits pool.now word client link.key }
    requires home { IsAtHome pool.now.catalogue link }
    ensures { IfOk result (IsAt pool.now word client.entry.input) }
{
    match Relay::begin(alloc, client, link, word, pool.limit()) {
        Ok(relay) => Ok(Stage::Served { relay, number }),
        Err((_, link)) => {
            close_link(link);
            Err(AllocError)
        }
    }
}
