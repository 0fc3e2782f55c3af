//! A play from its first act to its last.
ghost use Rattle.std.specs.Prelude.{◌<◌, IfOk};
ghost use Rattle.std.specs.Arc.{arc_value};
ghost use Rattle.ini_config.specs.Bounds.{AreWithinBounds};
ghost use Rattle.act_client.specs.Acts.{all_send};
ghost use Rattle.play.specs.Players.{AreAllowed};
ghost use Rattle.memory_pool.specs.MemoryPools.{memory_pool_of};

use crate::played::Played;
use crate::table::Table;
use act_client::{Act, scripts};
use ini_config::Settings;
use memory_pool::MemoryPool;
use session_catalogue::Catalogue;
use std::alloc::{AllocError, Global};
use std::sync::Arc;
use user_file::Users;

/// Plays these acts over one lease book and its links: clients in memory, each with its login, its place in the book, and the lease
/// of its link, and a server in memory behind each link, all on this thread. A call of an end moves at most `cut` bytes.
///
/// Client n has the key word of pid n, secret n and salt 0. An act on a client that hasn't come or has hung up changes nothing.
/// After each act every client that has come is served until nothing moves, at most 100,000 turns; a turn pumps each once. A client
/// of the console is closed without a byte. What each client was given is allowed for the bytes that it sent: it is a beginning of
/// what a server of its own would answer to them, or some first whole pieces of that and a refusal.
///
/// `AllocError` where memory is refused, and where 4,294,967,295 clients come or more.
pub fn play(
    alloc: Global,
    settings: Arc<Settings>,
    users: Arc<Users>,
    catalogue: Arc<Catalogue>,
    cut: usize,
    acts: &[Act<'_>],
) -> Result<Played, AllocError>
    requires cut { 0 < cut }
    requires bounds { AreWithinBounds (arc_value settings) }
    ensures { IfOk result (λ p. AreAllowed (memory_pool_of (arc_value settings) (arc_value users) (arc_value catalogue)) (all_send 1 acts.now) p.clients.items) }
{
    let scripts = scripts(alloc, acts)?;
    let pool = MemoryPool::new(alloc, settings, users, catalogue, cut)?;
    let mut table = Table::new(alloc, pool, scripts.as_slice())?;
    for act in acts {
        table.perform(act);
        table.serve()?;
    }
    Ok(Played {
        clients: table.finish()?,
    })
}
