//! A key, a server and the limits of a book.
ghost use Rattle.std.specs.Prelude.{◌≡◌, true, IfOk};
ghost use Rattle.std.specs.Arc.{arc_value};
ghost use Rattle.link_start.specs.Starts.{CanStartAll, IsLinkKey};
ghost use Rattle.memory_start_laws.specs.Starts.{HasSalt};
ghost use Rattle.oom_probe.specs.Keys.{anns_key};

use crate::KEY_WORD;
use crate::files::catalogue;
use book_model::limits::Limits;
use book_model::rows::{DatabaseRow, DatabaseRows};
use memory_ends::memory_server::{MemoryServer, ServerAuth};
use memory_start_laws::memory_servers_can_start;
use session_values::text::Text;
use start_keys::{Host, StartKey};
use std::alloc::{AllocError, Global};
use std::sync::Arc;

/// So many bytes a call of an end moves at most.
pub const CUT: usize = 64;

/// Ann's password.
pub const PASSWORD: &[u8] = b"secret";

fn key_of_ann(alloc: Global) -> Result<StartKey, AllocError>
    ensures { IfOk result (λ k. k ≡ anns_key) }
{
    Ok(StartKey {
        row: Text::from_slice(alloc, b"shop")?,
        host: Some(Host::local()),
        port: 5432,
        dbname: Text::from_slice(alloc, b"shop")?,
        user: Text::from_slice(alloc, b"ann")?,
        parameters: Vec::new(alloc),
    })
}

/// Ann's key on the database shop.
#[tactic(auto, using(crate::proofs::Keys::anns_is_link_key))]
pub fn key(alloc: Global) -> Result<Arc<StartKey>, AllocError>
    ensures { IfOk result (λ k. IsLinkKey (arc_value k)) }
{
    let key = key_of_ann(alloc)?;
    Ok(Arc::new(alloc, key)?)
}

/// A server that waits for a StartupMessage and asks this.
fn asking(alloc: Global, auth: ServerAuth<'_>) -> Result<MemoryServer, AllocError>
    requires { HasSalt auth }
    ensures can_start { IfOk result (λ s. CanStartAll s.standing) }
    ensures strikable { IfOk result (λ s. s.standing.server.strikable ≡ true) }
{
    memory_servers_can_start();
    let catalogue = catalogue(alloc)?;
    let server = MemoryServer::new(alloc, catalogue, auth, KEY_WORD, CUT, None)?;
    Ok(server)
}

/// One that asks for Ann's password.
pub fn server(alloc: Global) -> Result<MemoryServer, AllocError>
    ensures can_start { IfOk result (λ s. CanStartAll s.standing) }
    ensures strikable { IfOk result (λ s. s.standing.server.strikable ≡ true) }
{
    asking(alloc, ServerAuth::Plain(PASSWORD))
}

/// The database shop, for pools of two links.
fn rows(alloc: Global) -> Result<DatabaseRows, AllocError> {
    let shop = DatabaseRow {
        name: Text::from_slice(alloc, b"shop")?,
        host: Host::local(),
        port: 5432,
        dbname: Text::from_slice(alloc, b"shop")?,
        size: 2,
    };
    let mut rows = Vec::new(alloc);
    rows.push(shop)?;
    DatabaseRows::new(alloc, rows)
}

/// Ten clients, four links, and times that aren't reached.
pub fn limits(alloc: Global) -> Result<Arc<Limits>, AllocError> {
    let mut limits = Limits::usual(rows(alloc)?);
    limits.max_client_conn = 10;
    limits.max_links = 4;
    limits.default_pool_size = 2;
    limits.query_wait_timeout = 0;
    Ok(Arc::new(alloc, limits)?)
}
