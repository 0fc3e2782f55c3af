//! Keys, limits and links of the tests.
ghost use Rattle.std.specs.Prelude.{◌≡◌, false, IfOk};

use book_model::limits::Limits;
use book_model::rows::{DatabaseRow, DatabaseRows};
use link_run::links::{CleanLink, LinkParts};
use memory_ends::gone_end::GoneEnd;
use memory_start_laws::unfollowed_starts_are_clean;
use param_track::Reported;
use session_values::text::Text;
use start_keys::{Host, StartKey};
use std::alloc::{AllocError, Global};
use std::sync::Arc;

/// A host that isn't this machine.
pub fn elsewhere() -> Host {
    match Host::new(b"db.example.net") {
        Some(host) => host,
        None => Host::empty(),
    }
}

/// A key on this database at a port of a host, of this user under this application_name.
fn key(
    alloc: Global,
    database: &[u8],
    host: Host,
    port: u16,
    user: &[u8],
    name: &[u8],
) -> Result<Arc<StartKey>, AllocError> {
    let mut parameters = Vec::new(alloc);
    let parameter = Text::from_slice(alloc, b"application_name")?;
    parameters.push((parameter, Text::from_slice(alloc, name)?))?;
    let key = StartKey {
        row: Text::from_slice(alloc, database)?,
        host: Some(host),
        port,
        dbname: Text::from_slice(alloc, database)?,
        user: Text::from_slice(alloc, user)?,
        parameters,
    };
    Ok(Arc::new(alloc, key)?)
}

/// Whose key it is: of ann's two keys on the shop, which are of one pool, or of bc's, which is of another; ann's on the shop once that
/// is at port 5433, hers on the cafe, or hers on the bar, which is elsewhere.
#[derive(Clone, Copy, Drop)]
pub enum Whose {
    Ann,
    AnnAsB,
    Bc,
    AnnAt5433,
    AnnAtCafe,
    AnnElsewhere,
}

/// The key.
pub fn key_of(alloc: Global, whose: Whose) -> Result<Arc<StartKey>, AllocError> {
    let here = Host::local();
    match whose {
        Whose::Ann => key(alloc, b"shop", here, 5432, b"ann", b"a"),
        Whose::AnnAsB => key(alloc, b"shop", here, 5432, b"ann", b"b"),
        Whose::Bc => key(alloc, b"shop", here, 5432, b"bc", b"a"),
        Whose::AnnAt5433 => key(alloc, b"shop", here, 5433, b"ann", b"a"),
        Whose::AnnAtCafe => key(alloc, b"cafe", here, 5432, b"ann", b"a"),
        Whose::AnnElsewhere => key(alloc, b"bar", elsewhere(), 6543, b"ann", b"a"),
    }
}

/// What becomes of the row of the shop: another host, port or dbname, or no such row.
#[derive(Clone, Copy, Drop)]
pub enum Change {
    Host,
    Port,
    Dbname,
    Gone,
}

/// What a test's settings are, apart from the default ones: 100 clients and links, pools of 20, no timeouts.
#[derive(Clone, Copy, Drop)]
pub enum Settings {
    Default,
    PoolsOf(u32),
    OneClient,
    TwoLinks,
    /// Pools of one link, and a wait of so many seconds.
    Wait(u32),
    /// A lifetime of 3,600 seconds, and an idle timeout of so many.
    Idle(u32),
    /// A lifetime of so many seconds.
    Lifetime(u32),
    /// The row of the shop is changed so.
    Shop(Change),
}

/// How many links a pool may have.
fn pool_size(settings: Settings) -> u32 {
    match settings {
        Settings::PoolsOf(size) => size,
        Settings::Wait(_) => 1,
        _ => 20,
    }
}

/// A database row at port 5432 of 127.0.0.1, whose database is named as it is.
fn row(alloc: Global, name: &[u8], size: u32) -> Result<DatabaseRow, AllocError> {
    Ok(DatabaseRow {
        name: Text::from_slice(alloc, name)?,
        host: Host::local(),
        port: 5432,
        dbname: Text::from_slice(alloc, name)?,
        size,
    })
}

/// The row of the shop, where there is one.
fn shop(alloc: Global, settings: Settings) -> Result<Option<DatabaseRow>, AllocError> {
    let mut row = row(alloc, b"shop", pool_size(settings))?;
    match settings {
        Settings::Shop(Change::Host) => row.host = elsewhere(),
        Settings::Shop(Change::Port) => row.port = 5433,
        Settings::Shop(Change::Dbname) => row.dbname = Text::from_slice(alloc, b"shops")?,
        Settings::Shop(Change::Gone) => return Ok(None),
        _ => {}
    }
    Ok(Some(row))
}

/// The rows of these settings: the cafe, and the shop.
fn rows(alloc: Global, settings: Settings) -> Result<DatabaseRows, AllocError> {
    let mut rows = Vec::new(alloc);
    rows.push(row(alloc, b"cafe", pool_size(settings))?)?;
    if let Some(shop) = shop(alloc, settings)? {
        rows.push(shop)?;
    }
    DatabaseRows::new(alloc, rows)
}

/// The limits of these settings.
pub fn limits(alloc: Global, settings: Settings) -> Result<Arc<Limits>, AllocError> {
    let mut limits = Limits::usual(rows(alloc, settings)?);
    limits.max_links = 100;
    limits.query_wait_timeout = 0;
    limits.server_idle_timeout = 0;
    match settings {
        Settings::Default | Settings::PoolsOf(_) | Settings::Shop(_) => {}
        Settings::OneClient => limits.max_client_conn = 1,
        Settings::TwoLinks => limits.max_links = 2,
        Settings::Wait(seconds) => limits.query_wait_timeout = seconds,
        Settings::Idle(seconds) => limits.server_idle_timeout = seconds,
        Settings::Lifetime(seconds) => limits.server_lifetime = seconds,
    }
    Ok(Arc::new(alloc, limits)?)
}

/// A link of this key and number, begun in this second, whose server has gone since.
pub fn link(
    alloc: Global,
    key: Arc<StartKey>,
    number: u64,
    started_at: u64,
) -> Result<CleanLink<GoneEnd>, AllocError>
    ensures number { IfOk result (λ l. l.number ≡ number) }
    ensures started_at { IfOk result (λ l. l.started_at ≡ started_at) }
    ensures silent { IfOk result (λ l. l.stands.follows ≡ false) }
{
    unfollowed_starts_are_clean();
    let parts = LinkParts {
        end: GoneEnd::of(&key)?,
        key,
        number,
        started_at,
        server_key: None,
        reported: Reported::new(alloc),
    };
    Ok(parts.clean())
}
