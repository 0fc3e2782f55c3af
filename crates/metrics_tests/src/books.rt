//! A lease book, and what is known beside it, as they are handed to whoever tells of them.
use book_model::events::ClientState;
use book_model::limits::Limits;
use book_model::rows::{DatabaseRow, DatabaseRows};
use book_register::book_state::BookState;
use book_register::view::BookView;
use book_rows::clients::Client;
use book_rows::links::Link;
use book_rows::pools::PoolKey;
use book_rows::tickets::Ticket;
use pool_figures::figures::Figures;
use pool_figures::seen::{DatabaseSeen, Seen};
use session_values::text::Text;
use start_keys::{Host, StartKey};
use std::alloc::{AllocError, Global};
use std::sync::Arc;

/// A database whose name isn't plain.
const STRANGE: &[u8] = b"a\"b\\\n\xff";

fn host(text: &[u8]) -> Host {
    Host::new(text).unwrap_or(Host::empty())
}

fn row(
    alloc: Global,
    name: &[u8],
    at: &[u8],
    port: u16,
    dbname: &[u8],
    size: u32,
) -> Result<DatabaseRow, AllocError> {
    Ok(DatabaseRow {
        name: Text::from_slice(alloc, name)?,
        host: host(at),
        port,
        dbname: Text::from_slice(alloc, dbname)?,
        size,
    })
}

fn limits(alloc: Global) -> Result<Arc<Limits>, AllocError> {
    let mut rows = Vec::new(alloc);
    rows.push(row(alloc, b"shop", b"127.0.0.1", 5432, b"elsewhere", 5)?)?;
    rows.push(row(alloc, STRANGE, b"db.example", 1, b"*", 20)?)?;
    let mut limits = Limits::usual(DatabaseRows::new(alloc, rows)?);
    limits.max_links = 100;
    limits.query_wait_timeout = 0;
    limits.server_idle_timeout = 0;
    Ok(Arc::new(alloc, limits)?)
}

/// A key of the pool of this user on shop.
fn key(alloc: Global, user: &[u8]) -> Result<PoolKey, AllocError> {
    let key = StartKey {
        row: Text::from_slice(alloc, b"shop")?,
        host: Some(Host::local()),
        port: 5432,
        dbname: Text::from_slice(alloc, b"elsewhere")?,
        user: Text::from_slice(alloc, user)?,
        parameters: Vec::new(alloc),
    };
    Ok(PoolKey::new(Arc::new(alloc, key)?))
}

fn link(alloc: Global, number: u64, user: &[u8]) -> Result<Link, AllocError> {
    Ok(Link {
        number,
        key: key(alloc, user)?,
        started_at: 2,
        since: 3,
    })
}

/// Two links that ann's clients have, one that is idle, and a client of hers that has waited for three seconds. The pool is paused.
pub(crate) fn view(alloc: Global) -> Result<BookView, AllocError> {
    let mut view = BookState::new(alloc, limits(alloc)?)?.view(alloc)?;
    let clients = [
        (1, ClientState::Active),
        (2, ClientState::Waiting),
        (3, ClientState::LoggingIn),
    ];
    for (number, state) in clients {
        view.clients.push(Client { number, state })?;
    }
    view.tickets.push(Ticket {
        client: 2,
        key: key(alloc, b"ann")?,
        since: 4,
    })?;
    view.lent.push(link(alloc, 10, b"ann")?)?;
    view.lent.push(link(alloc, 11, b"ann")?)?;
    view.idle.push(link(alloc, 12, b"b\xe9")?)?;
    view.clock = 7;
    view.is_paused = true;
    view.decisions = u64::MAX;
    view.starts = 12;
    view.reuses = 4;
    view.evictions = 3;
    view.losses = 10;
    Ok(view)
}

/// What went through shop.
pub(crate) fn seen(alloc: Global) -> Result<Seen, AllocError> {
    let mut seen = Seen::nothing(alloc);
    let total = Figures {
        leases: 6,
        transactions: 3,
        queries: 5,
        received: 1_000,
        sent: u64::MAX,
        transaction_time: 1_250_000,
        query_time: 999,
        wait_time: 60_000_001,
    };
    seen.databases.push(DatabaseSeen {
        name: Text::from_slice(alloc, b"shop")?,
        total,
        recent: Figures::none(),
    })?;
    Ok(seen)
}
