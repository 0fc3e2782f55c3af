//! Lease books at one moment, as the console is handed them.
use book_model::counts::Counts;
use book_model::events::{Beyond, ClientState, Event};
use book_model::limits::Limits;
use book_model::rows::DatabaseRows;
use book_register::book_state::BookState;
use book_register::view::BookView;
use book_rows::clients::Client;
use book_rows::links::Link;
use book_rows::pools::PoolKey;
use book_rows::tickets::Ticket;
use session_values::text::Text;
use start_keys::{Host, StartKey};
use std::alloc::{AllocError, Global};
use std::sync::Arc;

/// A client's ticket or a link: its number, and the database and user of its pool.
pub(crate) type Member = (u64, &'static [u8], &'static [u8]);

/// What a book holds.
#[derive(Clone, Copy, Drop)]
pub(crate) struct Rows {
    pub clients: &'static [(u64, ClientState)],
    pub tickets: &'static [Member],
    pub lent: &'static [Member],
    pub idle: &'static [Member],
}

fn limits(alloc: Global) -> Result<Arc<Limits>, AllocError> {
    let rows = DatabaseRows::new(alloc, Vec::new(alloc))?;
    let mut limits = Limits::usual(rows);
    limits.max_links = 100;
    limits.query_wait_timeout = 0;
    limits.server_idle_timeout = 0;
    Ok(Arc::new(alloc, limits)?)
}

/// A key of the pool of this database row and user.
fn key(alloc: Global, row: &[u8], user: &[u8]) -> Result<Arc<StartKey>, AllocError> {
    let key = StartKey {
        row: Text::from_slice(alloc, row)?,
        host: Some(Host::local()),
        port: 5432,
        dbname: Text::from_slice(alloc, b"elsewhere")?,
        user: Text::from_slice(alloc, user)?,
        parameters: Vec::new(alloc),
    };
    Ok(Arc::new(alloc, key)?)
}

fn clients(alloc: Global, rows: &[(u64, ClientState)]) -> Result<Vec<Client>, AllocError> {
    let mut clients = Vec::new(alloc);
    for (number, state) in rows {
        clients.push(Client {
            number: *number,
            state: *state,
        })?;
    }
    Ok(clients)
}

fn tickets(alloc: Global, rows: &[Member]) -> Result<Vec<Ticket>, AllocError> {
    let mut tickets = Vec::new(alloc);
    for (client, row, user) in rows {
        tickets.push(Ticket {
            client: *client,
            key: PoolKey::new(key(alloc, row, user)?),
            since: 4,
        })?;
    }
    Ok(tickets)
}

fn links(alloc: Global, rows: &[Member]) -> Result<Vec<Link>, AllocError> {
    let mut links = Vec::new(alloc);
    for (number, row, user) in rows {
        links.push(Link {
            number: *number,
            key: PoolKey::new(key(alloc, row, user)?),
            started_at: 5,
            since: 6,
        })?;
    }
    Ok(links)
}

/// A book that holds these rows, and told of so many decisions as can be.
pub(crate) fn view(alloc: Global, rows: &Rows) -> Result<BookView, AllocError> {
    Ok(BookView {
        limits: limits(alloc)?,
        clients: clients(alloc, rows.clients)?,
        tickets: tickets(alloc, rows.tickets)?,
        lent: links(alloc, rows.lent)?,
        idle: links(alloc, rows.idle)?,
        clock: 7,
        is_paused: true,
        is_shut: false,
        fresh_from: 1,
        decisions: u64::MAX,
        counts: Counts {
            arrived: 0,
            arrivals_refused: 0,
            asked: 0,
            asks_refused: 0,
            granted: 0,
            tickets_lost: 0,
            given_back: 0,
            lost: 0,
            starts_failed: 0,
            left: 0,
            ticked: 0,
            limited: 0,
            paused: 0,
            resumed: 0,
            shut_down: 0,
            keyed: 0,
            cancelled: 0,
            leases_ended: 0,
            hung_up: 0,
            reconnected: 0,
        },
        starts: 12,
        reuses: 0,
        evictions: 3,
        losses: 10,
    })
}

/// The book in which ann has the one lease, on shop; and after it, where it was given back.
pub(crate) fn one_lease(alloc: Global, is_given_back: bool) -> Result<BookView, AllocError> {
    let mut lists = BookState::new(alloc, limits(alloc)?)?;
    lists.apply(Event::Arrive {
        beyond: Beyond::Nothing,
    });
    lists.apply(Event::Ask {
        client: 1,
        key: key(alloc, b"shop", b"ann")?,
    });
    lists.apply(Event::Take { client: 1 });
    if is_given_back {
        let shop_of_ann = key(alloc, b"shop", b"ann")?;
        lists.apply_return(1, &shop_of_ann, 0);
    }
    lists.view(alloc)
}
