//! The rows that a desk shows of its book.
use book_model::events::ClientState;
use book_register::view::BookView;
use book_rows::clients::Client;
use book_rows::links::Link;
use book_rows::tickets::Ticket;

/// What a view is to show.
#[derive(Clone, Copy, Drop)]
pub(crate) struct Rows {
    /// Numbers and states.
    pub clients: &'static [(u64, ClientState)],
    /// Clients, and the seconds in which they asked.
    pub tickets: &'static [(u64, u64)],
    /// Numbers, seconds of birth, and the seconds since when they are where they are.
    pub lent: &'static [(u64, u64, u64)],
    pub idle: &'static [(u64, u64, u64)],
    /// The clock, and how many links were started, lent again and evicted, were lost and could not be started.
    pub sums: [u64; 6],
    pub is_paused: bool,
    pub is_shut: bool,
}

fn are_clients(rows: &[Client], wanted: &[(u64, ClientState)]) -> bool {
    for (row, wanted) in rows.iter().zip(wanted.iter()) {
        if (row.number, row.state) != *wanted {
            return false;
        }
    }
    rows.len() == wanted.len()
}

fn are_tickets(rows: &[Ticket], wanted: &[(u64, u64)]) -> bool {
    for (row, wanted) in rows.iter().zip(wanted.iter()) {
        if (row.client, row.since) != *wanted {
            return false;
        }
    }
    rows.len() == wanted.len()
}

fn are_links(rows: &[Link], wanted: &[(u64, u64, u64)]) -> bool {
    for (row, wanted) in rows.iter().zip(wanted.iter()) {
        if (row.number, row.started_at, row.since) != *wanted {
            return false;
        }
    }
    rows.len() == wanted.len()
}

/// Whether the view's counts and flags are these.
fn are_sums(view: &BookView, rows: &Rows) -> bool {
    let sums = [
        view.clock,
        view.starts,
        view.reuses,
        view.evictions,
        view.counts.lost,
        view.counts.starts_failed,
    ];
    sums == rows.sums && (view.is_paused, view.is_shut) == (rows.is_paused, rows.is_shut)
}

/// Whether the view shows these rows.
pub(crate) fn shows(view: &BookView, rows: &Rows) -> bool {
    are_clients(&view.clients, rows.clients)
        && are_tickets(&view.tickets, rows.tickets)
        && are_links(&view.lent, rows.lent)
        && are_links(&view.idle, rows.idle)
        && are_sums(view, rows)
}
