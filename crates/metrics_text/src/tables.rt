//! The tables of a pool, without their columns.
ghost use Rattle.std.specs.Prelude.{◌≡◌, [], count_by, find, map, option_copied, IfOk};
ghost use Rattle.console_core.specs.Tables.{waits_in};
ghost use Rattle.monitor_core.specs.Tables as monitor;
ghost use Rattle.metrics_text.specs.Metrics as spec;

use crate::rows::Row;
use book_model::events::ClientState;
use book_model::rows::DatabaseRow;
use book_register::view::BookView;
use book_rows::clients::Client;
use book_rows::links::Link;
use book_rows::pools::PoolKey;
use book_rows::tickets::Ticket;
use console_core::pools::pool_counts;
use ini_config::Settings;
use itoa::Buffer;
use pool_figures::seen::{DatabaseSeen, Seen};
use session_values::text::Text;
use std::alloc::{AllocError, Global};

/// What answers.
const VERSION: &[u8] = b"pgsess 1";

#[tactic(auto, unfolding(crate::specs::Metrics::version_row))]
pub(crate) fn version_row(alloc: Global) -> Result<Row, AllocError>
    ensures { IfOk result (λ r. r ≡ spec.version_row) }
{
    Row::labelled(alloc, &[("version", VERSION)])?.with(&[1])
}

fn switch(on: bool) -> u64
    ensures { result ≡ monitor.switch on }
{
    if on { 1 } else { 0 }
}

fn is_logging_in(client: &Client) -> bool
    ensures { result ≡ monitor.is_logging_in client.now }
{
    matches!(client.state, ClientState::LoggingIn)
}

fn logging_in(clients: &[Client]) -> u64
    ensures { result ≡ count_by monitor.is_logging_in clients.now }
{
    clients
        .iter()
        .filter(|client| is_logging_in(client))
        .count() as u64
}

/// The row of the pooler as a whole, where there are so many pools.
#[tactic(auto, unfolding(crate::specs::Metrics::pooler_row))]
pub(crate) fn pooler_row(
    alloc: Global,
    view: &BookView,
    seen: &Seen,
    settings: &Settings,
    pools: usize,
) -> Result<Row, AllocError>
    ensures { IfOk result (λ r. r ≡ spec.pooler_row view.now seen.now settings.now pools) }
{
    let databases = view.limits.rows.as_slice().len() as u64;
    let clients = view.clients.len() as u64;
    let links = (view.lent.len() as u64).saturating_add(view.idle.len() as u64);
    let in_login = logging_in(&view.clients);
    let most = settings.max_client_conn as u64;
    Row::bare(alloc)
        .with(&[
            1,
            databases,
            seen.user_count(),
            pools as u64,
            0,
            clients,
            in_login,
            0,
            links,
        ])?
        .with(&[most, clients, switch(view.is_paused), switch(view.is_shut)])?
        .with(&[
            view.decisions,
            view.starts,
            view.reuses,
            view.evictions,
            view.losses,
        ])
}

fn links_to(name: &Text, links: &[Link]) -> u64
    ensures { result ≡ count_by (monitor.is_to name.now) links.now }
{
    links
        .iter()
        .filter(|link| link.key.key().row.is(name.as_slice()))
        .count() as u64
}

/// All links to a database.
fn all_links_to(view: &BookView, name: &Text) -> u64
    ensures { result ≡ monitor.links_to name.now view.now }
{
    links_to(name, &view.lent).saturating_add(links_to(name, &view.idle))
}

/// A row with a database's labels, where this is its port.
fn labelled_at<'a>(alloc: Global, row: &'a DatabaseRow, port: &'a [u8]) -> Result<Row, AllocError>
    ensures { IfOk result (λ r. r ≡ spec.row (spec.labels_at row.now port.now) []) }
{
    Row::labelled(
        alloc,
        &[
            ("name", row.name.as_slice()),
            ("host", row.host.as_bytes()),
            ("port", port),
            ("database", row.dbname.as_slice()),
            ("force_user", b""),
            ("pool_mode", b"session"),
        ],
    )
}

/// A row with a database's labels.
fn labelled_database(alloc: Global, row: &DatabaseRow) -> Result<Row, AllocError>
    ensures { IfOk result (λ r. r ≡ spec.row (spec.database_labels row.now) []) }
{
    let mut digits = Buffer::new();
    labelled_at(alloc, row, digits.format(row.port).as_bytes())
}

#[tactic(auto, unfolding(crate::specs::Metrics::database_row))]
fn database_row(alloc: Global, view: &BookView, row: &DatabaseRow) -> Result<Row, AllocError>
    ensures { IfOk result (λ r. r ≡ spec.database_row view.now row.now) }
{
    let links = all_links_to(view, &row.name);
    let paused = switch(view.is_paused);
    let shut = switch(view.is_shut);
    labelled_database(alloc, row)?.with(&[row.size as u64, 0, links, 0, paused, shut])
}

/// A row for each database.
pub(crate) fn database_rows(
    alloc: Global,
    view: &BookView,
    listed: &[DatabaseRow],
) -> Result<Vec<Row>, AllocError>
    ensures { IfOk result (λ v. v.items ≡ map (spec.database_row view.now) listed.now) }
{
    let mut rows = Vec::with_capacity(alloc, listed.len())?;
    for row in listed {
        rows.push(database_row(alloc, view, row)?)?;
    }
    Ok(rows)
}

/// Of those that wait in the pool, the ticket of the client that asked first.
fn first_ticket<'a>(tickets: &'a [Ticket], pool: &PoolKey) -> Option<&'a Ticket>
    ensures { option_copied result ≡ find (waits_in pool.now) tickets.now }
{
    tickets.iter().find(|ticket| ticket.key.is_in_pool_of(pool))
}

/// The seconds for which that client has waited.
fn longest_wait(view: &BookView, pool: &PoolKey) -> u64
    ensures { result ≡ monitor.longest_wait view.now pool.now }
{
    match first_ticket(&view.tickets, pool) {
        Some(ticket) => view.clock.saturating_sub(ticket.since),
        None => 0,
    }
}

#[tactic(auto, unfolding(crate::specs::Metrics::pool_row))]
fn pool_row(alloc: Global, view: &BookView, pool: &PoolKey) -> Result<Row, AllocError>
    ensures { IfOk result (λ r. r ≡ spec.pool_row view.now pool.now) }
{
    let key = pool.key();
    let counts = pool_counts(view, pool);
    let wait = longest_wait(view, pool);
    let labels = [
        ("database", key.row.as_slice()),
        ("user", key.user.as_slice()),
    ];
    Row::labelled(alloc, &labels)?
        .with(&counts)?
        .with(&[0, 0, 0, wait, 0, 0, 0, 0])
}

/// A row for each pool.
pub(crate) fn pool_rows(
    alloc: Global,
    view: &BookView,
    pools: &[PoolKey],
) -> Result<Vec<Row>, AllocError>
    ensures { IfOk result (λ v. v.items ≡ map (spec.pool_row view.now) pools.now) }
{
    let mut rows = Vec::with_capacity(alloc, pools.len())?;
    for pool in pools {
        rows.push(pool_row(alloc, view, pool)?)?;
    }
    Ok(rows)
}

#[tactic(auto, unfolding(crate::specs::Metrics::stats_row))]
fn stats_row(alloc: Global, database: &DatabaseSeen) -> Result<Row, AllocError>
    ensures { IfOk result (λ r. r ≡ spec.stats_row database.now) }
{
    let labels = [("database", database.name.as_slice())];
    Row::labelled(alloc, &labels)?
        .with(&database.total.totals())?
        .with(&[database.total.leases, database.total.queries])
}

/// A row for each database through which something went.
pub(crate) fn stats_rows(alloc: Global, databases: &[DatabaseSeen]) -> Result<Vec<Row>, AllocError>
    ensures { IfOk result (λ v. v.items ≡ map spec.stats_row databases.now) }
{
    let mut rows = Vec::with_capacity(alloc, databases.len())?;
    for database in databases {
        rows.push(stats_row(alloc, database)?)?;
    }
    Ok(rows)
}
