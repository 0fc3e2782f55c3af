//! The tables of monitors, but for those with a row for each pool, client or link.
ghost use Rattle.std.specs.Prelude.{◌≡◌, ◌≤◌, ◌∷◌, [], count_by, fold, length, map, IfOk};
ghost use Rattle.console_core.specs.Config as console;
ghost use Rattle.console_core.specs.Tables.{pool_keys};
ghost use Rattle.monitor_core.specs.Tables as spec;

use crate::addresses::address;
use crate::rows::Row;
use book_model::events::ClientState;
use book_model::rows::DatabaseRow;
use book_register::view::BookView;
use book_rows::clients::Client;
use book_rows::links::Link;
use book_rows::tickets::Ticket;
use console_core::cells::Cells;
use console_core::config::config as settings_rows;
use console_core::pools::pool_keys;
use ini_config::Settings;
use pool_figures::figures::{Figures, ratio};
use pool_figures::seen::{Activity, ClientSeen, DatabaseSeen, Seen};
use session_values::text::Text;
use std::alloc::{AllocError, Global};

#[tactic(auto, unfolding(crate::specs::Tables::stats_row))]
fn stats_row(alloc: Global, period: u64, database: &DatabaseSeen) -> Result<Row, AllocError>
    ensures { IfOk result (λ r. r ≡ spec.stats_row period database.now) }
{
    let later = [
        database.total.leases,
        ratio(database.recent.leases, period),
        0,
        0,
        0,
        0,
        0,
        0,
        database.total.queries,
    ];
    Row::new(alloc)
        .with(alloc, database.name.as_slice())?
        .with_numbers(alloc, &database.total.totals())?
        .with_numbers(alloc, &database.recent.averages(period))?
        .with_numbers(alloc, &later)
}

fn stats_rows(
    alloc: Global,
    period: u64,
    databases: &[DatabaseSeen],
) -> Result<Vec<Row>, AllocError>
    ensures { IfOk result (λ v. v.items ≡ map (spec.stats_row period) databases.now) }
{
    let mut rows = Vec::with_capacity(alloc, databases.len())?;
    for database in databases {
        rows.push(stats_row(alloc, period, database)?)?;
    }
    Ok(rows)
}

/// What went through each database, in all and in the last whole period.
pub(crate) fn stats(alloc: Global, seen: &Seen) -> Result<Vec<Row>, AllocError>
    ensures { IfOk result (λ v. v.items ≡ spec.stats seen.now) }
{
    stats_rows(alloc, seen.period, &seen.databases)
}

#[tactic(auto, unfolding(crate::specs::Tables::totals_row))]
fn totals_row(alloc: Global, database: &DatabaseSeen) -> Result<Row, AllocError>
    ensures { IfOk result (λ r. r ≡ spec.totals_row database.now) }
{
    Row::new(alloc)
        .with(alloc, database.name.as_slice())?
        .with_numbers(alloc, &database.total.totals())?
        .with_numbers(alloc, &[database.total.leases, 0, 0, 0])
}

fn totals_rows(alloc: Global, databases: &[DatabaseSeen]) -> Result<Vec<Row>, AllocError>
    ensures { IfOk result (λ v. v.items ≡ map spec.totals_row databases.now) }
{
    let mut rows = Vec::with_capacity(alloc, databases.len())?;
    for database in databases {
        rows.push(totals_row(alloc, database)?)?;
    }
    Ok(rows)
}

/// What went through each database in all.
pub(crate) fn totals(alloc: Global, seen: &Seen) -> Result<Vec<Row>, AllocError>
    ensures { IfOk result (λ v. v.items ≡ spec.totals seen.now) }
{
    totals_rows(alloc, &seen.databases)
}

#[tactic(auto, unfolding(crate::specs::Tables::averages_row))]
fn averages_row(alloc: Global, period: u64, database: &DatabaseSeen) -> Result<Row, AllocError>
    ensures { IfOk result (λ r. r ≡ spec.averages_row period database.now) }
{
    Row::new(alloc)
        .with(alloc, database.name.as_slice())?
        .with_numbers(alloc, &database.recent.averages(period))?
        .with_numbers(alloc, &[ratio(database.recent.leases, period), 0, 0, 0])
}

fn averages_rows(
    alloc: Global,
    period: u64,
    databases: &[DatabaseSeen],
) -> Result<Vec<Row>, AllocError>
    ensures { IfOk result (λ v. v.items ≡ map (spec.averages_row period) databases.now) }
{
    let mut rows = Vec::with_capacity(alloc, databases.len())?;
    for database in databases {
        rows.push(averages_row(alloc, period, database)?)?;
    }
    Ok(rows)
}

/// What went through each database in the last whole period.
pub(crate) fn averages(alloc: Global, seen: &Seen) -> Result<Vec<Row>, AllocError>
    ensures { IfOk result (λ v. v.items ≡ spec.averages seen.now) }
{
    averages_rows(alloc, seen.period, &seen.databases)
}

/// What went through all databases together.
fn sum_of(databases: &[DatabaseSeen]) -> Figures
    ensures { result ≡ spec.sum_of databases.now }
{
    let mut sum = Figures::none();
    for database in databases {
        sum = sum.plus(database.total);
    }
    sum
}

/// A number under a name.
fn named(alloc: Global, name: &[u8], n: u64) -> Result<Row, AllocError>
    ensures { IfOk result (λ r. r ≡ spec.named name.now n) }
{
    Row::new(alloc).with(alloc, name)?.with_number(alloc, n)
}

fn named_rows(alloc: Global, numbers: &[(&[u8], u64)]) -> Result<Vec<Row>, AllocError>
    ensures { IfOk result (λ v. v.items ≡ map (λ p. spec.named p.0.now p.1) numbers.now) }
{
    let mut rows = Vec::with_capacity(alloc, numbers.len())?;
    for (name, n) in numbers {
        rows.push(named(alloc, name, *n)?)?;
    }
    Ok(rows)
}

fn sum_rows(alloc: Global, sum: Figures) -> Result<Vec<Row>, AllocError>
    ensures { IfOk result (λ v. v.items ≡ spec.sum_rows sum) }
{
    named_rows(
        alloc,
        &[
            (b"total_server_assignment_count", sum.leases),
            (b"total_xact_count", sum.transactions),
            (b"total_query_count", sum.queries),
            (b"total_client_bytes", sum.received),
            (b"total_server_bytes", sum.sent),
            (b"total_xact_time", sum.transaction_time),
            (b"total_query_time", sum.query_time),
            (b"total_wait_time", sum.wait_time),
        ],
    )
}

/// What went through all databases together, a row for each number.
pub(crate) fn sums(alloc: Global, seen: &Seen) -> Result<Vec<Row>, AllocError>
    ensures { IfOk result (λ v. v.items ≡ spec.sums seen.now) }
{
    sum_rows(alloc, sum_of(&seen.databases))
}

fn is_logging_in(client: &Client) -> bool
    ensures { result ≡ spec.is_logging_in client.now }
{
    matches!(client.state, ClientState::LoggingIn)
}

fn logging_in(clients: &[Client]) -> u64
    ensures { result ≡ count_by spec.is_logging_in clients.now }
{
    clients
        .iter()
        .filter(|client| is_logging_in(client))
        .count() as u64
}

/// How many there are of what.
pub(crate) fn lists(
    alloc: Global,
    view: &BookView,
    listed: &[DatabaseRow],
    seen: &Seen,
) -> Result<Vec<Row>, AllocError>
    ensures { IfOk result (λ v. v.items ≡ spec.lists view.now listed.now seen.now) }
{
    let databases = listed.len() as u64;
    let pools = pool_keys(alloc, view)?.len() as u64;
    let links = (view.lent.len() as u64).saturating_add(view.idle.len() as u64);
    named_rows(
        alloc,
        &[
            (b"databases", databases),
            (b"users", seen.user_count()),
            (b"peers", 0),
            (b"pools", pools),
            (b"peer_pools", 0),
            (b"free_clients", 0),
            (b"used_clients", view.clients.len() as u64),
            (b"login_clients", logging_in(&view.clients)),
            (b"free_servers", 0),
            (b"used_servers", links),
            (b"dns_names", 0),
            (b"dns_zones", 0),
            (b"dns_queries", 0),
            (b"dns_pending", 0),
        ],
    )
}

fn links_to(name: &Text, links: &[Link]) -> u64
    ensures { result ≡ count_by (spec.is_to name.now) links.now }
{
    links
        .iter()
        .filter(|link| link.key.key().row.is(name.as_slice()))
        .count() as u64
}

fn tickets_for(name: &Text, tickets: &[Ticket]) -> u64
    ensures { result ≡ count_by (spec.is_for name.now) tickets.now }
{
    tickets
        .iter()
        .filter(|ticket| ticket.key.key().row.is(name.as_slice()))
        .count() as u64
}

fn switch(on: bool) -> u64
    ensures { result ≡ spec.switch on }
{
    if on { 1 } else { 0 }
}

fn database_front(alloc: Global, row: &DatabaseRow) -> Result<Row, AllocError>
    ensures row { IfOk result (λ r. r ≡ spec.database_front row.now) }
    ensures width { IfOk result (λ r. length r ≡ 9) }
{
    Row::new(alloc)
        .with(alloc, row.name.as_slice())?
        .with(alloc, row.host.as_bytes())?
        .with_number(alloc, row.port as u64)?
        .with(alloc, row.dbname.as_slice())?
        .with(alloc, b"")?
        .with_numbers(alloc, &[row.size as u64, 0, 0])?
        .with(alloc, b"session")
}

/// All links to a database.
fn all_links_to(view: &BookView, name: &Text) -> u64
    ensures { result ≡ spec.links_to name.now view.now }
{
    links_to(name, &view.lent).saturating_add(links_to(name, &view.idle))
}

/// The clients that have a link to it, or wait for one.
fn clients_of(view: &BookView, name: &Text) -> u64
    ensures { result ≡ spec.clients_of name.now view.now }
{
    links_to(name, &view.lent).saturating_add(tickets_for(name, &view.tickets))
}

/// What stands behind that, by its numbers.
#[tactic(auto, unfolding(crate::specs::Tables::back_of))]
fn back_of(
    alloc: Global,
    links: u64,
    clients: u64,
    paused: u64,
    shut: u64,
) -> Result<Row, AllocError>
    ensures row { IfOk result (λ r. r ≡ spec.back_of links clients paused shut) }
    ensures width { IfOk result (λ r. length r ≡ 9) }
{
    Row::new(alloc)
        .with_numbers(alloc, &[0, links, paused, shut, 0, 0])?
        .with(alloc, b"")?
        .with_numbers(alloc, &[0, clients])
}

fn database_back(alloc: Global, view: &BookView, row: &DatabaseRow) -> Result<Row, AllocError>
    ensures row { IfOk result (λ r. r ≡ spec.database_back view.now row.now) }
    ensures width { IfOk result (λ r. length r ≡ 9) }
{
    let links = all_links_to(view, &row.name);
    let clients = clients_of(view, &row.name);
    let paused = switch(view.is_paused);
    let shut = switch(view.is_shut);
    back_of(alloc, links, clients, paused, shut)
}

#[tactic(auto, unfolding(crate::specs::Tables::database_row))]
fn database_row(alloc: Global, view: &BookView, row: &DatabaseRow) -> Result<Row, AllocError>
    ensures { IfOk result (λ r. r ≡ spec.database_row view.now row.now) }
{
    let front = database_front(alloc, row)?;
    let back = database_back(alloc, view, row)?;
    front.with_cells(alloc, back.as_slice())
}

/// A row for each database.
pub(crate) fn databases(
    alloc: Global,
    view: &BookView,
    listed: &[DatabaseRow],
) -> Result<Vec<Row>, AllocError>
    ensures { IfOk result (λ v. v.items ≡ spec.databases view.now listed.now) }
{
    let mut rows = Vec::with_capacity(alloc, listed.len())?;
    for row in listed {
        rows.push(database_row(alloc, view, row)?)?;
    }
    Ok(rows)
}

fn activity_name(activity: Activity) -> &'static [u8]
    ensures { result.now ≡ spec.activity_name activity }
{
    match activity {
        Activity::LoggingIn => b"login",
        Activity::Waiting => b"waiting",
        Activity::Idle => b"idle",
        Activity::InTransaction => b"idle in transaction",
        Activity::InFailed => b"idle in transaction (aborted)",
        Activity::Running => b"active",
        Activity::AtConsole => b"console",
    }
}

fn activity_front(alloc: Global, client: &ClientSeen) -> Result<Row, AllocError>
    ensures row { IfOk result (λ r. r ≡ spec.activity_front client.now) }
    ensures width { IfOk result (λ r. length r ≡ 6) }
{
    Row::new(alloc)
        .with_number(alloc, client.number)?
        .with(alloc, client.user.as_slice())?
        .with(alloc, client.database.as_slice())?
        .with(alloc, &address(alloc, client.host.as_slice(), client.port)?)?
        .with_number(alloc, client.age)?
        .with(alloc, activity_name(client.activity))
}

fn activity_numbers(client: &ClientSeen) -> [u64; 7]
    ensures { result ≡ spec.activity_numbers client.now }
{
    [
        client.since,
        client.link,
        client.process as u64,
        client.figures.transactions,
        client.figures.queries,
        client.figures.received,
        client.figures.sent,
    ]
}

#[tactic(auto, unfolding(crate::specs::Tables::activity_row))]
fn activity_row(alloc: Global, client: &ClientSeen) -> Result<Row, AllocError>
    ensures { IfOk result (λ r. r ≡ spec.activity_row client.now) }
{
    let row = activity_front(alloc, client)?;
    row.with_numbers(alloc, &activity_numbers(client))
}

fn activity_rows(alloc: Global, clients: &[ClientSeen]) -> Result<Vec<Row>, AllocError>
    ensures { IfOk result (λ v. v.items ≡ map spec.activity_row clients.now) }
{
    let mut rows = Vec::with_capacity(alloc, clients.len())?;
    for client in clients {
        rows.push(activity_row(alloc, client)?)?;
    }
    Ok(rows)
}

/// What each client is at.
pub(crate) fn activity(alloc: Global, seen: &Seen) -> Result<Vec<Row>, AllocError>
    ensures { IfOk result (λ v. v.items ≡ spec.activity seen.now) }
{
    activity_rows(alloc, &seen.clients)
}

fn answer_of(yes: bool) -> &'static [u8]
    ensures { result.now ≡ spec.answer_of yes }
{
    if yes { b"yes" } else { b"no" }
}

fn pair(alloc: Global, key: &[u8], value: &[u8]) -> Result<Row, AllocError>
    ensures { IfOk result (λ r. r ≡ spec.pair key.now value.now) }
{
    Row::new(alloc).with(alloc, key)?.with(alloc, value)
}

fn pairs(alloc: Global, texts: &[(&[u8], &[u8])]) -> Result<Vec<Row>, AllocError>
    ensures { IfOk result (λ v. v.items ≡ map (λ p. spec.pair p.0.now p.1.now) texts.now) }
{
    let mut rows = Vec::with_capacity(alloc, texts.len())?;
    for (key, value) in texts {
        rows.push(pair(alloc, key, value)?)?;
    }
    Ok(rows)
}

/// Whether links are lent.
pub(crate) fn state(alloc: Global, view: &BookView) -> Result<Vec<Row>, AllocError>
    ensures { IfOk result (λ v. v.items ≡ spec.state view.now) }
{
    let is_active = !view.is_paused && !view.is_shut;
    pairs(
        alloc,
        &[
            (b"active", answer_of(is_active)),
            (b"paused", answer_of(view.is_paused)),
            (b"suspended", b"no"),
            (b"shutting_down", answer_of(view.is_shut)),
        ],
    )
}

fn config_row(alloc: Global, cells: &Cells) -> Result<Row, AllocError>
    ensures { IfOk result (λ r. r ≡ spec.config_row cells.now) }
{
    Row::new(alloc)
        .with_cells(alloc, cells.as_slice())?
        .with(alloc, b"")?
        .with(alloc, b"no")
}

fn config_rows(alloc: Global, settings: &[Cells]) -> Result<Vec<Row>, AllocError>
    ensures { IfOk result (λ v. v.items ≡ map spec.config_row settings.now) }
{
    let mut rows = Vec::with_capacity(alloc, settings.len())?;
    for cells in settings {
        rows.push(config_row(alloc, cells)?)?;
    }
    Ok(rows)
}

/// A row for each setting.
pub(crate) fn config(alloc: Global, settings: &Settings) -> Result<Vec<Row>, AllocError>
    ensures { IfOk result (λ v. v.items ≡ spec.config settings.now) }
{
    let settings = settings_rows(alloc, settings)?;
    config_rows(alloc, &settings)
}

/// The pooler and its version, and whose console this is.
const VERSION: &[u8] = b"pgsess 1 (PgBouncer 1.24.0 console)";

pub(crate) fn version(alloc: Global) -> Result<Vec<Row>, AllocError>
    ensures { IfOk result (λ v. v.items ≡ spec.version) }
{
    let mut rows = Vec::new(alloc);
    rows.push(Row::new(alloc).with(alloc, VERSION)?)?;
    Ok(rows)
}
