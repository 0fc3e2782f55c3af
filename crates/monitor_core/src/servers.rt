//! The tables with a row for each client and each link, with PgBouncer's columns.
ghost use Rattle.std.specs.Prelude.{◌≡◌, ◌≤◌, ◌++◌, decimal, find, length, map, option_copied, IfOk, OnOk};
ghost use Rattle.console_core.specs.Tables as console;
ghost use Rattle.monitor_core.specs.Servers as spec;

use crate::rows::Row;
use crate::times::moment;
use book_model::events::ClientState;
use book_register::view::BookView;
use book_rows::clients::Client;
use book_rows::links::Link;
use ini_config::Host;
use itoa::Buffer;
use pool_figures::seen::{ClientSeen, Seen};
use std::alloc::{AllocError, Global};

fn digits_of(alloc: Global, n: u64) -> Result<Vec<u8>, AllocError>
    ensures { IfOk result (λ v. v.items ≡ decimal n) }
{
    let mut digits = Buffer::new();
    Vec::from_slice(alloc, digits.format(n).as_bytes())
}

fn host_text(alloc: Global, host: &Option<Host>) -> Result<Vec<u8>, AllocError>
    ensures { IfOk result (λ v. v.items ≡ spec.host_text host.now) }
{
    match host {
        Some(host) => Vec::from_slice(alloc, host.as_bytes()),
        None => Ok(Vec::new(alloc)),
    }
}

/// The client that has a link, where it is seen.
fn holder_of(seen: &Seen, link: u64) -> Option<&ClientSeen>
    ensures { option_copied result ≡ spec.holder_of link seen.now }
{
    seen.clients.iter().find(|client| client.link == link)
}

fn holder_text(alloc: Global, holder: Option<&ClientSeen>) -> Result<Vec<u8>, AllocError>
    ensures { IfOk result (λ v. v.items ≡ spec.holder_text (option_copied holder.entry)) }
{
    match holder {
        Some(client) => digits_of(alloc, client.number),
        None => Ok(Vec::new(alloc)),
    }
}

fn process_of(holder: Option<&ClientSeen>) -> u64
    ensures { result ≡ spec.process_of (option_copied holder.entry) }
{
    match holder {
        Some(client) => client.process as u64,
        None => 0,
    }
}

/// The moment of a second of the book's clock.
fn moment_of(
    alloc: Global,
    view: &BookView,
    seen: &Seen,
    second: u64,
) -> Result<Vec<u8>, AllocError>
    ensures { IfOk result (λ v. v.items ≡ spec.moment_of view.now seen.now second) }
{
    let age = view.clock.saturating_sub(second);
    moment(alloc, seen.second.saturating_sub(age))
}

#[tactic(auto, unfolding(crate::specs::Servers::server_row))]
fn server_row(
    alloc: Global,
    view: &BookView,
    seen: &Seen,
    state: &[u8],
    link: &Link,
) -> Result<Row, AllocError>
    ensures { IfOk result (λ r. r ≡ spec.server_row view.now seen.now state.now link.now) }
{
    let key = link.key.key();
    let holder = holder_of(seen, link.number);
    Row::new(alloc)
        .with(alloc, b"S")?
        .with(alloc, key.user.as_slice())?
        .with(alloc, key.row.as_slice())?
        .with(alloc, state)?
        .with(alloc, &host_text(alloc, &key.host)?)?
        .with_number(alloc, key.port as u64)?
        .with(alloc, b"")?
        .with_number(alloc, 0)?
        .with(alloc, &moment_of(alloc, view, seen, link.started_at)?)?
        .with(alloc, &moment_of(alloc, view, seen, link.since)?)?
        .with_numbers(alloc, &[0, 0, 0, link.number])?
        .with(alloc, &holder_text(alloc, holder)?)?
        .with_number(alloc, process_of(holder))?
        .with(alloc, b"")?
        .with(alloc, b"")?
        .with(alloc, b"none")?
        .with_numbers(alloc, &[0, link.number])
}

fn put_servers(
    alloc: Global,
    rows: &mut Vec<Row>,
    view: &BookView,
    seen: &Seen,
    state: &[u8],
    links: &[Link],
) -> Result<(), AllocError>
    ensures { OnOk result (rows.new.items ≡ rows.old.items ++ map (spec.server_row view.now seen.now state.now) links.now) }
{
    for link in links {
        rows.push(server_row(alloc, view, seen, state, link)?)?;
    }
    Ok(())
}

/// A row for each link.
pub(crate) fn servers(alloc: Global, view: &BookView, seen: &Seen) -> Result<Vec<Row>, AllocError>
    ensures { IfOk result (λ v. v.items ≡ spec.servers view.now seen.now) }
{
    let mut rows = Vec::new(alloc);
    put_servers(alloc, &mut rows, view, seen, b"active", &view.lent)?;
    put_servers(alloc, &mut rows, view, seen, b"idle", &view.idle)?;
    Ok(rows)
}

fn client_state(state: ClientState) -> &'static [u8]
    ensures { result.now ≡ console.client_state state }
{
    match state {
        ClientState::LoggingIn => b"login",
        ClientState::Waiting => b"waiting",
        ClientState::Active => b"active",
    }
}

/// What is seen of a client.
fn seen_of(seen: &Seen, number: u64) -> Option<&ClientSeen>
    ensures { option_copied result ≡ spec.seen_of number seen.now }
{
    seen.clients.iter().find(|client| client.number == number)
}

/// The moment so many milliseconds ago.
fn moment_before(alloc: Global, seen: &Seen, ms: u64) -> Result<Vec<u8>, AllocError>
    ensures { IfOk result (λ v. v.items ≡ spec.moment_before seen.now ms) }
{
    moment(alloc, seen.second.saturating_sub(ms / 1_000))
}

/// How long a client has waited, where it does.
fn waited(state: ClientState, ms: u64) -> u64
    ensures result { result ≡ spec.waited state ms }
    ensures bound { result ≤ ms }
{
    match state {
        ClientState::Waiting => ms,
        ClientState::LoggingIn | ClientState::Active => 0,
    }
}

fn link_text(alloc: Global, link: u64) -> Result<Vec<u8>, AllocError>
    ensures { IfOk result (λ v. v.items ≡ spec.link_text link) }
{
    if link == 0 {
        return Ok(Vec::new(alloc));
    }
    digits_of(alloc, link)
}

fn unseen_row(alloc: Global, client: &Client) -> Result<Row, AllocError>
    ensures { IfOk result (λ r. r ≡ spec.unseen_row client.now) }
{
    Row::new(alloc)
        .with(alloc, b"C")?
        .with(alloc, b"")?
        .with(alloc, b"")?
        .with(alloc, client_state(client.state))?
        .with(alloc, b"")?
        .with_number(alloc, 0)?
        .with(alloc, b"")?
        .with_number(alloc, 0)?
        .with(alloc, b"")?
        .with(alloc, b"")?
        .with_numbers(alloc, &[0, 0, 0, client.number])?
        .with(alloc, b"")?
        .with_number(alloc, 0)?
        .with(alloc, b"")?
        .with(alloc, b"")?
        .with(alloc, b"none")?
        .with_numbers(alloc, &[0, client.number])
}

fn seen_front(
    alloc: Global,
    seen: &Seen,
    client: &Client,
    shown: &ClientSeen,
) -> Result<Row, AllocError>
    ensures row { IfOk result (λ r. r ≡ spec.seen_front seen.now client.now shown.now) }
    ensures width { IfOk result (λ r. length r ≡ 10) }
{
    Row::new(alloc)
        .with(alloc, b"C")?
        .with(alloc, shown.user.as_slice())?
        .with(alloc, shown.database.as_slice())?
        .with(alloc, client_state(client.state))?
        .with(alloc, shown.host.as_slice())?
        .with_number(alloc, shown.port as u64)?
        .with(alloc, b"")?
        .with_number(alloc, 0)?
        .with(alloc, &moment_before(alloc, seen, shown.age)?)?
        .with(alloc, &moment_before(alloc, seen, shown.since)?)
}

/// What stands behind that.
fn seen_back(alloc: Global, client: &Client, shown: &ClientSeen) -> Result<Row, AllocError>
    ensures row { IfOk result (λ r. r ≡ spec.seen_back client.now shown.now) }
    ensures width { IfOk result (λ r. length r ≡ 11) }
{
    let ms = waited(client.state, shown.since);
    Row::new(alloc)
        .with_number(alloc, ms / 1_000)?
        .with_number(alloc, ms % 1_000 * 1_000)?
        .with_number(alloc, 0)?
        .with_number(alloc, client.number)?
        .with(alloc, &link_text(alloc, shown.link)?)?
        .with_number(alloc, 0)?
        .with(alloc, b"")?
        .with(alloc, b"")?
        .with(alloc, b"none")?
        .with_number(alloc, 0)?
        .with_number(alloc, client.number)
}

fn seen_row(
    alloc: Global,
    seen: &Seen,
    client: &Client,
    shown: &ClientSeen,
) -> Result<Row, AllocError>
    ensures { IfOk result (λ r. r ≡ spec.seen_row seen.now client.now shown.now) }
{
    let front = seen_front(alloc, seen, client, shown)?;
    let back = seen_back(alloc, client, shown)?;
    front.with_cells(alloc, back.as_slice())
}

#[tactic(auto, unfolding(crate::specs::Servers::row_of))]
fn row_of(alloc: Global, seen: &Seen, client: &Client) -> Result<Row, AllocError>
    ensures { IfOk result (λ r. r ≡ spec.row_of seen.now client.now) }
{
    match seen_of(seen, client.number) {
        Some(shown) => seen_row(alloc, seen, client, shown),
        None => unseen_row(alloc, client),
    }
}

fn client_rows(alloc: Global, seen: &Seen, clients: &[Client]) -> Result<Vec<Row>, AllocError>
    ensures { IfOk result (λ v. v.items ≡ map (spec.row_of seen.now) clients.now) }
{
    let mut rows = Vec::with_capacity(alloc, clients.len())?;
    for client in clients {
        rows.push(row_of(alloc, seen, client)?)?;
    }
    Ok(rows)
}

/// A row for each client.
pub(crate) fn clients(alloc: Global, view: &BookView, seen: &Seen) -> Result<Vec<Row>, AllocError>
    ensures { IfOk result (λ v. v.items ≡ spec.clients view.now seen.now) }
{
    client_rows(alloc, seen, &view.clients)
}
