//! The table with a row for each pool, with PgBouncer's columns.
ghost use Rattle.std.specs.Prelude.{◌≡◌, count_by, find, map, option_copied, IfOk};
ghost use Rattle.console_core.specs.Tables.{pool_keys, waits_in};
ghost use Rattle.monitor_core.specs.Tables as spec;

use crate::rows::Row;
use book_register::view::BookView;
use book_rows::pools::PoolKey;
use book_rows::tickets::Ticket;
use console_core::pools::{pool_counts, pool_keys};
use pool_figures::seen::{Activity, ClientSeen, Seen};
use std::alloc::{AllocError, Global};

/// Of those that wait in the pool, the ticket of the client that asked first.
fn first_ticket<'a>(tickets: &'a [Ticket], pool: &PoolKey) -> Option<&'a Ticket>
    ensures { option_copied result ≡ find (waits_in pool.now) tickets.now }
{
    tickets.iter().find(|ticket| ticket.key.is_in_pool_of(pool))
}

/// The seconds for which that client has waited.
fn longest_wait(view: &BookView, pool: &PoolKey) -> u64
    ensures { result ≡ spec.longest_wait view.now pool.now }
{
    match first_ticket(&view.tickets, pool) {
        Some(ticket) => view.clock.saturating_sub(ticket.since),
        None => 0,
    }
}

#[tactic(auto, unfolding(crate::specs::Tables::pool_row))]
fn pool_row(alloc: Global, view: &BookView, pool: &PoolKey) -> Result<Row, AllocError>
    ensures { IfOk result (λ r. r ≡ spec.pool_row view.now pool.now) }
{
    let key = pool.key();
    let counts = pool_counts(view, pool);
    let waits = [0, 0, 0, longest_wait(view, pool), 0];
    Row::new(alloc)
        .with(alloc, key.row.as_slice())?
        .with(alloc, key.user.as_slice())?
        .with_numbers(alloc, &counts)?
        .with_numbers(alloc, &waits)?
        .with(alloc, b"session")?
        .with_numbers(alloc, &[0, 0, 0, 0])?
        .with(alloc, b"")
}

fn pool_rows(alloc: Global, view: &BookView, pools: &[PoolKey]) -> Result<Vec<Row>, AllocError>
    ensures { IfOk result (λ v. v.items ≡ map (spec.pool_row view.now) pools.now) }
{
    let mut rows = Vec::with_capacity(alloc, pools.len())?;
    for pool in pools {
        rows.push(pool_row(alloc, view, pool)?)?;
    }
    Ok(rows)
}

fn is_at_console(client: &ClientSeen) -> bool
    ensures { result ≡ spec.is_at_console client.now }
{
    matches!(client.activity, Activity::AtConsole)
}

/// How many clients are at the console.
fn at_console(clients: &[ClientSeen]) -> u64
    ensures { result ≡ count_by spec.is_at_console clients.now }
{
    clients
        .iter()
        .filter(|client| is_at_console(client))
        .count() as u64
}

#[tactic(auto, unfolding(crate::specs::Tables::console_row))]
fn console_row(alloc: Global, count: u64) -> Result<Row, AllocError>
    ensures { IfOk result (λ r. r ≡ spec.console_row count) }
{
    Row::new(alloc)
        .with(alloc, b"pgbouncer")?
        .with(alloc, b"pgbouncer")?
        .with_numbers(alloc, &[count, 0, 0, 0, 0, 0, 0, 0, 0])?
        .with(alloc, b"statement")?
        .with_numbers(alloc, &[0, 0, 0, 0])?
        .with(alloc, b"")
}

/// A row for each pool, and one for the console.
pub(crate) fn pools(alloc: Global, view: &BookView, seen: &Seen) -> Result<Vec<Row>, AllocError>
    ensures { IfOk result (λ v. v.items ≡ spec.pools view.now seen.now) }
{
    let pools = pool_keys(alloc, view)?;
    let mut rows = pool_rows(alloc, view, &pools)?;
    rows.push(console_row(alloc, at_console(&seen.clients))?)?;
    Ok(rows)
}
