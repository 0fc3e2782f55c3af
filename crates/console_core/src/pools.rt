//! The table with a row for each pool, by database and user.
ghost use Rattle.std.specs.Prelude.{◌≡◌, ◌≤◌, fold, insert, length, map, IfOk, OnOk};
ghost use Rattle.std.specs.List.{list_any};
ghost use Rattle.session_values.specs.Lawful as lawful;
ghost use Rattle.book_model.specs.Book.{same_pool};
ghost use Rattle.console_core.specs.Tables as spec;

use crate::cells::Cells;
use book_register::view::BookView;
use book_rows::links::Link;
use book_rows::pools::PoolKey;
use book_rows::tickets::Ticket;
use std::alloc::{AllocError, Global};
use std::cmp::Ordering;

fn is_before(left: &[u8], right: &[u8]) -> bool
    ensures { result ≡ lawful.is_before left.now right.now }
{
    left.cmp(right) == Ordering::Less
}

/// Whether the pool of a key comes before that of another.
fn is_pool_before(left: &PoolKey, right: &PoolKey) -> bool
    ensures { result ≡ spec.is_pool_before left.now right.now }
{
    let left = left.key();
    let right = right.key();
    is_before(left.row.as_slice(), right.row.as_slice())
        || (left.row.is(right.row.as_slice())
            && is_before(left.user.as_slice(), right.user.as_slice()))
}

/// How many pools in front come before that of the key.
fn place_of(pools: &[PoolKey], key: &PoolKey) -> usize
    ensures place { result ≡ spec.place_of key.now pools.now }
    ensures bound { result ≤ length pools.now }
{
    pools
        .iter()
        .take_while(|pool| is_pool_before(pool, key))
        .count()
}

/// Whether the pool of the key is there.
fn has_pool(pools: &[PoolKey], key: &PoolKey) -> bool
    ensures { result ≡ list_any (λ p. same_pool p key.now) pools.now }
{
    pools.iter().any(|pool| pool.is_in_pool_of(key))
}

/// The pool of the key, at its place.
fn put_new_pool(pools: &mut Vec<PoolKey>, key: &PoolKey) -> Result<(), AllocError>
    ensures { OnOk result (pools.new.items ≡ insert pools.old.items (spec.place_of key.now pools.old.items) key.now) }
{
    let place = place_of(pools.as_slice(), key);
    pools.insert(place, key.clone()?)?;
    Ok(())
}

/// The pool of the key, at its place where it isn't there yet.
fn put_pool(pools: &mut Vec<PoolKey>, key: &PoolKey) -> Result<(), AllocError>
    ensures { OnOk result (pools.new.items ≡ spec.with_pool pools.old.items key.now) }
{
    if has_pool(pools.as_slice(), key) {
        return Ok(());
    }
    put_new_pool(pools, key)
}

fn put_pools_of_tickets(pools: &mut Vec<PoolKey>, tickets: &[Ticket]) -> Result<(), AllocError>
    ensures { OnOk result (pools.new.items ≡ fold spec.with_pool pools.old.items (spec.ticket_keys tickets.now)) }
{
    for ticket in tickets {
        put_pool(pools, &ticket.key)?;
    }
    Ok(())
}

fn put_pools_of_links(pools: &mut Vec<PoolKey>, links: &[Link]) -> Result<(), AllocError>
    ensures { OnOk result (pools.new.items ≡ fold spec.with_pool pools.old.items (spec.link_keys links.now)) }
{
    for link in links {
        put_pool(pools, &link.key)?;
    }
    Ok(())
}

/// A key of each pool that has a client's ticket or a link, by database and user. The only error is that memory was refused.
pub fn pool_keys(alloc: Global, view: &BookView) -> Result<Vec<PoolKey>, AllocError>
    ensures { IfOk result (λ v. v.items ≡ spec.pool_keys view.now) }
{
    let mut pools = Vec::new(alloc);
    put_pools_of_tickets(&mut pools, &view.tickets)?;
    put_pools_of_links(&mut pools, &view.lent)?;
    put_pools_of_links(&mut pools, &view.idle)?;
    Ok(pools)
}

/// How many tickets are of this pool.
fn tickets_in(pool: &PoolKey, tickets: &[Ticket]) -> u64
    ensures { result ≡ spec.tickets_in pool.now tickets.now }
{
    tickets
        .iter()
        .filter(|ticket| ticket.key.is_in_pool_of(pool))
        .count() as u64
}

/// How many links are of this pool.
fn links_in(pool: &PoolKey, links: &[Link]) -> u64
    ensures { result ≡ spec.links_in pool.now links.now }
{
    links
        .iter()
        .filter(|link| link.key.is_in_pool_of(pool))
        .count() as u64
}

/// The clients of a pool that have a link and those that wait for one, and its links that are lent and idle.
pub fn pool_counts(view: &BookView, pool: &PoolKey) -> [u64; 4]
    ensures { result ≡ spec.pool_counts view.now pool.now }
{
    let lent = links_in(pool, &view.lent);
    let waiting = tickets_in(pool, &view.tickets);
    let idle = links_in(pool, &view.idle);
    [lent, waiting, lent, idle]
}

#[tactic(auto, unfolding(crate::specs::Tables::pool_row))]
fn pool_row(alloc: Global, view: &BookView, pool: &PoolKey) -> Result<Cells, AllocError>
    ensures { IfOk result (λ c. c ≡ spec.pool_row view.now pool.now) }
{
    let key = pool.key();
    let counts = pool_counts(view, pool);
    Cells::new(alloc)?
        .with(alloc, key.row.as_slice())?
        .with(alloc, key.user.as_slice())?
        .with_numbers(alloc, &counts)
}

fn pool_rows(alloc: Global, view: &BookView, pools: &[PoolKey]) -> Result<Vec<Cells>, AllocError>
    ensures { IfOk result (λ v. v.items ≡ map (spec.pool_row view.now) pools.now) }
{
    let mut rows = Vec::with_capacity(alloc, pools.len())?;
    for pool in pools {
        rows.push(pool_row(alloc, view, pool)?)?;
    }
    Ok(rows)
}

/// A row for each pool.
pub(crate) fn pools(alloc: Global, view: &BookView) -> Result<Vec<Cells>, AllocError>
    ensures { IfOk result (λ v. v.items ≡ spec.pools view.now) }
{
    let pools = pool_keys(alloc, view)?;
    pool_rows(alloc, view, &pools)
}
