//! The tickets of the clients that wait.
ghost use Rattle.std.specs.Prelude.{◌≡◌, ◌<◌, ◌≤◌, ◌++◌, ◌∷◌, ◌&&◌, [], ℕ, Some, IfOk, count_by, find, length, not, option_copied, position, true};
ghost use Rattle.std.specs.List.{list_any};
ghost use Rattle.book_model.specs.Book as book;
ghost use Rattle.book_model.specs.Book.{Ticket as TicketRow};
ghost use Rattle.book_model.specs.declared.limits.TheConstants.{MAX_PRESENT};
ghost use Rattle.numbered_rows.specs.Numbered.{rows_in};
ghost use Rattle.book_rows.specs.Numbered.{client_in};
ghost use Rattle.numbered_rows.specs.Places.{passes};
ghost use Rattle.book_rows.specs.Waiting.{TellsFirsts, TellsWaiting, longest_waiting, longest_waiting_but};

use crate::firsts::Firsts;
use crate::pool_index::{PoolIndex, list, unlist};
use crate::pools::PoolKey;
use numbered_rows::numbered::{Numbered, NumberedRows};
use std::alloc::{AllocError, Global};
use std::collections::VecDeque;
use std::marker::Model;

/// A client waits for a link of this key, since this second.
#[derive(Clone, Drop)]
pub struct Ticket {
    pub client: u64,
    pub key: PoolKey,
    pub since: u64,
}

impl Model for Ticket {
    ghost use Rattle.book_model.specs.Book.{Ticket as TicketRow};

    ghost Value = { TicketRow };

    ghost view = { λ t. record { client = t.client; key = t.key; since = t.since } };
}

impl Numbered for Ticket {
    ghost number = { λ t. t.client };

    fn number(&self) -> u64 {
        self.client
    }
}

/// Whether a ticket for a link of this pool is in the slot.
fn is_for(slot: &Option<Ticket>, pool: &PoolKey) -> bool
    ensures { result ≡ passes (λ t. book.same_pool t.key pool.now) slot.now }
{
    match slot {
        Some(ticket) => ticket.key.is_in_pool_of(pool),
        None => false,
    }
}

/// Whether the client's ticket is in the slot.
fn is_of(slot: &Option<Ticket>, client: u64) -> bool
    ensures { result ≡ passes (book.is_of client) slot.now }
{
    match slot {
        Some(ticket) => ticket.client == client,
        None => false,
    }
}

/// Whose ticket is in the slot.
fn client_of(slot: Option<&Option<Ticket>>) -> Option<u64>
    ensures { result ≡ client_in (option_copied slot.entry) }
{
    match slot {
        Some(Some(ticket)) => Some(ticket.client),
        _ => None,
    }
}

// ---- what an index tells, where it was given up: by a walk

#[tactic(auto, using(numbered_rows::proofs::Numbering::counted_slots))]
fn waiting_in(slots: &VecDeque<Option<Ticket>>, pool: &PoolKey) -> usize
    ensures { result ≡ count_by (λ t. book.same_pool t.key pool.now) (rows_in slots.now.items) }
{
    slots.iter().filter(|s| is_for(s, pool)).count()
}

fn place_in(slots: &VecDeque<Option<Ticket>>, client: u64) -> Option<usize>
    ensures { result ≡ position (λ s. passes (book.is_of client) s) slots.now.items }
{
    slots.iter().position(|s| is_of(s, client))
}

#[tactic(auto, using(crate::proofs::Numbering::before_place))]
fn waiting_before_in(slots: &VecDeque<Option<Ticket>>, pool: &PoolKey, client: u64) -> usize
    requires { list_any (book.is_of client) (rows_in slots.now.items) ≡ true }
    ensures { result ≡ book.waiting_before pool.now client (rows_in slots.now.items) }
{
    let Some(place) = place_in(slots, client) else {
        unreachable!()
    };
    slots.range(..place).filter(|s| is_for(s, pool)).count()
}

fn slot_for<'a>(slots: &'a VecDeque<Option<Ticket>>, pool: &PoolKey) -> Option<&'a Option<Ticket>>
    ensures { option_copied result ≡ find (λ s. passes (λ t. book.same_pool t.key pool.now) s) slots.now.items }
{
    slots.iter().find(|s| is_for(s, pool))
}

fn longest_in(slots: &VecDeque<Option<Ticket>>, pool: &PoolKey) -> Option<u64>
    ensures { result ≡ longest_waiting pool.now (rows_in slots.now.items) }
{
    client_of(slot_for(slots, pool))
}

fn other_slot_for<'a>(
    slots: &'a VecDeque<Option<Ticket>>,
    pool: &PoolKey,
    client: u64,
) -> Option<&'a Option<Ticket>>
    ensures { option_copied result ≡ find (λ s. passes (λ t. book.same_pool t.key pool.now) s && not (passes (book.is_of client) s)) slots.now.items }
{
    slots.iter().find(|s| is_for(s, pool) && !is_of(s, client))
}

fn longest_but_in(slots: &VecDeque<Option<Ticket>>, pool: &PoolKey, client: u64) -> Option<u64>
    ensures { result ≡ longest_waiting_but client pool.now (rows_in slots.now.items) }
{
    client_of(other_slot_for(slots, pool, client))
}

/// The tickets in the order of the Asks, with room for one of each client, and an index of them by pool until one finds no room in it.
pub struct Tickets {
    rows: NumberedRows<Ticket>,
    pools: Option<PoolIndex>,
}

impl Drop for Tickets {
    fn drop(self) {
        let Tickets { rows: _, pools: _ } = self;
    }
}

impl Model for Tickets {
    ghost use Rattle.std.specs.Prelude.{List};
    ghost use Rattle.book_model.specs.Book.{Ticket as TicketRow};
    ghost use Rattle.book_rows.specs.PoolIndex.{ListsIfAny};

    ghost Value = { List TicketRow };

    ghost view = { λ t. t.rows };

    ghost invariant = { λ t. ListsIfAny (λ (r : TicketRow). r.client) (λ r. r.key) t.pools t.rows };
}

impl Tickets {
    /// No tickets, with all the room.
    pub fn new(alloc: Global) -> Result<Tickets, AllocError>
        ensures { IfOk result (λ t. t ≡ []) }
    {
        let rows = NumberedRows::new(alloc)?;
        let pools = Some(PoolIndex::new(alloc));
        Ok(Tickets { rows, pools })
    }

    /// The tickets, in rows of the holder's own.
    pub fn copied(&self, alloc: Global) -> Result<Vec<Ticket>, AllocError>
        ensures { IfOk result (λ v. v.items ≡ self.now) }
    {
        self.rows.copied(alloc)
    }

    /// The client's ticket.
    pub fn get(&self, client: u64) -> Option<&Ticket>
        requires once { (n : ℕ) → count_by (book.is_of n) self.now ≤ 1 }
        ensures { option_copied result ≡ find (book.is_of client) self.now }
    {
        self.rows.get(client)
    }

    /// Whether the client has a ticket.
    #[tactic(auto, using(numbered_rows::proofs::Numbering::is_there))]
    pub fn has(&self, client: u64) -> bool
        requires once { (n : ℕ) → count_by (book.is_of n) self.now ≤ 1 }
        ensures { result ≡ list_any (book.is_of client) self.now }
    {
        self.rows.get(client).is_some()
    }

    /// How many tickets are of this pool.
    pub fn waiting(&self, pool: &PoolKey) -> usize
        ensures { result ≡ count_by (λ t. book.same_pool t.key pool.now) self.now }
    {
        match &self.pools {
            Some(index) => index.count(pool),
            None => waiting_in(self.rows.slots(), pool),
        }
    }

    /// How many tickets of this pool stand before the client's, which is there.
    pub fn waiting_before(&self, pool: &PoolKey, client: u64) -> usize
        requires once { (n : ℕ) → count_by (book.is_of n) self.now ≤ 1 }
        requires there { list_any (book.is_of client) self.now ≡ true }
        ensures { result ≡ book.waiting_before pool.now client self.now }
    {
        if let Some(index) = &self.pools {
            if let Some(before) = index.place_of(pool, client) {
                return before;
            }
        }
        waiting_before_in(self.rows.slots(), pool, client)
    }

    /// Who has waited longest for a link of this pool.
    pub fn longest_waiting(&self, pool: &PoolKey) -> Option<u64>
        ensures { result ≡ longest_waiting pool.now self.now }
    {
        match &self.pools {
            Some(index) => index.first(pool),
            None => longest_in(self.rows.slots(), pool),
        }
    }

    /// The same, but for this client.
    pub fn longest_waiting_but(&self, client: u64, pool: &PoolKey) -> Option<u64>
        ensures { result ≡ longest_waiting_but client pool.now self.now }
    {
        match &self.pools {
            Some(index) => index.first_but(pool, client),
            None => longest_but_in(self.rows.slots(), pool, client),
        }
    }

    /// Who may be woken where any pool may have a link: those who have waited longest in their pools, in no order, or all who wait, where
    /// the index was given up.
    pub fn firsts(&self) -> Firsts<'_>
        ensures all { TellsFirsts result self.now }
        ensures only { TellsWaiting result self.now }
    {
        match &self.pools {
            Some(index) => Firsts::by_pool(index),
            None => Firsts::of_all(self.rows.slots()),
        }
    }

    /// A client waits.
    #[tactic(auto, using(crate::proofs::Pooling::listed_more))]
    pub fn push(&mut self, ticket: Ticket)
        requires { length self.old < MAX_PRESENT }
        ensures { self.new ≡ self.old ++ ticket ∷ [] }
    {
        list(&mut self.pools, &ticket.key, ticket.client);
        self.rows.push(ticket);
    }

    /// The client waits no more: its ticket, if it had one.
    pub fn take_out(&mut self, client: u64) -> Option<Ticket>
        requires once { (n : ℕ) → count_by (book.is_of n) self.old ≤ 1 }
        ensures ticket { result ≡ find (book.is_of client) self.old }
        ensures rest { self.new ≡ book.without_ticket client self.old }
    {
        match self.rows.take(client) {
            Some(ticket) => {
                unlist(&mut self.pools, &ticket.key, client);
                Some(ticket)
            }
            None => None,
        }
    }
}
