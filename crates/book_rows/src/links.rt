//! The links that are lent, or idle.
ghost use Rattle.std.specs.Prelude.{◌≡◌, ◌<◌, ◌≤◌, ◌^◌, ◌++◌, ◌∷◌, [], ℕ, true, Some, IfOk, count_by, find, is_some, length, option_copied};
ghost use Rattle.std.specs.List.{list_any};
ghost use Rattle.start_keys.specs.Keys.{same_key};
ghost use Rattle.book_model.specs.Book as book;
ghost use Rattle.book_model.specs.Outcomes.{is_started_as};
ghost use Rattle.book_model.specs.declared.limits.TheConstants.{MAX_LINKS};
ghost use Rattle.numbered_rows.specs.Numbered.{rows_in};
ghost use Rattle.book_rows.specs.Numbered.{is_of_key, last_with, number_in, number_of};
ghost use Rattle.numbered_rows.specs.Places.{passes};

use crate::pool_index::{PoolIndex, list, unlist};
use crate::pools::PoolKey;
use numbered_rows::numbered::{Numbered, NumberedRows};
use start_keys::StartKey;
use std::alloc::{AllocError, Global};
use std::collections::VecDeque;
use std::marker::Model;

/// A link that is lent or idle: when it was started, and when it came back last.
#[derive(Clone, Drop)]
pub struct Link {
    pub number: u64,
    pub key: PoolKey,
    pub started_at: u64,
    pub since: u64,
}

impl Model for Link {
    ghost use Rattle.book_model.specs.Book.{Link as LinkRow};

    ghost Value = { LinkRow };

    ghost view = { λ l. record { number = l.number; key = l.key; started_at = l.started_at; since = l.since } };
}

impl Numbered for Link {
    ghost number = { λ l. l.number };

    fn number(&self) -> u64 {
        self.number
    }
}

impl Link {
    /// Whether it was started for an equal key.
    fn is_of_key(&self, key: &PoolKey) -> bool
        ensures { result ≡ same_key self.now.key key.now }
    {
        self.key.is_key_of(key)
    }

    /// Whether it was started for an equal key, at this second.
    fn was_started_as(&self, key: &StartKey, started_at: u64) -> bool
        ensures { result ≡ is_started_as key.now started_at (Some self.now) }
    {
        self.key.is(key) && self.started_at == started_at
    }
}

/// Whether a link of this pool is in the slot.
fn is_in_pool(slot: &Option<Link>, pool: &PoolKey) -> bool
    ensures { result ≡ passes (book.in_pool pool.now) slot.now }
{
    match slot {
        Some(link) => link.key.is_in_pool_of(pool),
        None => false,
    }
}

/// The number of the link in the slot.
pub fn number_in(slot: Option<&Option<Link>>) -> Option<u64>
    ensures { result ≡ number_in (option_copied slot.entry) }
{
    match slot {
        Some(Some(link)) => Some(link.number),
        _ => None,
    }
}

// ---- what an index tells, where it was given up: by a walk

#[tactic(auto, using(numbered_rows::proofs::Numbering::counted_slots))]
fn count_in(slots: &VecDeque<Option<Link>>, pool: &PoolKey) -> usize
    ensures { result ≡ count_by (book.in_pool pool.now) (rows_in slots.now.items) }
{
    slots.iter().filter(|s| is_in_pool(s, pool)).count()
}

fn slot_in<'a>(slots: &'a VecDeque<Option<Link>>, pool: &PoolKey) -> Option<&'a Option<Link>>
    ensures { option_copied result ≡ find (λ s. passes (book.in_pool pool.now) s) slots.now.items }
{
    slots.iter().find(|s| is_in_pool(s, pool))
}

fn first_in(slots: &VecDeque<Option<Link>>, pool: &PoolKey) -> Option<u64>
    ensures { result ≡ number_of (find (book.in_pool pool.now) (rows_in slots.now.items)) }
{
    number_in(slot_in(slots, pool))
}

/// The first slot that isn't empty.
fn full_slot(slots: &VecDeque<Option<Link>>) -> Option<&Option<Link>>
    ensures { option_copied result ≡ find is_some slots.now.items }
{
    slots.iter().find(|s| s.is_some())
}

/// The link in the slot, where it is of this key, or else the last one before.
fn last_with(slot: &Option<Link>, key: &PoolKey, last: Option<u64>) -> Option<u64>
    ensures { result ≡ last_with key.now slot.now last }
{
    match slot {
        Some(link) => {
            if link.is_of_key(key) {
                Some(link.number)
            } else {
                last
            }
        }
        None => last,
    }
}

/// The last link of this key.
fn last_in(slots: &VecDeque<Option<Link>>, key: &PoolKey) -> Option<u64>
    ensures { result ≡ number_of (book.latest_of key.now (rows_in slots.now.items)) }
{
    let mut last = None;
    'slots: for place in 0..slots.len() {
        last = last_with(&slots[place], key, last);
    }
    last
}

// ---- what it tells

/// Whether the link of this number is there, and of this key.
fn is_of_key_at(rows: &NumberedRows<Link>, number: u64, key: &PoolKey) -> bool
    requires once { (n : ℕ) → count_by (book.is_link n) rows.now ≤ 1 }
    ensures { result ≡ is_of_key key.now (find (book.is_link number) rows.now) }
{
    match rows.get(number) {
        Some(link) => link.is_of_key(key),
        None => false,
    }
}

/// The last of these links that is of this key.
fn last_listed(rows: &NumberedRows<Link>, numbers: &VecDeque<u64>, key: &PoolKey) -> Option<u64>
    requires once { (n : ℕ) → count_by (book.is_link n) rows.now ≤ 1 }
    ensures { result ≡ book.find_last (λ n. is_of_key key.now (find (book.is_link n) rows.now)) numbers.now.items }
{
    'back: for behind in 0..numbers.len() {
        let number = numbers[numbers.len() - 1 - behind];
        if is_of_key_at(rows, number, key) {
            return Some(number);
        }
    }
    None
}

/// Links in the order in which they were lent, or came back, with room for the most that there can be, and an index of them by pool until
/// one finds no room in it.
pub struct Links {
    rows: NumberedRows<Link>,
    pools: Option<PoolIndex>,
}

impl Drop for Links {
    fn drop(self) {
        let Links { rows: _, pools: _ } = self;
    }
}

impl Model for Links {
    ghost use Rattle.std.specs.Prelude.{List};
    ghost use Rattle.book_model.specs.Book.{Link as LinkRow};
    ghost use Rattle.book_rows.specs.PoolIndex.{ListsIfAny};

    ghost Value = { List LinkRow };

    ghost view = { λ l. l.rows };

    ghost invariant = { λ l. ListsIfAny (λ (r : LinkRow). r.number) (λ r. r.key) l.pools l.rows };
}

impl Links {
    /// No links, with all the room.
    pub fn new(alloc: Global) -> Result<Links, AllocError>
        ensures { IfOk result (λ l. l ≡ []) }
    {
        let rows = NumberedRows::new(alloc)?;
        let pools = Some(PoolIndex::new(alloc));
        Ok(Links { rows, pools })
    }

    /// How many there are.
    pub fn len(&self) -> usize
        ensures count { result ≡ length self.now }
        ensures fits { result < 2 ^ 63 }
    {
        self.rows.len()
    }

    /// The links, in rows of the holder's own.
    pub fn copied(&self, alloc: Global) -> Result<Vec<Link>, AllocError>
        ensures { IfOk result (λ v. v.items ≡ self.now) }
    {
        self.rows.copied(alloc)
    }

    /// The links, each in a slot, of which some are empty.
    pub fn slots(&self) -> &VecDeque<Option<Link>>
        ensures { rows_in result.now.items ≡ self.now }
    {
        self.rows.slots()
    }

    /// The link of this number.
    pub fn get(&self, number: u64) -> Option<&Link>
        requires once { (n : ℕ) → count_by (book.is_link n) self.now ≤ 1 }
        ensures { option_copied result ≡ find (book.is_link number) self.now }
    {
        self.rows.get(number)
    }

    /// Whether the link is there.
    #[tactic(auto, using(numbered_rows::proofs::Numbering::is_there))]
    pub fn has(&self, number: u64) -> bool
        requires once { (n : ℕ) → count_by (book.is_link n) self.now ≤ 1 }
        ensures { result ≡ list_any (book.is_link number) self.now }
    {
        self.rows.get(number).is_some()
    }

    /// Whether the link is there, and was started for an equal key at this second.
    pub fn has_as(&self, number: u64, key: &StartKey, started_at: u64) -> bool
        requires once { (n : ℕ) → count_by (book.is_link n) self.now ≤ 1 }
        ensures { result ≡ is_started_as key.now started_at (find (book.is_link number) self.now) }
    {
        match self.rows.get(number) {
            Some(link) => link.was_started_as(key, started_at),
            None => false,
        }
    }

    /// The first link.
    #[tactic(auto, using(crate::proofs::Numbering::first_number))]
    pub fn first(&self) -> Option<u64>
        ensures { result ≡ number_of (find (λ l. true) self.now) }
    {
        number_in(full_slot(self.rows.slots()))
    }

    /// The first link of this pool.
    pub fn first_of_pool(&self, pool: &PoolKey) -> Option<u64>
        ensures { result ≡ number_of (find (book.in_pool pool.now) self.now) }
    {
        match &self.pools {
            Some(index) => index.first(pool),
            None => first_in(self.rows.slots(), pool),
        }
    }

    /// The last link of this key.
    pub fn last_of_key(&self, key: &PoolKey) -> Option<u64>
        requires once { (n : ℕ) → count_by (book.is_link n) self.now ≤ 1 }
        ensures { result ≡ number_of (book.latest_of key.now self.now) }
    {
        match &self.pools {
            Some(index) => match index.numbers(key) {
                Some(numbers) => last_listed(&self.rows, numbers, key),
                None => None,
            },
            None => last_in(self.rows.slots(), key),
        }
    }

    /// How many links are of this pool.
    pub fn count_of_pool(&self, pool: &PoolKey) -> usize
        ensures count { result ≡ count_by (book.in_pool pool.now) self.now }
        ensures fits { result < 2 ^ 63 }
    {
        match &self.pools {
            Some(index) => index.count(pool),
            None => count_in(self.rows.slots(), pool),
        }
    }

    /// A link more.
    #[tactic(auto, using(crate::proofs::Pooling::listed_more))]
    pub fn push(&mut self, link: Link)
        requires { length self.old < MAX_LINKS }
        ensures { self.new ≡ self.old ++ link ∷ [] }
    {
        list(&mut self.pools, &link.key, link.number);
        self.rows.push(link);
    }

    /// The link is there no more: it, if it was there.
    pub fn take_out(&mut self, number: u64) -> Option<Link>
        requires once { (n : ℕ) → count_by (book.is_link n) self.old ≤ 1 }
        ensures link { result ≡ find (book.is_link number) self.old }
        ensures rest { self.new ≡ book.without number self.old }
    {
        match self.rows.take(number) {
            Some(link) => {
                unlist(&mut self.pools, &link.key, number);
                Some(link)
            }
            None => None,
        }
    }
}
