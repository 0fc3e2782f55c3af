//! An index by pool: which rows of a list are of each pool, by the rows' numbers, so that they are counted and the first is found
//! without a walk over the list.
ghost use Rattle.std.specs.Prelude.{◌≡◌, ◌<◌, ◌≤◌, ◌^◌, ◌++◌, ◌∷◌, [], ℕ, None, IfSome, MatchOption, OnSome, cond, count_by, find, is_some, length, nat_eq, not, option_copied, position, slice_get, true};
ghost use Rattle.std.specs.Iterator.{YieldsFirst};
ghost use Rattle.std.specs.List.{IsDistinct};
ghost use Rattle.std.specs.Map.{keys_of, lookup};
ghost use Rattle.book_model.specs.Book as book;
ghost use Rattle.book_model.specs.Book.{same_pool};
ghost use Rattle.book_rows.specs.PoolHashes.{pool_hash_of};
ghost use Rattle.book_rows.specs.PoolIndex.{AddsRow, TakesRow, first_of, firsts_in, listed};
ghost use Rattle.numbered_rows.specs.Indexes.{Follows};
ghost use Rattle.session_values.specs.State.{StartKeyOf};

use crate::pools::PoolKey;
use indexmap::IndexMap;
use indexmap::map::Iter;
use std::alloc::Global;
use std::collections::VecDeque;
use std::marker::Model;

/// The rows of one pool, in the list's order.
#[derive(Drop)]
struct Group {
    pool: PoolKey,
    numbers: VecDeque<u64>,
}

impl Model for Group {
    ghost use Rattle.book_rows.specs.PoolIndex.{Group as GroupOf};

    ghost Value = { GroupOf };

    ghost view = { λ g. record { pool = g.pool; numbers = g.numbers.items } };
}

impl Group {
    /// Where a row stands.
    fn place_of(&self, number: u64) -> Option<usize>
        ensures { result ≡ position (book.is_number number) self.now.numbers }
    {
        self.numbers.iter().position(|n| *n == number)
    }

    /// A row less.
    fn remove(&mut self, number: u64)
        requires once { count_by (book.is_number number) self.old.numbers ≤ 1 }
        ensures { self.new ≡ record self.old { numbers = book.without_number number self.old.numbers } }
    {
        if let Some(place) = self.place_of(number) {
            let _ = self.numbers.remove(place);
        }
    }
}

/// The rows of each pool.
pub struct PoolIndex {
    alloc: Global,
    /// Each under the hash of its pool.
    groups: IndexMap<u64, Group>,
}

impl Drop for PoolIndex {
    fn drop(self) {
        let PoolIndex {
            alloc: _,
            groups: _,
        } = self;
    }
}

impl Model for PoolIndex {
    ghost use Rattle.std.specs.Prelude.{ℕ, List};
    ghost use Rattle.book_rows.specs.PoolIndex.{Group as GroupOf};

    ghost Value = { List (ℕ × GroupOf) };

    ghost view = { λ i. i.groups.entries };
}

impl PoolIndex {
    /// No rows.
    pub fn new(alloc: Global) -> PoolIndex
        ensures { (pool : StartKeyOf) → listed result pool ≡ [] }
    {
        PoolIndex {
            alloc,
            groups: IndexMap::new(alloc),
        }
    }

    /// The pool's rows; none where there are none.
    fn group(&self, pool: &PoolKey) -> Option<&Group>
        ensures { MatchOption result (listed self.now pool.now ≡ []) (λ group. listed self.now pool.now ≡ group.now.numbers) }
    {
        let group = self.groups.get(&pool.hash())?;
        if group.pool.is_in_pool_of(pool) {
            Some(group)
        } else {
            None
        }
    }

    /// The rows of this pool, in the list's order; nothing where there are none.
    pub fn numbers(&self, pool: &PoolKey) -> Option<&VecDeque<u64>>
        ensures { MatchOption result (listed self.now pool.now ≡ []) (λ numbers. listed self.now pool.now ≡ numbers.now.items) }
    {
        Some(&self.group(pool)?.numbers)
    }

    /// How many rows are of this pool.
    pub fn count(&self, pool: &PoolKey) -> usize
        ensures count { result ≡ length (listed self.now pool.now) }
        ensures fits { result < 2 ^ 63 }
    {
        match self.group(pool) {
            Some(group) => group.numbers.len(),
            None => 0,
        }
    }

    /// The first row of this pool.
    pub fn first(&self, pool: &PoolKey) -> Option<u64>
        ensures { result ≡ slice_get (listed self.now pool.now) 0 }
    {
        self.group(pool)?.numbers.front().copied()
    }

    /// The first row of each pool, in no order.
    pub fn firsts(&self) -> PoolFirsts<'_>
        ensures told { result ≡ firsts_in self.now }
        ensures once { IsDistinct nat_eq (keys_of self.now) }
    {
        PoolFirsts {
            groups: self.groups.iter(),
        }
    }

    /// The first row of this pool but for one.
    pub fn first_but(&self, pool: &PoolKey, number: u64) -> Option<u64>
        ensures { result ≡ find (λ n. not (book.is_number number n)) (listed self.now pool.now) }
    {
        self.group(pool)?
            .numbers
            .iter()
            .copied()
            .find(|n| *n != number)
    }

    /// Where a row stands among those of this pool.
    pub fn place_of(&self, pool: &PoolKey, number: u64) -> Option<usize>
        ensures { result ≡ position (book.is_number number) (listed self.now pool.now) }
    {
        self.group(pool)?.place_of(number)
    }

    /// A row more, behind all others. `None`: it can't be listed, since an allocation failed, or since another pool has the same hash; the
    /// index is of no use any more.
    pub fn add(&mut self, pool: &PoolKey, number: u64) -> Option<()>
        ensures { OnSome result ((other : StartKeyOf) → listed self.new other ≡ cond (same_pool pool.now other) (listed self.old other ++ number ∷ []) (listed self.old other)) }
    {
        match self.groups.get_mut(&pool.hash()) {
            Some(group) => {
                if !group.pool.is_in_pool_of(pool) {
                    return None;
                }
                group.numbers.push_back(number).ok()
            }
            None => self.begin(pool, number),
        }
    }

    /// The first row of a pool.
    fn begin(&mut self, pool: &PoolKey, number: u64) -> Option<()>
        requires none { lookup (nat_eq (pool_hash_of pool.now)) self.old ≡ None }
        ensures { OnSome result ((other : StartKeyOf) → listed self.new other ≡ cond (same_pool pool.now other) (listed self.old other ++ number ∷ []) (listed self.old other)) }
    {
        let mut numbers = VecDeque::new(self.alloc);
        numbers.push_back(number).ok()?;
        let group = Group {
            pool: pool.clone().ok()?,
            numbers,
        };
        let _ = self.groups.insert(pool.hash(), group).ok()?;
        Some(())
    }

    /// Whether this row alone is of the pool.
    fn has_only(&self, pool: &PoolKey, number: u64) -> bool
        ensures { result ≡ true → listed self.now pool.now ≡ number ∷ [] }
    {
        match self.group(pool) {
            Some(group) => group.numbers.len() == 1 && group.numbers[0] == number,
            None => false,
        }
    }

    /// A row of this pool less.
    pub fn remove(&mut self, pool: &PoolKey, number: u64)
        requires once { count_by (book.is_number number) (listed self.old pool.now) ≤ 1 }
        ensures { (other : StartKeyOf) → listed self.new other ≡ cond (same_pool pool.now other) (book.without_number number (listed self.old other)) (listed self.old other) }
    {
        if self.has_only(pool, number) {
            drop(self.groups.swap_remove(&pool.hash()));
            return;
        }
        if let Some(group) = self.groups.get_mut(&pool.hash()) {
            if group.pool.is_in_pool_of(pool) {
                group.remove(number);
            }
        }
    }
}

/// The first row of a group that is under its pool's hash, as each is; so nobody is told for a pool of which the index lists others.
fn first_of(hash: u64, group: &Group) -> Option<u64>
    ensures { result ≡ first_of (hash, group.now) }
{
    if hash == group.pool.hash() {
        group.numbers.front().copied()
    } else {
        None
    }
}

/// The first row of the next group that has one.
fn next_first(groups: &mut Iter<'_, u64, Group>) -> Option<u64>
    ensures { YieldsFirst firsts_in groups.old result groups.new }
{
    while let Some((hash, group)) = groups.next() {
        if let Some(first) = first_of(*hash, group) {
            return Some(first);
        }
    }
    None
}

/// The first rows of pools that are still to be told, in no order.
#[derive(Drop)]
pub struct PoolFirsts<'a> {
    groups: Iter<'a, u64, Group>,
}

impl<'a> Model for PoolFirsts<'a> {
    ghost use Rattle.std.specs.Prelude.{ℕ, List};
    ghost use Rattle.book_rows.specs.PoolIndex.{firsts_in};

    ghost Value = { List ℕ };

    ghost view = { λ f. firsts_in f.groups };
}

impl<'a> Iterator for PoolFirsts<'a> {
    ghost use Rattle.std.specs.Iterator.{YieldsFirst, item_count};

    type Item = u64;

    ghost next_gives = { YieldsFirst (λ told. told) };

    ghost remaining = { item_count (λ told. told) };

    fn next(&mut self) -> Option<u64> {
        next_first(&mut self.groups)
    }
}

/// Lists a row more of this pool, or gives the index up where it finds no room.
pub fn list(index: &mut Option<PoolIndex>, pool: &PoolKey, number: u64)
    ensures { Follows (AddsRow pool.now number) index.old index.new }
{
    if let Some(groups) = index {
        if groups.add(pool, number).is_none() {
            *index = None;
        }
    }
}

/// Lists a row less of this pool. It is never given up for that.
pub fn unlist(index: &mut Option<PoolIndex>, pool: &PoolKey, number: u64)
    requires once { IfSome index.old (λ groups. count_by (book.is_number number) (listed groups pool.now) ≤ 1) }
    ensures row { Follows (TakesRow pool.now number) index.old index.new }
    ensures kept { is_some index.new ≡ is_some index.old }
{
    if let Some(groups) = index {
        groups.remove(pool, number);
    }
}
