//! Who may be woken where any pool may have a link.
ghost use Rattle.std.specs.Prelude.{◌≡◌, nat_eq};
ghost use Rattle.std.specs.Iterator.{YieldsFirst};
ghost use Rattle.std.specs.List.{IsDistinct};
ghost use Rattle.std.specs.Map.{keys_of};
ghost use Rattle.std.specs.VecDeque.Iter.{deque_iter_rest};
ghost use Rattle.book_rows.specs.Telling.{clients_in};
ghost use Rattle.book_rows.specs.PoolIndex.{firsts_in};

use crate::pool_index::{PoolFirsts, PoolIndex};
use crate::tickets::Ticket;
use std::collections::VecDeque;
use std::collections::vec_deque::Iter;
use std::marker::Model;

/// By what they are told.
#[derive(Drop)]
enum Walk<'a> {
    /// The first of each pool, by an index.
    Pools(PoolFirsts<'a>),
    /// Each, by the slots of the tickets.
    Slots(Iter<'a, Option<Ticket>>),
}

/// The clients that are still to be told.
pub struct Firsts<'a> {
    walk: Walk<'a>,
}

impl<'a> Drop for Firsts<'a> {
    fn drop(self) {
        let Firsts { walk: _ } = self;
    }
}

impl<'a> Model for Firsts<'a> {
    ghost use Rattle.std.specs.Prelude.{ℕ, List};
    ghost use Rattle.book_rows.specs.Telling.{left_of};

    ghost Value = { List ℕ };

    ghost view = { λ f. left_of f.walk };
}

/// The client of the next slot that isn't empty.
fn next_client(slots: &mut Iter<'_, Option<Ticket>>) -> Option<u64>
    ensures { YieldsFirst (λ s. clients_in (deque_iter_rest s)) slots.old result slots.new }
{
    while let Some(slot) = slots.next() {
        if let Some(ticket) = slot {
            return Some(ticket.client);
        }
    }
    None
}

impl<'a> Firsts<'a> {
    /// Those who wait first of their pools.
    pub(crate) fn by_pool(index: &'a PoolIndex) -> Firsts<'a>
        ensures told { result ≡ firsts_in index.now }
        ensures once { IsDistinct nat_eq (keys_of index.now) }
    {
        Firsts {
            walk: Walk::Pools(index.firsts()),
        }
    }

    /// All who wait.
    pub(crate) fn of_all(slots: &'a VecDeque<Option<Ticket>>) -> Firsts<'a>
        ensures { result ≡ clients_in slots.now.items }
    {
        Firsts {
            walk: Walk::Slots(slots.iter()),
        }
    }
}

impl<'a> Iterator for Firsts<'a> {
    ghost use Rattle.std.specs.Iterator.{YieldsFirst, item_count};

    type Item = u64;

    ghost next_gives = { YieldsFirst (λ told. told) };

    ghost remaining = { item_count (λ told. told) };

    fn next(&mut self) -> Option<u64> {
        match &mut self.walk {
            Walk::Pools(firsts) => firsts.next(),
            Walk::Slots(slots) => next_client(slots),
        }
    }
}
