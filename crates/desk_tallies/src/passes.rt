//! Passes: who made which decisions.
ghost use Rattle.std.specs.Prelude.{◌≡◌, ℕ, ◌+◌, ◌≤◌, IsSome, Some, length, vec_len, false};
ghost use Rattle.link_desk.specs.Passes.{new_holder, new_pass, striking};
ghost use Rattle.desk_tallies.specs.Shares.{AtMost, by_class, of_each, sum_of, sum_over};

use crate::ledgers::{Arrived, GivenBack, Granted, Ledgers, Left, Lost, Others};
use link_desk::calls::{Holder, Lease};
use std::marker::Model;
use std::sync::ledger::Share;

/// Into so many parts the shares of each ledger can be cut.
pub const ALL_PARTS: u64 = 1 << 32;

/// Decisions by class.
#[derive(Clone, Copy, PartialEq, Eq, Drop)]
pub struct Totals {
    /// Clients let in.
    pub arrived: u64,
    /// Links granted.
    pub granted: u64,
    /// Links given back.
    pub given_back: u64,
    /// Links lost, or not started.
    pub lost: u64,
    /// Clients gone.
    pub left: u64,
    /// All others.
    pub others: u64,
}

/// A share of each ledger.
pub struct Shares<K: Ledgers> {
    pub(crate) arrived: Share<Arrived<K>>,
    pub(crate) granted: Share<Granted<K>>,
    pub(crate) given_back: Share<GivenBack<K>>,
    pub(crate) lost: Share<Lost<K>>,
    pub(crate) left: Share<Left<K>>,
    pub(crate) others: Share<Others<K>>,
}

impl<K: Ledgers> Drop for Shares<K> {
    fn drop(self) {
        let Shares {
            arrived: _,
            granted: _,
            given_back: _,
            lost: _,
            left: _,
            others: _,
        } = self;
    }
}

impl<K: Ledgers> Model for Shares<K> {
    ghost use Rattle.desk_tallies.specs.Shares.{SharesOf, by_class};

    ghost Value = { SharesOf };

    ghost view = { λ s. record {
      parts = by_class s.arrived.parts s.granted.parts s.given_back.parts s.lost.parts s.left.parts s.others.parts;
      amounts = by_class s.arrived.amount s.granted.amount s.given_back.amount s.lost.amount s.left.amount s.others.amount;
    } };
}

/// A pass: a number, one part of each ledger, with what was counted on it, and who holds it. Decisions are made through it.
pub struct Pass<K: Ledgers> {
    number: u64,
    pub(crate) holder: Holder,
    /// Whether a call through it was answered as strange, or by the last decision.
    pub(crate) is_broken: bool,
    pub(crate) shares: Shares<K>,
}

impl<K: Ledgers> Drop for Pass<K> {
    fn drop(self) {
        let Pass {
            number: _,
            holder: _,
            is_broken: _,
            shares: _,
        } = self;
    }
}

impl<K: Ledgers> Model for Pass<K> {
    ghost use Rattle.std.specs.Prelude.{◌≡◌};
    ghost use Rattle.desk_tallies.specs.Shares.{PassView, of_each};

    ghost Value = { PassView };

    ghost view = { λ p. record { number = p.number; counted = record { made = p.shares.amounts; is_broken = p.is_broken }; holder = p.holder } };

    ghost invariant = { λ p. p.shares.parts ≡ of_each 1 };
}

impl<K: Ledgers> Pass<K> {
    /// Its number, counted from 0.
    pub fn number(&self) -> u64
        ensures { result ≡ self.now.number }
    {
        self.number
    }

    /// Who holds it.
    pub fn holder(&self) -> Holder
        ensures { result ≡ self.now.holder }
    {
        self.holder
    }

    /// The client that holds it.
    pub fn client(&self) -> u64
        requires here { IsSome self.now.holder.client }
        ensures { self.now.holder.client ≡ Some result }
    {
        let Some(client) = self.holder.client else {
            unreachable!()
        };
        client
    }

    /// The link that its client has.
    pub fn lease(&self) -> Lease
        requires here { IsSome self.now.holder.lease }
        ensures { self.now.holder.lease ≡ Some result }
    {
        let Some(lease) = self.holder.lease else {
            unreachable!()
        };
        lease
    }

    /// The cancel that was found through it was sent.
    pub fn strikes(&mut self)
        ensures { self.new ≡ record self.old { holder = striking self.old.holder } }
    {
        self.holder = Holder {
            found: None,
            struck: self.holder.found,
            ..self.holder
        };
    }

    /// Its shares: a part of each ledger, and what was made through it.
    fn into_shares(self) -> Shares<K>
        ensures parts { result.parts ≡ of_each 1 }
        ensures amounts { result.amounts ≡ self.counted.made }
    {
        let Pass {
            number: _,
            holder: _,
            is_broken: _,
            shares,
        } = self;
        shares
    }
}

impl<K: Ledgers> Shares<K> {
    /// Cuts one part off each, as a pass that nobody holds.
    pub fn cut(&mut self, number: u64) -> Pass<K>
        requires none { self.old.amounts ≡ of_each 0 }
        requires some { AtMost (of_each 2) self.old.parts }
        ensures pass { result ≡ record { number = number; counted = new_pass; holder = new_holder } }
        ensures parts { sum_of self.new.parts (of_each 1) ≡ self.old.parts }
        ensures amounts { self.new.amounts ≡ self.old.amounts }
    {
        let shares = Shares {
            arrived: self.arrived.split_off(1, 0),
            granted: self.granted.split_off(1, 0),
            given_back: self.given_back.split_off(1, 0),
            lost: self.lost.split_off(1, 0),
            left: self.left.split_off(1, 0),
            others: self.others.split_off(1, 0),
        };
        Pass {
            number,
            holder: Holder {
                client: None,
                lease: None,
                release: None,
                refused: None,
                found: None,
                struck: None,
                last: None,
            },
            is_broken: false,
            shares,
        }
    }

    fn merge(&mut self, other: Shares<K>)
        ensures parts { self.new.parts ≡ sum_of self.old.parts other.parts }
        ensures amounts { self.new.amounts ≡ sum_of self.old.amounts other.amounts }
    {
        let Shares {
            arrived,
            granted,
            given_back,
            lost,
            left,
            others,
        } = other;
        self.arrived.merge(arrived);
        self.granted.merge(granted);
        self.given_back.merge(given_back);
        self.lost.merge(lost);
        self.left.merge(left);
        self.others.merge(others);
    }

    /// Takes the passes in.
    pub(crate) fn merge_all(&mut self, mut passes: Vec<Pass<K>>)
        ensures parts { self.new.parts ≡ sum_of self.old.parts (of_each (vec_len passes)) }
        ensures amounts { self.new.amounts ≡ sum_of self.old.amounts (sum_over passes.items) }
    {
        while let Some(pass) = passes.pop() {
            self.merge(pass.into_shares());
        }
    }
}
