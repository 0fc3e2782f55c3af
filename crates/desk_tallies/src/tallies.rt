//! Counters of decisions by class, each with a ledger of who made them.
ghost use Rattle.std.specs.Prelude.{◌≡◌, ◌+◌, ◌<◌, ◌≤◌, ◌||◌, vec_len};
ghost use Rattle.desk_tallies.specs.declared.passes.TheConstants.{ALL_PARTS};
ghost use Rattle.desk_tallies.specs.Shares.{AtMost, made_of, names_of, of_each, parts_of, sum_of, sum_over};

use crate::ledgers::{Arrived, GivenBack, Granted, Ledgers, Left, Lost, Others};
use crate::passes::{ALL_PARTS, Pass, Shares, Totals};
use link_desk::calls::Holder;
use std::marker::Model;
use std::sync::ledger::{Blank, Book, Ledger, Share};

/// A counter that is its ledger's total.
#[derive(Drop)]
pub struct Tally<L: Ledger> {
    pub count: u64,
    ledger: Book<L>,
    ghost same: { ledger.total ≡ count },
}

impl<L: Ledger> Tally<L> {
    /// A counter at 0, and a share with every part.
    pub fn open(blank: Blank) -> (Tally<L>, Share<L>)
        requires name { blank.name ≡ L.name }
        requires parts { blank.parts ≡ L.parts }
        ensures count { result.0.count ≡ 0 }
        ensures parts { result.1.parts ≡ L.parts }
        ensures amount { result.1.amount ≡ 0 }
    {
        let (ledger, share) = blank.open::<L>();
        (Tally { count: 0, ledger }, share)
    }

    /// The counter goes on to `to`, and what is added counts for this share.
    pub fn follow(&mut self, mine: &mut Share<L>, to: u64)
        requires part { 0 < mine.old.parts }
        requires more { self.old.count ≤ to }
        ensures count { self.new.count ≡ to }
        ensures amount { mine.new.amount + self.old.count ≡ mine.old.amount + to }
        ensures parts { mine.new.parts ≡ mine.old.parts }
    {
        let Tally { count, ledger } = self;
        ledger.add(mine, to - *count);
        *count = to;
    }

    /// A share is part of the count, and the whole share is all of it. Nothing changes.
    pub fn audit(&mut self, mine: &mut Share<L>)
        ensures same { self.new.count ≡ self.old.count }
        ensures amount { mine.new.amount ≡ mine.old.amount }
        ensures parts { mine.new.parts ≡ mine.old.parts }
        ensures bound { mine.old.amount ≤ self.old.count }
        ensures whole { mine.old.parts ≡ L.parts → mine.old.amount ≡ self.old.count }
    {
        self.ledger.audit(mine);
    }
}

/// The counters of all classes.
pub struct Tallies<K: Ledgers> {
    arrived: Tally<Arrived<K>>,
    granted: Tally<Granted<K>>,
    given_back: Tally<GivenBack<K>>,
    lost: Tally<Lost<K>>,
    left: Tally<Left<K>>,
    others: Tally<Others<K>>,
}

impl<K: Ledgers> Drop for Tallies<K> {
    fn drop(self) {
        let Tallies {
            arrived: _,
            granted: _,
            given_back: _,
            lost: _,
            left: _,
            others: _,
        } = self;
    }
}

impl<K: Ledgers> Model for Tallies<K> {
    ghost use Rattle.std.specs.Prelude.{◌≡◌};
    ghost use Rattle.link_desk.specs.Passes.{Made};
    ghost use Rattle.desk_tallies.specs.Shares.{by_class, of_each};
    ghost use Rattle.desk_tallies.specs.declared.passes.TheConstants.{ALL_PARTS};

    ghost Value = { Made };

    ghost view = { λ t. by_class t.arrived.count t.granted.count t.given_back.count t.lost.count t.left.count t.others.count };

    ghost invariant = { λ t. K.parts ≡ of_each ALL_PARTS };
}

/// The ledgers of the classes, before anything was counted.
#[derive(Drop)]
pub struct Blanks {
    pub arrived: Blank,
    pub granted: Blank,
    pub given_back: Blank,
    pub lost: Blank,
    pub left: Blank,
    pub others: Blank,
}

impl Blanks {
    /// Six new ledgers, of 4,294,967,296 parts each.
    pub fn new() -> Blanks
        ensures { parts_of result ≡ of_each ALL_PARTS }
    {
        Blanks {
            arrived: Blank::new(ALL_PARTS),
            granted: Blank::new(ALL_PARTS),
            given_back: Blank::new(ALL_PARTS),
            lost: Blank::new(ALL_PARTS),
            left: Blank::new(ALL_PARTS),
            others: Blank::new(ALL_PARTS),
        }
    }
}

impl<K: Ledgers> Tallies<K> {
    /// Counters at 0, and shares with every part.
    pub fn open(blanks: Blanks) -> (Tallies<K>, Shares<K>)
        requires names { names_of blanks ≡ K.names }
        requires parts { K.parts ≡ parts_of blanks }
        requires all { parts_of blanks ≡ of_each ALL_PARTS }
        ensures none { result.0 ≡ of_each 0 }
        ensures parts { result.1.parts ≡ of_each ALL_PARTS }
        ensures amounts { result.1.amounts ≡ of_each 0 }
    {
        let (arrived, arrivals) = Tally::<Arrived<K>>::open(blanks.arrived);
        let (granted, grants) = Tally::<Granted<K>>::open(blanks.granted);
        let (given_back, returns) = Tally::<GivenBack<K>>::open(blanks.given_back);
        let (lost, losses) = Tally::<Lost<K>>::open(blanks.lost);
        let (left, leavings) = Tally::<Left<K>>::open(blanks.left);
        let (others, rest) = Tally::<Others<K>>::open(blanks.others);
        let tallies = Tallies {
            arrived,
            granted,
            given_back,
            lost,
            left,
            others,
        };
        let shares = Shares {
            arrived: arrivals,
            granted: grants,
            given_back: returns,
            lost: losses,
            left: leavings,
            others: rest,
        };
        (tallies, shares)
    }

    fn follow(&mut self, mine: &mut Shares<K>, to: Totals)
        requires part { AtMost (of_each 1) mine.old.parts }
        requires more { AtMost self.old (made_of to) }
        ensures count { self.new ≡ made_of to }
        ensures amounts { sum_of mine.new.amounts self.old ≡ sum_of mine.old.amounts (made_of to) }
        ensures parts { mine.new.parts ≡ mine.old.parts }
    {
        self.arrived.follow(&mut mine.arrived, to.arrived);
        self.granted.follow(&mut mine.granted, to.granted);
        self.given_back.follow(&mut mine.given_back, to.given_back);
        self.lost.follow(&mut mine.lost, to.lost);
        self.left.follow(&mut mine.left, to.left);
        self.others.follow(&mut mine.others, to.others);
    }

    fn audit(&mut self, mine: &mut Shares<K>)
        ensures same { self.new ≡ self.old }
        ensures mine { mine.new ≡ mine.old }
        ensures bound { AtMost mine.old.amounts self.old }
        ensures whole { mine.old.parts ≡ of_each ALL_PARTS → mine.old.amounts ≡ self.old }
    {
        self.arrived.audit(&mut mine.arrived);
        self.granted.audit(&mut mine.granted);
        self.given_back.audit(&mut mine.given_back);
        self.lost.audit(&mut mine.lost);
        self.left.audit(&mut mine.left);
        self.others.audit(&mut mine.others);
    }

    /// The counters go on to these, and what is added was made through this pass, by a call that may have broken it and after which it
    /// has this holder.
    pub fn count(&mut self, pass: &mut Pass<K>, to: Totals, breaks: bool, holder: Holder)
        requires more { AtMost self.old (made_of to) }
        ensures count { self.new ≡ made_of to }
        ensures number { pass.new.number ≡ pass.old.number }
        ensures made { sum_of pass.new.counted.made self.old ≡ sum_of pass.old.counted.made (made_of to) }
        ensures broken { pass.new.counted.is_broken ≡ (breaks || pass.old.counted.is_broken) }
        ensures holder { pass.new.holder ≡ holder }
    {
        self.follow(&mut pass.shares, to);
        pass.is_broken = breaks || pass.is_broken;
        pass.holder = holder;
    }

    /// What was made through a pass is among the counts. Nothing changes.
    pub fn compare(&mut self, pass: &mut Pass<K>)
        ensures same { self.new ≡ self.old }
        ensures pass { pass.new ≡ pass.old }
        ensures bound { AtMost pass.old.counted.made self.old }
    {
        self.audit(&mut pass.shares);
    }

    /// Takes in all passes and what was never cut off: the counts are what was made through the passes.
    pub fn settle(self, shares: Shares<K>, passes: Vec<Pass<K>>)
        requires none { shares.amounts ≡ of_each 0 }
        requires all { sum_of shares.parts (of_each (vec_len passes)) ≡ of_each ALL_PARTS }
        ensures { self ≡ sum_over passes.items }
    {
        let mut all = shares;
        all.merge_all(passes);
        let mut tallies = self;
        tallies.audit(&mut all);
    }
}
