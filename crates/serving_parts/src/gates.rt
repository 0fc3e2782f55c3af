//! Gates of which each turn is a second, and what a worker tells them.
ghost use Rattle.std.specs.Prelude.{◌≡◌, true};

use crate::meanwhile::Notes;
use crate::servers::TestServer;
use server_end::gate::{Counts, Gate, Ready, TurnCount};
use std::rt::Clock;
use std::sync::atomic::{AtomicBool, AtomicU64, Ordering};

/// A clock that goes by turns.
#[derive(Clone, Copy, Drop)]
pub enum TurnClock {
    /// It stands still, so that nobody is ever late.
    Still,
    /// So many seconds are left of the time that a worker has; none where that has no end.
    Left(Option<u32>),
}

impl TurnClock {
    /// A second has gone.
    fn tick(&mut self) {
        if let TurnClock::Left(Some(seconds)) = self {
            *seconds = seconds.saturating_sub(1);
        }
    }

    fn set(&mut self, seconds: Option<u32>) {
        if let TurnClock::Left(left) = self {
            *left = seconds;
        }
    }

    fn is_over(&self) -> bool {
        matches!(self, TurnClock::Left(Some(0)))
    }
}

/// What a worker has told its gate.
#[derive(Drop)]
pub(crate) struct Told {
    /// Its client has said who it is.
    knows: AtomicBool,
    /// Its time has an end.
    is_limited: AtomicBool,
    /// It was told what went over the link, and has taken no turn since.
    is_counted: AtomicBool,
    /// It took a turn of a lease without that.
    has_missed: AtomicBool,
    /// What it was told last of messages that were answered, and of transactions that ended.
    answered: AtomicU64,
    ended: AtomicU64,
}

impl Told {
    /// Nothing yet but that the client has a time for its login.
    pub(crate) fn new() -> Told {
        Told {
            knows: AtomicBool::new(false),
            is_limited: AtomicBool::new(true),
            is_counted: AtomicBool::new(false),
            has_missed: AtomicBool::new(false),
            answered: AtomicU64::new(0),
            ended: AtomicU64::new(0),
        }
    }

    fn count(&self, counts: Counts) {
        self.is_counted.store(true, Ordering::SeqCst);
        self.answered.store(counts.answered, Ordering::SeqCst);
        self.ended.store(counts.ended, Ordering::SeqCst);
    }

    /// A turn of both ends is taken: of a lease, where the client is known.
    fn turn(&self) {
        let is_counted = self.is_counted.swap(false, Ordering::SeqCst);
        if self.knows.load(Ordering::SeqCst) && !is_counted {
            self.has_missed.store(true, Ordering::SeqCst);
        }
    }

    /// Whether it knows its client just where that has come to the desk, and has a time without an end just where that was let in.
    pub(crate) fn is_of(&self, has_come: bool, is_let_in: bool) -> bool {
        self.knows.load(Ordering::SeqCst) == has_come
            && self.is_limited.load(Ordering::SeqCst) != is_let_in
    }

    /// Whether it was told before each turn of a lease what went over the link, and in the end that so many messages were answered and
    /// transactions ended.
    pub(crate) fn has_counted(&self, answered: u64, ended: u64) -> bool {
        !self.has_missed.load(Ordering::SeqCst)
            && self.answered.load(Ordering::SeqCst) == answered
            && self.ended.load(Ordering::SeqCst) == ended
    }
}

/// A gate that never waits but at its first turn, or the first of a lease, until what is to happen then has happened.
#[derive(Drop)]
pub(crate) struct TurnedGate<'a, R: Clock + Drop> {
    pub rt: R,
    pub notes: &'a Notes,
    /// It is a turn of a lease that lasts: one of both ends.
    pub is_of_lease: bool,
    /// Its client is seen to have gone.
    pub goes: bool,
    pub clock: TurnClock,
    pub told: &'a Told,
    pub turns: TurnCount,
}

impl<'a, R: Clock + Drop> TurnedGate<'a, R> {
    /// A turn of one end alone.
    fn hold_one(&self) {
        if !self.is_of_lease {
            self.notes.hold(&self.rt);
        }
    }
}

impl<'a, R: Clock + Drop> Gate<TestServer> for TurnedGate<'a, R> {
    ghost turns = { λ g. g.turns };

    ghost late = { λ g. true };

    fn turn(&mut self) -> Ready {
        self.turns.count();
        self.clock.tick();
        self.told.turn();
        self.notes.hold(&self.rt);
        Ready {
            client: true,
            server: true,
        }
    }

    fn turn_of_client(&mut self) {
        self.turns.count();
        self.clock.tick();
        self.hold_one();
    }

    fn turn_of_link(&mut self) {
        self.turns.count();
        self.clock.tick();
        self.hold_one();
    }

    fn limit(&mut self, seconds: Option<u32>) {
        self.clock.set(seconds);
        self.told
            .is_limited
            .store(seconds.is_some(), Ordering::SeqCst);
    }

    fn is_late(&mut self) -> bool {
        self.clock.is_over()
    }

    fn know(&mut self) {
        self.told.knows.store(true, Ordering::SeqCst);
    }

    fn tell(&mut self, counts: Counts) {
        self.told.count(counts);
    }

    fn client_has_left(&mut self) -> bool {
        self.goes
    }
}
