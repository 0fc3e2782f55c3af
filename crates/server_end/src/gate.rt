//! The one place where a worker waits for bytes.
ghost use Rattle.std.specs.Prelude.{◌≡◌, ◌+◌, ℕ, Bool, false, true};

use crate::ServerEnd;
use crate::transcript::Transcript;
use std::marker::Model;

/// Which sides of a lease may be tried.
#[derive(Clone, Copy, PartialEq, Eq, Drop)]
pub struct Ready {
    pub client: bool,
    pub server: bool,
}

/// What went over a link so far.
#[derive(Clone, Copy, PartialEq, Eq, Drop)]
pub struct Counts {
    /// Messages that were sent and are answered by a ReadyForQuery.
    pub asked: u64,
    /// ReadyForQuery that came.
    pub answered: u64,
    /// Those of them that told of no block: so many transactions ended.
    pub ended: u64,
    /// The status that was told last.
    pub status: Option<u8>,
}

/// How many turns a gate has taken. Only clauses read it: it takes no memory.
pub struct TurnCount {
    noted: Transcript,
}

impl Drop for TurnCount {
    fn drop(self) {
        let TurnCount { noted: _ } = self;
    }
}

impl Model for TurnCount {
    ghost use Rattle.std.specs.Prelude.{ℕ, length};

    ghost Value = { ℕ };

    ghost view = { λ t. length t.noted.bytes };
}

impl TurnCount {
    /// None so far.
    pub fn new() -> TurnCount
        ensures { result ≡ 0 }
    {
        TurnCount {
            noted: Transcript::new(),
        }
    }

    /// One more.
    pub fn count(&mut self)
        ensures { self.new ≡ self.old + 1 }
    {
        self.noted.note(b".");
    }
}

/// Where a worker waits for the bytes of its client, and of its link while it has one. Nothing is claimed of how long; how many turns
/// it has taken is counted.
pub trait Gate<E: ServerEnd> {
    ghost turns: { Self → ℕ };

    /// The time that was set is over.
    ghost late: { Self → Bool };

    /// Waits until a side may be tried, or for as long as the gate waits at most.
    fn turn(&mut self) -> Ready
        ensures { turns self.new ≡ turns self.old + 1 };

    /// The same for the client alone.
    fn turn_of_client(&mut self)
        ensures { turns self.new ≡ turns self.old + 1 };

    /// The same for the link alone: what the client sends meanwhile doesn't end the wait, so that so many turns are as long as they
    /// are for a client that is silent.
    fn turn_of_link(&mut self)
        ensures { turns self.new ≡ turns self.old + 1 };

    /// From now on the worker has so many seconds, whatever comes meanwhile; `None`: for ever. Nothing is claimed of when they are over.
    fn limit(&mut self, _seconds: Option<u32>)
        ensures { turns self.new ≡ turns self.old }
    {}

    /// Whether they are over.
    fn is_late(&mut self) -> bool
        ensures late { result ≡ true → late self.new ≡ true }
        ensures turns { turns self.new ≡ turns self.old }
    {
        false
    }

    /// The client has said who it is.
    fn know(&mut self)
        ensures { turns self.new ≡ turns self.old }
    {}

    /// What went over the link, before a turn. Who hears it, and that anybody does, isn't claimed.
    fn tell(&mut self, _counts: Counts)
        ensures { turns self.new ≡ turns self.old }
    {}

    /// Whether the client is known to have gone. It takes no byte, and waits for nothing.
    fn client_has_left(&mut self) -> bool
        ensures { turns self.new ≡ turns self.old }
    {
        false
    }

    /// From now on the gate minds this link too. That it can't is ignored.
    fn watch(&mut self, end: &mut E)
        ensures stands { E.standing end.new ≡ E.standing end.old }
        ensures turns { turns self.new ≡ turns self.old }
    {
        let _ = end;
    }

    /// From now on the gate doesn't mind this link.
    fn unwatch(&mut self, end: &mut E)
        ensures stands { E.standing end.new ≡ E.standing end.old }
        ensures turns { turns self.new ≡ turns self.old }
    {
        let _ = end;
    }
}

/// A gate that never waits: both sides may be tried at each turn.
pub struct OpenGate {
    turns: TurnCount,
}

impl Drop for OpenGate {
    fn drop(self) {
        let OpenGate { turns: _ } = self;
    }
}

impl OpenGate {
    pub fn new() -> OpenGate {
        OpenGate {
            turns: TurnCount::new(),
        }
    }
}

impl<E: ServerEnd> Gate<E> for OpenGate {
    ghost turns = { λ g. g.turns };

    ghost late = { λ g. false };

    fn turn(&mut self) -> Ready
        ensures turns { self.new.turns ≡ self.old.turns + 1 }
        ensures both { (result.client ≡ true) × (result.server ≡ true) }
    {
        self.turns.count();
        Ready {
            client: true,
            server: true,
        }
    }

    fn turn_of_client(&mut self) {
        self.turns.count();
    }

    fn turn_of_link(&mut self) {
        self.turns.count();
    }
}
