//! The gate of a worker whose ends are TCP connections.
ghost use Rattle.std.specs.Prelude.{◌≡◌, ◌+◌, true};

use crate::connection::TcpEnd;
use crate::watched::Watched;
use mio::{Events, Poll, Token};
use server_end::gate::{Counts, Gate, Ready, TurnCount};
use std::alloc::{AllocError, Global};
use std::io;
use std::net::Net;
use std::rt::Clock;
use std::time::{Duration, Instant};
use tcp_notes::reckoning::Reckoning;
use time_limits::{CLIENT_TURN, LINK_TURN, MAX_TURNS, REST};

/// The client's connection among those of a poll, and the link's.
const CLIENT: Token = Token(0);

const LINK: Token = Token(1);

/// As many events as one wait tells: the two connections have one each.
const MAX_EVENTS: usize = 2;

/// A poll, and the room for what it tells. A thread keeps it from one gate to the next. The ends of the gate before are closed by then, or
/// watched no more: what comes of another would be taken for what comes of the next gate's own.
pub struct GatePoll {
    poll: Poll,
    events: Events<Global>,
}

impl Drop for GatePoll {
    fn drop(self) {
        let GatePoll { poll: _, events: _ } = self;
    }
}

impl GatePoll {
    /// One that minds nothing yet. The error is that the system has no more polls, or that an allocation failed.
    pub fn new<R: Net>(rt: &R, alloc: Global) -> io::Result<GatePoll> {
        Ok(GatePoll {
            poll: Poll::new(rt)?,
            events: Events::with_capacity(alloc, MAX_EVENTS)?,
        })
    }

    /// The one that a thread keeps; a new one, where it has none yet. The errors are those of `new`.
    pub fn of_thread<'a, R: Net>(
        rt: &R,
        alloc: Global,
        kept: &'a mut Option<GatePoll>,
    ) -> io::Result<&'a mut GatePoll> {
        match kept {
            Some(poll) => Ok(poll),
            None => Ok(kept.insert(GatePoll::new(rt, alloc)?)),
        }
    }

    /// Tells of room from now on at each end that has found too little.
    fn ask_for_room(&self, client: &Watched, link: &Option<Watched>) {
        client.ask_for_room(&self.poll);
        if let Some(link) = link {
            link.ask_for_room(&self.poll);
        }
    }

    /// Waits for an event, or for so long. That the poll can't is as if none came.
    fn wait(&mut self, longest: Duration) {
        let _ = self.poll.poll(&mut self.events, Some(longest));
    }

    /// What came while it waited, if anything did. The system tells each event of a client's but once, so it is noted here.
    fn seen(&self, client: &Watched, link: &Option<Watched>) -> Option<Seen> {
        if self.events.is_empty() {
            return None;
        }
        let mut seen = Seen {
            client_has_left: false,
            is_for_link: false,
        };
        for event in self.events.iter() {
            if client.saw(event) {
                client.notes().expect_more();
                seen.client_has_left = event.is_read_closed();
            } else if let Some(link) = link {
                seen.is_for_link = link.saw(event);
            }
        }
        Some(seen)
    }
}

/// What the events of a wait tell.
#[derive(Clone, Copy, Drop)]
struct Seen {
    /// The client has sent its last byte.
    client_has_left: bool,
    /// The link had one.
    is_for_link: bool,
}

/// Where a worker waits for the bytes of its client, and of its link while that is watched. A turn of the client alone waits for at most
/// [`CLIENT_TURN`], and one of the link alone for at most [`LINK_TURN`], since so many turns are a time; any other for at most [`REST`], so
/// that a client that says nothing costs next to nothing. It doesn't wait where the last read of an end that it minds, since the turn
/// before, may have left more; it names both sides. Nor does a turn of the link alone where something may be due to be said: in the first
/// such turn, and after the first read behind a write that came to something.
///
/// While the worker has a limit, no turn waits for longer than what is left of it, whatever else it would wait for; once the gate has said
/// that it is over, turns are as long as without one. A clock that can't be read sets no limit, and ends none.
pub struct TcpGate<'a, R: Clock> {
    rt: R,
    poll: &'a mut GatePoll,
    client: Watched,
    link: Option<Watched>,
    /// The last turn was one of the link alone.
    is_at_link: bool,
    /// The client has sent its last byte.
    client_has_left: bool,
    /// When the worker's time is over, where it has a limit.
    due: Option<Instant>,
    /// It was found to be over.
    is_late: bool,
    reckoning: Reckoning,
    turns: TurnCount,
}

impl<'a, R: Clock + Drop> Drop for TcpGate<'a, R> {
    fn drop(self) {
        let TcpGate {
            rt: _,
            poll: _,
            client: _,
            link: _,
            is_at_link: _,
            client_has_left: _,
            due: _,
            is_late: _,
            reckoning: _,
            turns: _,
        } = self;
    }
}

impl<'a, R: Clock + Drop> TcpGate<'a, R> {
    /// The gate of the worker of this client, over this poll. That the client's connection can't be watched is ignored: its bytes are
    /// then found when a turn is over. The error is that an allocation failed.
    pub fn new(
        rt: R,
        poll: &'a mut GatePoll,
        client: &mut TcpEnd,
    ) -> Result<TcpGate<'a, R>, AllocError>
        ensures { client.new ≡ client.old }
    {
        let client = client.watched(&poll.poll, CLIENT)?;
        Ok(TcpGate {
            rt,
            poll,
            client,
            link: None,
            is_at_link: false,
            client_has_left: false,
            due: None,
            is_late: false,
            reckoning: Reckoning::new(),
            turns: TurnCount::new(),
        })
    }
}

impl<'a, R: Clock> TcpGate<'a, R> {
    /// The client came then: what the gate is told is reckoned by the time since. Without it, or before, no time is reckoned.
    pub fn reckon_from(&mut self, start: Option<Instant>)
        ensures { self.new.turns ≡ self.old.turns }
    {
        self.reckoning.begin(&self.rt, start);
    }

    /// The moment at which so many seconds are over.
    fn due_in(&self, seconds: Option<u32>) -> Option<Instant> {
        let seconds = Duration::from_secs(seconds? as u64);
        Instant::now(&self.rt).ok()?.checked_add(seconds)
    }

    /// What is left of the worker's time, where it has a limit.
    fn left(&self) -> Option<Duration> {
        let due = self.due?;
        let now = Instant::now(&self.rt).ok()?;
        Some(due.duration_since(now))
    }

    /// So long, or what is left of the worker's time where that is less and wasn't said to be over.
    fn within(&self, longest: Duration) -> Duration {
        if self.is_late || self.due.is_none() {
            return longest;
        }
        match self.left() {
            Some(left) => longest.min(left),
            None => longest,
        }
    }

    fn client_may_have_more(&self) -> bool {
        self.client.notes().take_more()
    }

    fn link_may_have_more(&self) -> bool {
        match &self.link {
            Some(link) => link.notes().take_more(),
            None => false,
        }
    }

    /// Whether something may be due to be said over the link: nothing was tried since a turn of another kind, or what was read last, the
    /// first since something was written, calls for an answer.
    fn link_may_be_due(&mut self) -> bool
        ensures { self.new.turns ≡ self.old.turns }
    {
        let is_first = !self.is_at_link;
        self.is_at_link = true;
        let has_spoken = match &self.link {
            Some(link) => link.notes().take_spoken(),
            None => false,
        };
        is_first || has_spoken
    }

    /// What is left of a turn that began then.
    fn left_of_turn(&self, start: &Instant) -> Option<Duration> {
        let waited = start.elapsed(&self.rt).ok()?;
        LINK_TURN.duration().checked_sub(waited)
    }

    /// No event came: both ends are tried again, as if one had.
    fn open_both(&self) {
        self.client.notes().open();
        if let Some(link) = &self.link {
            link.notes().open();
        }
    }

    /// Waits for an event, or for so long, or until the worker's time is over; whether the link had one, or none came.
    fn wait(&mut self, longest: Duration) -> bool
        ensures { self.new.turns ≡ self.old.turns }
    {
        self.poll.ask_for_room(&self.client, &self.link);
        let longest = self.within(longest);
        self.poll.wait(longest);
        let Some(seen) = self.poll.seen(&self.client, &self.link) else {
            self.open_both();
            return true;
        };
        self.client_has_left = self.client_has_left || seen.client_has_left;
        seen.is_for_link
    }
}

impl<'a, R: Clock> Gate<TcpEnd> for TcpGate<'a, R> {
    ghost turns = { λ g. g.turns };

    ghost late = { λ g. g.is_late };

    fn turn(&mut self) -> Ready
        ensures both { (result.client ≡ true) × (result.server ≡ true) }
        ensures counts { self.new.turns ≡ self.old.turns + 1 }
    {
        self.turns.count();
        self.is_at_link = false;
        let client = self.client_may_have_more();
        let link = self.link_may_have_more();
        if !client && !link {
            self.wait(REST.duration());
        }
        Ready {
            client: true,
            server: true,
        }
    }

    fn turn_of_client(&mut self) {
        self.turns.count();
        self.is_at_link = false;
        if !self.client_may_have_more() {
            self.wait(CLIENT_TURN.duration());
        }
    }

    fn turn_of_link(&mut self) {
        self.turns.count();
        let may_have_more = self.link_may_have_more();
        if self.link_may_be_due() || may_have_more {
            return;
        }
        let Ok(start) = Instant::now(&self.rt) else {
            self.wait(LINK_TURN.duration());
            return;
        };
        for _ in 0..MAX_TURNS {
            match self.left_of_turn(&start) {
                Some(left) if !self.wait(left) => {}
                _ => return,
            }
        }
    }

    fn limit(&mut self, seconds: Option<u32>) {
        self.is_late = false;
        self.due = self.due_in(seconds);
    }

    fn is_late(&mut self) -> bool {
        self.is_late = self.left().is_some_and(|left| left.is_zero());
        self.is_late
    }

    fn know(&mut self) {
        self.client.notes().presence().know();
    }

    fn tell(&mut self, counts: Counts) {
        let notes = self.client.notes();
        self.reckoning.tell(&self.rt, notes.tally(), counts);
    }

    fn client_has_left(&mut self) -> bool {
        self.wait(Duration::ZERO);
        self.client_has_left
    }

    fn watch(&mut self, end: &mut TcpEnd) {
        self.link = end.watched(&self.poll.poll, LINK).ok();
        // a client that comes has mostly spoken already, and a link that is lent has not: the poll tells of what is there
        if let Some(link) = &self.link {
            link.notes().await_event();
        }
    }

    fn unwatch(&mut self, end: &mut TcpEnd) {
        end.deregister(&self.poll.poll);
        self.link = None;
    }
}
