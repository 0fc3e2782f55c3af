//! How long what went over a link took, by the clock at each turn where it changed. Nothing is proved of it.

use crate::sight::Stance;
use crate::tally::Tally;
use message_view::kinds::{FAILED, IN_TRANSACTION};
use server_end::gate::Counts;
use std::rt::Clock;
use std::time::{Duration, Instant};

const MICROSECONDS: u64 = 1_000_000;

/// What a gate was told last, and what its client is at, since when. All times are in microseconds, and stop at the greatest.
#[derive(Clone, Copy, Drop)]
pub struct Reckoning {
    /// When the connection came, by the clock; without it no time is reckoned.
    start: Option<u64>,
    asked: u64,
    answered: u64,
    stance: Stance,
    /// So long after the connection came.
    since: u64,
    query_time: u64,
    transaction_time: u64,
}

/// What a client is at by these counts.
fn stance_of(counts: Counts) -> Stance {
    if counts.answered < counts.asked {
        return Stance::Running;
    }
    match counts.status {
        Some(IN_TRANSACTION) => Stance::InTransaction,
        Some(FAILED) => Stance::InFailed,
        _ => Stance::Idle,
    }
}

fn in_microseconds(time: Duration) -> u64 {
    time.as_secs()
        .saturating_mul(MICROSECONDS)
        .saturating_add(time.subsec_micros() as u64)
}

/// What the clock says now.
fn clock<R: Clock>(rt: &R) -> Option<u64> {
    Some(in_microseconds(rt.monotonic().ok()?))
}

/// What it said then.
fn clock_at<R: Clock>(rt: &R, moment: Instant) -> Option<u64> {
    let passed = in_microseconds(moment.elapsed(rt).ok()?);
    Some(clock(rt)?.saturating_sub(passed))
}

impl Reckoning {
    pub fn new() -> Reckoning {
        Reckoning {
            start: None,
            asked: 0,
            answered: 0,
            stance: Stance::Idle,
            since: 0,
            query_time: 0,
            transaction_time: 0,
        }
    }

    /// The connection came then. Without it no time is reckoned.
    pub fn begin<R: Clock>(&mut self, rt: &R, start: Option<Instant>) {
        self.start = match start {
            Some(start) => clock_at(rt, start),
            None => None,
        };
    }

    /// How long ago the connection came.
    fn now<R: Clock>(&self, rt: &R) -> Option<u64> {
        Some(clock(rt)?.saturating_sub(self.start?))
    }

    /// Reckons with these counts, and tells whoever asks. Answers are told though the clock can't be read; the rest is tried again then.
    pub fn tell<R: Clock>(&mut self, rt: &R, tally: &Tally, counts: Counts) {
        // how many were answered tells the rest of the counts too
        if counts.asked == self.asked && counts.answered == self.answered {
            return;
        }
        if counts.answered != self.answered {
            tally.tell_answers(counts.answered, counts.ended);
        }
        let Some(now) = self.now(rt) else {
            return;
        };
        self.stand(tally, stance_of(counts), now);
        self.asked = counts.asked;
        self.answered = counts.answered;
    }

    /// From this moment on the client is at this.
    fn stand(&mut self, tally: &Tally, stance: Stance, now: u64) {
        if stance == self.stance {
            return;
        }
        let passed = now.saturating_sub(self.since);
        if self.stance != Stance::Idle {
            self.transaction_time = self.transaction_time.saturating_add(passed);
        }
        if self.stance == Stance::Running {
            self.query_time = self.query_time.saturating_add(passed);
            tally.tell_query_time(self.query_time);
        }
        if stance == Stance::Idle {
            tally.tell_transaction_time(self.transaction_time);
        }
        tally.tell_stance(stance, now);
        self.stance = stance;
        self.since = now;
    }
}
