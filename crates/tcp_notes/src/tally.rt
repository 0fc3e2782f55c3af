//! What a connection's thread tells of it to whoever asks: words that it alone writes. Nothing is proved of what others read in them, nor
//! that words that are read one behind the other are of one moment.

use crate::sight::{Carried, Stance};
use std::sync::atomic::{AtomicU64, Ordering};

/// So many stances there are: a stance and its moment are one word.
const STANCES: u64 = 4;

/// The words of one connection.
pub struct Tally {
    received: AtomicU64,
    sent: AtomicU64,
    queries: AtomicU64,
    transactions: AtomicU64,
    query_time: AtomicU64,
    transaction_time: AtomicU64,
    /// What the client is at, and since which microsecond of its visit: so many times that, and the stance's place.
    stance: AtomicU64,
}

impl Drop for Tally {
    fn drop(self) {
        let Tally {
            received: _,
            sent: _,
            queries: _,
            transactions: _,
            query_time: _,
            transaction_time: _,
            stance: _,
        } = self;
    }
}

fn get(word: &AtomicU64) -> u64 {
    word.load(Ordering::SeqCst)
}

fn set(word: &AtomicU64, value: u64) {
    word.store(value, Ordering::SeqCst);
}

/// The place of a stance among them.
fn place_of(stance: Stance) -> u64 {
    match stance {
        Stance::Idle => 0,
        Stance::InTransaction => 1,
        Stance::InFailed => 2,
        Stance::Running => 3,
    }
}

fn stance_at(place: u64) -> Stance {
    match place {
        0 => Stance::Idle,
        1 => Stance::InTransaction,
        2 => Stance::InFailed,
        _ => Stance::Running,
    }
}

impl Tally {
    /// That of a new connection.
    pub fn new() -> Tally {
        Tally {
            received: AtomicU64::new(0),
            sent: AtomicU64::new(0),
            queries: AtomicU64::new(0),
            transactions: AtomicU64::new(0),
            query_time: AtomicU64::new(0),
            transaction_time: AtomicU64::new(0),
            stance: AtomicU64::new(0),
        }
    }

    /// So many bytes came in all.
    pub fn tell_received(&self, count: u64) {
        set(&self.received, count);
    }

    /// So many went.
    pub fn tell_sent(&self, count: u64) {
        set(&self.sent, count);
    }

    /// So many answers came in all, and of them so many that ended a transaction.
    pub fn tell_answers(&self, queries: u64, transactions: u64) {
        set(&self.queries, queries);
        set(&self.transactions, transactions);
    }

    /// So many microseconds in all, in which a query was under way.
    pub fn tell_query_time(&self, time: u64) {
        set(&self.query_time, time);
    }

    /// So many in transactions that are over.
    pub fn tell_transaction_time(&self, time: u64) {
        set(&self.transaction_time, time);
    }

    pub fn tell_stance(&self, stance: Stance, since: u64) {
        let word = since
            .saturating_mul(STANCES)
            .saturating_add(place_of(stance));
        set(&self.stance, word);
    }

    pub fn carried(&self) -> Carried {
        Carried {
            received: get(&self.received),
            sent: get(&self.sent),
            queries: get(&self.queries),
            transactions: get(&self.transactions),
            query_time: get(&self.query_time),
            transaction_time: get(&self.transaction_time),
        }
    }

    pub fn stance(&self) -> (Stance, u64) {
        let word = get(&self.stance);
        (stance_at(word % STANCES), word / STANCES)
    }
}
