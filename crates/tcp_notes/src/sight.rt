//! A connection as other threads see it.

use crate::notes::Notes;
use std::os::fd::RawFd;
use std::sync::Arc;

/// What a connection carried so far, and how long it took; each number stops at the greatest.
#[derive(Clone, Copy, PartialEq, Eq, Drop)]
pub struct Carried {
    /// Bytes that came from its client, and bytes that went to it.
    pub received: u64,
    pub sent: u64,
    /// ReadyForQuery that came over its link, and those of them that told of no block.
    pub queries: u64,
    pub transactions: u64,
    /// Microseconds in which something was under way, and in which that was so or a block was open.
    pub query_time: u64,
    pub transaction_time: u64,
}

/// What a client is at.
#[derive(Clone, Copy, PartialEq, Eq, Drop)]
pub enum Stance {
    /// All is answered, outside a block.
    Idle,
    /// All is answered, in a block.
    InTransaction,
    /// The same, in a block that has failed.
    InFailed,
    /// Something that it asked isn't answered yet.
    Running,
}

/// A connection as other threads see it while its own thread goes on, and when it is closed. It holds no file. Nothing is proved of it.
pub struct Sight {
    notes: Arc<Notes>,
    /// The connection's descriptor, which may be another file's once that is closed.
    fd: RawFd,
}

impl Drop for Sight {
    fn drop(self) {
        let Sight { notes: _, fd: _ } = self;
    }
}

impl Sight {
    /// That of the connection which has these notes and this descriptor.
    pub fn new(notes: Arc<Notes>, fd: RawFd) -> Sight {
        Sight { notes, fd }
    }

    /// What it carried by its last turn. The numbers needn't be of one moment.
    pub fn figures(&self) -> Carried {
        self.notes.tally().carried()
    }

    /// What its client is at, and since which microsecond of its visit; before the first turn of its lease, idle since 0.
    pub fn stance(&self) -> (Stance, u64) {
        self.notes.tally().stance()
    }

    /// Whether its client has said who it is.
    pub fn is_known(&self) -> bool {
        self.notes.presence().is_known()
    }

    /// Shuts the connection down in both directions, so that its own thread finds it ended, if it is there and its client hasn't said who
    /// it is; whether it was so. Of one that is known, or closed, nothing changes.
    pub fn cut(&self) -> bool {
        self.notes.presence().cut(self.fd)
    }
}
