//! What a connection and the gate that minds it tell one another, so that neither asks the system in vain. A poll tells of a socket but
//! once for what comes to it; a read that doesn't fill its slice has emptied a socket, and a write that isn't taken whole has filled it
//! (Linux manual, epoll(7), "Questions and answers"). Nothing is proved of it: a try that is left out counts as one that came to nothing.

use crate::presence::Presence;
use crate::tally::Tally;
use mio::event::Event;
use std::io;
use std::io::ErrorKind;
use std::sync::atomic::{AtomicBool, Ordering};

/// The notes of one connection.
pub struct Notes {
    /// A gate minds it.
    is_minded: AtomicBool,
    /// The last read came to something, and may have left more.
    may_have_more: AtomicBool,
    /// The last read came to something, which may call for an answer.
    has_spoken: AtomicBool,
    /// Something was written since a read was last taken for what may call for an answer.
    was_written: AtomicBool,
    /// There is nothing to read until the gate sees an event.
    is_empty: AtomicBool,
    /// There is no room to write until the gate sees an event.
    is_full: AtomicBool,
    /// The poll tells of room to write.
    asks_for_room: AtomicBool,
    /// The peer has sent its last byte, or the socket has an error: no event says so again, so reads are tried until they find it.
    is_closing: AtomicBool,
    /// What other threads read of it.
    tally: Tally,
    presence: Presence,
}

impl Drop for Notes {
    fn drop(self) {
        let Notes {
            is_minded: _,
            may_have_more: _,
            has_spoken: _,
            was_written: _,
            is_empty: _,
            is_full: _,
            asks_for_room: _,
            is_closing: _,
            tally: _,
            presence: _,
        } = self;
    }
}

/// Whether a call that was given room for so many bytes leaves nothing to a further one.
fn is_exhausted(answer: &io::Result<usize>, room: usize) -> bool {
    match answer {
        Ok(count) => 0 < *count && *count < room,
        Err(error) => error.kind() == ErrorKind::WouldBlock,
    }
}

fn get(flag: &AtomicBool) -> bool {
    flag.load(Ordering::SeqCst)
}

/// A store takes a processor far longer than a look, and most find what they would put.
fn set(flag: &AtomicBool, value: bool) {
    if get(flag) != value {
        flag.store(value, Ordering::SeqCst);
    }
}

impl Notes {
    /// Those of a new connection.
    pub fn new() -> Notes {
        Notes {
            is_minded: AtomicBool::new(false),
            may_have_more: AtomicBool::new(true),
            has_spoken: AtomicBool::new(false),
            was_written: AtomicBool::new(false),
            is_empty: AtomicBool::new(false),
            is_full: AtomicBool::new(false),
            asks_for_room: AtomicBool::new(false),
            is_closing: AtomicBool::new(false),
            tally: Tally::new(),
            presence: Presence::new(),
        }
    }

    /// What other threads read of it.
    pub fn tally(&self) -> &Tally {
        &self.tally
    }

    /// Where its client stands.
    pub fn presence(&self) -> &Presence {
        &self.presence
    }

    /// A gate minds the connection from now on, or doesn't. What it doesn't mind is always tried.
    pub fn mind(&self, is_minded: bool) {
        set(&self.is_minded, is_minded);
        set(&self.asks_for_room, false);
        set(&self.may_have_more, true);
        self.open();
    }

    /// There is nothing to read until the gate sees an event, which a poll tells at once where something is there when it begins to mind.
    pub fn await_event(&self) {
        let is_minded = get(&self.is_minded);
        set(&self.is_empty, is_minded);
        set(&self.may_have_more, !is_minded);
    }

    /// A read into a slice of this length was answered so.
    pub fn read(&self, answer: &io::Result<usize>, room: usize) {
        let is_empty = is_exhausted(answer, room);
        // behind the peer's last byte stands its end, of which no further event tells
        let ends = answer.is_ok() && get(&self.is_closing);
        set(&self.is_empty, is_empty);
        set(&self.may_have_more, !is_empty || ends);
        set(&self.has_spoken, answer.is_ok());
    }

    /// A read was given bytes that were read ahead, and perhaps some are left of them.
    pub fn gave(&self, is_left: bool) {
        set(&self.may_have_more, is_left || !self.is_empty());
    }

    /// A write of so many bytes was answered so.
    pub fn wrote(&self, answer: &io::Result<usize>, bytes: usize) {
        set(&self.is_full, is_exhausted(answer, bytes));
        set(&self.was_written, true);
    }

    /// Whether a read would come to nothing.
    pub fn is_empty(&self) -> bool {
        get(&self.is_minded) && get(&self.is_empty) && !get(&self.is_closing)
    }

    /// Whether a write would.
    pub fn is_full(&self) -> bool {
        get(&self.is_minded) && get(&self.is_full)
    }

    /// Whether a write found too little room, and the poll doesn't tell of it yet.
    pub fn wants_room(&self) -> bool {
        self.is_full() && !get(&self.asks_for_room)
    }

    /// The poll tells of room from now on, where it could be asked.
    pub fn asked_for_room(&self, was_asked: bool) {
        set(&self.asks_for_room, was_asked);
    }

    /// Whether the last read may have left more; asked once.
    pub fn take_more(&self) -> bool {
        self.may_have_more.swap(false, Ordering::SeqCst)
    }

    /// Whether the last read came to something, the first one behind a write; asked once. Further bytes of one answer call for nothing
    /// that the first ones didn't.
    pub fn take_spoken(&self) -> bool {
        self.has_spoken.swap(false, Ordering::SeqCst)
            && self.was_written.swap(false, Ordering::SeqCst)
    }

    /// There may be bytes again.
    pub fn expect_more(&self) {
        set(&self.may_have_more, true);
    }

    /// Both are to be tried again.
    pub fn open(&self) {
        set(&self.is_empty, false);
        set(&self.is_full, false);
    }

    /// The gate saw this event of the connection.
    pub fn saw(&self, event: &Event) {
        if event.is_read_closed() || event.is_error() {
            set(&self.is_closing, true);
        }
        self.open();
    }
}
