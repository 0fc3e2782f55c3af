//! Whether a connection's client has said who it is; and the cut of one that hasn't, by another thread.
//!
//! Why no other file is shut down in its place. A cut takes the word from `STRANGER` to `CUTTING`, shuts the descriptor down, and takes
//! the word on to `OVER`; and a connection closes its descriptor only once it has found the word to be neither of the first two. So a
//! descriptor that is shut down is still the connection's own. Nothing is proved of it.

use libc::net::{SHUT_RDWR, shutdown};
use std::hint::spin_loop;
use std::os::fd::RawFd;
use std::sync::atomic::{AtomicU64, Ordering};
use time_limits::MAX_TURNS;

/// The connection is there, and its client hasn't said who it is.
const STRANGER: u64 = 0;

/// The same, and at this moment another thread shuts it down.
const CUTTING: u64 = 1;

/// Its client has said who it is.
const KNOWN: u64 = 2;

/// It was shut down or closed before its client said so.
const OVER: u64 = 3;

/// Where a connection's client stands.
pub struct Presence {
    word: AtomicU64,
}

impl Drop for Presence {
    fn drop(self) {
        let Presence { word: _ } = self;
    }
}

impl Presence {
    /// That of a stranger.
    pub fn new() -> Presence {
        Presence {
            word: AtomicU64::new(STRANGER),
        }
    }

    /// Of a stranger this becomes of it; where it stood before.
    fn step(&self, to: u64) -> u64 {
        let stepped = self
            .word
            .compare_exchange(STRANGER, to, Ordering::SeqCst, Ordering::SeqCst);
        match stepped {
            Ok(before) | Err(before) => before,
        }
    }

    /// The client has said who it is. One whose connection is cut stays a stranger.
    pub fn know(&self) {
        let _ = self.step(KNOWN);
    }

    pub fn is_known(&self) -> bool {
        self.word.load(Ordering::SeqCst) == KNOWN
    }

    /// Shuts the connection of this descriptor down in both directions, if its client is a stranger; whether it was.
    pub fn cut(&self, fd: RawFd) -> bool {
        if self.step(CUTTING) != STRANGER {
            return false;
        }
        let _ = shutdown(fd, SHUT_RDWR);
        self.word.store(OVER, Ordering::SeqCst);
        true
    }

    /// The descriptor is to be closed: from now on nobody shuts it down. It is waited for one who does so at this moment, for as long as
    /// that call takes.
    pub fn leave(&self) {
        for _ in 0..MAX_TURNS {
            if self.step(OVER) != CUTTING {
                return;
            }
            spin_loop();
        }
    }
}
