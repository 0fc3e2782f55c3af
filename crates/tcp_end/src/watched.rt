//! A connection that a gate minds.

use mio::event::Event;
use mio::unix::SourceFd;
use mio::{Interest, Poll, Token};
use std::os::fd::RawFd;
use std::sync::Arc;
use tcp_notes::notes::Notes;

/// A connection that a poll tells of: at first only of what comes, since nearly every write finds room.
pub(crate) struct Watched {
    notes: Arc<Notes>,
    fd: RawFd,
    token: Token,
}

impl Drop for Watched {
    fn drop(self) {
        let Watched {
            notes: _,
            fd: _,
            token: _,
        } = self;
    }
}

impl Watched {
    /// One with this descriptor, which the poll tells of under this token.
    pub(crate) fn new(notes: Arc<Notes>, fd: RawFd, token: Token) -> Watched {
        Watched { notes, fd, token }
    }

    /// Its notes.
    pub(crate) fn notes(&self) -> &Notes {
        &self.notes
    }

    /// Has the poll tell of room from now on, where a write found too little. Where there is some by now, it tells so at once.
    // written into its caller, as `saw`: each turn looks, and seldom finds anything to ask for
    #[inline(always)]
    pub(crate) fn ask_for_room(&self, poll: &Poll) {
        if !self.notes.wants_room() {
            return;
        }
        let both = Interest::READABLE | Interest::WRITABLE;
        let asked = poll
            .registry()
            .reregister(&mut SourceFd(&self.fd), self.token, both);
        self.notes.asked_for_room(asked.is_ok());
    }

    /// Whether the event is of this connection; then it is noted.
    #[inline(always)]
    pub(crate) fn saw(&self, event: &Event) -> bool {
        let is_own = event.token() == self.token;
        if is_own {
            self.notes.saw(event);
        }
        is_own
    }
}
