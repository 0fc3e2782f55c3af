//! Connections that nobody uses: one poll minds them all, under their numbers, and tells of those to which something comes, bytes or the
//! end. Of a connection that is minded for the first time it tells what is there already (an edge at its registration), so nothing that
//! came before is missed. One that is closed is minded no more.

use mio::net::TcpStream;
use mio::{Events, Interest, Poll, Registry, Token};
use std::alloc::Global;
use std::io;
use std::net::Net;
use std::time::Duration;

/// As many as one wait tells of; the others are told of by the next.
const MAX_TOLD: usize = 64;

/// Has connections minded by a poll. Any thread may.
pub struct Minder {
    registry: Registry,
}

impl Drop for Minder {
    fn drop(self) {
        let Minder { registry: _ } = self;
    }
}

impl Minder {
    pub(crate) fn mind(&self, stream: &mut TcpStream, number: u64) {
        let _ = self
            .registry
            .register(stream, Token(number as usize), Interest::READABLE);
    }

    pub(crate) fn release(&self, stream: &mut TcpStream) {
        let _ = self.registry.deregister(stream);
    }
}

/// Where it is waited for what comes to the connections that are minded.
pub struct IdlePoll {
    poll: Poll,
    events: Events<Global>,
}

impl Drop for IdlePoll {
    fn drop(self) {
        let IdlePoll { poll: _, events: _ } = self;
    }
}

impl IdlePoll {
    /// One that minds nothing yet. The error is that the system has no more polls, or that an allocation failed.
    pub fn new<R: Net>(rt: &R, alloc: Global) -> io::Result<IdlePoll> {
        Ok(IdlePoll {
            poll: Poll::new(rt)?,
            events: Events::with_capacity(alloc, MAX_TOLD)?,
        })
    }

    /// What has connections minded here. The error is that the system has no more files.
    pub fn minder(&self) -> io::Result<Minder> {
        Ok(Minder {
            registry: self.poll.registry().try_clone()?,
        })
    }

    /// Waits until something comes to one of them, or for so long. The error is that the poll can't wait.
    pub fn wait(&mut self, longest: Duration) -> io::Result<()> {
        self.poll.poll(&mut self.events, Some(longest))
    }

    /// The numbers of those to which something came during the last wait.
    pub fn told(&self) -> Told<'_> {
        Told {
            events: self.events.iter(),
        }
    }
}

/// The numbers that a wait told, one after the other.
pub struct Told<'a> {
    events: mio::event::Iter<'a>,
}

impl<'a> Drop for Told<'a> {
    fn drop(self) {
        let Told { events: _ } = self;
    }
}

impl<'a> Told<'a> {
    /// The next number.
    pub fn next(&mut self) -> Option<u64> {
        let event = self.events.next()?;
        Some(event.token().0 as u64)
    }
}
