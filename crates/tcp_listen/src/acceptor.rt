//! The connections that clients make.
ghost use Rattle.std.specs.Prelude.{◌≡◌};
ghost use Rattle.tcp_listen.specs.Turns as spec;

use crate::listener::{Listener, Peer};
use mio::net::TcpStream;
use mio::{Events, Poll, Token};
use std::alloc::Global;
use std::io;
use std::io::ErrorKind;
use std::net::Net;
use tcp_end::connection::TcpEnd;
use time_limits::LISTENING_TURN;

/// After so many connections all listeners are looked at again, though no event was waited for: one at which there always is another
/// connection would else be the only one.
const MAX_IN_A_ROW: u32 = 8;

/// What a turn came to.
#[derive(Drop)]
pub enum Turn {
    /// The end of the next connection, and where it comes from.
    Client(TcpEnd, Peer),
    /// None came within [`LISTENING_TURN`], or it went again.
    Nobody,
    /// One couldn't be had: an allocation failed, or the system has no more files. The turns after this may have it.
    Failed,
}

/// A listener among those of a poll.
#[derive(Drop)]
struct Watched {
    listener: Listener,
    /// A connection may wait there.
    may_have: bool,
}

/// Listeners, and where one waits for the next connection to any of them.
pub struct Acceptor {
    alloc: Global,
    listeners: Vec<Watched>,
    /// The one that is looked at first.
    next: usize,
    /// So many connections were had since all were looked at.
    in_a_row: u32,
    poll: Poll,
    events: Events<Global>,
}

impl Drop for Acceptor {
    fn drop(self) {
        let Acceptor {
            alloc: _,
            listeners: _,
            next: _,
            in_a_row: _,
            poll: _,
            events: _,
        } = self;
    }
}

/// Whether a connection was there, by the error that was answered in its place, and couldn't be had.
fn is_failure(kind: ErrorKind) -> bool
    ensures { result ≡ spec.is_failure kind }
{
    !matches!(
        kind,
        ErrorKind::WouldBlock | ErrorKind::Interrupted | ErrorKind::ConnectionAborted
    )
}

impl Acceptor {
    /// Waits at these listeners. The error is that the system has no more polls, or that an allocation failed.
    pub fn new<R: Net>(rt: &R, alloc: Global, listeners: Vec<Listener>) -> io::Result<Acceptor> {
        let poll = Poll::new(rt)?;
        let events = Events::with_capacity(alloc, listeners.len().max(1))?;
        let mut watched = Vec::new(alloc);
        for mut listener in listeners {
            listener.register(&poll, Token(watched.len()))?;
            watched.push(Watched {
                listener,
                may_have: true,
            })?;
        }
        Ok(Acceptor {
            alloc,
            listeners: watched,
            next: 0,
            in_a_row: 0,
            poll,
            events,
        })
    }

    /// The next listener at which a connection may wait.
    fn next_open(&self) -> Option<usize> {
        let (before, from) = self.listeners.split_at(self.next.min(self.listeners.len()));
        for (place, watched) in from.iter().enumerate() {
            if watched.may_have {
                return Some(before.len() + place);
            }
        }
        before.iter().position(|watched| watched.may_have)
    }

    /// A connection was had at this place.
    fn had(&mut self, place: usize) {
        self.next = place.saturating_add(1);
        self.in_a_row = self.in_a_row.saturating_add(1);
        if self.in_a_row < MAX_IN_A_ROW {
            return;
        }
        self.in_a_row = 0;
        for watched in &mut self.listeners {
            watched.may_have = true;
        }
    }

    /// Waits for a connection, for at most [`LISTENING_TURN`]. Without an event all are looked at again.
    fn wait(&mut self) {
        let _ = self
            .poll
            .poll(&mut self.events, Some(LISTENING_TURN.duration()));
        let is_idle = self.events.is_empty();
        for watched in &mut self.listeners {
            watched.may_have = watched.may_have || is_idle;
        }
        for event in self.events.iter() {
            if let Some(watched) = self.listeners.get_mut(event.token().0) {
                watched.may_have = true;
            }
        }
    }

    /// A listener answered this in a connection's place.
    fn refused(&mut self, place: usize, kind: ErrorKind) -> Turn
        ensures { spec.IsTurn result }
    {
        // one that went again is no reason to wait: more may stand behind it
        if kind == ErrorKind::ConnectionAborted {
            return Turn::Nobody;
        }
        if let Some(watched) = self.listeners.get_mut(place) {
            watched.may_have = false;
        }
        if !is_failure(kind) {
            return Turn::Nobody;
        }
        self.wait();
        Turn::Failed
    }

    /// The next connection, which may have waited already.
    pub fn turn(&mut self) -> Turn
        ensures { spec.IsTurn result }
    {
        let Some(place) = self.next_open() else {
            self.wait();
            return Turn::Nobody;
        };
        let Some(watched) = self.listeners.get(place) else {
            return Turn::Nobody;
        };
        match watched.listener.accept() {
            Ok((stream, Some(peer))) => {
                self.had(place);
                client_of(self.alloc, stream, peer)
            }
            Ok((_, None)) => Turn::Failed,
            Err(error) => self.refused(place, error.kind()),
        }
    }
}

/// The end of a connection from there.
fn client_of(alloc: Global, stream: TcpStream, peer: Peer) -> Turn
    ensures { spec.IsTurn result }
{
    match TcpEnd::from_stream(alloc, stream) {
        Ok(client) => Turn::Client(client, peer),
        Err(_) => Turn::Failed,
    }
}
