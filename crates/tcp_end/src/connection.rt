//! A TCP connection as an end of a lease: a server's or a client's.
ghost use Rattle.std.specs.Prelude.{◌≡◌, ◌≢◌, ◌<◌, ◌-◌, ◌^◌, length, min, false, IfOk, None, Some};
ghost use Rattle.server_end.specs.Moves.{ClientWrites, IsWithin, moved};
ghost use Rattle.tcp_end.specs.Connections.{Reads, Sends, facts_of, has_ended, is_broken, new_connection};
ghost use Rattle.server_end.specs.declared.Moved.TheVariants.{Ended};

use crate::ahead::AHEAD;
use crate::counted::Counted;
use crate::destination::Destination;
use crate::idle::Minder;
use crate::socket::Socket;
use crate::watched::Watched;
use mio::net::TcpStream;
use mio::{Poll, Token};
use server_end::{ClientEnd, Moved, ServerEnd};
use std::alloc::{AllocError, Global};
use std::marker::Model;
use tcp_notes::sight::Sight;
use tcp_reach::stream::Stream;

/// A TCP connection. While a gate minds it, it answers [`Moved::NotNow`] without a call of the system where the last read has emptied
/// its socket, or the last write filled it, until the gate has seen an event. A read of none of the peer's bytes, when it has sent
/// its last, is the end of its input: no further read is tried, and a server's end isn't written to either. After a fault, or at the
/// last count that a number of eight bytes has, nothing is tried any more.
///
/// A client's end takes the first AuthenticationOk that it is given in one write without a call of the system, and holds it: it goes out in
/// one call with the next bytes that are given, in front of them. No event and no read sends it. So a client that waits for a link is told
/// nothing meanwhile, and gets AuthenticationOk with its welcome or with its refusal, as PgBouncer gives both at once. What is held when
/// the end is dropped, or when the peer has gone, is lost. A write that sends no more than what is held comes to nothing for its own
/// bytes. A server's end holds nothing.
///
/// A client's end reads ahead: a read into fewer than 512 bytes' room asks the system for 512, is given its share of what came, and the
/// reads behind it are given the rest without a call of the system. A read into more room is made straight into it once nothing is left of
/// that. So a packet that is read in pieces costs one call. A server's end reads nothing ahead.
///
/// Nothing is claimed of what the peer is or does: as a server's end it follows no server, though it tells what it accepted and what
/// it gave, and as a client's it doesn't tell its bytes. Clauses read of one that was dialled to which place its stream was made.
pub struct TcpEnd {
    /// Allocated: an end moves through many frames of its thread's stack, where each byte of it would take its room in each.
    socket: Box<Socket>,
    accepted: Counted,
    given: Counted,
    /// The peer has sent its last byte.
    input_ended: bool,
    faults: u64,
    read_waits: u64,
    write_waits: u64,
    destination: Destination,
}

impl Drop for TcpEnd {
    fn drop(self) {
        let TcpEnd {
            socket: _,
            accepted: _,
            given: _,
            input_ended: _,
            faults: _,
            read_waits: _,
            write_waits: _,
            destination: _,
        } = self;
    }
}

impl Model for TcpEnd {
    ghost use Rattle.tcp_end.specs.Connections.{ConnectionOf};

    ghost Value = { ConnectionOf };

    ghost view = { λ e. record {
      accepted = e.accepted;
      given = e.given;
      input_ended = e.input_ended;
      faults = e.faults;
      read_waits = e.read_waits;
      write_waits = e.write_waits;
      place = e.destination.place;
    } };
}

impl TcpEnd {
    /// A new end of this stream. The only error is that an allocation failed, which closes the connection.
    fn new(alloc: Global, stream: TcpStream, destination: Destination) -> Result<TcpEnd, AllocError>
        ensures { IfOk result (λ e. e ≡ new_connection destination.place) }
    {
        let _ = stream.set_nodelay(true);
        Ok(TcpEnd {
            socket: Box::new(alloc, Socket::new(alloc, stream)?)?,
            accepted: Counted::new(),
            given: Counted::new(),
            input_ended: false,
            faults: 0,
            read_waits: 0,
            write_waits: 0,
            destination,
        })
    }

    /// The end of a connection that is there, as one that was accepted. Its small packets are sent at once (TCP_NODELAY); that
    /// they can't is ignored. The only error is that an allocation failed, which closes the connection.
    pub fn from_stream(alloc: Global, stream: TcpStream) -> Result<TcpEnd, AllocError>
        ensures { IfOk result (λ e. e ≡ new_connection None) }
    {
        TcpEnd::new(alloc, stream, Destination::unknown())
    }

    /// The same of a stream to a server, over which nothing was sent.
    pub fn dialled(alloc: Global, stream: Stream) -> Result<TcpEnd, AllocError>
        ensures { IfOk result (λ e. e ≡ new_connection (Some stream.place)) }
    {
        let (stream, place) = stream.into_parts();
        TcpEnd::new(alloc, stream, Destination::of(&place))
    }

    /// Has the poll tell of this connection under this token; what its gate keeps of it. That the poll can't is ignored. The error is that
    /// an allocation failed.
    pub(crate) fn watched(&mut self, poll: &Poll, token: Token) -> Result<Watched, AllocError>
        ensures { self.new ≡ self.old }
    {
        self.socket.watched(poll, token)
    }

    /// Has the poll tell of it no more.
    pub(crate) fn deregister(&mut self, poll: &Poll)
        ensures { self.new ≡ self.old }
    {
        self.socket.deregister(poll);
    }

    /// From now on the minder's poll tells of this connection, which nobody uses, under this number. That it can't is ignored.
    pub fn mind(&mut self, minder: &Minder, number: u64)
        ensures { self.new ≡ self.old }
    {
        self.socket.mind(minder, number);
    }

    /// From now on it doesn't.
    pub fn release(&mut self, minder: &Minder)
        ensures { self.new ≡ self.old }
    {
        self.socket.release(minder);
    }

    /// How many bytes reads of it gave, and how many it accepted; each number stops at the greatest.
    pub fn moved(&self) -> (u64, u64)
        ensures given { result.0 ≡ min (length self.now.given) (2 ^ 64 - 1) }
        ensures accepted { result.1 ≡ min (length self.now.accepted) (2 ^ 64 - 1) }
    {
        (self.given.count(), self.accepted.count())
    }

    /// The connection as other threads see it. The error is that an allocation failed.
    pub fn sight(&self) -> Result<Sight, AllocError> {
        self.socket.sight()
    }

    fn is_broken(&self) -> bool
        ensures { result ≡ is_broken self.now }
    {
        self.faults > 0 || self.read_waits == u64::MAX || self.write_waits == u64::MAX
    }

    fn has_ended(&self) -> bool
        ensures { result ≡ has_ended self.now }
    {
        self.input_ended || self.is_broken()
    }

    /// Reads once, for either kind of end; ahead for a slice of fewer than `least` bytes.
    fn read(&mut self, into: &mut [u8], least: usize) -> Moved
        requires { 0 < length into.old }
        ensures within { IsWithin result (length into.old) }
        ensures reads { Reads self.old self.new into.new result }
    {
        if self.has_ended() {
            return Moved::Ended;
        }
        let moved = self.socket.read(into, least);
        match moved {
            Moved::Count(count) => {
                self.given.note(&into[..count]);
                self.socket.tell_received(self.given.count());
            }
            Moved::NotNow => self.read_waits += 1,
            Moved::Ended => self.input_ended = true,
            Moved::Fault => self.faults += 1,
        }
        moved
    }

    /// Writes once, to a stream that isn't broken.
    fn write(&mut self, from: &[u8]) -> Moved
        requires bytes { 0 < length from.now }
        requires whole { is_broken self.old ≡ false }
        ensures within { IsWithin result (length from.now) }
        ensures sends { Sends self.old self.new from.now result }
    {
        let moved = self.socket.write(from);
        match moved {
            Moved::Count(count) => {
                self.accepted.note(&from[..count]);
                self.socket.tell_sent(self.accepted.count());
            }
            Moved::NotNow => self.write_waits += 1,
            Moved::Ended => {}
            Moved::Fault => self.faults += 1,
        }
        moved
    }

    /// Writes once to a client, to a stream that isn't broken. AuthenticationOk waits for what follows it.
    fn write_or_hold(&mut self, from: &[u8]) -> Moved
        requires bytes { 0 < length from.now }
        requires whole { is_broken self.old ≡ false }
        ensures within { IsWithin result (length from.now) }
        ensures sends { Sends self.old self.new from.now result }
    {
        if self.socket.defer(from) {
            self.accepted.note(from);
            return Moved::Count(from.len());
        }
        self.write(from)
    }
}

impl ServerEnd for TcpEnd {
    ghost use Rattle.tcp_end.specs.Connections.{standing_of};

    ghost standing = { λ e. standing_of e };

    fn read_some(&mut self, into: &mut [u8]) -> Moved {
        self.read(into, 0)
    }

    fn write_some(&mut self, from: &[u8]) -> Moved {
        if self.has_ended() {
            return Moved::Ended;
        }
        self.write(from)
    }

    fn faults(&self) -> u64 {
        self.faults
    }

    fn waits(&self) -> (u64, u64) {
        (self.read_waits, self.write_waits)
    }
}

impl ClientEnd for TcpEnd {
    ghost use Rattle.tcp_end.specs.Connections.{facts_of};

    ghost facts = { λ e. facts_of e };

    fn read_some(&mut self, into: &mut [u8]) -> Moved {
        self.read(into, AHEAD)
    }

    /// An end whose input has ended is still written to.
    fn write_some(&mut self, from: &[u8]) -> Moved
        requires { 0 < length from.now }
        ensures within { IsWithin result (length from.now) }
        ensures writes { ClientWrites (facts_of self.old) (facts_of self.new) (moved result from.now) result }
        ensures still { is_broken self.old ≡ false → result ≢ Ended }
    {
        if self.is_broken() {
            return Moved::Ended;
        }
        self.write_or_hold(from)
    }

    fn faults(&self) -> u64 {
        self.faults
    }

    fn waits(&self) -> (u64, u64) {
        (self.read_waits, self.write_waits)
    }
}
