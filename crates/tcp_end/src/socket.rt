//! The socket of a connection, and what is kept beside it so that the system isn't called in vain.
ghost use Rattle.std.specs.Prelude.{◌≡◌, ◌≢◌, ◌<◌, List, ℕ, Option, [], length, true};
ghost use Rattle.std.specs.Io.KnownBytes.{Consumes};
ghost use Rattle.server_end.specs.Moves.{IsWithin, moved};
ghost use Rattle.tcp_end.specs.Connections as spec;
ghost use Rattle.tcp_end.specs.Reading.{IsFilled, to_come};
ghost use Rattle.message_view.specs.declared.writers.TheConstants.{AUTHENTICATION_OK};
ghost use Rattle.server_end.specs.declared.Moved.TheVariants.{Ended};

use crate::ahead::{AHEAD, Ahead};
use crate::deferred::{Deferred, PACKET};
use crate::idle::Minder;
use crate::watched::Watched;
use mio::net::TcpStream;
use mio::{Interest, Poll, Token};
use server_end::Moved;
use std::alloc::{AllocError, Global};
use std::io;
use std::io::{ErrorKind, Read, Write};
use std::os::fd::AsRawFd;
use std::sync::Arc;
use tcp_notes::notes::Notes;
use tcp_notes::sight::Sight;

/// The socket of a connection.
pub(crate) struct Socket {
    stream: TcpStream,
    /// Nothing at a server's end.
    deferred: Deferred,
    /// The same.
    ahead: Ahead,
    /// Its gate has them too.
    notes: Arc<Notes>,
}

impl Drop for Socket {
    fn drop(self) {
        // before its descriptor is closed, and may be another file's
        self.notes.presence().leave();
        let Socket {
            stream: _,
            deferred: _,
            ahead: _,
            notes: _,
        } = self;
    }
}

/// What an error of a stream is for its end.
fn stopped(kind: ErrorKind) -> Moved
    ensures { result ≡ spec.stopped kind }
{
    match kind {
        ErrorKind::WouldBlock | ErrorKind::Interrupted => Moved::NotNow,
        _ => Moved::Fault,
    }
}

/// What a read of a stream is for its end. It was given room, so none at all is the end of the input.
fn read_outcome(answer: io::Result<usize>) -> Moved
    ensures { result ≡ spec.read_outcome answer }
{
    match answer {
        Ok(0) => Moved::Ended,
        Ok(count) => Moved::Count(count),
        Err(error) => stopped(error.kind()),
    }
}

/// What a write to a stream is for its end. It was given bytes, so a stream that takes none is broken.
fn write_outcome(answer: io::Result<usize>) -> Moved
    ensures { result ≡ spec.write_outcome answer }
{
    match answer {
        Ok(0) => Moved::Fault,
        Ok(count) => Moved::Count(count),
        Err(error) => stopped(error.kind()),
    }
}

/// Reads once of a stream.
// written into no caller, as the next: most reads come to nothing, and need no room for an answer
#[inline(never)]
fn read_once<R: Read>(stream: &mut R, notes: &Notes, into: &mut [u8]) -> Moved
    requires { 0 < length into.old }
    ensures within { IsWithin result (length into.old) }
    ensures bytes { Consumes (R.remaining stream.old) (R.remaining stream.new) (moved result into.new) }
{
    let room = into.len();
    let answer = stream.read(into);
    notes.read(&answer, room);
    read_outcome(answer)
}

/// Reads once of a stream ahead.
#[inline(never)]
fn fill_once<R: Read>(stream: &mut R, notes: &Notes, ahead: &mut Ahead) -> Moved
    requires { ahead.old ≡ [] }
    ensures filled { IsFilled result ahead.new }
    ensures bytes { Consumes (R.remaining stream.old) (R.remaining stream.new) ahead.new }
{
    let answer = ahead.fill(stream);
    notes.read(&answer, AHEAD);
    read_outcome(answer)
}

/// Gives of what was read ahead.
fn give(notes: &Notes, ahead: &mut Ahead, into: &mut [u8]) -> Moved
    requires some { 0 < length ahead.old }
    requires room { 0 < length into.old }
    ensures within { IsWithin result (length into.old) }
    ensures bytes { (rest : Option (List ℕ)) → Consumes (to_come ahead.old rest) (to_come ahead.new rest) (moved result into.new) }
{
    let count = ahead.give(into);
    notes.gave(!ahead.is_empty());
    Moved::Count(count)
}

/// Reads once: what was read ahead, while there is some. Else of the stream, where it may come to something: ahead for a slice of
/// fewer than `least` bytes, and straight into any other.
fn read_by<R: Read>(
    stream: &mut R,
    notes: &Notes,
    ahead: &mut Ahead,
    into: &mut [u8],
    least: usize,
) -> Moved
    requires { 0 < length into.old }
    ensures within { IsWithin result (length into.old) }
    ensures bytes { Consumes (to_come ahead.old (R.remaining stream.old)) (to_come ahead.new (R.remaining stream.new)) (moved result into.new) }
{
    if !ahead.is_empty() {
        return give(notes, ahead, into);
    }
    if notes.is_empty() {
        return Moved::NotNow;
    }
    if least <= into.len() {
        return read_once(stream, notes, into);
    }
    match fill_once(stream, notes, ahead) {
        Moved::Count(_) => give(notes, ahead, into),
        none => none,
    }
}

/// Writes once to a stream, where it may come to something.
fn write_once(stream: &mut TcpStream, notes: &Notes, from: &[u8]) -> Moved
    requires { 0 < length from.now }
    ensures within { IsWithin result (length from.now) }
    ensures some { result ≢ Ended }
{
    if notes.is_full() {
        return Moved::NotNow;
    }
    let answer = stream.write(from);
    notes.wrote(&answer, from.len());
    write_outcome(answer)
}

impl Socket {
    /// That of a stream. The only error is that an allocation failed, which closes it.
    pub(crate) fn new(alloc: Global, stream: TcpStream) -> Result<Socket, AllocError> {
        Ok(Socket {
            stream,
            deferred: Deferred::new(),
            ahead: Ahead::new(alloc)?,
            notes: Arc::new(alloc, Notes::new())?,
        })
    }

    /// Has the poll tell of what comes under this token; what a gate keeps of it. That the poll can't is ignored. The error is that an
    /// allocation failed.
    pub(crate) fn watched(&mut self, poll: &Poll, token: Token) -> Result<Watched, AllocError> {
        let notes = Arc::try_clone(&self.notes)?;
        let registered = poll
            .registry()
            .register(&mut self.stream, token, Interest::READABLE);
        notes.mind(registered.is_ok());
        Ok(Watched::new(notes, self.stream.as_raw_fd(), token))
    }

    /// The connection as other threads see it. The error is that an allocation failed.
    pub(crate) fn sight(&self) -> Result<Sight, AllocError> {
        let notes = Arc::try_clone(&self.notes)?;
        Ok(Sight::new(notes, self.stream.as_raw_fd()))
    }

    /// So many bytes came in all.
    pub(crate) fn tell_received(&self, count: u64) {
        self.notes.tally().tell_received(count);
    }

    /// So many went.
    pub(crate) fn tell_sent(&self, count: u64) {
        self.notes.tally().tell_sent(count);
    }

    /// Has the poll tell of it no more.
    pub(crate) fn deregister(&mut self, poll: &Poll) {
        let _ = poll.registry().deregister(&mut self.stream);
        self.notes.mind(false);
    }

    /// Has the minder's poll tell of what comes under this number. That it can't is ignored.
    pub(crate) fn mind(&mut self, minder: &Minder, number: u64) {
        minder.mind(&mut self.stream, number);
    }

    /// Has it tell of it no more.
    pub(crate) fn release(&mut self, minder: &Minder) {
        minder.release(&mut self.stream);
    }

    /// Holds these bytes, where they are the first AuthenticationOk; whether they are.
    pub(crate) fn defer(&mut self, from: &[u8]) -> bool
        ensures { result ≡ true → from.now ≡ AUTHENTICATION_OK }
    {
        self.deferred.take(from)
    }

    /// Reads once, where it may come to something; ahead for a slice of fewer than `least` bytes.
    pub(crate) fn read(&mut self, into: &mut [u8], least: usize) -> Moved
        requires { 0 < length into.old }
        ensures within { IsWithin result (length into.old) }
    {
        read_by(&mut self.stream, &self.notes, &mut self.ahead, into, least)
    }

    /// Writes once, where it may come to something; behind what is held.
    pub(crate) fn write(&mut self, from: &[u8]) -> Moved
        requires { 0 < length from.now }
        ensures within { IsWithin result (length from.now) }
        ensures some { result ≢ Ended }
    {
        if self.deferred.is_empty() {
            return write_once(&mut self.stream, &self.notes, from);
        }
        self.write_packet(from)
    }

    /// Writes once what is held, and behind it as many of these bytes as have room.
    fn write_packet(&mut self, from: &[u8]) -> Moved
        requires { 0 < length from.now }
        ensures within { IsWithin result (length from.now) }
        ensures some { result ≢ Ended }
    {
        let mut packet = [0u8; PACKET];
        let count = self.deferred.fill(&mut packet, from);
        let moved = write_once(&mut self.stream, &self.notes, &packet[..count]);
        self.deferred.wrote(moved)
    }
}
