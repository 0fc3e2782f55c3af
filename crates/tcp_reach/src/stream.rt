//! Streams to the places of servers, and where they lead. What a socket gives and takes no contract says; so a stream is made of a place in
//! one function, and keeps it.
ghost use Rattle.std.specs.Prelude.{◌≡◌, ◌++◌, IfOk, OnErr};
ghost use Rattle.tcp_reach.specs.Streams.{new_stream};

use crate::places::{Address, Place, socket_path};
use keep_alive::Keepalive;
use mio::net::{TcpStream, UnixStream};
use mio::{Interest, Poll, Token};
use server_end::transcript::Transcript;
use std::alloc::Global;
use std::io;
use std::io::{ErrorKind, Read, Write};
use std::marker::Model;
use std::net::Net;
use std::os::fd::OwnedFd;

/// How far a connection has come.
pub(crate) enum Connecting {
    Underway,
    Connected,
    Failed(io::Error),
}

/// A stream to a place: connected, or on its way to be. Contracts see where it leads, and what was sent over it before it is handed on.
pub struct Stream {
    socket: TcpStream,
    place: Place,
    sent: Transcript,
}

impl Drop for Stream {
    fn drop(self) {
        let Stream {
            socket: _,
            place: _,
            sent: _,
        } = self;
    }
}

impl Model for Stream {
    ghost use Rattle.tcp_reach.specs.Streams.{StreamOf};

    ghost Value = { StreamOf };

    ghost view = { λ s. record { place = s.place; sent = s.sent.bytes } };
}

/// All that was sent over a stream, and where it led. It takes no memory to keep the bytes: clauses alone read them.
pub struct Sent {
    place: Place,
    sent: Transcript,
}

impl Drop for Sent {
    fn drop(self) {
        let Sent { place: _, sent: _ } = self;
    }
}

impl Model for Sent {
    ghost use Rattle.tcp_reach.specs.Streams.{StreamOf};

    ghost Value = { StreamOf };

    ghost view = { λ s. record { place = s.place; sent = s.sent.bytes } };
}

/// A Unix socket as a stream: the system's calls for both are the same.
pub fn as_stream(stream: UnixStream) -> TcpStream {
    TcpStream::from(OwnedFd::from(stream))
}

/// A socket to this place: connected, or on its way to be where it is reached over IP.
fn socket_to<R: Net>(rt: &R, alloc: Global, place: &Place) -> io::Result<TcpStream> {
    if let Address::Ip(address) = place.address() {
        return TcpStream::connect(rt, address);
    }
    let Ok(folder) = std::str::from_utf8(place.host()) else {
        return Err(io::Error::from(ErrorKind::InvalidInput));
    };
    let path = socket_path(alloc, folder, place.port())?;
    Ok(as_stream(UnixStream::connect(rt, &path)?))
}

impl Stream {
    /// A stream to this place: connected, or on its way to be where it is reached over IP. The error is the system's, or that an allocation
    /// failed.
    pub fn to<R: Net>(rt: &R, alloc: Global, place: &Place) -> io::Result<Stream>
        ensures { IfOk result (λ s. s ≡ new_stream place.now) }
    {
        Ok(Stream {
            socket: socket_to(rt, alloc, place)?,
            place: *place,
            sent: Transcript::new(),
        })
    }

    /// The stream of the system, for who moves bytes over it from now on, and where it leads.
    pub fn into_parts(self) -> (TcpStream, Place)
        ensures { result.1 ≡ self.place }
    {
        let Stream {
            socket,
            place,
            sent: _,
        } = self;
        (socket, place)
    }

    /// Closes it; what was sent, and where.
    pub(crate) fn close(self) -> Sent
        ensures { result ≡ self }
    {
        let Stream {
            socket: _,
            place,
            sent,
        } = self;
        Sent { place, sent }
    }

    /// Keeps the connection alive so.
    pub(crate) fn keep(&self, keepalive: &Keepalive) {
        keepalive.keep(&self.socket);
    }

    /// Where it leads.
    pub fn place(&self) -> Place
        ensures { result ≡ self.now.place }
    {
        self.place
    }

    pub(crate) fn progress(&self) -> Connecting {
        match self.socket.take_error() {
            Ok(None) => {}
            Ok(Some(error)) | Err(error) => return Connecting::Failed(error),
        }
        match self.socket.peer_addr() {
            Ok(_) => Connecting::Connected,
            Err(_) => Connecting::Underway,
        }
    }

    /// Has the poll tell of it.
    pub(crate) fn register(&mut self, poll: &Poll, interest: Interest) -> io::Result<()>
        ensures { self.new ≡ self.old }
    {
        poll.registry()
            .register(&mut self.socket, Token(0), interest)
    }

    /// Sends these bytes, which are few. The error is the system's: then some of them may have gone.
    pub(crate) fn send(&mut self, bytes: &[u8]) -> io::Result<()>
        ensures sent { IfOk result (λ _. self.new ≡ record self.old { sent = self.old.sent ++ bytes.now }) }
        ensures unsent { OnErr result (self.new ≡ self.old) }
    {
        self.socket.write_all(bytes)?;
        self.sent.note(bytes);
        Ok(())
    }

    /// Whether the other side has closed it, or it is broken. What comes over it is dropped.
    pub(crate) fn is_closed(&mut self) -> bool
        ensures { self.new ≡ self.old }
    {
        let mut dropped = [0u8; 64];
        match self.socket.read(&mut dropped) {
            Ok(count) => count == 0,
            Err(error) => !matches!(error.kind(), ErrorKind::WouldBlock | ErrorKind::Interrupted),
        }
    }
}
