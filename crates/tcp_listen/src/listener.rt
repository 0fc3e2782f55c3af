//! The sockets to which clients connect. No contract says what comes to one; so a listener is bound to its place in one function, and keeps
//! it.
ghost use Rattle.std.specs.Prelude.{◌≡◌, IfOk};

use arrayvec::ArrayString;
use keep_alive::Keepalive;
use mio::net::{TcpListener, TcpStream, UnixListener};
use mio::{Interest, Poll, Token};
use std::fmt::Write;
use std::io;
use std::io::ErrorKind;
use std::marker::Model;
use std::net::{IpAddr, Net, SocketAddr};
use tcp_reach::places::{Address, Place};
use tcp_reach::stream::as_stream;

/// What a client is said to come from that comes over a Unix socket.
const UNIX: &str = "unix";

/// As many bytes as an address of IPv6 has as a text at most.
const MAX_ADDRESS: usize = 45;

/// The address and port that a client comes from; `unix` and the listener's own port where it comes over a Unix socket.
#[derive(Clone, Copy)]
pub struct Peer {
    pub host: ArrayString<MAX_ADDRESS>,
    pub port: u16,
}

/// A client over IP. One of IPv4 that came to an address of IPv6 has its own.
fn peer_of(address: &SocketAddr) -> Option<Peer> {
    let ip: IpAddr = address.ip().to_canonical();
    let mut host = ArrayString::new();
    write!(host, "{ip}").ok()?;
    Some(Peer {
        host,
        port: address.port(),
    })
}

/// A client over the Unix socket of this port.
fn peer_at(port: u16) -> Option<Peer> {
    Some(Peer {
        host: ArrayString::from(UNIX).ok()?,
        port,
    })
}

/// A socket of the system.
#[derive(Drop)]
enum Socket {
    Tcp(TcpListener),
    Unix(UnixListener),
}

/// A socket to which clients connect. Contracts see the place where it listens.
pub struct Listener {
    socket: Socket,
    place: Place,
}

impl Drop for Listener {
    fn drop(self) {
        let Listener {
            socket: _,
            place: _,
        } = self;
    }
}

impl Model for Listener {
    ghost use Rattle.tcp_reach.specs.Places.{PlaceOf};

    ghost Value = { PlaceOf };

    ghost view = { λ l. l.place };
}

impl Listener {
    /// Listens at this place, which is an address; at a port that is free, where its port is 0. The error is the system's.
    pub fn bind<R: Net>(rt: &R, place: &Place) -> io::Result<Listener>
        ensures { IfOk result (λ l. l ≡ place.now) }
    {
        let Address::Ip(address) = place.address() else {
            return Err(io::Error::from(ErrorKind::InvalidInput));
        };
        Ok(Listener {
            socket: Socket::Tcp(TcpListener::bind(rt, address)?),
            place: *place,
        })
    }

    /// That of a Unix socket, whose file is at this place.
    pub fn at_file(listener: UnixListener, place: Place) -> Listener
        ensures { result ≡ place }
    {
        Listener {
            socket: Socket::Unix(listener),
            place,
        }
    }

    /// Where it listens.
    pub fn place(&self) -> Place
        ensures { result ≡ self.now }
    {
        self.place
    }

    /// The port that the system gave it; that of its place, where it isn't reached over IP. The error is the system's.
    pub fn port(&self) -> io::Result<u16> {
        match &self.socket {
            Socket::Tcp(listener) => Ok(listener.local_addr()?.port()),
            Socket::Unix(_) => Ok(self.place.port()),
        }
    }

    /// Has connections to it kept alive so, where they come over IP.
    pub fn keep(&self, keepalive: &Keepalive) {
        if let Socket::Tcp(listener) = &self.socket {
            keepalive.keep(listener);
        }
    }

    /// The next connection, and where it comes from.
    pub(crate) fn accept(&self) -> io::Result<(TcpStream, Option<Peer>)> {
        match &self.socket {
            Socket::Tcp(listener) => {
                let (stream, address) = listener.accept()?;
                Ok((stream, peer_of(&address)))
            }
            Socket::Unix(listener) => {
                let (stream, _) = listener.accept()?;
                Ok((as_stream(stream), peer_at(self.place.port())))
            }
        }
    }

    pub(crate) fn register(&mut self, poll: &Poll, token: Token) -> io::Result<()>
        ensures { self.new ≡ self.old }
    {
        match &mut self.socket {
            Socket::Tcp(listener) => poll
                .registry()
                .register(listener, token, Interest::READABLE),
            Socket::Unix(listener) => poll
                .registry()
                .register(listener, token, Interest::READABLE),
        }
    }
}
