//! Two ends of one connection over the loopback network.
use mio::net::TcpListener;
use std::alloc::Global;
use std::net;
use std::net::{Ipv4Addr, Net, SocketAddr};
use std::test::Fail;
use tcp_end::connection::TcpEnd;
use tcp_end::dial::dial;
use tcp_listen::binding::listen_at_name;
use tcp_listen::listener::Listener;
use time_limits::CONNECT_SECONDS;

/// This machine, as an address.
pub const HERE: &[u8] = b"127.0.0.1";

/// A listener at a port that was free, and the port.
pub fn listen<R: Net<Listener = net::TcpListener, Stream = net::TcpStream>>(
    rt: &R,
) -> Result<(TcpListener, u16), Fail> {
    let listener = TcpListener::bind(rt, SocketAddr::from((Ipv4Addr::LOCALHOST, 0)))?;
    let port = listener.local_addr()?.port();
    Ok((listener, port))
}

/// The same, for clients.
pub fn listen_for_clients<R: Net>(rt: &R, alloc: Global) -> Result<(Listener, u16), Fail> {
    let listener = listen_at_name(rt, alloc, HERE, 0)?;
    let port = listener.port()?;
    Ok((listener, port))
}

/// An end that was dialled, and the one that was accepted for it.
pub fn pair(rt: &HostRuntime) -> Result<(TcpEnd, TcpEnd), Fail> {
    let (listener, port) = listen(rt)?;
    let (near, _) = dial(rt, rt.alloc(), HERE, port, 0, CONNECT_SECONDS, &None)?;
    let (stream, _) = listener.accept()?;
    Ok((near, TcpEnd::from_stream(rt.alloc(), stream)?))
}
