//! Links that are idle when something comes from their servers.
use crate::pools::{connect, leave, read, start_pool};
use std::alloc::Global;
use std::io::{Read, Write};
use std::net;
use std::net::{Ipv4Addr, Net, SocketAddr, TcpListener, TcpStream};
use std::rt::Clock;
use std::sync::Wait;
use std::test::Fail;
use std::thread::{Threads, sleep};
use std::time::Duration;

/// Ann's StartupMessage for the database shop.
const START: &[u8] = b"\0\0\0\x20\0\x03\0\0user\0ann\0database\0shop\0\0";

/// AuthenticationOk, BackendKeyData and ReadyForQuery.
const WELCOME: &[u8] = b"R\0\0\0\x08\0\0\0\0K\0\0\0\x0c\0\0\0\x07\0\0\0\x09Z\0\0\0\x05I";

const TERMINATE: &[u8] = b"X\0\0\0\x04";

/// As long as a link's way back to the desk may take, and its close.
fn a_while() -> Duration {
    Duration::from_millis(500)
}

/// Takes a connection as a server that lets in whoever comes.
fn welcome(alloc: Global, listener: &TcpListener) -> Result<TcpStream, Fail> {
    let (mut server, _) = listener.accept()?;
    read(alloc, &mut server, START.len())?;
    server.write_all(WELCOME)?;
    Ok(server)
}

/// A client comes, is welcomed and goes, and has sent nothing to be reset; the server's end of its link, which is idle then.
fn visit<R: Wait + Clock + Net<Listener = net::TcpListener, Stream = net::TcpStream>>(
    rt: &R,
    alloc: Global,
    listener: &TcpListener,
    port: u16,
) -> Result<TcpStream, Fail> {
    let mut client = connect(rt, port, START)?;
    let server = welcome(alloc, listener)?;
    read(alloc, &mut client, WELCOME.len())?;
    leave(alloc, client)?;
    sleep(rt, a_while());
    Ok(server)
}

/// What a server is given behind what it says unasked, up to the end of its connection.
fn answer(alloc: Global, server: TcpStream, said: &[u8]) -> Result<Vec<u8>, Fail> {
    let mut server = server;
    server.write_all(said)?;
    let mut rest = Vec::new(alloc);
    server.read_to_end(&mut rest)?;
    Ok(rest)
}

/// Whether a link is closed whose server says this while it is idle, or ends where it says nothing: the next client of a pool of one link is
/// served over another.
fn is_closed_at<
    R: Threads
        + Wait
        + Clock
        + Net<Listener = net::TcpListener, Stream = net::TcpStream>
        + Copy
        + Send
        + Sync
        + 'static,
>(rt: R, alloc: Global, said: &[u8]) -> Result<bool, Fail> {
    let listener = TcpListener::bind(&rt, SocketAddr::from((Ipv4Addr::LOCALHOST, 0)))?;
    let server = listener.local_addr()?.port();
    let (pool, port) = start_pool(rt, alloc, server, "default_pool_size = 1\n", 2)?;
    let first = visit(&rt, alloc, &listener, port)?;
    let mut is_closed = true;
    if said.is_empty() {
        drop(first);
    } else {
        is_closed = answer(alloc, first, said)?.as_slice() == TERMINATE;
    }
    sleep(&rt, a_while());
    drop(visit(&rt, alloc, &listener, port)?);
    Ok(pool.join(&rt).is_some() && is_closed)
}

#[test]
fn a_server_hangs_up(rt: HostRuntime) -> Result<(), Fail> {
    assert!(rt; is_closed_at(rt, rt.alloc(), b"")?);
    Ok(())
}

#[test]
fn a_server_is_told_to_end(rt: HostRuntime) -> Result<(), Fail> {
    let said = b"E\0\0\0\x22SFATAL\0C57P01\0Mit is told to\0\0";
    assert!(rt; is_closed_at(rt, rt.alloc(), said)?);
    Ok(())
}

#[test]
fn a_server_speaks_unasked(rt: HostRuntime) -> Result<(), Fail> {
    let said = b"S\0\0\0\x11TimeZone\0CET\0";
    assert!(rt; is_closed_at(rt, rt.alloc(), said)?);
    Ok(())
}
