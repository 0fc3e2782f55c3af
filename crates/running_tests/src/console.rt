//! The console of a running pool.
use crate::pools::{Elsewhere, WELCOME, connect, leave, read, start_pool_of, start_stub};
use std::alloc::Global;
use std::io::Write;
use std::net;
use std::net::{Ipv4Addr, Net, SocketAddr, TcpStream};
use std::sync::atomic::AtomicBool;
use std::test::Fail;

const OPTIONS: &str = "default_pool_size = 1\nadmin_users = ann\n";

/// Ann's StartupMessage for the database shop.
const START: &[u8] = b"\0\0\0\x20\0\x03\0\0user\0ann\0database\0shop\0\0";

/// The same for the console.
const CONSOLE: &[u8] = b"\0\0\0\x25\0\x03\0\0user\0ann\0database\0pgbouncer\0\0";

/// AuthenticationOk, three reports, BackendKeyData and ReadyForQuery.
const GREETING: usize = 105;

/// As many bytes of what the console answers to a Query.
fn answer<R: Net<Listener = net::TcpListener, Stream = net::TcpStream>>(
    rt: &R,
    alloc: Global,
    port: u16,
    query: &[u8],
    count: usize,
) -> Result<Vec<u8>, Fail> {
    let mut stream = connect(rt, port, CONSOLE)?;
    let _ = read(alloc, &mut stream, GREETING)?;
    stream.write_all(query)?;
    let answer = read(alloc, &mut stream, count)?;
    let _ = leave(alloc, stream)?;
    Ok(answer)
}

/// Files that lead to the server at this port, once they were asked for.
fn elsewhere(alloc: Global, port: u16) -> Elsewhere {
    Elsewhere {
        alloc,
        port,
        options: OPTIONS,
        was_asked: AtomicBool::new(false),
    }
}

/// Whether somebody listens at the port.
fn is_open<R: Net>(rt: &R, port: u16) -> bool {
    TcpStream::connect(rt, SocketAddr::from((Ipv4Addr::LOCALHOST, port))).is_ok()
}

#[test]
fn a_shutdown_ends_the_pool(rt: HostRuntime) -> Result<(), Fail> {
    let source = elsewhere(rt.alloc(), 1);
    let (pool, port) = start_pool_of(rt, rt.alloc(), 1, OPTIONS, source, None)?;
    let told = answer(&rt, rt.alloc(), port, b"Q\0\0\0\x0dSHUTDOWN\0", 20)?;
    assert!(rt; told.as_slice() == b"C\0\0\0\x0dSHUTDOWN\0Z\0\0\0\x05I".as_slice());
    let totals = pool.join(&rt).ok_or("no totals")?;
    assert!(rt; (totals.arrived, totals.left, totals.granted) == (1, 1, 0));
    assert!(rt; !is_open(&rt, port));
    Ok(())
}

/// A client of the pool, which is let in and leaves.
fn comes_and_goes<R: Net<Listener = net::TcpListener, Stream = net::TcpStream>>(
    rt: &R,
    alloc: Global,
    port: u16,
) -> Result<(), Fail> {
    let mut stream = connect(rt, port, START)?;
    let _ = read(alloc, &mut stream, WELCOME)?;
    let _ = leave(alloc, stream)?;
    Ok(())
}

// Each stand-in server takes one connection: that of the first client, and that of the client after the RELOAD.
#[test]
fn a_reload_leads_later_clients_elsewhere(rt: HostRuntime) -> Result<(), Fail> {
    let (old, first) = start_stub(rt, rt.alloc(), 1)?;
    let (new, second) = start_stub(rt, rt.alloc(), 1)?;
    let source = elsewhere(rt.alloc(), second);
    let (pool, port) = start_pool_of(rt, rt.alloc(), first, OPTIONS, source, Some(5))?;
    let reload = b"Q\0\0\0\x0bRELOAD\0";
    comes_and_goes(&rt, rt.alloc(), port)?;
    assert!(rt; answer(&rt, rt.alloc(), port, reload, 1)?.as_slice() == b"E".as_slice());
    comes_and_goes(&rt, rt.alloc(), port)?;
    let told = answer(&rt, rt.alloc(), port, reload, 12)?;
    assert!(rt; told.as_slice() == b"C\0\0\0\x0bRELOAD\0".as_slice());
    comes_and_goes(&rt, rt.alloc(), port)?;
    assert!(rt; pool.join(&rt).is_some());
    assert!(rt; old.join(&rt) && new.join(&rt));
    Ok(())
}
