//! Timeouts of one second.
use crate::pools::{WELCOME, connect, leave, read, start_pool, start_stub};
use message_view::{Refusal, refusal_bytes};
use std::alloc::Global;
use std::io::Read;
use std::net;
use std::net::{Net, TcpStream};
use std::rt::Clock;
use std::sync::Wait;
use std::test::Fail;
use std::thread::{Threads, sleep};
use std::time::{Duration, Instant};

/// Ann's StartupMessage for the database shop.
const START: &[u8] = b"\0\0\0\x20\0\x03\0\0user\0ann\0database\0shop\0\0";

/// AuthenticationOk, with which the welcome begins.
const AUTHENTICATION_OK: &[u8] = b"R\0\0\0\x08\0\0\0\0";

/// More seconds than a timeout of one second takes, and fewer than one of ten.
const SOON: u64 = 10;

/// What a client of a busy pool is given, and after how many seconds.
fn refused<R: Clock + Net<Listener = net::TcpListener, Stream = net::TcpStream>>(
    rt: &R,
    alloc: Global,
    port: u16,
) -> Result<(Vec<u8>, u64), Fail> {
    let start = Instant::now(rt)?;
    let mut stream = connect(rt, port, START)?;
    let mut given = Vec::new(alloc);
    stream.read_to_end(&mut given)?;
    Ok((given, start.elapsed(rt)?.as_secs()))
}

/// A client waits for the one link of its pool, which another has.
#[test]
fn a_client_waits_for_a_second(rt: HostRuntime) -> Result<(), Fail> {
    let options = "default_pool_size = 1\nquery_wait_timeout = 1\n";
    let (stub, server) = start_stub(rt, rt.alloc(), 1)?;
    let (pool, port) = start_pool(rt, rt.alloc(), server, options, 2)?;
    let mut first = connect(&rt, port, START)?;
    let _ = read(rt.alloc(), &mut first, WELCOME)?;
    let (given, seconds) = refused(&rt, rt.alloc(), port)?;
    assert!(rt; given.starts_with(b"R\0\0\0\x08\0\0\0\0"));
    assert!(rt; given.as_slice().get(9..) == Some(refusal_bytes(Refusal::WaitedTooLong)));
    assert!(rt; seconds < SOON);
    assert!(rt; leave(rt.alloc(), first)?.is_empty());
    assert!(rt; pool.join(&rt).is_some() && stub.join(&rt));
    Ok(())
}

/// A client that waits for a link and hangs up gives its place back: the next one waits in its stead, and has the link.
#[test]
fn a_client_that_goes_waits_no_longer(rt: HostRuntime) -> Result<(), Fail> {
    let options = "default_pool_size = 1\nmax_client_conn = 2\n";
    let (stub, server) = start_stub(rt, rt.alloc(), 1)?;
    let (pool, port) = start_pool(rt, rt.alloc(), server, options, 3)?;
    let mut first = connect(&rt, port, START)?;
    read(rt.alloc(), &mut first, WELCOME)?;
    let second = connect(&rt, port, START)?;
    sleep(&rt, Duration::from_millis(500));
    drop(second);
    sleep(&rt, Duration::from_millis(2_500));
    let mut third = connect(&rt, port, START)?;
    sleep(&rt, Duration::from_millis(500));
    assert!(rt; leave(rt.alloc(), first)?.is_empty());
    assert!(rt; read(rt.alloc(), &mut third, WELCOME)?.starts_with(AUTHENTICATION_OK));
    assert!(rt; leave(rt.alloc(), third)?.is_empty());
    assert!(rt; pool.join(&rt).is_some() && stub.join(&rt));
    Ok(())
}

/// A client that is welcomed and stays, and the words of its key.
fn welcomed<R: Net<Listener = net::TcpListener, Stream = net::TcpStream>>(
    rt: &R,
    alloc: Global,
    port: u16,
) -> Result<(TcpStream, Vec<u8>), Fail> {
    let mut stream = connect(rt, port, START)?;
    // the frames before BackendKeyData, which has 13 bytes, and ReadyForQuery behind it, which has 6
    read(alloc, &mut stream, WELCOME - 19)?;
    let key = read(alloc, &mut stream, 13)?;
    read(alloc, &mut stream, 6)?;
    Ok((stream, key))
}

/// How many of the keys are this one.
fn times(keys: &[Vec<u8>], wanted: &Vec<u8>) -> u32 {
    let mut times: u32 = 0;
    for key in keys {
        if key == wanted {
            times = times.saturating_add(1);
        }
    }
    times
}

/// Whether no two are the same.
fn are_distinct(keys: &[Vec<u8>]) -> bool {
    for key in keys {
        if times(keys, key) != 1 {
            return false;
        }
    }
    true
}

/// So many clients are there at once, each with a key of its own, and leave at once: after how many seconds the last of their links
/// is closed. A client more ends the pool.
fn closed_after<
    R: Threads
        + Wait
        + Clock
        + Net<Listener = net::TcpListener, Stream = net::TcpStream>
        + Copy
        + Send
        + Sync
        + 'static,
>(rt: R, alloc: Global, options: &'static str, count: u32) -> Result<(bool, u64), Fail> {
    let (stub, server) = start_stub(rt, alloc, count)?;
    let (pool, port) = start_pool(rt, alloc, server, options, u64::from(count) + 1)?;
    let mut streams = Vec::new(alloc);
    let mut keys = Vec::new(alloc);
    for _ in 0..count {
        let (stream, key) = welcomed(&rt, alloc, port)?;
        streams.push(stream).ok().ok_or("no memory")?;
        keys.push(key).ok().ok_or("no memory")?;
    }
    let start = Instant::now(&rt)?;
    drop(streams);
    let has_ended = stub.join(&rt);
    let seconds = start.elapsed(&rt)?.as_secs();
    drop(connect(&rt, port, b"")?);
    Ok((
        pool.join(&rt).is_some() && has_ended && are_distinct(keys.as_slice()),
        seconds,
    ))
}

/// The links of twenty clients: by the idle timeout, and by the lifetime.
#[test]
fn links_are_closed_in_time(rt: HostRuntime) -> Result<(), Fail> {
    for options in [
        "server_idle_timeout = 1\n",
        "server_lifetime = 1\nserver_idle_timeout = 0\n",
    ] {
        let (ended, seconds) = closed_after(rt, rt.alloc(), options, 20)?;
        assert!(rt; ended, "{options}");
        assert!(rt; seconds < SOON, "{seconds} seconds: {options}");
    }
    Ok(())
}
