//! Metrics over the loopback network.
use metrics_http::serving::MetricsServer;
use mio::net::TcpListener;
use std::alloc::{AllocError, Global};
use std::io::{Read, Write};
use std::net::{Ipv4Addr, Net, SocketAddr, TcpStream};
use std::rt::Clock;
use std::sync::atomic::{AtomicBool, Ordering};
use std::sync::{Arc, Wait};
use std::test::Fail;
use std::thread::{JoinHandle, Threads};
use std::time::Duration;
use std::{net, thread};

/// A source of so many times these bytes; without any it has nothing to tell.
#[derive(Drop)]
struct Repeated {
    bytes: &'static [u8],
    times: u32,
    has_ended: AtomicBool,
}

impl Repeated {
    /// What is told of it; `None` where it has nothing to tell.
    fn text(&self, alloc: Global) -> Option<Vec<u8>> {
        if self.times == 0 {
            return None;
        }
        let mut text = Vec::new(alloc);
        for _ in 0..self.times {
            text.extend_from_slice(self.bytes).ok()?;
        }
        Some(text)
    }

    /// Whether nobody is to be served any more.
    fn has_ended(&self) -> bool {
        self.has_ended.load(Ordering::SeqCst)
    }
}

/// Such a source.
fn many_times(
    alloc: Global,
    bytes: &'static [u8],
    times: u32,
) -> Result<Arc<Repeated>, AllocError> {
    let source = Repeated {
        bytes,
        times,
        has_ended: AtomicBool::new(false),
    };
    Ok(Arc::new(alloc, source)?)
}

/// Answers who asks these listeners for a source, until that has ended.
fn serve<R: Wait + Clock + Net>(
    rt: &R,
    alloc: Global,
    listeners: Vec<TcpListener>,
    source: &Repeated,
) {
    let Ok(mut server) = MetricsServer::new(rt, alloc, listeners, true) else {
        return;
    };
    for _ in rt.forever() {
        if source.has_ended() {
            return;
        }
        if server.is_asked(rt) {
            match source.text(alloc) {
                Some(text) => server.answer(Some(text.as_slice())),
                None => server.answer(None),
            }
        }
    }
}

/// Serves a source: its server and port.
fn start<
    R: Threads
        + Wait
        + Clock
        + Net<Listener = net::TcpListener, Stream = net::TcpStream>
        + Copy
        + Send
        + 'static,
>(rt: R, alloc: Global, source: &Arc<Repeated>) -> Result<(JoinHandle<()>, u16), Fail> {
    let listener = TcpListener::bind(&rt, SocketAddr::from((Ipv4Addr::LOCALHOST, 0)))?;
    let port = listener.local_addr()?.port();
    let mut listeners = Vec::new(alloc);
    listeners.push(listener)?;
    let source = Arc::try_clone(source)?;
    let server = thread::spawn(&rt, move || serve(&rt, alloc, listeners, &*source))?;
    Ok((server, port))
}

/// A connection that sends this first.
fn connect<R: Net<Listener = net::TcpListener, Stream = net::TcpStream>>(
    rt: &R,
    port: u16,
    sent: &[u8],
) -> Result<TcpStream, Fail> {
    let mut stream = TcpStream::connect(rt, SocketAddr::from((Ipv4Addr::LOCALHOST, port)))?;
    stream.set_read_timeout(Some(Duration::from_secs(30)))?;
    stream.write_all(sent)?;
    Ok(stream)
}

/// All that comes over a connection until its end.
fn all_of(alloc: Global, stream: TcpStream) -> Result<Vec<u8>, Fail> {
    let mut stream = stream;
    let mut bytes = Vec::new(alloc);
    stream.read_to_end(&mut bytes)?;
    Ok(bytes)
}

/// A part of more than is buffered.
static MUCH: [u8; 65_536] = [b'#'; 65_536];

const ASKS: &[u8] = b"GET /metrics HTTP/1.1\r\nHost: localhost\r\n\r\n";

const ASKS_ELSEWHERE: &[u8] = b"GET / HTTP/1.1\r\nHost: localhost\r\n\r\n";

const NOT_FOUND: &[u8] =
    b"HTTP/1.1 404 Not Found\r\nContent-Length: 0\r\nConnection: close\r\n\r\n";

const TEN: &[u8] =
    b"HTTP/1.1 200 OK\r\nContent-Type: application/openmetrics-text; version=1.0.0; charset=utf-8\r\nContent-Length: 10\r\nConnection: close\r\n\r\n##########";

#[test]
fn requests_are_answered(rt: HostRuntime) -> Result<(), Fail> {
    let alloc = rt.alloc();
    let source = many_times(alloc, b"##########", 1)?;
    let (server, port) = start(rt, alloc, &source)?;
    for (sent, wanted) in [(ASKS, TEN), (ASKS_ELSEWHERE, NOT_FOUND), (ASKS, TEN)] {
        let stream = connect(&rt, port, sent)?;
        assert!(rt; all_of(alloc, stream)?.as_slice() == wanted);
    }
    // in two pieces, and with more behind it than is read
    let mut stream = connect(&rt, port, &ASKS[..20])?;
    thread::sleep(&rt, Duration::from_millis(200));
    stream.write_all(&ASKS[20..])?;
    stream.write_all(&[b'x'; 5000])?;
    assert!(rt; all_of(alloc, stream)?.as_slice() == TEN);
    source.has_ended.store(true, Ordering::SeqCst);
    server.join(&rt);
    Ok(())
}

// Three say nothing, and one asks for more than is buffered and reads nothing of it: their time is over first.
#[test]
fn nobody_keeps_others_waiting(rt: HostRuntime) -> Result<(), Fail> {
    let alloc = rt.alloc();
    let source = many_times(alloc, &MUCH, 160)?;
    let (server, port) = start(rt, alloc, &source)?;
    let mut silent = Vec::new(alloc);
    for _ in 0..3u32 {
        silent.push(connect(&rt, port, b"")?)?;
    }
    let stopped = connect(&rt, port, ASKS)?;
    let fifth = connect(&rt, port, ASKS_ELSEWHERE)?;
    assert!(rt; all_of(alloc, fifth)?.as_slice() == NOT_FOUND);
    for stream in silent {
        assert!(rt; all_of(alloc, stream)?.is_empty());
    }
    drop(stopped);
    source.has_ended.store(true, Ordering::SeqCst);
    server.join(&rt);
    Ok(())
}

// Whoever is served when it ends is closed.
#[test]
fn it_ends(rt: HostRuntime) -> Result<(), Fail> {
    let alloc = rt.alloc();
    let source = many_times(alloc, b"", 0)?;
    let (server, port) = start(rt, alloc, &source)?;
    let none = connect(&rt, port, ASKS)?;
    assert!(rt; all_of(alloc, none)?.starts_with(b"HTTP/1.1 503 "));
    let mut silent = connect(&rt, port, b"")?;
    source.has_ended.store(true, Ordering::SeqCst);
    server.join(&rt);
    // whether it was taken by then or not
    let _ = silent.read(&mut [0u8; 16]);
    Ok(())
}
