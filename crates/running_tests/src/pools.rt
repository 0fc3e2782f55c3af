//! A pool, and a stand-in server behind it, over the loopback network.
ghost use Rattle.std.specs.Prelude.{IfSome};
ghost use Rattle.ini_config.specs.Bounds.{AreWithinBounds};

use crate::pairs::{HERE, listen_for_clients};
use ini_config::laws::read_settings_are_within_bounds;
use ini_config::{Settings, read_settings};
use log_lines::events::Totals;
use pool_run::keeping::{ReloadError, Source};
use pool_run::listening::Listening;
use pool_run::pool::serve_on;
use session_catalogue::Catalogue;
use std::alloc::Global;
use std::io::{Read, Write};
use std::net::{Ipv4Addr, Net, Shutdown, SocketAddr, TcpStream};
use std::rt::Clock;
use std::sync::Wait;
use std::sync::atomic::{AtomicBool, Ordering};
use std::test::Fail;
use std::thread::{JoinHandle, Threads};
use std::time::Duration;
use std::{io, net, thread};
use stub_server::server::stub_on;
use tcp_listen::listener::Listener;
use user_file::{UserTable, read_users};

/// AuthenticationOk, nine reports, BackendKeyData and ReadyForQuery.
pub const WELCOME: usize = 260;

fn catalogue(alloc: Global) -> Result<Catalogue, Fail> {
    Ok(
        Catalogue::read(alloc, b"version\t16.0\ndatabase\tshop\n")
            .ok()
            .ok_or("no catalogue")?,
    )
}

pub fn users(alloc: Global) -> Option<UserTable> {
    read_users(alloc, b"\"ann\" \"secret\"\n").ok()
}

fn settings_of(alloc: Global, text: &[u8]) -> Option<Settings>
    ensures { IfSome result (λ s. AreWithinBounds s) }
{
    read_settings_are_within_bounds();
    match read_settings(alloc, text) {
        Ok(settings) => Some(settings),
        Err(_) => None,
    }
}

/// A server of the loopback network at this port, and these options.
pub fn settings(alloc: Global, port: u16, options: &str) -> Option<Settings>
    ensures { IfSome result (λ s. AreWithinBounds s) }
{
    let text = format!(in alloc;
        "[databases]\nshop = host=127.0.0.1 port={port} dbname=shop\n[pgbouncer]\nauth_type = trust\n{options}"
    ).ok()?;
    settings_of(alloc, text.as_bytes())
}

/// A pool's listener at this port.
fn listening_at(
    alloc: Global,
    listener: Listener,
    settings: &Settings,
    port: u16,
) -> Option<Listening> {
    let mut listening = Listening::new(alloc);
    listening.add(alloc, listener, settings, HERE, port).ok()?;
    Some(listening)
}

/// A stand-in server for so many connections, and its port. It ends with the last of them.
pub fn start_stub<
    R: Threads
        + Wait
        + Clock
        + Net<Listener = net::TcpListener, Stream = net::TcpStream>
        + Copy
        + Send
        + 'static,
>(rt: R, alloc: Global, count: u32) -> Result<(JoinHandle<bool>, u16), Fail> {
    let (listener, port) = listen_for_clients(&rt, alloc)?;
    let catalogue = catalogue(alloc)?;
    let stub = thread::spawn(
        &rt,
        move || stub_on(rt, alloc, listener, catalogue, Some(count)).is_ok(),
    )?;
    Ok((stub, port))
}

/// Files that lead to the server at this port, under these options. They are read at the second time.
pub struct Elsewhere {
    pub alloc: Global,
    pub port: u16,
    pub options: &'static str,
    pub was_asked: AtomicBool,
}

impl Drop for Elsewhere {
    fn drop(self) {
        let Elsewhere {
            alloc: _,
            port: _,
            options: _,
            was_asked: _,
        } = self;
    }
}

/// Files that lead to the same server, of which nothing is asked.
pub fn nowhere_else(alloc: Global, port: u16) -> Elsewhere {
    Elsewhere {
        alloc,
        port,
        options: "",
        was_asked: AtomicBool::new(false),
    }
}

impl Source for Elsewhere {
    fn read(&self) -> Result<(Settings, UserTable), ReloadError> {
        if !self.was_asked.swap(true, Ordering::SeqCst) {
            return Err(ReloadError::Memory);
        }
        let Some(settings) = settings(self.alloc, self.port, self.options) else {
            return Err(ReloadError::Memory);
        };
        match users(self.alloc) {
            Some(users) => Ok((settings, users)),
            None => Err(ReloadError::Memory),
        }
    }
}

/// A pool under these options, over servers at this port, and then over those of the source; and its own port. It ends with the last of
/// so many clients, or at SHUTDOWN; without a total where its settings or users can't be read.
pub fn start_pool_of<
    R: Threads
        + Wait
        + Clock
        + Net<Listener = net::TcpListener, Stream = net::TcpStream>
        + Copy
        + Send
        + Sync
        + 'static,
>(
    rt: R,
    alloc: Global,
    server: u16,
    options: &'static str,
    source: Elsewhere,
    count: Option<u64>,
) -> Result<(JoinHandle<Option<Totals>>, u16), Fail> {
    let (listener, port) = listen_for_clients(&rt, alloc)?;
    let pool = thread::spawn(&rt, move || -> Option<Totals> {
        let settings = settings(alloc, server, options)?;
        let users = users(alloc)?;
        let listening = listening_at(alloc, listener, &settings, port)?;
        let log = io::sink();
        serve_on(
            rt, alloc, listening, settings, users, source, log, [0; 32], count,
        )
        .ok()
        .flatten()
    })?;
    Ok((pool, port))
}

/// A pool for so many clients under these options, over servers at this port; and its own port. It ends with the last client.
pub fn start_pool<
    R: Threads
        + Wait
        + Clock
        + Net<Listener = net::TcpListener, Stream = net::TcpStream>
        + Copy
        + Send
        + Sync
        + 'static,
>(
    rt: R,
    alloc: Global,
    server: u16,
    options: &'static str,
    count: u64,
) -> Result<(JoinHandle<Option<Totals>>, u16), Fail> {
    start_pool_of(
        rt,
        alloc,
        server,
        options,
        nowhere_else(alloc, server),
        Some(count),
    )
}

/// A client that has sent this. It reads for at most half a minute.
pub fn connect<R: Net<Listener = net::TcpListener, Stream = net::TcpStream>>(
    rt: &R,
    port: u16,
    input: &[u8],
) -> Result<TcpStream, Fail> {
    let mut stream = TcpStream::connect(rt, SocketAddr::from((Ipv4Addr::LOCALHOST, port)))?;
    stream.set_read_timeout(Some(Duration::from_secs(30)))?;
    stream.write_all(input)?;
    Ok(stream)
}

/// So many bytes that a client is given.
pub fn read(alloc: Global, stream: &mut TcpStream, count: usize) -> Result<Vec<u8>, Fail> {
    let mut bytes = vec![in alloc; 0u8; count]?;
    stream.read_exact(bytes.as_mut_slice())?;
    Ok(bytes)
}

/// All that it is given besides, once it sends nothing more.
pub fn leave(alloc: Global, stream: TcpStream) -> Result<Vec<u8>, Fail> {
    let mut stream = stream;
    stream.shutdown(Shutdown::Write)?;
    let mut bytes = Vec::new(alloc);
    stream.read_to_end(&mut bytes)?;
    Ok(bytes)
}
