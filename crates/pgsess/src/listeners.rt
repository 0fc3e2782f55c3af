//! Where the program listens.

use crate::socket_file::{SocketFile, listen_at_path};
use ini_config::Settings;
use mio::net::TcpListener;
use pool_run::listening::Listening;
use std::alloc::Global;
use std::io::ErrorKind;
use std::net::{Net, ToSocketAddrs};
use std::{fs, io};
use tcp_listen::binding::listen_at;
use tcp_reach::places::Address;

/// Whether who listens on all of IPv6 listens on IPv4 too.
fn is_all_of_both(host: &HostRuntime) -> bool {
    match fs::read_to_string(host, "/proc/sys/net/ipv6/bindv6only") {
        Ok(text) => text.trim() == "0",
        Err(_) => false,
    }
}

/// Listens at each address and name of the settings. One of IPv4 that is taken where all of IPv6 is listened on is a part of that, where
/// the system has it so.
pub fn listen_at_addresses<R: Net>(
    rt: &R,
    host: &HostRuntime,
    alloc: Global,
    settings: &Settings,
    listening: &mut Listening,
) -> io::Result<()> {
    let names = settings.listen_addr().as_slice();
    let port = settings.listen_port();
    for listener in listen_at(rt, alloc, names, port, is_all_of_both(host))? {
        let Address::Ip(address) = listener.place().address() else {
            continue;
        };
        let name = format!(in alloc; "{}", address.ip())?;
        listening.add(alloc, listener, settings, name.as_bytes(), port)?;
    }
    Ok(())
}

/// Listens for who asks for the pool's figures, at each address and name of the settings for that. Where one can't be had the pool goes on
/// without it, and its log says so. The only error is that an allocation failed.
pub fn listen_for_metrics<R: Net>(
    rt: &R,
    alloc: Global,
    settings: &Settings,
    listening: &mut Listening,
) -> io::Result<()> {
    let port = settings.metrics_port();
    for name in settings.metrics_addr().as_slice() {
        if let Err(error) = listen_for_metrics_at(rt, alloc, name.as_bytes(), port, listening) {
            listening.miss_metrics(alloc, name.as_bytes(), port, error)?;
        }
    }
    Ok(())
}

/// The same at all addresses of a name.
fn listen_for_metrics_at<R: Net>(
    rt: &R,
    alloc: Global,
    name: &[u8],
    port: u16,
    listening: &mut Listening,
) -> io::Result<()> {
    let Ok(text) = std::str::from_utf8(name) else {
        return Err(io::Error::from(ErrorKind::InvalidInput));
    };
    for address in (text, port).to_socket_addrs(rt)? {
        let listener = TcpListener::bind(rt, address)?;
        let shown = format!(in alloc; "{}", address.ip())?;
        let is_local = address.ip().is_loopback();
        listening.add_metrics(alloc, listener, is_local, shown.as_bytes(), port)?;
    }
    Ok(())
}

/// Listens in the folder of the settings, if there is one; the socket's file. Where it can't be had the pool goes on without it, and its
/// log says so. The only error is that an allocation failed.
pub fn listen_in_folder(
    host: &HostRuntime,
    alloc: Global,
    settings: &Settings,
    listening: &mut Listening,
) -> io::Result<Option<SocketFile>> {
    let folder = settings.unix_socket_dir();
    let port = settings.listen_port();
    if folder.is_empty() {
        return Ok(None);
    }
    match listen_at_path(host, alloc, settings) {
        Ok((listener, file)) => {
            listening.add(alloc, listener, settings, folder, port)?;
            Ok(Some(file))
        }
        Err(error) => {
            listening.miss(alloc, folder, port, error)?;
            Ok(None)
        }
    }
}
