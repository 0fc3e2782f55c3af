//! Where the servers of a host are reached.
ghost use Rattle.std.specs.Prelude.{◌≡◌, true, false, All, Contains, IfOk, bytes_eq};
ghost use Rattle.std.specs.List.{list_any};
ghost use Rattle.tcp_reach.specs.Places as spec;
ghost use Rattle.tcp_reach.specs.Places.{IsPlaceAt, IsPlaceOf, IsSpelled};
ghost use Rattle.tcp_reach.specs.declared.places.Address.TheVariants as address;

use bstr::ByteSlice;
use server_host::Host;
use std::alloc::{AllocError, Global};
use std::io;
use std::io::ErrorKind;
use std::marker::Model;
use std::net::{IpAddr, Net, SocketAddr, ToSocketAddrs};

/// How a server is reached at its place.
#[derive(Clone, Copy)]
pub enum Address {
    /// At this address and port.
    Ip(SocketAddr),
    /// By the Unix socket of its port, in the folder that its host is.
    Unix,
}

/// A place at which a server is reached: one host, a port, and the address there. Where the host spells an address it is that one; where it is a
/// name, one that the system's resolver gave for it.
#[derive(Clone, Copy)]
pub struct Place {
    host: Host,
    port: u16,
    address: Address,
}

impl Model for Place {
    ghost use Rattle.tcp_reach.specs.Places.{IsReachedBy, PlaceOf};

    ghost Value = { PlaceOf };

    ghost view = { λ p. record { host = p.host; port = p.port; address = p.address } };

    ghost invariant = { λ p. IsReachedBy p.host p.port p.address };

    ghost inverse = { λ p. record { host = p.host; port = p.port; address = p.address } };
}

/// Whether a host is the folder of a Unix socket.
fn is_folder(host: &[u8]) -> bool
    ensures { result ≡ spec.is_folder host.now }
{
    host.starts_with(b"/")
}

/// Whether this is one of these hosts, which have commas between.
#[tactic(auto, using(crate::proofs::Among::found))]
fn has_host(hosts: &[u8], host: &[u8]) -> bool
    ensures value { result ≡ list_any (bytes_eq host.now) (spec.hosts_of hosts.now) }
    ensures own { result ≡ true → Contains (spec.hosts_of hosts.now) host.now }
{
    hosts.split_str(b",").any(|one| host == one)
}

impl Place {
    /// That of the Unix socket of this port in a folder; none where it is no path from the root.
    pub fn in_folder(folder: Host, port: u16) -> Option<Place>
        ensures { result ≡ spec.in_folder folder port }
    {
        if !is_folder(folder.as_bytes()) {
            return None;
        }
        Some(Place {
            host: folder,
            port,
            address: Address::Unix,
        })
    }

    /// That of a host which is no folder, at an address that it spells or stands for.
    fn at(host: Host, port: u16, address: SocketAddr) -> Place
        requires host { spec.is_folder host ≡ false }
        requires spelled { IsSpelled host address }
        ensures { IsPlaceAt host port result }
    {
        let mut address = address;
        address.set_port(port);
        Place {
            host,
            port,
            address: Address::Ip(address),
        }
    }

    /// Whether it is a place of one of these hosts, which have commas between, at this port.
    pub fn is_of(&self, hosts: &[u8], port: u16) -> bool
        ensures value { result ≡ spec.is_place_of hosts.now port self.now }
        ensures own { result ≡ true → IsPlaceOf hosts.now port self.now }
    {
        self.port == port && has_host(hosts, self.host())
    }

    /// The host.
    pub fn host(&self) -> &[u8]
        ensures { result.now ≡ self.now.host }
    {
        self.host.as_bytes()
    }

    /// The port.
    pub fn port(&self) -> u16
        ensures { result ≡ self.now.port }
    {
        self.port
    }

    /// How its server is reached.
    pub fn address(&self) -> Address
        ensures { result ≡ self.now.address }
    {
        self.address
    }
}

/// A Unix socket's path in a folder, as PostgreSQL names it. The only error is that an allocation failed.
pub fn socket_path(alloc: Global, folder: &str, port: u16) -> Result<String, AllocError> {
    format!(in alloc; "{folder}/.s.PGSQL.{port}")
}

/// The places of one host: itself where it is an address or a folder; else those that the system's resolver knows of the name, which may
/// take as long as that does.
fn places_at<R: Net>(rt: &R, alloc: Global, host: Host, port: u16) -> io::Result<Vec<Place>>
    ensures { IfOk result (λ v. All (IsPlaceAt host port) v.items) }
{
    let mut places = Vec::new(alloc);
    if let Some(place) = Place::in_folder(host, port) {
        places.push(place)?;
        return Ok(places);
    }
    if let Ok(ip) = IpAddr::parse_ascii(host.as_bytes()) {
        places.push(Place::at(host, port, SocketAddr::new(ip, port)))?;
        return Ok(places);
    }
    let Ok(name) = std::str::from_utf8(host.as_bytes()) else {
        return Err(io::Error::from(ErrorKind::InvalidInput));
    };
    for address in (name, port).to_socket_addrs(rt)? {
        places.push(Place::at(host, port, address))?;
    }
    Ok(places)
}

/// The same of a text, which is none where it is too long for one.
fn places_of_text<R: Net>(rt: &R, alloc: Global, text: &[u8], port: u16) -> io::Result<Vec<Place>>
    ensures { IfOk result (λ v. All (IsPlaceAt text.now port) v.items) }
{
    match Host::new(text) {
        Some(host) => places_at(rt, alloc, host, port),
        None => Err(io::Error::from(ErrorKind::InvalidInput)),
    }
}

/// The places of a row's host, or of several with commas between, at this port: in the order of the hosts, and of the resolver's answers.
/// A host that isn't known is left out where another is; the error is the last host's.
pub fn places_of<R: Net>(rt: &R, alloc: Global, host: &[u8], port: u16) -> io::Result<Vec<Place>>
    ensures { IfOk result (λ v. All (IsPlaceOf host.now port) v.items) }
{
    let mut places = Vec::new(alloc);
    let mut unknown = None;
    for one in host.split_str(b",") {
        match places_of_text(rt, alloc, one, port) {
            Ok(mut found) => places.append(&mut found)?,
            Err(error) => unknown = Some(error),
        }
    }
    match unknown {
        Some(error) if places.is_empty() => Err(error),
        _ => Ok(places),
    }
}
