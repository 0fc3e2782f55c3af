//! Several places at which clients come in, and several at which a server is.
use crate::pairs::listen_for_clients;
use std::net;
use std::net::{IpAddr, Ipv4Addr, Net, SocketAddr, TcpStream};
use std::test::Fail;
use tcp_end::dial::dial;
use tcp_listen::acceptor::{Acceptor, Turn};
use tcp_listen::binding::listen_at_name;
use tcp_listen::listener::{Listener, Peer};
use tcp_reach::places::{Address, Place};

/// Two addresses of this machine.
const BOTH: &[u8] = b"127.0.0.1,127.0.0.2";

/// The second of them.
const TOO: &[u8] = b"127.0.0.2";

fn too() -> Ipv4Addr {
    Ipv4Addr::new(127, 0, 0, 2)
}

/// Listeners at both addresses, at one port that was free at both, and the port.
fn listen_at_both(rt: &HostRuntime) -> Result<(Listener, Listener, u16), Fail> {
    let (first, port) = listen_for_clients(rt, rt.alloc())?;
    let second = listen_at_name(rt, rt.alloc(), TOO, port)?;
    Ok((first, second, port))
}

/// A client of this address and port, and its own port.
fn client<R: Net<Listener = net::TcpListener, Stream = net::TcpStream>>(
    rt: &R,
    address: Ipv4Addr,
    port: u16,
) -> Result<(TcpStream, u16), Fail> {
    let stream = TcpStream::connect(rt, SocketAddr::from((address, port)))?;
    let own = stream.local_addr()?.port();
    Ok((stream, own))
}

fn port_of(peer: Peer) -> u16 {
    let Peer { host: _, port } = peer;
    port
}

/// The port of the next client that comes; at most a hundred turns are taken.
fn next_port(acceptor: &mut Acceptor) -> Option<u16> {
    for _ in 0..100u32 {
        match acceptor.turn() {
            Turn::Client(client, peer) => {
                drop(client);
                return Some(port_of(peer));
            }
            Turn::Nobody | Turn::Failed => {}
        }
    }
    None
}

// Three wait at the first listener, and one at the second: it is served behind one of those.
#[test]
fn no_listener_starves(rt: HostRuntime) -> Result<(), Fail> {
    let (first, second, port) = listen_at_both(&rt)?;
    let mut listeners = Vec::new(rt.alloc());
    listeners.push(first)?;
    listeners.push(second)?;
    let mut acceptor = Acceptor::new(&rt, rt.alloc(), listeners)?;
    let (_one, one) = client(&rt, Ipv4Addr::LOCALHOST, port)?;
    let (_two, two) = client(&rt, Ipv4Addr::LOCALHOST, port)?;
    let (_three, three) = client(&rt, Ipv4Addr::LOCALHOST, port)?;
    let (_four, four) = client(&rt, too(), port)?;
    for wanted in [one, four, two, three] {
        assert!(rt; next_port(&mut acceptor) == Some(wanted));
    }
    Ok(())
}

/// The place of this port among those of the next clients, of which so many are taken.
fn place_of(acceptor: &mut Acceptor, port: u16, count: u32) -> Option<u32> {
    for place in 0..count {
        if next_port(acceptor) == Some(port) {
            return Some(place);
        }
    }
    None
}

// There is always one more at the first; the second was looked at before its own came.
#[test]
fn a_late_client_beside_many_is_served(rt: HostRuntime) -> Result<(), Fail> {
    let (first, second, port) = listen_at_both(&rt)?;
    let mut listeners = Vec::new(rt.alloc());
    listeners.push(first)?;
    listeners.push(second)?;
    let mut acceptor = Acceptor::new(&rt, rt.alloc(), listeners)?;
    let mut many = Vec::new(rt.alloc());
    for _ in 0..40u32 {
        many.push(client(&rt, Ipv4Addr::LOCALHOST, port)?)?;
    }
    assert!(rt; place_of(&mut acceptor, 0, 3) == None);
    let (_late, late) = client(&rt, too(), port)?;
    assert!(rt; place_of(&mut acceptor, late, 20).is_some());
    Ok(())
}

/// The address of a place; none of a folder's.
fn address_of(place: &Place) -> Option<IpAddr> {
    match place.address() {
        Address::Ip(address) => Some(address.ip()),
        Address::Unix => None,
    }
}

/// The address at which a server of both is reached at this turn.
fn reached(rt: &HostRuntime, port: u16, turn: u64) -> Option<IpAddr> {
    let Ok((_end, place)) = dial(rt, rt.alloc(), BOTH, port, turn, 15, &None) else {
        return None;
    };
    address_of(&place)
}

// Each begins at its own turn; where one is gone, the other is tried.
#[test]
fn servers_are_reached_in_turn(rt: HostRuntime) -> Result<(), Fail> {
    let (first, second, port) = listen_at_both(&rt)?;
    let here = Some(IpAddr::V4(Ipv4Addr::LOCALHOST));
    let there = Some(IpAddr::V4(too()));
    assert!(rt; reached(&rt, port, 6) == here);
    assert!(rt; reached(&rt, port, 7) == there);
    drop(first);
    assert!(rt; reached(&rt, port, 8) == there && reached(&rt, port, 9) == there);
    drop(second);
    assert!(rt; reached(&rt, port, 10) == None);
    Ok(())
}
