//! The stand-in server over the loopback network.
use crate::pairs::listen_for_clients;
use crate::pools::{connect, leave, read, start_stub};
use session_catalogue::Catalogue;
use std::alloc::Global;
use std::io::{Read, Write};
use std::net::{Ipv4Addr, Net, Shutdown, SocketAddr, TcpStream};
use std::rt::Clock;
use std::sync::Wait;
use std::test::Fail;
use std::thread::Threads;
use std::{net, thread};
use stub_server::server::stub_on;

/// User ann, database shop.
const START: &[u8] = b"\0\0\0\x20\0\x03\0\0user\0ann\0database\0shop\0\0";

const ASKS_TLS: &[u8] = b"\0\0\0\x08\x04\xd2\x16\x2f";

const ASKS_GSS: &[u8] = b"\0\0\0\x08\x04\xd2\x16\x30";

const CANCELS: &[u8] = b"\0\0\0\x10\x04\xd2\x16\x2e\0\0\0\x01\0\0\0\x01";

/// The same process number, and another secret.
const CANCELS_NOBODY: &[u8] = b"\0\0\0\x10\x04\xd2\x16\x2e\0\0\0\x01\0\0\0\x02";

const TERMINATE: &[u8] = b"X\0\0\0\x04";

const SHOW: &[u8] = b"Q\0\0\0\x12SHOW TimeZone\0";

const SHOWN: &[u8] =
    b"T\0\0\0\x21\0\x01TimeZone\0\0\0\0\0\0\0\0\0\0\x19\xff\xff\xff\xff\xff\xff\0\0D\0\0\0\x0d\0\x01\0\0\0\x03UTCC\0\0\0\x09SHOW\0Z\0\0\0\x05I";

const STRUCK: &[u8] =
    b"E\0\0\0\x33SERROR\0VERROR\0C57014\0Mstatement was cancelled\0\0Z\0\0\0\x05I";

/// The answer to a StartupMessage without parameters: AuthenticationOk, nine reports, BackendKeyData and ReadyForQuery.
const WELCOME: usize = 260;

fn catalogue(alloc: Global) -> Result<Catalogue, Fail> {
    Ok(
        Catalogue::read(alloc, b"version\t16.0\ndatabase\tshop\n")
            .ok()
            .ok_or("no catalogue")?,
    )
}

/// All that each of these clients is given, which sends this and no more, one client after the other.
fn given<
    R: Threads
        + Wait
        + Clock
        + Net<Listener = net::TcpListener, Stream = net::TcpStream>
        + Copy
        + Send
        + 'static,
>(rt: R, alloc: Global, clients: &[&[u8]]) -> Result<Vec<Vec<u8>>, Fail> {
    let (listener, port) = listen_for_clients(&rt, alloc)?;
    let catalogue = catalogue(alloc)?;
    let count = u32::try_from(clients.len()).ok().ok_or("too many clients")?;
    let server = thread::spawn(
        &rt,
        move || stub_on(rt, alloc, listener, catalogue, Some(count)).is_ok(),
    )?;
    let mut all = Vec::new(alloc);
    for sent in clients {
        let mut stream = TcpStream::connect(&rt, SocketAddr::from((Ipv4Addr::LOCALHOST, port)))?;
        stream.write_all(sent)?;
        stream.shutdown(Shutdown::Write)?;
        let mut bytes = Vec::new(alloc);
        stream.read_to_end(&mut bytes)?;
        all.push(bytes).ok().ok_or("no memory")?;
    }
    if !server.join(&rt) {
        return Err("no server")?;
    }
    Ok(all)
}

/// These parts, one after the other.
fn joined(alloc: Global, parts: &[&[u8]]) -> Result<Vec<u8>, Fail> {
    let mut all = Vec::new(alloc);
    for part in parts {
        all.extend_from_slice(part)?;
    }
    Ok(all)
}

#[test]
fn everybody_is_let_in(rt: HostRuntime) -> Result<(), Fail> {
    let talk = joined(rt.alloc(), &[START, TERMINATE])?;
    let all = given(rt, rt.alloc(), &[talk.as_slice(), talk.as_slice()])?;
    for (bytes, number) in all.iter().zip(1u8..) {
        let end = [
            b'K', 0, 0, 0, 12, 0, 0, 0, number, 0, 0, 0, number, b'Z', 0, 0, 0, 5, b'I',
        ];
        assert!(rt; bytes.len() == WELCOME);
        assert!(rt; bytes.starts_with(b"R\0\0\0\x08\0\0\0\0S"));
        assert!(rt; bytes.ends_with(&end));
    }
    Ok(())
}

#[test]
fn encryption_is_refused_and_cancels_are_closed(rt: HostRuntime) -> Result<(), Fail> {
    let talk = joined(rt.alloc(), &[ASKS_TLS, ASKS_GSS, START, TERMINATE])?;
    let all = given(
        rt,
        rt.alloc(),
        &[talk.as_slice(), CANCELS, ASKS_TLS, b"no first packet"],
    )?;
    let lengths = [WELCOME + 2, 0, 1, 0];
    for (bytes, length) in all.iter().zip(lengths) {
        assert!(rt; bytes.len() == length);
        assert!(rt; bytes.first().copied() == if length > 0 { Some(b'N') } else { None });
    }
    Ok(())
}

/// Whether the client is answered so.
fn is_answered(
    alloc: Global,
    stream: &mut TcpStream,
    asks: &[u8],
    wanted: &[u8],
) -> Result<bool, Fail> {
    stream.write_all(asks)?;
    Ok(read(alloc, stream, wanted.len())?.as_slice() == wanted)
}

/// Of two CancelRequests the second has the key of a connection: its next statement is struck, and no other.
#[test]
fn a_cancel_strikes_the_connection_of_its_key(rt: HostRuntime) -> Result<(), Fail> {
    let alloc = rt.alloc();
    let (stub, port) = start_stub(rt, alloc, 3)?;
    let mut stream = connect(&rt, port, START)?;
    let _ = read(alloc, &mut stream, WELCOME)?;
    for (cancels, answer) in [(CANCELS_NOBODY, SHOWN), (CANCELS, STRUCK)] {
        assert!(rt; leave(alloc, connect(&rt, port, cancels)?)?.is_empty());
        assert!(rt; is_answered(alloc, &mut stream, SHOW, answer)?);
    }
    assert!(rt; is_answered(alloc, &mut stream, SHOW, SHOWN)?);
    assert!(rt; leave(alloc, stream)?.is_empty());
    assert!(rt; stub.join(&rt));
    Ok(())
}

/// A connection that has ended is struck no more, nor is the next one.
#[test]
fn a_late_cancel_strikes_nobody(rt: HostRuntime) -> Result<(), Fail> {
    let alloc = rt.alloc();
    let (stub, port) = start_stub(rt, alloc, 3)?;
    let first = connect(&rt, port, START)?;
    assert!(rt; leave(alloc, first)?.len() == WELCOME);
    let mut second = connect(&rt, port, START)?;
    let _ = read(alloc, &mut second, WELCOME)?;
    assert!(rt; leave(alloc, connect(&rt, port, CANCELS)?)?.is_empty());
    assert!(rt; is_answered(alloc, &mut second, SHOW, SHOWN)?);
    assert!(rt; leave(alloc, second)?.is_empty());
    assert!(rt; stub.join(&rt));
    Ok(())
}
