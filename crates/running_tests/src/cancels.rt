//! Cancels over the loopback network: a pool, and a stand-in server behind it.
use crate::pools::{WELCOME, connect, leave, read, start_pool, start_stub};
use std::alloc::Global;
use std::io::{Read, Write};
use std::net;
use std::net::{Net, TcpStream};
use std::test::Fail;

/// Ann's StartupMessage for the database shop, and the Query `SHOW TimeZone`.
const START: &[u8] = b"\0\0\0\x20\0\x03\0\0user\0ann\0database\0shop\0\0";

const QUERY: &[u8] = b"Q\0\0\0\x12SHOW TimeZone\0";

/// What it is answered, and what it is where it was cancelled.
const SERVED: &[u8] =
    b"T\0\0\0\x21\0\x01TimeZone\0\0\0\0\0\0\0\0\0\0\x19\xff\xff\xff\xff\xff\xff\0\0D\0\0\0\x0d\0\x01\0\0\0\x03UTCC\0\0\0\x09SHOW\0Z\0\0\0\x05I";

const STRUCK: &[u8] =
    b"E\0\0\0\x33SERROR\0VERROR\0C57014\0Mstatement was cancelled\0\0Z\0\0\0\x05I";

/// The CancelRequest with the first key word of a seed of zeros, and the same with another secret.
const CANCEL: &[u8] = b"\0\0\0\x10\x04\xd2\x16\x2e\x2d\xe0\xb8\x76\x90\x3d\xf1\xa0";

const BY_OTHER_SECRET: &[u8] = b"\0\0\0\x10\x04\xd2\x16\x2e\x2d\xe0\xb8\x76\x90\x3d\xf1\xa1";

/// All that comes to somebody who asks for a cancel, until the connection is closed.
fn told<R: Net<Listener = net::TcpListener, Stream = net::TcpStream>>(
    rt: &R,
    alloc: Global,
    port: u16,
    request: &[u8],
) -> Result<Vec<u8>, Fail> {
    let mut stream = connect(rt, port, request)?;
    let mut bytes = Vec::new(alloc);
    stream.read_to_end(&mut bytes)?;
    Ok(bytes)
}

/// A client that is let in.
fn welcomed<R: Net<Listener = net::TcpListener, Stream = net::TcpStream>>(
    rt: &R,
    alloc: Global,
    port: u16,
) -> Result<TcpStream, Fail> {
    let mut stream = connect(rt, port, START)?;
    let _ = read(alloc, &mut stream, WELCOME)?;
    Ok(stream)
}

/// What this client is answered to the query, as many bytes as are wanted, and all that it is given besides when it leaves.
fn answered(alloc: Global, client: TcpStream, wanted: &[u8]) -> Result<Vec<u8>, Fail> {
    let mut client = client;
    client.write_all(QUERY)?;
    let mut bytes = read(alloc, &mut client, wanted.len())?;
    bytes.extend_from_slice(leave(alloc, client)?.as_slice())?;
    Ok(bytes)
}

// The stand-in server takes three connections: that of the first client, the cancel's, and that of the second client, whose link is
// another one.
#[test]
fn a_statement_is_cancelled(rt: HostRuntime) -> Result<(), Fail> {
    let (stub, server) = start_stub(rt, rt.alloc(), 3)?;
    let (pool, port) = start_pool(rt, rt.alloc(), server, "default_pool_size = 1\n", 3)?;
    let first = welcomed(&rt, rt.alloc(), port)?;
    assert!(rt; told(&rt, rt.alloc(), port, CANCEL)?.is_empty());
    assert!(rt; answered(rt.alloc(), first, STRUCK)?.as_slice() == STRUCK);
    let second = welcomed(&rt, rt.alloc(), port)?;
    assert!(rt; answered(rt.alloc(), second, SERVED)?.as_slice() == SERVED);
    let totals = pool.join(&rt).ok_or("no totals")?;
    assert!(rt; (totals.granted, totals.given_back, totals.lost) == (2, 1, 1));
    assert!(rt; stub.join(&rt));
    Ok(())
}

// It takes one: no cancel reaches it, and both clients have the same link. The second cancel has the key word of a client that has
// gone, and comes while the other has its link.
#[test]
fn wrong_and_late_cancels_find_nobody(rt: HostRuntime) -> Result<(), Fail> {
    let (stub, server) = start_stub(rt, rt.alloc(), 1)?;
    let (pool, port) = start_pool(rt, rt.alloc(), server, "default_pool_size = 1\n", 4)?;
    let first = welcomed(&rt, rt.alloc(), port)?;
    let mut told_all = told(&rt, rt.alloc(), port, BY_OTHER_SECRET)?;
    assert!(rt; answered(rt.alloc(), first, SERVED)?.as_slice() == SERVED);
    let second = welcomed(&rt, rt.alloc(), port)?;
    told_all.extend_from_slice(told(&rt, rt.alloc(), port, CANCEL)?.as_slice())?;
    assert!(rt; answered(rt.alloc(), second, SERVED)?.as_slice() == SERVED);
    let totals = pool.join(&rt).ok_or("no totals")?;
    assert!(rt;
        told_all.is_empty() && (totals.granted, totals.given_back, totals.lost) == (2, 2, 0)
    );
    assert!(rt; stub.join(&rt));
    Ok(())
}
