//! Two clients one after the other, over the loopback network.
use crate::pools::{connect, leave, read, start_pool, start_stub};
use std::alloc::Global;
use std::net;
use std::net::Net;
use std::rt::Clock;
use std::test::Fail;
use std::time::Instant;

/// Ann's StartupMessage for the database shop, `SET DateStyle TO 'SQL, DMY'`, `CREATE TEMP TABLE t (a text)`, Parse of `s`, Sync.
const FIRST: &[u8] =
    b"\0\0\0\x20\0\x03\0\0user\0ann\0database\0shop\0\0Q\0\0\0\x20SET DateStyle TO 'SQL, DMY'\0Q\0\0\0\x21CREATE TEMP TABLE t (a text)\0P\0\0\0\x16s\0SHOW TimeZone\0\0\0S\0\0\0\x04";

/// The same StartupMessage, `SHOW application_name`, `SELECT * FROM t`, Bind of `s`, Sync.
const SECOND: &[u8] =
    b"\0\0\0\x20\0\x03\0\0user\0ann\0database\0shop\0\0Q\0\0\0\x1aSHOW application_name\0Q\0\0\0\x14SELECT * FROM t\0B\0\0\0\x0d\0s\0\0\0\0\0\0\0S\0\0\0\x04";

/// AuthenticationOk and nine reports.
const REPORTS: &[u8] =
    b"R\0\0\0\x08\0\0\0\0S\0\0\0\x16application_name\0\0S\0\0\0\x19client_encoding\0UTF8\0S\0\0\0\x17DateStyle\0ISO, MDY\0S\0\0\0\x19integer_datetimes\0on\0S\0\0\0\x1bIntervalStyle\0postgres\0S\0\0\0\x19server_encoding\0UTF8\0S\0\0\0\x18server_version\x0016.0\0S\0\0\0\x23standard_conforming_strings\0on\0S\0\0\0\x11TimeZone\0UTC\0";

/// The first key word of a seed of zeros, the readiness, `SET` with the report of DateStyle, `CREATE TABLE`, ParseComplete.
const FIRST_ANSWERS: &[u8] =
    b"K\0\0\0\x0c\x2d\xe0\xb8\x76\x90\x3d\xf1\xa0Z\0\0\0\x05IC\0\0\0\x08SET\0S\0\0\0\x17DateStyle\0SQL, DMY\0Z\0\0\0\x05IC\0\0\0\x11CREATE TABLE\0Z\0\0\0\x05I1\0\0\0\x04Z\0\0\0\x05I";

/// The second key word and the readiness. The name is empty as at the beginning, and neither the table nor the statement is there.
const SECOND_ANSWERS: &[u8] =
    b"K\0\0\0\x0c\x28\xbd\x86\x53\xb8\x19\xd2\xbdZ\0\0\0\x05IT\0\0\0\x29\0\x01application_name\0\0\0\0\0\0\0\0\0\0\x19\xff\xff\xff\xff\xff\xff\0\0D\0\0\0\x0a\0\x01\0\0\0\0C\0\0\0\x09SHOW\0Z\0\0\0\x05IE\0\0\0\x33SERROR\0VERROR\0C42P01\0Mrelation does not exist\0\0Z\0\0\0\x05IE\0\0\0\x3dSERROR\0VERROR\0C26000\0Mprepared statement does not exist\0\0Z\0\0\0\x05I";

/// All that a client is given which sends this, reads so many bytes and leaves.
fn given<R: Net<Listener = net::TcpListener, Stream = net::TcpStream>>(
    rt: &R,
    alloc: Global,
    port: u16,
    input: &[u8],
    count: usize,
) -> Result<Vec<u8>, Fail> {
    let mut stream = connect(rt, port, input)?;
    let mut bytes = read(alloc, &mut stream, count)?;
    bytes.extend_from_slice(leave(alloc, stream)?.as_slice())?;
    Ok(bytes)
}

/// These bytes after the reports.
fn wanted(alloc: Global, answers: &[u8]) -> Result<Vec<u8>, Fail> {
    let mut all = Vec::new(alloc);
    all.extend_from_slice(REPORTS)?;
    all.extend_from_slice(answers)?;
    Ok(all)
}

// The stand-in server takes one connection, so that the second client is served over the first one's link.
#[test]
fn two_clients_over_one_link(rt: HostRuntime) -> Result<(), Fail> {
    let first = wanted(rt.alloc(), FIRST_ANSWERS)?;
    let second = wanted(rt.alloc(), SECOND_ANSWERS)?;
    let (stub, server) = start_stub(rt, rt.alloc(), 1)?;
    let (pool, port) = start_pool(rt, rt.alloc(), server, "default_pool_size = 1\n", 2)?;
    assert!(rt; given(&rt, rt.alloc(), port, FIRST, first.len())? == first);
    assert!(rt; given(&rt, rt.alloc(), port, SECOND, second.len())? == second);
    assert!(rt; pool.join(&rt).is_some());
    assert!(rt; stub.join(&rt));
    Ok(())
}

// Each waits for the reset of the one before it. A reset that waited for an event before it said anything would take 100 ms.
#[test]
fn a_link_is_lent_again_at_once(rt: HostRuntime) -> Result<(), Fail> {
    let count = wanted(rt.alloc(), FIRST_ANSWERS)?.len();
    let (stub, server) = start_stub(rt, rt.alloc(), 1)?;
    let (pool, port) = start_pool(rt, rt.alloc(), server, "default_pool_size = 1\n", 30)?;
    let start = Instant::now(&rt)?;
    for _ in 0..30u32 {
        let _ = given(&rt, rt.alloc(), port, FIRST, count)?;
    }
    assert!(rt; start.elapsed(&rt)?.as_millis() < 2_500);
    assert!(rt; pool.join(&rt).is_some());
    assert!(rt; stub.join(&rt));
    Ok(())
}
