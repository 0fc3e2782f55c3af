//! Ends in memory. One whose growth is refused counts a fault, and has ended from then on.

use crate::making::{CUT, server};
use crate::told::{put_bytes, put_unless};
use memory_ends::memory_client::MemoryClient;
use server_end::{ClientEnd, Moved, ServerEnd};
use std::alloc::{AllocError, Global};

/// The bytes that a read takes at most.
const CHUNK: usize = 64;

/// An end has fewer calls than this until nothing moves.
const MAX_CALLS: u64 = 200;

/// Ann's StartupMessage, her password, a Query, and a prepared statement that is executed.
const PACKETS: [&[u8]; 4] = [
    b"\0\0\0\x20\0\x03\0\0user\0ann\0database\0shop\0\0",
    b"p\0\0\0\x0bsecret\0",
    b"Q\0\0\0\x17SELECT * FROM city\0",
    b"P\0\0\0\x16s\0SHOW TimeZone\0\0\0B\0\0\0\x0d\0s\0\0\0\0\0\0\0E\0\0\0\x09\0\0\0\0\0S\0\0\0\x04",
];

/// Writes all of these bytes; whether each call moved some.
pub fn writes_all<E: ServerEnd>(end: &mut E, bytes: &[u8]) -> bool {
    let mut rest = bytes;
    for _ in 0..bytes.len() {
        if rest.is_empty() {
            break;
        }
        match end.write_some(rest) {
            Moved::Count(count) => rest = &rest[count..],
            _ => return false,
        }
    }
    true
}

/// Reads until nothing more is there; whether that is told in the end.
pub fn reads_all<E: ServerEnd>(end: &mut E, given: &mut Vec<u8>) -> Result<bool, AllocError> {
    let mut chunk = [0u8; CHUNK];
    for _ in 0..MAX_CALLS {
        match end.read_some(&mut chunk) {
            Moved::Count(count) => given.extend_from_slice(&chunk[..count])?,
            Moved::NotNow => return Ok(true),
            Moved::Ended | Moved::Fault => return Ok(false),
        }
    }
    Ok(false)
}

/// Whether it has counted one fault, and each later call tells that it has ended and isn't counted.
pub fn has_ended<E: ServerEnd>(end: &mut E) -> bool {
    let mut chunk = [0u8; CHUNK];
    for _ in 0..3 {
        if end.read_some(&mut chunk) != Moved::Ended || end.write_some(b"S") != Moved::Ended {
            return false;
        }
    }
    end.faults() == 1
}

/// Whether it has counted no fault and gives what is there.
pub fn is_alive<E: ServerEnd>(end: &mut E) -> bool {
    let mut chunk = [0u8; CHUNK];
    match end.read_some(&mut chunk) {
        Moved::Count(_) | Moved::NotNow => end.faults() == 0,
        Moved::Ended | Moved::Fault => false,
    }
}

/// The packets one by one: whether no call failed.
fn answers<E: ServerEnd>(end: &mut E, given: &mut Vec<u8>) -> Result<bool, AllocError> {
    for packet in PACKETS {
        if !writes_all(end, packet) || !reads_all(end, given)? {
            return Ok(false);
        }
    }
    Ok(true)
}

/// What a server's end answers to the packets; the next one does, where it ends.
fn put_answers<E: ServerEnd>(
    alloc: Global,
    end: E,
    next: E,
    out: &mut Vec<u8>,
) -> Result<(), AllocError> {
    let mut given = Vec::new(alloc);
    let mut end = end;
    if !answers(&mut end, &mut given)? {
        put_unless(has_ended(&mut end), b"a server's end goes on", out)?;
        given.clear();
        end = next;
        put_unless(
            answers(&mut end, &mut given)?,
            b"the next one fails too",
            out,
        )?;
    }
    put_bytes(alloc, b"server", given.as_slice(), out)
}

/// The client takes all of these bytes: whether each call moved some.
fn takes_all<C: ClientEnd>(client: &mut C, bytes: &[u8]) -> bool {
    let mut rest = bytes;
    for _ in 0..bytes.len() {
        if rest.is_empty() {
            break;
        }
        match client.write_some(rest) {
            Moved::Count(count) => rest = &rest[count..],
            _ => return false,
        }
    }
    true
}

/// Whether it has counted one fault, and each later call tells that it has ended and isn't counted.
fn has_gone<C: ClientEnd>(client: &mut C) -> bool {
    let mut chunk = [0u8; CHUNK];
    for _ in 0..3 {
        if client.read_some(&mut chunk) != Moved::Ended || client.write_some(b"S") != Moved::Ended {
            return false;
        }
    }
    client.faults() == 1
}

/// What a client was given of these bytes; the next one is, where it ends.
fn put_given(alloc: Global, bytes: &[u8], out: &mut Vec<u8>) -> Result<(), AllocError> {
    let mut client = MemoryClient::new(alloc, b"S\0\0\0\x04", CUT)?;
    let mut next = MemoryClient::new(alloc, b"", CUT)?;
    if takes_all(&mut client, bytes) {
        return put_bytes(alloc, b"client", client.given(), out);
    }
    put_unless(has_gone(&mut client), b"a client's end goes on", out)?;
    let is_beginning = bytes.starts_with(client.given());
    put_unless(is_beginning, b"a client has other bytes", out)?;
    put_unless(takes_all(&mut next, bytes), b"the next one fails too", out)?;
    put_bytes(alloc, b"client", next.given(), out)
}

/// Ends of both sides.
pub fn told(alloc: Global, out: &mut Vec<u8>) -> Result<(), AllocError> {
    put_answers(alloc, server(alloc)?, server(alloc)?, out)?;
    for packet in PACKETS {
        put_given(alloc, packet, out)?;
    }
    Ok(())
}
