//! Talking to the end of a client.
use server_end::{ClientEnd, Moved};
use std::alloc::Global;
use std::test::Fail;

/// Gives these bytes to the client; the answer to the first write that it didn't count, if there was one.
pub fn give<E: ClientEnd>(client: &mut E, bytes: &[u8]) -> Option<Moved> {
    let mut rest = bytes;
    for _ in 0..1000 {
        if rest.is_empty() {
            return None;
        }
        match client.write_some(rest) {
            Moved::Count(count) => rest = &rest[count..],
            other => return Some(other),
        }
    }
    None
}

/// What the client hands out, and the answer that ended it.
pub fn take<E: ClientEnd>(alloc: Global, client: &mut E) -> Result<(Vec<u8>, Moved), Fail> {
    let mut taken = Vec::new(alloc);
    let mut piece = [0u8; 100];
    for _ in 0..1000 {
        match client.read_some(&mut piece) {
            Moved::Count(count) => taken.extend_from_slice(&piece[..count])?,
            other => return Ok((taken, other)),
        }
    }
    Err("the client hands out without end")?
}

/// Whether the client hands out these bytes, and then answers so.
pub fn hands_out<E: ClientEnd>(
    alloc: Global,
    client: &mut E,
    bytes: &[u8],
    end: Moved,
) -> Result<bool, Fail> {
    let (taken, moved) = take(alloc, client)?;
    Ok(taken.as_slice() == bytes && moved == end)
}

/// These bytes one after the other.
pub fn joined(alloc: Global, parts: &[&[u8]]) -> Result<Vec<u8>, Fail> {
    let mut all = Vec::new(alloc);
    for part in parts {
        all.extend_from_slice(part)?;
    }
    Ok(all)
}
