//! Talking to the end of a server.
ghost use Rattle.std.specs.Prelude.{◌<◌};

use memory_ends::memory_server::{MemoryServer, ServerAuth};
use memory_ends::striker::Striker;
use message_view::KeyWord;
use server_end::{Moved, ServerEnd};
use session_catalogue::Catalogue;
use std::alloc::Global;
use std::mem::{ManuallyDrop, forget};
use std::sync::Arc;
use std::test::Fail;

/// The words that a server under test gives.
const OWN: KeyWord = KeyWord {
    pid: 7,
    secret: 8,
    salt: [0; 4],
};

fn lines() -> &'static [u8] {
    b"version\t16.0\ndatabase\tshop\n"
}

/// The catalogue of the lines above.
fn catalogue(alloc: Global) -> Result<Arc<Catalogue>, Fail> {
    match Catalogue::read(alloc, lines()) {
        Ok(catalogue) => match Arc::new(alloc, catalogue) {
            Ok(shared) => Ok(shared),
            Err(failed) => {
                forget(failed);
                Err("no memory")?
            }
        },
        Err(_) => Err("no catalogue")?,
    }
}

/// A server over a small catalogue. It isn't dropped, for its drop is proved where it is declared, and would be most of what is
/// to be proved here.
pub fn server(
    alloc: Global,
    auth: ServerAuth<'_>,
    cut: usize,
    dies_after: Option<u64>,
) -> Result<ManuallyDrop<MemoryServer>, Fail>
    requires { 0 < cut }
{
    let catalogue = catalogue(alloc)?;
    match MemoryServer::new(alloc, catalogue, auth, OWN, cut, dies_after) {
        Ok(server) => Ok(ManuallyDrop::new(server)),
        Err(_) => Err("no memory")?,
    }
}

/// A server that asks for nothing, and what cancels its statements.
pub fn server_and_striker(alloc: Global) -> Result<(ManuallyDrop<MemoryServer>, Striker), Fail> {
    let catalogue = catalogue(alloc)?;
    match MemoryServer::new(alloc, catalogue, ServerAuth::Trust, OWN, 100, None) {
        Ok(server) => {
            let server = ManuallyDrop::new(server);
            match server.striker() {
                Ok(striker) => Ok((server, striker)),
                Err(_) => Err("no memory")?,
            }
        }
        Err(_) => Err("no memory")?,
    }
}

/// Writes these bytes to the server; the answer to the first write that it didn't count, if there was one.
pub fn say<E: ServerEnd>(server: &mut E, bytes: &[u8]) -> Option<Moved> {
    let mut rest = bytes;
    for _ in 0..1000 {
        if rest.is_empty() {
            return None;
        }
        match server.write_some(rest) {
            Moved::Count(count) => rest = &rest[count..],
            other => return Some(other),
        }
    }
    None
}

/// What the server gives, and the answer that ended it.
pub fn hear<E: ServerEnd>(alloc: Global, server: &mut E) -> Result<(Vec<u8>, Moved), Fail> {
    let mut heard = Vec::new(alloc);
    let mut piece = [0u8; 100];
    for _ in 0..1000 {
        match server.read_some(&mut piece) {
            Moved::Count(count) => heard.extend_from_slice(&piece[..count])?,
            other => return Ok((heard, other)),
        }
    }
    Err("the server gives without end")?
}

/// Writes these bytes; what the server gives then, until there is nothing more at that time.
pub fn ask<E: ServerEnd>(alloc: Global, server: &mut E, bytes: &[u8]) -> Result<Vec<u8>, Fail> {
    if say(server, bytes).is_some() {
        return Err("the server doesn't take it")?;
    }
    match hear(alloc, server)? {
        (heard, Moved::NotNow) => Ok(heard),
        _ => Err("the server has ended")?,
    }
}

/// The place of the first of these messages that the server answers otherwise.
pub fn first_surprise<E: ServerEnd>(
    alloc: Global,
    server: &mut E,
    talk: &[(&[u8], &[u8])],
) -> Result<Option<usize>, Fail> {
    for (at, (message, answer)) in talk.iter().enumerate() {
        if ask(alloc, server, message)?.as_slice() != *answer {
            return Ok(Some(at));
        }
    }
    Ok(None)
}
