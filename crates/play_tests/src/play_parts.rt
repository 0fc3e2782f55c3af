//! The parts of the plays: what clients send, and what they are given.
ghost use Rattle.std.specs.Prelude.{◌<◌};

use crate::files::{SHOP, catalogue, settings_of, users};
use play::{Act, Played, play};
use std::alloc::{AllocError, Global};
use std::sync::Arc;

/// The most bytes that a call of an end moves, as the plays have it in turn.
pub const CUTS: [usize; 3] = [1, 7, 8_192];

/// Ann's StartupMessage for the database shop with `application_name` `a`, and with `b`.
pub const START_A: &[u8] =
    b"\0\0\0\x33\0\x03\0\0user\0ann\0database\0shop\0application_name\0a\0\0";

pub const START_B: &[u8] =
    b"\0\0\0\x33\0\x03\0\0user\0ann\0database\0shop\0application_name\0b\0\0";

/// What a client is given in its login.
pub const LET_IN: &[u8] = b"R\0\0\0\x08\0\0\0\0";

/// The parts of a welcome: the name of its first report, what follows the value, and its ReadyForQuery.
const NAME: &[u8] = b"application_name\0";

const REPORTS: &[u8] =
    b"\0S\0\0\0\x19client_encoding\0UTF8\0S\0\0\0\x17DateStyle\0ISO, MDY\0S\0\0\0\x19integer_datetimes\0on\0S\0\0\0\x1bIntervalStyle\0postgres\0S\0\0\0\x19server_encoding\0UTF8\0S\0\0\0\x18server_version\016.0\0S\0\0\0\x23standard_conforming_strings\0on\0S\0\0\0\x11TimeZone\0UTC\0";

const READY: &[u8] = b"Z\0\0\0\x05I";

/// A play under these options.
pub fn played(
    alloc: Global,
    options: &[u8],
    cut: usize,
    acts: &[Act<'_>],
) -> Result<Played, AllocError>
    requires { 0 < cut }
{
    let mut text = Vec::from_slice(alloc, SHOP)?;
    text.extend_from_slice(options)?;
    let settings = Arc::new(alloc, settings_of(alloc, text.as_slice())?)?;
    let users = users(alloc)?;
    let catalogue = catalogue(alloc)?;
    play(alloc, settings, users, catalogue, cut, acts)
}

/// What the client of this number was given.
pub fn given(played: &Played, client: usize) -> &[u8] {
    match played.clients.get(client.wrapping_sub(1)) {
        Some(given) => given.bytes.as_slice(),
        None => b"",
    }
}

/// The links that it had.
pub fn links(played: &Played, client: usize) -> &[u64] {
    match played.clients.get(client.wrapping_sub(1)) {
        Some(given) => given.links.as_slice(),
        None => &[],
    }
}

/// What the client of this number, and of this `application_name` of at most one letter, is given by its login and its welcome, and
/// then this.
pub fn greeted(alloc: Global, name: &[u8], client: u8, last: &[u8]) -> Result<Vec<u8>, AllocError> {
    let head: &[u8] = if name.is_empty() {
        b"S\0\0\0\x16"
    } else {
        b"S\0\0\0\x17"
    };
    let word = [b'K', 0, 0, 0, 12, 0, 0, 0, client, 0, 0, 0, client];
    let mut all = Vec::new(alloc);
    for part in [LET_IN, head, NAME, name, REPORTS, &word, READY, last] {
        all.extend_from_slice(part)?;
    }
    Ok(all)
}

/// A Query of 19,999 spaces.
pub fn long_query(alloc: Global) -> Result<Vec<u8>, AllocError> {
    let mut all = Vec::from_slice(alloc, b"Q\0\0\x4e\x24")?;
    for _ in 0..19_999 {
        all.push(b' ')?;
    }
    all.push(0)?;
    Ok(all)
}
