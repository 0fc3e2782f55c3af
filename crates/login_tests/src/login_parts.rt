//! A login that is fed, and what its client is given.
use ini_config::{Settings, read_settings};
use login_core::{KeyWord, Login, LoginStep};
use message_view::refusal_bytes;
use start_keys::StartKey;
use std::alloc::Global;
use std::sync::Arc;
use std::test::Fail;
use user_file::{Users, read_users};

const USERS: &[u8] =
    b"\"ann\" \"secret\"\n\"bc\" \"md5900150983cd24fb0d6963f7d28e17f72\"\n\"root\" \"r\"\n\"vera\" \"SCRAM-SHA-256$7:AQIDBAUGBwg=$UG5ifiH/IdPxYxSNLlexwDO4uR4HGO2LU5mHPolsM7Y=:bchlx4dLOGhVbF267g2yLJRbe0l0LsCv9OunBNsr1Ec=\"\n";

/// The key of the salts that names have.
const SALTS: [u8; 32] = [7; 32];

const WORD: KeyWord = KeyWord {
    pid: 1,
    secret: 2,
    salt: [1, 2, 3, 4],
};

/// What stands among the given bytes where the client arrives.
pub const ARRIVES: &[u8] = b"<arrives>";

pub const OK: &[u8] = b"R\0\0\0\x08\0\0\0\0";

pub const WRONG: &[u8] = b"E\0\0\0\x3aSFATAL\0VFATAL\0C28P01\0Mpassword authentication failed\0\0";

pub const MALFORMED: &[u8] = b"E\0\0\0\x34SFATAL\0VFATAL\0C08P01\0Mmalformed client message\0\0";

pub const ANN: &[u8] = b"\0\0\0\x20\0\x03\0\0user\0ann\0database\0shop\0\0";

pub const BC: &[u8] = b"\0\0\0\x1f\0\x03\0\0user\0bc\0database\0shop\0\0";

pub const ZED: &[u8] = b"\0\0\0\x20\0\x03\0\0user\0zed\0database\0shop\0\0";

pub const ROOT_AT_CONSOLE: &[u8] = b"\0\0\0\x26\0\x03\0\0user\0root\0database\0pgbouncer\0\0";

/// How a login has ended, if it has.
#[derive(Clone, Copy, PartialEq, Eq, Drop)]
pub enum End {
    Open,
    Passed,
    Console,
    Cancel { pid: u32, secret: u32 },
    Closed,
}

/// What a client was given and where it arrived, and what was taken of its bytes.
#[derive(Drop)]
pub struct Seen {
    pub out: Vec<u8>,
    pub taken: usize,
    pub key: Option<Arc<StartKey>>,
    pub end: End,
}

/// What a client is given at a step, and that it has arrived. The console's AuthenticationOk is the caller's.
fn said(step: &LoginStep) -> &[u8] {
    match step {
        LoginStep::Arrived(_) => ARRIVES,
        LoginStep::Ask(question) => question.as_bytes(),
        LoginStep::Passed(_, told) => told.as_bytes(),
        LoginStep::Console(told) => told.as_bytes(),
        LoginStep::Refused(refusal) => refusal_bytes(*refusal),
        LoginStep::Failed(failure) => failure.as_bytes(),
        LoginStep::More | LoginStep::Cancel { .. } | LoginStep::Left => b"",
    }
}

/// Where a client arrived by its last step, with its key if it goes to a link; nothing by any other step.
fn arrived(step: LoginStep) -> Option<(Option<Arc<StartKey>>, End)> {
    match step {
        LoginStep::More | LoginStep::Arrived(_) | LoginStep::Ask(_) => None,
        LoginStep::Passed(key, _) => Some((Some(key), End::Passed)),
        LoginStep::Console(_) => Some((None, End::Console)),
        LoginStep::Refused(_) | LoginStep::Failed(_) | LoginStep::Left => Some((None, End::Closed)),
        LoginStep::Cancel { pid, secret } => Some((None, End::Cancel { pid, secret })),
    }
}

/// What a client is given at a step, and where it arrived.
fn see(seen: &mut Seen, step: LoginStep) -> Result<(), Fail> {
    seen.out.extend_from_slice(said(&step))?;
    if let Some((key, end)) = arrived(step) {
        seen.key = key;
        seen.end = end;
    }
    Ok(())
}

/// Hands over a piece, with as many calls as are answered by more than [`LoginStep::More`].
fn feed(alloc: Global, login: &mut Login, piece: &[u8], seen: &mut Seen) -> Result<(), Fail> {
    let mut rest = piece;
    for _ in 0..32 {
        if seen.end != End::Open {
            return Ok(());
        }
        let (used, step) = login.on_bytes(alloc, rest);
        rest = &rest[used..];
        seen.taken = seen.taken.saturating_add(used);
        let waits = matches!(&step, LoginStep::More) && rest.is_empty();
        see(seen, step)?;
        if waits {
            return Ok(());
        }
    }
    Ok(())
}

/// The users of these tests.
pub fn users(alloc: Global) -> Result<Users, Fail> {
    Ok(Users::new(read_users(alloc, USERS)?, SALTS))
}

/// A login under these settings.
pub fn login(alloc: Global, ini: &[u8]) -> Result<Login, Fail> {
    let settings: Settings = read_settings(alloc, ini)?;
    Ok(Login::new(
        alloc,
        Arc::new(alloc, settings)?,
        Arc::new(alloc, users(alloc)?)?,
        WORD,
    )?)
}

/// The login of these bytes, handed over in two pieces.
pub fn cut_at(alloc: Global, ini: &[u8], input: &[u8], cut: usize) -> Result<Seen, Fail> {
    let mut login = login(alloc, ini)?;
    let mut seen = Seen {
        out: Vec::new(alloc),
        taken: 0,
        key: None,
        end: End::Open,
    };
    let cut = cut.min(input.len());
    feed(alloc, &mut login, &input[..cut], &mut seen)?;
    feed(alloc, &mut login, &input[cut..], &mut seen)?;
    if seen.end != End::Open {
        let (used, step) = login.on_bytes(alloc, input);
        let is_left = matches!(step, LoginStep::Left);
        if used != 0 || !is_left || login.wants() != 0 {
            return Err("it goes on after its end")?;
        }
    }
    Ok(seen)
}

/// These bytes one after the other.
pub fn joined(alloc: Global, parts: &[&[u8]]) -> Result<Vec<u8>, Fail> {
    let mut all: Vec<u8> = Vec::new(alloc);
    for part in parts {
        all.extend_from_slice(part)?;
    }
    Ok(all)
}

/// Whether the login of these packets, cut at every byte, gives the client this and ends so.
///
/// All that must be dropped is held here and in `has_key`: a test that held it would have to show how on each of its ways out.
pub fn is_login(
    alloc: Global,
    ini: &[u8],
    packets: &[&[u8]],
    out: &[&[u8]],
    end: End,
    left: usize,
) -> Result<bool, Fail> {
    is_login_by(alloc, ini, packets, out, end, left, 1)
}

/// The same, cut at every so many bytes alone.
pub fn is_login_by(
    alloc: Global,
    ini: &[u8],
    packets: &[&[u8]],
    out: &[&[u8]],
    end: End,
    left: usize,
    bytes: usize,
) -> Result<bool, Fail> {
    let input = joined(alloc, packets)?;
    let wanted = joined(alloc, out)?;
    for cut in (0..input.len()).step_by(bytes.max(1)) {
        let seen = cut_at(alloc, ini, input.as_slice(), cut)?;
        let is_same = seen.out.as_slice() == wanted.as_slice()
            && seen.end == end
            && seen.taken.saturating_add(left) == input.len();
        if !is_same {
            return Ok(false);
        }
    }
    Ok(true)
}
