//! `trials login`: a login that is fed with its bytes in pieces.
use crate::KEY_WORD;
use crate::input::read_input;
use crate::lines::{put_hex_line, put_number};
use ini_config::Settings;
use login_core::{Login, LoginRefusal, LoginStep};
use message_view::{Refusal, refusal_bytes};
use pool_app::fault::AppError;
use pool_app::files::{read_file, settings_of, users_of};
use session_machine::StartKey;
use std::alloc::{AllocError, Global};
use std::rt::Files;
use std::sync::Arc;
use user_file::Users;

/// How a login ends.
#[derive(Drop)]
enum Ending {
    /// The bytes come to their end before the login does.
    Unfinished,
    Passed(Arc<StartKey>),
    Console,
    Refused(Refusal),
    Failed(LoginRefusal),
    Cancel { pid: u32, secret: u32 },
    Left,
}

/// What a login is given after a step.
#[derive(Drop)]
enum Next {
    Piece,
    NoBytes,
    Nothing(Ending),
}

/// What is told of a login that goes on: its lines, and what the client was given since the last of them.
#[derive(Drop)]
struct Told {
    lines: Vec<u8>,
    given: Vec<u8>,
}

/// A login that has ended: the client's bytes that it hasn't taken, and how it ended.
#[derive(Drop)]
struct Ended<'a> {
    rest: &'a [u8],
    ending: Ending,
}

/// Appends the row and the user of a start key, and its parameters, parted by commas.
fn put_key(key: &StartKey, out: &mut Vec<u8>) -> Result<(), AllocError> {
    out.extend_from_slice(b" row=")?;
    out.extend_from_slice(key.row.as_slice())?;
    out.extend_from_slice(b" user=")?;
    out.extend_from_slice(key.user.as_slice())?;
    out.extend_from_slice(b" parameters=")?;
    let mut separator: &[u8] = b"";
    for parameter in &key.parameters {
        out.extend_from_slice(separator)?;
        out.extend_from_slice(parameter.0.as_slice())?;
        out.extend_from_slice(b"=")?;
        out.extend_from_slice(parameter.1.as_slice())?;
        separator = b",";
    }
    Ok(())
}

/// Tells that a client has arrived, behind what it was given before.
fn put_arrived(alloc: Global, key: &StartKey, told: &mut Told) -> Result<(), AllocError> {
    put_hex_line(alloc, told.given.as_slice(), &mut told.lines)?;
    told.given.clear();
    told.lines.extend_from_slice(b"arrived")?;
    put_key(key, &mut told.lines)?;
    told.lines.extend_from_slice(b"\n")
}

/// Appends what the client is given at a step, and that it has arrived. The error is that an allocation failed.
fn on_step(alloc: Global, step: LoginStep, told: &mut Told) -> Result<Next, AllocError> {
    match step {
        LoginStep::More => Ok(Next::Piece),
        LoginStep::Ask(question) => {
            told.given.extend_from_slice(question.as_bytes())?;
            Ok(Next::Piece)
        }
        LoginStep::Arrived(key) => {
            put_arrived(alloc, &key, told)?;
            Ok(Next::NoBytes)
        }
        LoginStep::Passed(key, said) => {
            told.given.extend_from_slice(said.as_bytes())?;
            Ok(Next::Nothing(Ending::Passed(key)))
        }
        LoginStep::Console(said) => {
            told.given.extend_from_slice(said.as_bytes())?;
            Ok(Next::Nothing(Ending::Console))
        }
        LoginStep::Refused(Refusal::OutOfMemory) => Err(AllocError),
        LoginStep::Refused(refusal) => {
            told.given.extend_from_slice(refusal_bytes(refusal))?;
            Ok(Next::Nothing(Ending::Refused(refusal)))
        }
        LoginStep::Failed(failure) => {
            told.given.extend_from_slice(failure.as_bytes())?;
            Ok(Next::Nothing(Ending::Failed(failure)))
        }
        LoginStep::Cancel { pid, secret } => Ok(Next::Nothing(Ending::Cancel { pid, secret })),
        LoginStep::Left => Ok(Next::Nothing(Ending::Left)),
    }
}

/// Feeds a login with pieces of at most so many bytes, and tells what the client is given and where it arrives.
fn fed<'a>(
    alloc: Global,
    login: Login,
    bytes: &'a [u8],
    cut: usize,
    told: &mut Told,
) -> Result<Ended<'a>, AllocError> {
    let mut login = login;
    let mut rest = bytes;
    let mut next = Next::Piece;
    for _ in 0..u64::MAX {
        let most = match next {
            Next::Piece => cut,
            Next::NoBytes => 0,
            Next::Nothing(ending) => return Ok(Ended { rest, ending }),
        };
        let (used, step) = login.on_bytes(alloc, &rest[..most.min(rest.len())]);
        rest = &rest[used..];
        next = on_step(alloc, step, told)?;
        if matches!(&next, Next::Piece) && rest.is_empty() {
            break;
        }
    }
    Ok(Ended {
        rest,
        ending: Ending::Unfinished,
    })
}

fn put_refusal(refusal: Refusal, out: &mut Vec<u8>) -> Result<(), AllocError> {
    out.extend_from_slice(b"refused ")?;
    out.extend_from_slice(refusal.code())
}

fn put_failure(failure: LoginRefusal, out: &mut Vec<u8>) -> Result<(), AllocError> {
    match failure {
        LoginRefusal::WrongPassword => out.extend_from_slice(b"failed 28P01"),
        LoginRefusal::NoDatabase => out.extend_from_slice(b"failed 3D000"),
    }
}

fn put_cancel(pid: u32, secret: u32, out: &mut Vec<u8>) -> Result<(), AllocError> {
    out.extend_from_slice(b"cancel pid=")?;
    put_number(pid as usize, out)?;
    out.extend_from_slice(b" secret=")?;
    put_number(secret as usize, out)
}

/// Appends the line that tells how a login ended, and how many bytes it hasn't taken.
fn put_ended(ended: &Ended<'_>, out: &mut Vec<u8>) -> Result<(), AllocError> {
    match &ended.ending {
        Ending::Unfinished => out.extend_from_slice(b"unfinished")?,
        Ending::Passed(key) => {
            out.extend_from_slice(b"passed")?;
            put_key(key, out)?;
        }
        Ending::Console => out.extend_from_slice(b"console")?,
        Ending::Refused(refusal) => put_refusal(*refusal, out)?,
        Ending::Failed(failure) => put_failure(*failure, out)?,
        Ending::Cancel { pid, secret } => put_cancel(*pid, *secret, out)?,
        Ending::Left => out.extend_from_slice(b"left")?,
    }
    out.extend_from_slice(b" unused=")?;
    put_number(ended.rest.len(), out)?;
    out.extend_from_slice(b"\n")
}

/// The lines of a login: what the client was given, with a line between where it arrived, and how the login ended.
fn lines_of(
    alloc: Global,
    settings: Settings,
    users: Users,
    bytes: &[u8],
    cut: usize,
) -> Result<Vec<u8>, AllocError> {
    let settings = Arc::new(alloc, settings)?;
    let users = Arc::new(alloc, users)?;
    let login = Login::new(alloc, settings, users, KEY_WORD)?;
    let mut told = Told {
        lines: Vec::new(alloc),
        given: Vec::new(alloc),
    };
    let ended = fed(alloc, login, bytes, cut, &mut told)?;
    let Told { mut lines, given } = told;
    put_hex_line(alloc, given.as_slice(), &mut lines)?;
    put_ended(&ended, &mut lines)?;
    Ok(lines)
}

/// The answer of the subcommand.
pub fn answer<'a, R: Files + Input>(
    rt: &R,
    alloc: Global,
    ini: &'a str,
    users: &'a str,
    cut: usize,
) -> Result<Vec<u8>, AppError<'a>> {
    let text = read_file(rt, alloc, ini)?;
    let settings = settings_of(alloc, text.as_slice())?;
    let text = read_file(rt, alloc, users)?;
    let users = Users::new(users_of(alloc, text.as_slice())?, [0; 32]);
    let bytes = read_input(rt, alloc)?;
    match lines_of(alloc, settings, users, bytes.as_slice(), cut) {
        Ok(lines) => Ok(lines),
        Err(_) => Err(AppError::Memory),
    }
}
