//! `trials solo`: what a session alone answers to each front of a client's bytes, or to each frame of a client that a cancel strikes.
//! What is refused for want of memory is asked once more, since nothing has changed then: so a run in which a growth is refused tells
//! whether that is so.
use crate::KEY_WORD;
use crate::input::read_input;
use crate::lines::put_hex_line;
use bytes::BytesMut;
use frame_view::{Frame, MAX_FRAME, Side, Step, next_frame};
use pool_app::fault::AppError;
use pool_app::files::read_catalogue;
use session_machine::{Catalogue, Session, StartKey, Text, solo_bytes};
use start_keys::Host;
use std::alloc::{AllocError, Global};
use std::rt::Files;

/// The database that every session is of, and its row.
const DATABASE: &[u8] = b"shop";

/// The start key of a user whose StartupMessage names itself and the database alone.
fn key_of(alloc: Global, user: &[u8]) -> Result<StartKey, AllocError> {
    Ok(StartKey {
        row: Text::from_slice(alloc, DATABASE)?,
        host: Some(Host::local()),
        port: 5432,
        dbname: Text::from_slice(alloc, DATABASE)?,
        user: Text::from_slice(alloc, user)?,
        parameters: Vec::new(alloc),
    })
}

/// Appends what a session alone answers to these bytes.
fn put_answer(
    alloc: Global,
    catalogue: &Catalogue,
    key: &StartKey,
    bytes: &[u8],
    replies: &mut BytesMut,
) -> Result<(), AllocError> {
    match solo_bytes(alloc, catalogue, key, KEY_WORD, bytes, replies) {
        Ok(()) => Ok(()),
        Err(_) => solo_bytes(alloc, catalogue, key, KEY_WORD, bytes, replies),
    }
}

/// Appends what the session answers to this frame.
fn put_replies(
    alloc: Global,
    catalogue: &Catalogue,
    session: &mut Session,
    frame: Frame<'_>,
    replies: &mut BytesMut,
) -> Result<(), AllocError> {
    match session.step(alloc, catalogue, frame, replies) {
        Ok(()) => Ok(()),
        Err(_) => session.step(alloc, catalogue, frame, replies),
    }
}

/// Appends the session's welcome.
fn put_welcome(alloc: Global, session: &Session, welcome: &mut BytesMut) -> Result<(), AllocError> {
    match session.put_welcome(alloc, KEY_WORD, welcome) {
        Ok(()) => Ok(()),
        Err(_) => session.put_welcome(alloc, KEY_WORD, welcome),
    }
}

/// A line for each front of the bytes, the empty one first.
fn lines_of(
    alloc: Global,
    catalogue: &Catalogue,
    user: &[u8],
    bytes: &[u8],
) -> Result<Vec<u8>, AllocError> {
    let key = key_of(alloc, user)?;
    let mut lines = Vec::new(alloc);
    for size in 0..=bytes.len() {
        let mut replies = BytesMut::new(alloc);
        put_answer(alloc, catalogue, &key, &bytes[..size], &mut replies)?;
        put_hex_line(alloc, replies.as_slice(), &mut lines)?;
    }
    Ok(lines)
}

/// Appends a line for each whole frame that the bytes begin with. A cancel strikes the session before the frame of this number.
fn put_frame_lines(
    alloc: Global,
    catalogue: &Catalogue,
    session: &mut Session,
    cancelled: u64,
    bytes: &[u8],
    lines: &mut Vec<u8>,
) -> Result<(), AllocError> {
    let mut rest = bytes;
    for number in 0..u64::MAX {
        let Step::Whole(frame) = next_frame(rest, 0, MAX_FRAME, Side::Client) else {
            break;
        };
        if number == cancelled {
            session.strike();
        }
        let mut replies = BytesMut::new(alloc);
        put_replies(alloc, catalogue, session, frame, &mut replies)?;
        put_hex_line(alloc, replies.as_slice(), lines)?;
        rest = &rest[frame.whole.len().min(rest.len())..];
    }
    Ok(())
}

/// A line for the welcome and one for each frame; none where the session doesn't start.
fn cancelled_lines(
    alloc: Global,
    catalogue: &Catalogue,
    user: &[u8],
    cancelled: u64,
    bytes: &[u8],
) -> Result<Vec<u8>, AllocError> {
    let key = key_of(alloc, user)?;
    let mut lines = Vec::new(alloc);
    if let Ok(mut session) = Session::start(alloc, catalogue, &key)? {
        let mut welcome = BytesMut::new(alloc);
        put_welcome(alloc, &session, &mut welcome)?;
        put_hex_line(alloc, welcome.as_slice(), &mut lines)?;
        put_frame_lines(alloc, catalogue, &mut session, cancelled, bytes, &mut lines)?;
    }
    Ok(lines)
}

/// The answer of the subcommand.
pub fn answer<'a, R: Files + Input>(
    rt: &R,
    alloc: Global,
    catalogue: &'a str,
    user: &str,
    cancelled: Option<u64>,
) -> Result<Vec<u8>, AppError<'a>> {
    let catalogue = read_catalogue(rt, alloc, catalogue)?;
    let bytes = read_input(rt, alloc)?;
    let (user, bytes) = (user.as_bytes(), bytes.as_slice());
    let lines = match cancelled {
        Some(number) => cancelled_lines(alloc, &catalogue, user, number, bytes),
        None => lines_of(alloc, &catalogue, user, bytes),
    };
    match lines {
        Ok(lines) => Ok(lines),
        Err(_) => Err(AppError::Memory),
    }
}
