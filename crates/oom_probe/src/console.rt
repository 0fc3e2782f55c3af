//! The console. An answer that isn't written, for want of memory, leaves what was written before it as it was.

use crate::KEY_WORD;
use crate::book::{filled, view_of};
use crate::files::settings;
use crate::told::{put_bytes, put_unless};
use book_register::view::BookView;
use bytes::BytesMut;
use console_core::reply::{ConsoleReply, answer};
use console_core::writing::{put_refusal, put_reply, put_welcome};
use ini_config::Settings;
use session_values::cause::Cause;
use std::alloc::{AllocError, Global};

const COMMANDS: [&[u8]; 5] = [
    b"SHOW POOLS",
    b"SHOW CLIENTS",
    b"SHOW CONFIG",
    b"PAUSE",
    b"SHOW NOTHING",
];

/// The answer to a command, asked for once more where memory is refused.
fn answered(
    alloc: Global,
    view: &BookView,
    settings: &Settings,
    command: &[u8],
) -> Result<ConsoleReply, AllocError> {
    match answer(alloc, view, settings, command) {
        Ok(reply) => Ok(reply),
        Err(_) => answer(alloc, view, settings, command),
    }
}

/// Whether there are as many bytes as before.
fn put_same(before: usize, frames: &BytesMut, out: &mut Vec<u8>) -> Result<(), AllocError> {
    put_unless(
        frames.len() == before,
        b"bytes are left of what isn't written",
        out,
    )
}

/// Writes a reply.
fn write_reply(
    alloc: Global,
    reply: &ConsoleReply,
    frames: &mut BytesMut,
    out: &mut Vec<u8>,
) -> Result<(), AllocError> {
    let before = frames.len();
    if put_reply(alloc, reply, frames).is_ok() {
        return Ok(());
    }
    put_same(before, frames, out)?;
    put_reply(alloc, reply, frames)
}

/// Writes the welcome.
fn write_welcome(
    alloc: Global,
    frames: &mut BytesMut,
    out: &mut Vec<u8>,
) -> Result<(), AllocError> {
    let before = frames.len();
    if put_welcome(alloc, KEY_WORD, frames).is_ok() {
        return Ok(());
    }
    put_same(before, frames, out)?;
    put_welcome(alloc, KEY_WORD, frames)
}

/// Writes an error.
fn write_refusal(
    alloc: Global,
    frames: &mut BytesMut,
    out: &mut Vec<u8>,
) -> Result<(), AllocError> {
    let before = frames.len();
    if put_refusal(alloc, Cause::Syntax, frames).is_ok() {
        return Ok(());
    }
    put_same(before, frames, out)?;
    put_refusal(alloc, Cause::Syntax, frames)
}

/// The welcome, an error, and the answers to the commands.
pub fn told(alloc: Global, out: &mut Vec<u8>) -> Result<(), AllocError> {
    let book = filled(alloc)?;
    let view = view_of(alloc, &book, out)?;
    let settings = settings(alloc)?;
    let mut frames = BytesMut::new(alloc);
    write_welcome(alloc, &mut frames, out)?;
    write_refusal(alloc, &mut frames, out)?;
    for command in COMMANDS {
        let reply = answered(alloc, &view, &settings, command)?;
        write_reply(alloc, &reply, &mut frames, out)?;
    }
    put_bytes(alloc, b"console", frames.as_slice(), out)
}
