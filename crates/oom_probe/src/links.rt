//! Starts and resets of links. Where memory is refused they hand the end back, which goes on; or the end itself was refused memory and
//! has ended.
ghost use Rattle.link_start.specs.Starts.{CanStartAll};

use crate::KEY_WORD;
use crate::ends::{has_ended, is_alive, reads_all, writes_all};
use crate::lease::{LIMIT, TALK, pumped};
use crate::making::{CUT, PASSWORD, key, server};
use crate::told::{put_bytes, put_numbers, put_unless};
use credentials::Credential;
use link_run::links::{CleanLink, UsedLink};
use link_run::reset::{Disposed, ResetError, reset_link};
use link_start::start::{StartCause, StartLinkError, start_link};
use memory_ends::memory_client::MemoryClient;
use relay_core::relay::{Relay, Returned};
use server_end::ServerEnd;
use server_end::gate::OpenGate;
use std::alloc::{AllocError, Global};
use user_file::Secret;

/// Turns enough.
const TURNS: u32 = 200;

/// A client's Sync, and its answer outside a block.
const SYNC: &[u8] = b"S\0\0\0\x04";

const READY: &[u8] = b"Z\0\0\0\x05I";

/// What was handed back by a start.
fn put_start_fault<E: ServerEnd>(
    fault: StartLinkError<E>,
    out: &mut Vec<u8>,
) -> Result<(), AllocError> {
    let StartLinkError { mut end, cause } = fault;
    let is_as_told = match cause {
        StartCause::Memory => is_alive(&mut end),
        StartCause::Lost => has_ended(&mut end),
        _ => false,
    };
    put_unless(is_as_told, b"a start hands another end back", out)
}

/// The start of a link over this end; none where memory is refused.
fn started<E: ServerEnd>(
    alloc: Global,
    end: E,
    out: &mut Vec<u8>,
) -> Result<Option<CleanLink<E>>, AllocError>
    requires { CanStartAll (E.standing end) }
{
    let Ok(secret) = Secret::read(alloc, PASSWORD) else {
        return Err(AllocError);
    };
    let credential = Credential::new(alloc, &secret, None, &KEY_WORD, 5);
    let key = key(alloc)?;
    match start_link(
        alloc,
        end,
        key,
        &credential,
        5,
        9,
        &mut OpenGate::new(),
        TURNS,
    ) {
        Ok(link) => Ok(Some(link)),
        Err(fault) => {
            put_start_fault(fault, out)?;
            Ok(None)
        }
    }
}

/// A link over this end.
pub fn link<E: ServerEnd>(
    alloc: Global,
    end: E,
    out: &mut Vec<u8>,
) -> Result<CleanLink<E>, AllocError>
    requires { CanStartAll (E.standing end) }
{
    match started(alloc, end, out)? {
        Some(link) => Ok(link),
        None => Err(AllocError),
    }
}

/// Appends a link's number, birth and key, and what it reported.
fn put_link<E: ServerEnd>(
    alloc: Global,
    link: &CleanLink<E>,
    out: &mut Vec<u8>,
) -> Result<(), AllocError> {
    put_numbers(b"link", &[link.number(), link.started_at()], out)?;
    put_bytes(alloc, b"user", link.key().user.as_slice(), out)?;
    for report in link.reports() {
        put_bytes(alloc, report.name(), report.value(), out)?;
    }
    Ok(())
}

/// A start over the first end, and where memory is refused one over the next.
fn put_start<E: ServerEnd>(
    alloc: Global,
    end: E,
    next: E,
    out: &mut Vec<u8>,
) -> Result<(), AllocError>
    requires first { CanStartAll (E.standing end) }
    requires next { CanStartAll (E.standing next) }
{
    if let Some(link) = started(alloc, end, out)? {
        return put_link(alloc, &link, out);
    }
    match started(alloc, next, out)? {
        Some(link) => put_link(alloc, &link, out),
        None => put_unless(false, b"a start fails twice", out),
    }
}

/// The start of a link.
pub fn told_of_starts(alloc: Global, out: &mut Vec<u8>) -> Result<(), AllocError> {
    put_start(alloc, server(alloc)?, server(alloc)?, out)
}

/// A link that a client has used.
fn used<E: ServerEnd>(alloc: Global, end: E, out: &mut Vec<u8>) -> Result<UsedLink<E>, AllocError>
    requires { CanStartAll (E.standing end) }
{
    let link = link(alloc, end, out)?;
    let client = MemoryClient::new(alloc, TALK, CUT)?;
    let Ok(relay) = Relay::begin(alloc, client, link, KEY_WORD, LIMIT) else {
        return Err(AllocError);
    };
    let (_, returned) = pumped(relay);
    match returned {
        Returned::Used(link) => Ok(link),
        _ => Err(AllocError),
    }
}

/// Whether it is asked once more and answers, with no fault counted.
fn still_answers<E: ServerEnd>(alloc: Global, end: &mut E) -> Result<bool, AllocError> {
    let mut given = Vec::new(alloc);
    let is_asked = writes_all(end, SYNC);
    let is_given = reads_all(end, &mut given)?;
    Ok(is_asked && is_given && given.ends_with(READY) && end.faults() == 0)
}

/// What was handed back by a reset.
fn put_reset_fault<E: ServerEnd>(
    alloc: Global,
    disposed: Disposed<E>,
    out: &mut Vec<u8>,
) -> Result<(), AllocError> {
    let Disposed { mut end, cause } = disposed;
    let is_as_told = match cause {
        ResetError::Memory => still_answers(alloc, &mut end)?,
        ResetError::Lost => has_ended(&mut end),
        _ => false,
    };
    put_unless(is_as_told, b"a reset hands another end back", out)
}

/// The reset of a link; none where memory is refused.
fn reset<E: ServerEnd>(
    alloc: Global,
    link: UsedLink<E>,
    out: &mut Vec<u8>,
) -> Result<Option<CleanLink<E>>, AllocError> {
    match reset_link(alloc, link, &mut OpenGate::new(), TURNS) {
        Ok(link) => Ok(Some(link)),
        Err(disposed) => {
            put_reset_fault(alloc, disposed, out)?;
            Ok(None)
        }
    }
}

/// A reset of a link over the first end, and where memory is refused one over the next.
fn put_reset<E: ServerEnd>(
    alloc: Global,
    end: E,
    next: E,
    out: &mut Vec<u8>,
) -> Result<(), AllocError>
    requires first { CanStartAll (E.standing end) }
    requires next { CanStartAll (E.standing next) }
{
    let first = used(alloc, end, out)?;
    if let Some(link) = reset(alloc, first, out)? {
        return put_link(alloc, &link, out);
    }
    let second = used(alloc, next, out)?;
    match reset(alloc, second, out)? {
        Some(link) => put_link(alloc, &link, out),
        None => put_unless(false, b"a reset fails twice", out),
    }
}

/// The reset of a link.
pub fn told_of_resets(alloc: Global, out: &mut Vec<u8>) -> Result<(), AllocError> {
    put_reset(alloc, server(alloc)?, server(alloc)?, out)
}
