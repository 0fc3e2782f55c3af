//! How far a cursor goes over bytes of one direction, so that a frame may go on before all of it is there.
//!
//! A frame goes on from its fifth byte on, when its head is known to be lawful (PostgreSQL manual, "Message Formats").
//! A server's ReadyForQuery and ParameterStatus go on only whole, since what they say is read.
//!
//! Each row of a result comes this way, so what is on it is written into its caller (`inline(always)`): as calls it would cost a short
//! row up to twice its instructions.

ghost use Rattle.std.specs.Prelude.{◌≡◌, ◌<◌, ◌≤◌, length, slice_index, IfSome};
ghost use Rattle.frame_view.specs.Frames.{number};
ghost use Rattle.relay_flow.specs.Parts.{goes_whole, status_in, is_foreign, is_foreign_in_parts, GoesOn, GoesOnInside};

use byteorder::{BigEndian, ByteOrder};
use frame_view::laws::are_bytes;
use frame_view::server::{PARAMETER_STATUS, READY_FOR_QUERY};
use frame_view::{FrameError, Head, Side, head_fault};

/// How far a cursor goes: over `count` bytes of one frame.
#[derive(Clone, Copy, Drop)]
pub struct Advance {
    /// How many bytes, at least 1.
    pub count: usize,
    /// The type of their frame.
    pub kind: u8,
    /// How many bytes of the frame are to come behind them.
    pub rest: usize,
    /// Where a server's frame ends here: the status that it tells, if it is a ReadyForQuery of one.
    pub status: Option<u8>,
    /// Where a server's frame ends here: whether it is one that no session sends.
    pub is_foreign: bool,
}

/// How many bytes a frame's type and length are.
pub const HEAD: usize = 5;

/// The length of a ReadyForQuery: its own four bytes and the status.
pub const READY_LENGTH: usize = 5;

/// The greatest body of a ParameterStatus that a session sends.
pub const MAX_STATUS: usize = 4096;

/// Whether nothing of a frame of this type and length goes on before it is whole.
fn goes_on_whole(side: Side, kind: u8, length: usize) -> bool
    ensures { result ≡ goes_whole side kind length }
{
    match side {
        Side::Client => false,
        Side::Server => (kind == READY_FOR_QUERY && length == READY_LENGTH)
            || (kind == PARAMETER_STATUS && length <= 4 + MAX_STATUS),
    }
}

/// The status that a ReadyForQuery tells.
fn status_of(kind: u8, body: &[u8]) -> Option<u8>
    ensures { result ≡ status_in (record { kind = kind; body = body.now }) }
{
    if kind != READY_FOR_QUERY {
        return None;
    }
    match body {
        [status] => Some(*status),
        _ => None,
    }
}

/// Whether it is a server's frame that no session sends.
fn is_foreign(kind: u8, body: &[u8]) -> bool
    ensures { result ≡ is_foreign (record { kind = kind; body = body.now }) }
{
    (kind == READY_FOR_QUERY && body.len() != 1)
        || (kind == PARAMETER_STATUS && body.len() > MAX_STATUS)
}

/// The same of a frame that goes on in parts: none of these is whole at once.
fn is_foreign_in_parts(side: Side, kind: u8) -> bool
    ensures { result ≡ is_foreign_in_parts side kind }
{
    match side {
        Side::Client => false,
        Side::Server => kind == READY_FOR_QUERY || kind == PARAMETER_STATUS,
    }
}

/// From inside a frame of this type of which `rest` bytes are to come: over those that are there, up to its end. None where
/// none is there.
#[inline(always)]
pub fn body_next(part: &[u8], kind: u8, rest: usize, side: Side, limit: u32) -> Option<Advance>
    requires { 0 < rest }
    ensures goes_on { GoesOnInside side limit part.now kind rest result }
    ensures kind { IfSome result (λ a. a.kind ≡ kind) }
{
    let count = rest.min(part.len());
    if count == 0 {
        return None;
    }
    Some(Advance {
        count,
        kind,
        rest: rest - count,
        status: None,
        is_foreign: is_foreign_in_parts(side, kind),
    })
}

/// The head that stands at the front.
fn head_in(part: &[u8]) -> Head
    requires { HEAD ≤ length part.now }
    ensures kind { result.kind ≡ slice_index part.now 0 }
    ensures length { result.length ≡ number (slice_index part.now 1) (slice_index part.now 2) (slice_index part.now 3) (slice_index part.now 4) }
{
    Head {
        kind: part[0],
        length: BigEndian::read_u32(&part[1..]),
    }
}

/// From a frame's border: over the whole frame, or over the beginning of one that goes on in parts. None where its head
/// isn't there yet, or it goes on only whole and isn't yet. The fault where no lawful frame under the limit stands next.
#[inline(always)]
pub fn head_next(
    part: &[u8],
    kind: u8,
    side: Side,
    limit: u32,
) -> Result<Option<Advance>, FrameError>
    requires { 4 ≤ limit }
    ensures { GoesOn side limit part.now kind result }
{
    are_bytes(part);
    if part.len() < HEAD {
        return Ok(None);
    }
    let head = head_in(part);
    if let Some(fault) = head_fault(head.kind, head.length, limit, side) {
        return Err(fault);
    }
    let end = head.length as usize + 1;
    if end <= part.len() {
        let body = &part[HEAD..end];
        return Ok(Some(Advance {
            count: end,
            kind: head.kind,
            rest: 0,
            status: status_of(head.kind, body),
            is_foreign: is_foreign(head.kind, body),
        }));
    }
    if goes_on_whole(side, head.kind, end - 1) {
        return Ok(None);
    }
    Ok(Some(Advance {
        count: part.len(),
        kind: head.kind,
        rest: end - part.len(),
        status: None,
        is_foreign: false,
    }))
}
