//! Frames, each a type byte, a length and a body.

ghost use Rattle.std.specs.Prelude.{◌≡◌, ◌≤◌, length, drop};
ghost use Rattle.frame_view.specs.Answers.{HasLawfulLength, LiesIn, Tells, TellsHead};
ghost use Rattle.frame_view.specs.Frames.{front, head_fault as fault_of_head, head_front, is_client_type, is_type};

use crate::numbers::number_at;
use crate::{Frame, FrameError, Head, HeadStep, Side, Step, client};

/// The greatest length of a frame: that of a signed number of four bytes.
pub const MAX_FRAME: u32 = 2_147_483_647;

/// The bytes of a frame's head: its type and its length.
pub const HEAD: usize = 5;
/// The least length of a frame, which counts its own four bytes.
pub const LEAST_LENGTH: u32 = 4;

fn is_client_kind(kind: u8) -> bool
    ensures { result ≡ is_client_type kind }
{
    matches!(
        kind,
        client::BIND
            | client::CLOSE
            | client::COPY_DATA
            | client::COPY_DONE
            | client::COPY_FAIL
            | client::DESCRIBE
            | client::EXECUTE
            | client::FLUSH
            | client::FUNCTION_CALL
            | client::PARSE
            | client::PASSWORD_MESSAGE
            | client::QUERY
            | client::SYNC
            | client::TERMINATE
    )
}

fn is_kind(side: Side, kind: u8) -> bool
    ensures { result ≡ is_type side kind }
{
    match side {
        Side::Client => is_client_kind(kind),
        Side::Server => true,
    }
}

/// The first fault of a head with this type and length, if any, in the order of [`next_frame`].
pub fn head_fault(kind: u8, length: u32, limit: u32, side: Side) -> Option<FrameError>
    ensures { result ≡ fault_of_head side limit kind length }
{
    if !is_kind(side, kind) {
        return Some(FrameError::UnknownType);
    }
    if length < LEAST_LENGTH {
        return Some(FrameError::TooShort);
    }
    if length > limit {
        return Some(FrameError::TooLong);
    }
    None
}

pub(crate) fn head_at(bytes: &[u8], limit: u32, side: Side) -> HeadStep
    ensures tells { TellsHead result bytes.now (head_front side limit bytes.now) }
    ensures lawful { HasLawfulLength result limit }
{
    if bytes.len() < HEAD {
        return HeadStep::Need(HEAD - bytes.len());
    }
    let kind = bytes[0];
    let length = number_at(bytes, 1);
    match head_fault(kind, length, limit, side) {
        Some(fault) => HeadStep::Bad(fault),
        None => HeadStep::Whole(Head { kind, length }),
    }
}

/// Tells what stands in `buf` at the place `from`, the body left aside: a head without fault, the number
/// of bytes of the head that are missing, or the fault of [`head_fault`]. Takes no memory.
pub fn next_head(buf: &[u8], from: usize, limit: u32, side: Side) -> HeadStep
    requires { from ≤ length buf.now }
    ensures tells { TellsHead result (drop from buf.now) (head_front side limit (drop from buf.now)) }
    ensures lawful { HasLawfulLength result limit }
{
    head_at(&buf[from..], limit, side)
}

fn frame_at(bytes: &[u8], limit: u32, side: Side) -> Step<'_>
    ensures tells { Tells result bytes.now (front side limit bytes.now) }
    ensures place { LiesIn result bytes.entry 0 }
{
    let head = match head_at(bytes, limit, side) {
        HeadStep::Whole(head) => head,
        HeadStep::Need(missing) => return Step::Need(missing),
        HeadStep::Bad(fault) => return Step::Bad(fault),
    };
    let end = head.length as usize + 1;
    if bytes.len() < end {
        return Step::Need(end - bytes.len());
    }
    Step::Whole(Frame {
        kind: head.kind,
        body: &bytes[HEAD..end],
        whole: &bytes[..end],
    })
}

/// Tells what stands in `buf` at the place `from`: a whole frame, the number of bytes that are known to
/// be missing, or a fault.
///
/// A frame's slices are those of `buf`, at their place. `limit` is the greatest length that is
/// accepted; the length counts its own four bytes and the body. A fault is told once five bytes are
/// there, and of several the first of these: [`FrameError::UnknownType`] (on the client's side alone),
/// [`FrameError::TooShort`] (a length below 4), [`FrameError::TooLong`] (a length above `limit`).
/// Takes no memory.
pub fn next_frame(buf: &[u8], from: usize, limit: u32, side: Side) -> Step<'_>
    requires { from ≤ length buf.now }
    ensures tells { Tells result (drop from buf.now) (front side limit (drop from buf.now)) }
    ensures place { LiesIn result buf.entry from }
{
    frame_at(&buf[from..], limit, side)
}
