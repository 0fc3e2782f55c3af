//! The writers of a client's first packets.
ghost use Rattle.std.specs.Prelude.{◌≡◌, ℕ, ◌+◌, ◌-◌, ◌^◌, ◌<◌, ◌≤◌, ◌++◌, ◌∷◌, [], length, map, min, OnOk, OnErr, IsOk};
ghost use Rattle.std.specs.List.{flat_map};
ghost use Rattle.frame_view.specs.declared.frames.TheConstants.{MAX_FRAME};
ghost use Rattle.message_view.specs.Bodies.{pair as spelled_pair};
ghost use Rattle.message_view.specs.Messages.{cancel_request, startup_message};
ghost use Rattle.message_view.specs.Parts.{pairs_of};

use crate::writers::put_parts;
use bytes::BytesMut;
use frame_view::{CANCEL_REQUEST, MAX_FRAME, PROTOCOL_3_0};
use std::alloc::AllocError;

/// The bytes of a StartupMessage beside its pairs: length, code, and the zero byte at its end.
const SIZE_OF_FRAME: usize = 9;

/// The bytes of a CancelRequest: length, code, process number and secret.
const SIZE_OF_CANCEL: u32 = 16;

fn pairs_length(pairs: &[(&[u8], &[u8])]) -> usize
    ensures { result ≡ min (length (flat_map spelled_pair (pairs_of pairs.now))) (2 ^ 64 - 1) }
{
    let mut size: usize = 0;
    for (name, value) in pairs {
        size = size
            .saturating_add(name.len())
            .saturating_add(value.len())
            .saturating_add(2);
    }
    size
}

fn put_pair(out: &mut BytesMut, name: &[u8], value: &[u8])
    requires { length (spelled_pair (name.now, value.now)) ≤ out.old.spare }
    ensures items { out.new.items ≡ out.old.items ++ spelled_pair (name.now, value.now) }
    ensures spare { out.new.spare + length (spelled_pair (name.now, value.now)) ≡ out.old.spare }
{
    out.extend_reserved(name);
    out.extend_reserved(b"\0");
    out.extend_reserved(value);
    out.extend_reserved(b"\0");
}

/// StartupMessage of protocol 3.0, with these pairs of a parameter's name and its value.
///
/// `AllocError` where a growth of `out` is refused, or the length field would be above
/// [`MAX_FRAME`]; then `out` is unchanged.
pub fn put_startup_message(out: &mut BytesMut, pairs: &[(&[u8], &[u8])]) -> Result<(), AllocError>
    ensures ok { OnOk result (out.new.items ≡ out.old.items ++ startup_message (pairs_of pairs.now)) }
    ensures err { OnErr result (out.new.items ≡ out.old.items) }
    ensures fits { OnOk result (length (startup_message (pairs_of pairs.now)) ≤ MAX_FRAME) }
    ensures room { length (startup_message (pairs_of pairs.now)) ≤ out.old.spare → length (startup_message (pairs_of pairs.now)) ≤ MAX_FRAME → IsOk result }
{
    let size = pairs_length(pairs);
    if size > MAX_FRAME as usize - SIZE_OF_FRAME {
        return Err(AllocError);
    }
    let length = size + SIZE_OF_FRAME;
    out.reserve(length)?;
    out.extend_reserved(&(length as u32).to_be_bytes());
    out.extend_reserved(&PROTOCOL_3_0.to_be_bytes());
    for (name, value) in pairs {
        put_pair(out, name, value);
    }
    out.extend_reserved(b"\0");
    Ok(())
}

/// CancelRequest: what the session is at that told these words in its BackendKeyData is to be cancelled.
///
/// `AllocError` where a growth of `out` is refused; then `out` is unchanged.
pub fn put_cancel_request(out: &mut BytesMut, pid: u32, secret: u32) -> Result<(), AllocError>
    ensures ok { OnOk result (out.new.items ≡ out.old.items ++ cancel_request pid secret) }
    ensures err { OnErr result (out.new.items ≡ out.old.items) }
    ensures room { length (cancel_request pid secret) ≤ out.old.spare → IsOk result }
{
    put_parts(
        out,
        &[
            &SIZE_OF_CANCEL.to_be_bytes(),
            &CANCEL_REQUEST.to_be_bytes(),
            &pid.to_be_bytes(),
            &secret.to_be_bytes(),
        ],
    )
}
