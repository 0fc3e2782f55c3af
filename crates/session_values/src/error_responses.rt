//! The ErrorResponses by which a session answers (PostgreSQL manual, "Message Formats"). They stand apart from [`Cause`], so that a crate
//! that only names a cause isn't made over a buffer's whole library.
ghost use Rattle.std.specs.Prelude.{◌≡◌, ◌++◌, OnErr, OnOk};
ghost use Rattle.frame_view.specs.Frames.{spelling};
ghost use Rattle.session_values.specs.Errors.{error, fatal};

use crate::cause::Cause;
use bytes::BytesMut;
use message_view::{Severity, put_error_response};
use std::alloc::AllocError;

/// Writes the ErrorResponse of a message. The only error is that an allocation failed; then the buffer is as it was.
pub fn put_error(out: &mut BytesMut, cause: Cause) -> Result<(), AllocError>
    ensures ok { OnOk result (out.new.items ≡ out.old.items ++ spelling (error cause)) }
    ensures err { OnErr result (out.new.items ≡ out.old.items) }
{
    put_error_response(out, Severity::Error, cause.code(), cause.text())
}

/// Writes the ErrorResponse of a start, by which it ends. The only error is that an allocation failed; then the buffer is as it was.
pub fn put_fatal(out: &mut BytesMut, cause: Cause) -> Result<(), AllocError>
    ensures ok { OnOk result (out.new.items ≡ out.old.items ++ spelling (fatal cause)) }
    ensures err { OnErr result (out.new.items ≡ out.old.items) }
{
    put_error_response(out, Severity::Fatal, cause.code(), cause.text())
}
