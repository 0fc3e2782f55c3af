//! What the next client of a link is given first. It stands apart from the links, so that a crate that only names a link isn't made over
//! a buffer's whole library.
ghost use Rattle.std.specs.Prelude.{◌≡◌, IfOk};
ghost use Rattle.std.specs.List.{flat_map};
ghost use Rattle.frame_view.specs.Frames.{spelling};
ghost use Rattle.link_run.specs.Links.{welcome_by};

use crate::links::CleanLink;
use bytes::BytesMut;
use message_view::{
    KeyWord, Status, put_backend_key_data, put_parameter_status, put_ready_for_query,
};
use server_end::ServerEnd;
use std::alloc::{AllocError, Global};

/// Room for what most servers report: PostgreSQL's fourteen parameters take some 400 bytes.
const USUAL_WELCOME: usize = 512;

/// The parameters that the link's start reported, in that order and with the values of then, BackendKeyData of the client's own key
/// word, and ReadyForQuery `I` (PostgreSQL manual, "Message Flow", "Start-up").
///
/// `AllocError` where memory is refused, or a report has no frame of the greatest length.
pub fn welcome_over<E: ServerEnd>(
    alloc: Global,
    link: &CleanLink<E>,
    word: KeyWord,
) -> Result<BytesMut, AllocError>
    ensures { IfOk result (λ out. out.items ≡ flat_map spelling (welcome_by link.now.reports word.pid word.secret)) }
{
    let mut out = BytesMut::with_capacity(alloc, USUAL_WELCOME)?;
    for report in link.reports() {
        put_parameter_status(&mut out, report.name(), report.value())?;
    }
    put_backend_key_data(&mut out, word.pid, word.secret)?;
    put_ready_for_query(&mut out, Status::Idle)?;
    Ok(out)
}
