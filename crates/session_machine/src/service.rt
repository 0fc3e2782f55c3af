//! What a server started for one client alone answers.
ghost use Rattle.std.specs.Prelude.{◌≡◌, ◌++◌, [], length, OnOk, OnErr, Ok};
ghost use Rattle.std.specs.List.{flat_map};
ghost use Rattle.frame_view.specs.Frames.{spelling};
ghost use Rattle.session_values.specs.Service.{client_frames, served, service, welcome};
ghost use Rattle.session_values.specs.State.{fresh};
ghost use Rattle.session_values.specs.Step.{run_frames};

use crate::step::answer;
use bytes::BytesMut;
use frame_view::{MAX_FRAME, Side, Step, next_frame};
use message_view::{KeyWord, Status, put_backend_key_data, put_ready_for_query};
use session_catalogue::Catalogue;
use session_statements::session::SessionState;
use session_values::error_responses::put_fatal;
use session_values::stop::Stop;
use start_keys::key::StartKey;
use std::alloc::{AllocError, Global};

/// Writes the welcome of a session: its reports, BackendKeyData of the key word, and
/// ReadyForQuery.
pub(crate) fn put_welcome(
    session: &SessionState,
    word: KeyWord,
    out: &mut BytesMut,
) -> Result<(), AllocError>
    ensures { OnOk result (out.new.items ≡ out.old.items ++ flat_map spelling (welcome session.now word.pid word.secret)) }
{
    session.put_all_reports(out)?;
    put_backend_key_data(out, word.pid, word.secret)?;
    put_ready_for_query(out, Status::Idle)
}

/// Answers the frames that the bytes begin with, one after the other. After an `Err` session and
/// buffer are of no use, so no frame is answered on a copy.
fn answer_all(
    alloc: Global,
    session: &mut SessionState,
    catalogue: &Catalogue,
    bytes: &[u8],
    out: &mut BytesMut,
) -> Result<(), AllocError>
    ensures { OnOk result (out.new.items ≡ out.old.items ++ flat_map spelling (run_frames catalogue.now session.old [] (client_frames bytes.now)).replies) }
{
    let mut at = 0;
    while let Step::Whole(frame) = next_frame(bytes, at, MAX_FRAME, Side::Client) {
        answer(alloc, session, catalogue, false, frame, out)?;
        at += frame.whole.len();
    }
    Ok(())
}

/// Appends what a server started for this client alone, which nobody cancels, answers to the bytes after its login: the
/// welcome and the replies to all whole frames, or the start's error. It takes the whole input. The
/// only error is that an allocation failed, which leaves `out` as it was.
#[tactic(auto, unfolding(session_values::specs::Service::service))]
pub fn solo_bytes(
    alloc: Global,
    catalogue: &Catalogue,
    key: &StartKey,
    word: KeyWord,
    bytes: &[u8],
    out: &mut BytesMut,
) -> Result<(), AllocError>
    ensures ok { OnOk result (out.new.items ≡ out.old.items ++ service catalogue.now key.now word.pid word.secret [] bytes.now) }
    ensures err { OnErr result (out.new.items ≡ out.old.items) }
{
    let mut all = BytesMut::copy_from_slice(alloc, out.as_slice())?;
    put_service(alloc, catalogue, key, word, bytes, &mut all)?;
    *out = all;
    Ok(())
}

fn put_service(
    alloc: Global,
    catalogue: &Catalogue,
    key: &StartKey,
    word: KeyWord,
    bytes: &[u8],
    out: &mut BytesMut,
) -> Result<(), AllocError>
    ensures { OnOk result (out.new.items ≡ out.old.items ++ flat_map spelling (served catalogue.now (fresh catalogue.now key.now) word.pid word.secret [] (client_frames bytes.now))) }
{
    match SessionState::start(alloc, catalogue, key) {
        Ok(session) => serve(alloc, catalogue, session, word, bytes, out),
        Err(Stop::Refused(cause)) => put_fatal(out, cause),
        Err(Stop::OutOfMemory) => Err(AllocError),
    }
}

fn serve(
    alloc: Global,
    catalogue: &Catalogue,
    session: SessionState,
    word: KeyWord,
    bytes: &[u8],
    out: &mut BytesMut,
) -> Result<(), AllocError>
    ensures { OnOk result (out.new.items ≡ out.old.items ++ flat_map spelling (served catalogue.now (Ok session) word.pid word.secret [] (client_frames bytes.now))) }
{
    let mut session = session;
    put_welcome(&session, word, out)?;
    answer_all(alloc, &mut session, catalogue, bytes, out)
}
