//! One frame of the client: the next state and the replies (PostgreSQL manual, "Message Flow").
ghost use Rattle.std.specs.Prelude.{◌≡◌, OnOk, Ok, Err};
ghost use Rattle.message_view.specs.Reading.{query_of};
ghost use Rattle.session_values.specs.Answers.{Gave, Performs, frame_of};
ghost use Rattle.session_values.specs.Extended.{refused, settle};
ghost use Rattle.session_values.specs.Step.{answer_skipping, answer_to, asked, end_query, may_be_struck, performed, saved, step, step_query, sync};

use crate::bind::bind;
use crate::close::close;
use crate::describe::describe;
use crate::execute::executed;
use crate::parse::parse;
use crate::query::{answer_query, fail_query};
use bytes::BytesMut;
use frame_view::{Frame, client};
use message_view::{BindView, CloseView, DescribeView, ExecuteView, ParseView};
use session_catalogue::Catalogue;
use session_statements::session::SessionState;
use session_values::cause::Cause;
use session_values::error_responses::put_error;
use session_values::stop::Stop;
use std::alloc::{AllocError, Global};

/// The error of an extended message: everything is skipped until the next Sync.
fn refuse(
    alloc: Global,
    session: &mut SessionState,
    cause: Cause,
    out: &mut BytesMut,
) -> Result<(), AllocError>
    ensures { OnOk result (Gave session.new out.old.items out.new.items (refused session.old cause)) }
{
    put_error(out, cause)?;
    session.fail(alloc)?;
    session.put_skipping(true);
    Ok(())
}

/// Carries out a message of the extended query, unless a cancel struck it.
fn perform(
    alloc: Global,
    session: &mut SessionState,
    catalogue: &Catalogue,
    struck: bool,
    frame: Frame<'_>,
    out: &mut BytesMut,
) -> Result<(), Stop>
    ensures { Performs result session.old session.new out.old.items out.new.items (performed catalogue.now session.old struck (asked frame.entry.kind) frame.entry.body.now) }
{
    match frame.kind {
        client::PARSE => {
            let view = ParseView::read(frame.body)?;
            parse(alloc, session, catalogue, &view, out)
        }
        client::BIND => {
            let view = BindView::read(frame.body)?;
            bind(alloc, session, catalogue, &view, out)
        }
        client::DESCRIBE => {
            let view = DescribeView::read(frame.body)?;
            describe(alloc, session, catalogue, view.target, out)
        }
        client::CLOSE => {
            let view = CloseView::read(frame.body)?;
            close(alloc, session, view.target, out)?;
            Ok(())
        }
        client::EXECUTE => {
            let view = ExecuteView::read(frame.body)?;
            executed(
                alloc,
                session,
                catalogue,
                struck,
                view.portal,
                view.limit,
                out,
            )
        }
        _ => Ok(()),
    }
}

/// Sync: ends skipping, and commits outside a block.
fn sync(alloc: Global, session: &mut SessionState, out: &mut BytesMut) -> Result<(), AllocError>
    ensures { OnOk result (Gave session.new out.old.items out.new.items (sync session.old)) }
{
    session.put_skipping(false);
    session.commit_outside(alloc)?;
    session.ready(alloc, out)
}

/// Answers a message of the extended query: after an error everything is skipped until the next Sync.
fn answer_extended(
    alloc: Global,
    session: &mut SessionState,
    catalogue: &Catalogue,
    struck: bool,
    frame: Frame<'_>,
    out: &mut BytesMut,
) -> Result<(), AllocError>
    ensures { OnOk result (Gave session.new out.old.items out.new.items (settle (saved session.old) (performed catalogue.now (saved session.old) struck (asked frame.entry.kind) frame.entry.body.now))) }
{
    session.save();
    match perform(alloc, session, catalogue, struck, frame, out) {
        Ok(()) => Ok(()),
        Err(Stop::Refused(cause)) => refuse(alloc, session, cause, out),
        Err(Stop::OutOfMemory) => Err(AllocError),
    }
}

fn answer_call(
    alloc: Global,
    session: &mut SessionState,
    out: &mut BytesMut,
) -> Result<(), AllocError>
    ensures { OnOk result (Gave session.new out.old.items out.new.items (end_query (saved session.old) (Err Cause.NotSupported))) }
{
    session.save();
    fail_query(alloc, session, Cause::NotSupported, out)
}

fn answer_text(
    alloc: Global,
    session: &mut SessionState,
    catalogue: &Catalogue,
    struck: bool,
    body: &[u8],
    out: &mut BytesMut,
) -> Result<(), AllocError>
    ensures { OnOk result (Gave session.new out.old.items out.new.items (step_query catalogue.now (saved session.old) struck (query_of body.now))) }
{
    session.save();
    answer_query(alloc, session, catalogue, struck, body, out)
}

/// Answers a message that isn't skipped.
fn answer_to(
    alloc: Global,
    session: &mut SessionState,
    catalogue: &Catalogue,
    struck: bool,
    frame: Frame<'_>,
    out: &mut BytesMut,
) -> Result<(), AllocError>
    ensures { OnOk result (Gave session.new out.old.items out.new.items (answer_to catalogue.now session.old struck (asked frame.entry.kind) frame.entry.body.now)) }
{
    match frame.kind {
        client::TERMINATE => {
            session.end();
            Ok(())
        }
        client::SYNC => sync(alloc, session, out),
        client::QUERY => answer_text(alloc, session, catalogue, struck, frame.body, out),
        client::FUNCTION_CALL => answer_call(alloc, session, out),
        client::PARSE | client::BIND | client::DESCRIBE | client::CLOSE | client::EXECUTE =>
            answer_extended(alloc, session, catalogue, struck, frame, out),
        client::PASSWORD_MESSAGE => refuse(alloc, session, Cause::MalformedMessage, out),
        _ => Ok(()),
    }
}

/// Answers a message while everything but Sync and Terminate is skipped.
fn answer_skipping(
    alloc: Global,
    session: &mut SessionState,
    frame: Frame<'_>,
    out: &mut BytesMut,
) -> Result<(), AllocError>
    ensures { OnOk result (Gave session.new out.old.items out.new.items (answer_skipping session.old (asked frame.entry.kind))) }
{
    match frame.kind {
        client::TERMINATE => {
            session.end();
            Ok(())
        }
        client::SYNC => sync(alloc, session, out),
        _ => Ok(()),
    }
}

/// Whether the frame is a Query or an Execute that isn't skipped.
pub(crate) fn may_be_struck(session: &SessionState, frame: Frame<'_>) -> bool
    ensures { result ≡ may_be_struck session.now (frame_of frame.entry) }
{
    if session.has_ended() || session.is_skipping() {
        return false;
    }
    match frame.kind {
        client::QUERY | client::EXECUTE => true,
        _ => false,
    }
}

/// Answers a frame, which a cancel struck or not. After an `Err` session and buffer are of no use.
#[tactic(auto, unfolding(session_values::specs::Step::step))]
pub(crate) fn answer(
    alloc: Global,
    session: &mut SessionState,
    catalogue: &Catalogue,
    struck: bool,
    frame: Frame<'_>,
    out: &mut BytesMut,
) -> Result<(), AllocError>
    ensures { OnOk result (Gave session.new out.old.items out.new.items (step catalogue.now session.old struck (frame_of frame.entry))) }
{
    if session.has_ended() {
        return Ok(());
    }
    if session.is_skipping() {
        return answer_skipping(alloc, session, frame, out);
    }
    answer_to(alloc, session, catalogue, struck, frame, out)
}
