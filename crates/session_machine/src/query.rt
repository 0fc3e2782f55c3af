//! Query and FunctionCall (PostgreSQL manual, "Simple Query").
ghost use Rattle.std.specs.Prelude.{◌≡◌, ◌++◌, Ok, Err, OnOk};
ghost use Rattle.std.specs.List.{flat_map};
ghost use Rattle.frame_view.specs.Frames.{spelling};
ghost use Rattle.mini_sql.specs.Meanings.{meaning};
ghost use Rattle.message_view.specs.Reading.{query_of};
ghost use Rattle.session_values.specs.Answers.{Gave, Performs};
ghost use Rattle.session_values.specs.Runs.{given_frames};
ghost use Rattle.session_values.specs.State.{commit_outside, ready};
ghost use Rattle.session_values.specs.Step.{end_query, heading, query, step_query};
ghost use Rattle.session_statements.specs.Rans.{notices_of, outcome_of};

use bytes::BytesMut;
use message_view::QueryView;
use mini_sql::Stmt;
use session_catalogue::Catalogue;
use session_statements::lookup::look_up;
use session_statements::output::put_columns;
use session_statements::ran::{Ran, put_notices, put_outcome};
use session_statements::run::{run, usable};
use session_statements::session::SessionState;
use session_values::cause::Cause;
use session_values::error_responses::put_error;
use session_values::names::Names;
use session_values::row::Row;
use session_values::stop::Stop;
use std::alloc::{AllocError, Global};

/// RowDescription, before rows.
fn put_heading(alloc: Global, names: &Option<Names>, out: &mut BytesMut) -> Result<(), AllocError>
    ensures { OnOk result (out.new.items ≡ out.old.items ++ flat_map spelling (heading names.now)) }
{
    match names {
        Some(names) => put_columns(alloc, &[], names, out),
        None => Ok(()),
    }
}

/// Answers a statement that ran.
fn put_query(
    alloc: Global,
    statement: &Stmt<'_>,
    names: &Option<Names>,
    ran: &Ran,
    out: &mut BytesMut,
) -> Result<(), AllocError>
    ensures { OnOk result (out.new.items ≡ out.old.items ++ flat_map spelling (notices_of ran.now.notice ++ heading names.now ++ given_frames (meaning statement.now) (outcome_of ran.now.outcome))) }
{
    put_notices(ran.notice, out)?;
    put_heading(alloc, names, out)?;
    put_outcome(alloc, statement, &ran.outcome, out)
}

/// Runs the statement of a text, or says why it can't.
fn query(
    alloc: Global,
    session: &mut SessionState,
    catalogue: &Catalogue,
    text: &[u8],
    out: &mut BytesMut,
) -> Result<(), Stop>
    ensures { Performs result session.old session.new out.old.items out.new.items (query catalogue.now session.old text.now) }
{
    let statement = usable(session, text)?;
    if statement.parameters() > 0 {
        return Err(Stop::Refused(Cause::NoPlaceholder));
    }
    let names = look_up(alloc, session, catalogue, &statement)?;
    let given = Row::from_vec(Vec::new(alloc));
    let ran = run(alloc, session, catalogue, &given, &statement)?;
    put_query(alloc, &statement, &names, &ran, out)?;
    Ok(())
}

/// Reports and ReadyForQuery after a statement that ran; outside a block it is committed.
fn close_query(
    alloc: Global,
    session: &mut SessionState,
    out: &mut BytesMut,
) -> Result<(), AllocError>
    ensures { OnOk result (Gave session.new out.old.items out.new.items (ready (commit_outside session.old session.old.block))) }
{
    session.commit_outside(alloc)?;
    session.ready(alloc, out)
}

/// The error of a Query or a FunctionCall.
pub(crate) fn fail_query(
    alloc: Global,
    session: &mut SessionState,
    cause: Cause,
    out: &mut BytesMut,
) -> Result<(), AllocError>
    ensures { OnOk result (Gave session.new out.old.items out.new.items (end_query session.old (Err cause))) }
{
    put_error(out, cause)?;
    session.fail(alloc)?;
    session.ready(alloc, out)
}

fn query_text(
    alloc: Global,
    session: &mut SessionState,
    catalogue: &Catalogue,
    text: &[u8],
    out: &mut BytesMut,
) -> Result<(), AllocError>
    ensures { OnOk result (Gave session.new out.old.items out.new.items (end_query session.old (query catalogue.now session.old text.now))) }
{
    match query(alloc, session, catalogue, text, out) {
        Ok(()) => close_query(alloc, session, out),
        Err(Stop::Refused(cause)) => fail_query(alloc, session, cause, out),
        Err(Stop::OutOfMemory) => Err(AllocError),
    }
}

/// Answers a Query of this text, unless a cancel struck it.
fn answer_read(
    alloc: Global,
    session: &mut SessionState,
    catalogue: &Catalogue,
    struck: bool,
    text: &[u8],
    out: &mut BytesMut,
) -> Result<(), AllocError>
    ensures { OnOk result (Gave session.new out.old.items out.new.items (step_query catalogue.now session.old struck (Ok text.now))) }
{
    if struck {
        return fail_query(alloc, session, Cause::Cancelled, out);
    }
    session.drop_unnamed(alloc)?;
    query_text(alloc, session, catalogue, text, out)
}

/// Answers a Query.
pub(crate) fn answer_query(
    alloc: Global,
    session: &mut SessionState,
    catalogue: &Catalogue,
    struck: bool,
    body: &[u8],
    out: &mut BytesMut,
) -> Result<(), AllocError>
    ensures { OnOk result (Gave session.new out.old.items out.new.items (step_query catalogue.now session.old struck (query_of body.now))) }
{
    match QueryView::read(body) {
        Ok(view) => answer_read(alloc, session, catalogue, struck, view.text, out),
        Err(_) => fail_query(alloc, session, Cause::MalformedMessage, out),
    }
}
