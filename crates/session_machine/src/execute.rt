//! Execute (PostgreSQL manual, "Extended Query").
ghost use Rattle.std.specs.Prelude.{◌≡◌, ◌≤◌, ◌<◌, [], length, take, drop, Ok, Err, OnOk};
ghost use Rattle.std.specs.Int.{w32, cast_unsigned};
ghost use Rattle.mini_sql.specs.Meanings.{meaning};
ghost use Rattle.message_view.specs.Messages.{command_complete, portal_suspended};
ghost use Rattle.session_values.specs.Runs.{row_tag};
ghost use Rattle.session_values.specs.Answers.{Gave, Performs};
ghost use Rattle.session_values.specs.Extended.{execute, execute_on, execute_outcome, execute_rows, is_suspended, sent_rows};
ghost use Rattle.session_values.specs.Picks.{HasAtMost64Columns};
ghost use Rattle.session_values.specs.State.{NotRun};
ghost use Rattle.session_values.specs.Step.{executed};
ghost use Rattle.session_statements.specs.Rans.{outcome_of};

use bytes::BytesMut;
use message_view::put_portal_suspended;
use mini_sql::Stmt;
use session_catalogue::Catalogue;
use session_statements::lookup::look_up;
use session_statements::output::{put_row_tag, put_rows};
use session_statements::portal::{Portal, Progress, Rows};
use session_statements::ran::{Outcome, put_notices, put_outcome};
use session_statements::run::{run, usable};
use session_statements::session::SessionState;
use session_values::cause::Cause;
use session_values::naming::{HasName, find_named};
use session_values::stop::Stop;
use shared_list::Shared;
use std::alloc::{AllocError, Global};

/// Whether a portal with so many rows left is suspended: where a row limit above 0 is no greater.
fn is_suspended(limit: i32, left: usize) -> bool
    ensures { result ≡ is_suspended (cast_unsigned w32 limit) left }
{
    limit > 0 && limit as usize <= left
}

/// Sends the first rows; the portal keeps the others.
fn suspend(
    alloc: Global,
    session: &mut SessionState,
    name: &[u8],
    count: usize,
    rows: &Rows,
    out: &mut BytesMut,
) -> Result<(), AllocError>
    requires { count ≤ length rows.now }
    ensures { OnOk result (Gave session.new out.old.items out.new.items (sent_rows session.old name.now (take count rows.now) (drop count rows.now) portal_suspended)) }
{
    put_rows(alloc, rows.first(count), out)?;
    put_portal_suspended(out)?;
    session.put_progress(alloc, name, &Progress::Remaining(rows.after(count)?))
}

/// Sends all rows that are left.
fn complete(
    alloc: Global,
    session: &mut SessionState,
    name: &[u8],
    statement: &Stmt<'_>,
    rows: &Rows,
    out: &mut BytesMut,
) -> Result<(), AllocError>
    ensures { OnOk result (Gave session.new out.old.items out.new.items (sent_rows session.old name.now rows.now [] (command_complete (row_tag (meaning statement.now) (length rows.now))))) }
{
    put_rows(alloc, rows.as_slice(), out)?;
    put_row_tag(alloc, statement, rows.len(), out)?;
    session.put_progress(
        alloc,
        name,
        &Progress::Remaining(Rows::new(Shared::new(alloc)?)),
    )
}

fn execute_rows(
    alloc: Global,
    session: &mut SessionState,
    name: &[u8],
    statement: &Stmt<'_>,
    limit: i32,
    rows: &Rows,
    out: &mut BytesMut,
) -> Result<(), AllocError>
    ensures { OnOk result (Gave session.new out.old.items out.new.items (execute_rows session.old name.now (meaning statement.now) (cast_unsigned w32 limit) rows.now)) }
{
    if is_suspended(limit, rows.len()) {
        suspend(alloc, session, name, limit as usize, rows, out)
    } else {
        complete(alloc, session, name, statement, rows, out)
    }
}

/// Answers what a portal's statement gave: its rows are the portal's from then on.
fn execute_outcome(
    alloc: Global,
    session: &mut SessionState,
    name: &[u8],
    statement: &Stmt<'_>,
    limit: i32,
    outcome: Outcome,
    out: &mut BytesMut,
) -> Result<(), AllocError>
    ensures { OnOk result (Gave session.new out.old.items out.new.items (execute_outcome session.old name.now (meaning statement.now) (cast_unsigned w32 limit) (outcome_of outcome))) }
{
    match outcome {
        Outcome::Rows(rows) => {
            let rows = Rows::new(rows);
            execute_rows(alloc, session, name, statement, limit, &rows, out)
        }
        outcome => {
            put_outcome(alloc, statement, &outcome, out)?;
            session.put_progress(alloc, name, &Progress::Finished)
        }
    }
}

/// The first Execute of a portal, which fixes its rows.
fn execute_first(
    alloc: Global,
    session: &mut SessionState,
    catalogue: &Catalogue,
    portal: &Portal,
    limit: i32,
    statement: &Stmt<'_>,
    out: &mut BytesMut,
) -> Result<(), Stop>
    requires { HasAtMost64Columns (meaning statement.now) }
    ensures { Performs result session.old session.new out.old.items out.new.items (execute_on catalogue.now session.old portal.now (cast_unsigned w32 limit) (meaning statement.now) NotRun) }
{
    let ran = run(alloc, session, catalogue, portal.given(), statement)?;
    put_notices(ran.notice, out)?;
    execute_outcome(
        alloc,
        session,
        portal.name().as_slice(),
        statement,
        limit,
        ran.outcome,
        out,
    )?;
    Ok(())
}

fn execute_on(
    alloc: Global,
    session: &mut SessionState,
    catalogue: &Catalogue,
    portal: &Portal,
    limit: i32,
    statement: &Stmt<'_>,
    out: &mut BytesMut,
) -> Result<(), Stop>
    requires { HasAtMost64Columns (meaning statement.now) }
    ensures { Performs result session.old session.new out.old.items out.new.items (execute_on catalogue.now session.old portal.now (cast_unsigned w32 limit) (meaning statement.now) portal.now.progress) }
{
    match portal.progress() {
        Progress::NotRun => execute_first(alloc, session, catalogue, portal, limit, statement, out),
        Progress::Remaining(rows) => {
            execute_rows(
                alloc,
                session,
                portal.name().as_slice(),
                statement,
                limit,
                rows,
                out,
            )?;
            Ok(())
        }
        Progress::Finished => Err(Stop::Refused(Cause::PortalIsDone)),
    }
}

/// Execute of a portal.
fn execute(
    alloc: Global,
    session: &mut SessionState,
    catalogue: &Catalogue,
    name: &[u8],
    limit: i32,
    out: &mut BytesMut,
) -> Result<(), Stop>
    ensures { Performs result session.old session.new out.old.items out.new.items (execute catalogue.now session.old name.now (cast_unsigned w32 limit)) }
{
    let Some(portal) = find_named(session.portals(), name) else {
        return Err(Stop::Refused(Cause::NoPortal));
    };
    let portal = portal.at(portal.progress().copied()?)?;
    let statement = usable(session, portal.query().as_slice())?;
    let _ = look_up(alloc, session, catalogue, &statement)?;
    execute_on(alloc, session, catalogue, &portal, limit, &statement, out)
}

/// Execute of a portal, unless a cancel struck it.
pub(crate) fn executed(
    alloc: Global,
    session: &mut SessionState,
    catalogue: &Catalogue,
    struck: bool,
    name: &[u8],
    limit: i32,
    out: &mut BytesMut,
) -> Result<(), Stop>
    ensures { Performs result session.old session.new out.old.items out.new.items (executed catalogue.now session.old struck (name.now, cast_unsigned w32 limit)) }
{
    if struck {
        return Err(Stop::Refused(Cause::Cancelled));
    }
    execute(alloc, session, catalogue, name, limit, out)
}
