//! Reading a statement, and running it.
ghost use Rattle.std.specs.Prelude.{◌≡◌, IfOk};
ghost use Rattle.mini_sql.specs.Meanings.{Reads, meaning};
ghost use Rattle.mini_sql.specs.Statements.{statement};
ghost use Rattle.session_values.specs.Extended.{may_end_block, usable};
ghost use Rattle.session_statements.specs.Found.{meant};
ghost use Rattle.session_statements.specs.Rans.{Runs};
ghost use Rattle.session_values.specs.Picks.{HasAtMost64Columns};
ghost use Rattle.session_values.specs.Runs.{run};

use crate::blocks::{begin, commit_block, discard, roll_back_block};
use crate::changes::{create, drop_table, insert};
use crate::cursors::{close, declare, fetch};
use crate::ran::Ran;
use crate::rows::{select, show};
use crate::set::{reset, reset_all, set, set_local};
use mini_sql::{SqlError, Stmt, read_statement};
use session_state::Catalogue;
use session_state::session::SessionState;
use session_values::block::Block;
use session_values::cause::Cause;
use session_values::row::Row;
use session_values::stop::Stop;
use std::alloc::Global;

/// Whether a statement may be used in a failed block.
fn may_end_block(statement: &Stmt<'_>) -> bool
    ensures { result ≡ may_end_block (meaning statement.now) }
{
    matches!(statement, Stmt::Empty | Stmt::Commit | Stmt::Rollback)
}

/// A statement that is read, with at most 64 columns in a list.
pub fn read_narrow(text: &[u8]) -> Result<Stmt<'_>, SqlError>
    ensures reads { Reads result (statement text.now) }
    ensures narrow { IfOk result (λ s. HasAtMost64Columns (meaning s)) }
{
    mini_sql::laws::statement_is_derived();
    read_statement(text)
}

/// The statement that a text spells, where it may be used now.
pub fn usable<'a>(session: &SessionState, text: &'a [u8]) -> Result<Stmt<'a>, Cause>
    ensures statement { meant result ≡ usable session.now text.now }
    ensures narrow { IfOk result (λ s. HasAtMost64Columns (meaning s)) }
{
    match read_narrow(text) {
        Ok(statement) if session.block() == Block::Failed && !may_end_block(&statement) => Err(
            Cause::Aborted,
        ),
        Ok(statement) => Ok(statement),
        Err(_) => Err(Cause::Syntax),
    }
}

/// Runs a statement, with the values that a portal was given.
pub fn run(
    alloc: Global,
    session: &mut SessionState,
    catalogue: &Catalogue,
    given: &Row,
    statement: &Stmt<'_>,
) -> Result<Ran, Stop>
    requires { HasAtMost64Columns (meaning statement.now) }
    ensures { Runs result session.old session.new (run catalogue.now session.old given.now (meaning statement.now)) }
{
    match statement {
        Stmt::Empty => Ok(Ran::nothing()),
        Stmt::Begin => Ok(begin(session)),
        Stmt::Commit => commit_block(alloc, session),
        Stmt::Rollback => roll_back_block(alloc, session),
        Stmt::Set { name, to } => set(alloc, session, name, to),
        Stmt::SetLocal { name, to } => set_local(alloc, session, name, to),
        Stmt::Reset { name } => reset(alloc, session, name),
        Stmt::ResetAll => reset_all(alloc, session),
        Stmt::Show { name } => show(alloc, session, name),
        Stmt::DiscardAll => discard(alloc, session),
        Stmt::Create { table, columns } => create(alloc, session, table, *columns),
        Stmt::Drop { table } => drop_table(alloc, session, table),
        Stmt::Insert { table, operands } => insert(alloc, session, given, table, *operands),
        Stmt::Select {
            columns,
            table,
            filter,
        } => select(alloc, session, catalogue, given, *columns, table, filter),
        Stmt::Declare {
            cursor,
            columns,
            table,
            filter,
        } => declare(alloc, session, catalogue, cursor, *columns, table, filter),
        Stmt::Fetch { count, cursor } => fetch(alloc, session, *count, cursor),
        Stmt::CloseCursor { cursor } => close(alloc, session, cursor),
    }
}
