//! What a statement's names stand for, before it runs.
ghost use Rattle.std.specs.Prelude.{◌≡◌, ◌≤◌, None, Ok, map, length, nat_le, IfOk};
ghost use Rattle.std.specs.Option.{option_copied};
ghost use Rattle.std.specs.Arc.{arc_value};
ghost use Rattle.mini_sql.specs.Meanings.{columns_left, filter_of, meaning, operands_left};
ghost use Rattle.mini_sql.specs.Statements.{Drop, Insert, Select};
ghost use Rattle.mini_sql.specs.Words.{folded};
ghost use Rattle.session_values.specs.Parameters.{parameter_named};
ghost use Rattle.session_values.specs.Named.{named};
ghost use Rattle.session_values.specs.State.{bound, cursor_name, has_text};
ghost use Rattle.session_values.specs.Answers.{Finds};
ghost use Rattle.session_statements.specs.Found.{found_table};
ghost use Rattle.session_values.specs.Picks.{HasAtMost64Columns};
ghost use Rattle.session_values.specs.Lookups.{has_all, has_filter, look_up, look_up_cursor, look_up_rows, look_up_select, readable, selected, shown, to_change};

use mini_sql::{Columns, Filter, Operands, Stmt};
use session_state::Catalogue;
use session_state::session::SessionState;
use session_values::cause::Cause;
use session_values::names::Names;
use session_values::naming::find_named;
use session_values::parameter::Parameter;
use session_values::stop::Stop;
use session_values::table::Table;
use session_values::text::{Text, has_text};
use std::alloc::{AllocError, Global};
use std::sync::Arc;

/// Whether each of these is among the texts.
fn has_all(texts: &[Arc<Text>], wanted: &[Text]) -> bool
    ensures { result ≡ has_all (map arc_value texts.now) wanted.now }
{
    for text in wanted {
        if !has_text(texts, text.as_slice()) {
            return false;
        }
    }
    true
}

fn has_filter(
    alloc: Global,
    texts: &[Arc<Text>],
    filter: &Option<Filter<'_>>,
) -> Result<bool, AllocError>
    ensures { IfOk result (λ b. b ≡ has_filter (map arc_value texts.now) (filter_of filter.now)) }
{
    match filter {
        None => Ok(true),
        Some(filter) => Ok(has_text(texts, Text::folded(alloc, filter.column)?.as_slice())),
    }
}

/// `*` selects all columns.
pub fn selected(alloc: Global, texts: &[Arc<Text>], wanted: Names) -> Result<Names, AllocError>
    requires { length texts.now ≤ 64 }
    ensures { IfOk result (λ n. n ≡ selected (map arc_value texts.now) wanted) }
{
    if wanted.as_slice().is_empty() {
        Names::copied(alloc, texts)
    } else {
        Ok(wanted)
    }
}

fn look_up_select(
    alloc: Global,
    texts: &[Arc<Text>],
    columns: Columns<'_>,
    filter: &Option<Filter<'_>>,
) -> Result<Option<Names>, Stop>
    requires width { length texts.now ≤ 64 }
    requires count { length (columns_left columns) ≤ 64 }
    ensures { Finds result (look_up_select (map arc_value texts.now) (columns_left columns.entry) (filter_of filter.now)) }
{
    let wanted = Names::listed(alloc, columns)?;
    let is_known = has_all(texts, wanted.as_slice());
    let has_filter = has_filter(alloc, texts, filter)?;
    if !(is_known && has_filter) {
        return Err(Stop::Refused(Cause::NoColumn));
    }
    Ok(Some(selected(alloc, texts, wanted)?))
}

/// The table of a name that may be read: a temporary one, or else one of the catalogue.
pub fn readable<'a>(
    session: &'a SessionState,
    catalogue: &'a Catalogue,
    name: &[u8],
) -> Option<&'a Table>
    ensures { option_copied result ≡ readable catalogue.now session.now name.now }
{
    match find_named(session.tables(), name) {
        Some(table) => Some(table),
        None => find_named(catalogue.tables(), name),
    }
}

/// The table of a name that may be changed: a temporary one.
fn to_change<'a>(
    session: &'a SessionState,
    catalogue: &Catalogue,
    name: &[u8],
) -> Result<&'a Table, Cause>
    ensures { found_table result ≡ to_change catalogue.now session.now name.now }
{
    if let Some(table) = find_named(session.tables(), name) {
        return Ok(table);
    }
    match find_named(catalogue.tables(), name) {
        Some(_) => Err(Cause::NotSupported),
        None => Err(Cause::NoTable),
    }
}

/// What the names of a statement stand for: the names of the columns of its rows, or none
/// where it gives no rows.
pub fn look_up(
    alloc: Global,
    session: &SessionState,
    catalogue: &Catalogue,
    statement: &Stmt<'_>,
) -> Result<Option<Names>, Stop>
    requires { HasAtMost64Columns (meaning statement.now) }
    ensures { Finds result (look_up catalogue.now session.now (meaning statement.now)) }
{
    match statement {
        Stmt::Show { name } => look_up_show(alloc, name),
        Stmt::Select {
            columns,
            table,
            filter,
        } => look_up_table(alloc, session, catalogue, table, *columns, filter),
        Stmt::Declare {
            columns,
            table,
            filter,
            ..
        } => look_up_declare(alloc, session, catalogue, table, *columns, filter),
        Stmt::Fetch { cursor, .. } => look_up_cursor(alloc, session, cursor),
        Stmt::Insert { table, operands } => look_up_insert(
            alloc, session, catalogue, table, *operands,
        ),
        Stmt::Drop { table } => look_up_drop(alloc, session, catalogue, table),
        Stmt::Empty
        | Stmt::Begin
        | Stmt::Commit
        | Stmt::Rollback
        | Stmt::Set { .. }
        | Stmt::SetLocal { .. }
        | Stmt::CloseCursor { .. }
        | Stmt::Reset { .. }
        | Stmt::ResetAll
        | Stmt::DiscardAll
        | Stmt::Create { .. } => Ok(None),
    }
}

fn look_up_table(
    alloc: Global,
    session: &SessionState,
    catalogue: &Catalogue,
    name: &[u8],
    columns: Columns<'_>,
    filter: &Option<Filter<'_>>,
) -> Result<Option<Names>, Stop>
    requires { length (columns_left columns) ≤ 64 }
    ensures { Finds result (look_up catalogue.now session.now (Select (columns_left columns.entry) (folded name.now) (filter_of filter.now))) }
{
    let name = Text::folded(alloc, name)?;
    match readable(session, catalogue, name.as_slice()) {
        Some(table) => look_up_select(alloc, table.columns().as_slice(), columns, filter),
        None => Err(Stop::Refused(Cause::NoTable)),
    }
}

/// The names of DECLARE, which are those of its SELECT. It gives no rows itself.
fn look_up_declare(
    alloc: Global,
    session: &SessionState,
    catalogue: &Catalogue,
    name: &[u8],
    columns: Columns<'_>,
    filter: &Option<Filter<'_>>,
) -> Result<Option<Names>, Stop>
    requires { length (columns_left columns) ≤ 64 }
    ensures { Finds result (bound (look_up_rows catalogue.now session.now (columns_left columns.entry) (folded name.now) (filter_of filter.now)) (λ found. Ok None)) }
{
    let _ = look_up_table(alloc, session, catalogue, name, columns, filter)?;
    Ok(None)
}

/// The names of the columns of a cursor's rows.
fn look_up_cursor(alloc: Global, session: &SessionState, name: &[u8]) -> Result<Option<Names>, Stop>
    ensures { Finds result (look_up_cursor (named cursor_name session.now.cursors (folded name.now))) }
{
    let name = Text::folded(alloc, name)?;
    match find_named(session.cursors(), name.as_slice()) {
        Some(cursor) => Ok(Some(Names::copied(alloc, cursor.columns().as_slice())?)),
        None => Err(Stop::Refused(Cause::NoPortal)),
    }
}

fn look_up_insert(
    alloc: Global,
    session: &SessionState,
    catalogue: &Catalogue,
    name: &[u8],
    operands: Operands<'_>,
) -> Result<Option<Names>, Stop>
    ensures { Finds result (look_up catalogue.now session.now (Insert (folded name.now) (operands_left operands.entry))) }
{
    let name = Text::folded(alloc, name)?;
    let table = to_change(session, catalogue, name.as_slice())?;
    if !are_at_most(operands, table.columns().len()) {
        return Err(Stop::Refused(Cause::Syntax));
    }
    Ok(None)
}

fn look_up_drop(
    alloc: Global,
    session: &SessionState,
    catalogue: &Catalogue,
    name: &[u8],
) -> Result<Option<Names>, Stop>
    ensures { Finds result (look_up catalogue.now session.now (Drop (folded name.now))) }
{
    let name = Text::folded(alloc, name)?;
    let _ = to_change(session, catalogue, name.as_slice())?;
    Ok(None)
}

/// Whether there are at most so many values.
fn are_at_most(operands: Operands<'_>, limit: usize) -> bool
    ensures { result ≡ nat_le (length (operands_left operands.entry)) limit }
{
    let mut left = limit;
    for _operand in operands {
        if left == 0 {
            return false;
        }
        left -= 1;
    }
    true
}

fn look_up_show(alloc: Global, name: &[u8]) -> Result<Option<Names>, Stop>
    ensures { Finds result (shown (parameter_named name.now)) }
{
    match Parameter::named(name) {
        Some(parameter) => Ok(Some(Names::one(alloc, parameter.name())?)),
        None => Err(Stop::Refused(Cause::NoParameter)),
    }
}
