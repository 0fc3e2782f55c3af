//! DECLARE, FETCH and CLOSE (PostgreSQL manual, "SQL Commands").
ghost use Rattle.std.specs.Prelude.{◌≡◌, ◌≤◌, drop, length, map, take, IfOk};
ghost use Rattle.std.specs.Arc.{arc_value};
ghost use Rattle.mini_sql.specs.Meanings.{columns_left, filter_of};
ghost use Rattle.mini_sql.specs.Words.{folded};
ghost use Rattle.session_values.specs.Lookups.{selected, to_read};
ghost use Rattle.session_values.specs.Named.{named};
ghost use Rattle.session_values.specs.Runs.{close_run, declare_run, fetch_run, fetched, unfetched};
ghost use Rattle.session_values.specs.State.{cursor_name};
ghost use Rattle.session_statements.specs.Rans.{Runs};

use crate::changes::shared_names;
use crate::lookup::{readable, selected};
use crate::ran::Ran;
use crate::rows::table_rows;
use mini_sql::{Columns, Filter};
use session_state::Catalogue;
use session_state::cursor::Cursor;
use session_state::portal::Rows;
use session_state::session::SessionState;
use session_values::cause::Cause;
use session_values::names::Names;
use session_values::naming::{find_named, with_named, without_named};
use session_values::row::Row;
use session_values::stop::Stop;
use session_values::table::Table;
use session_values::text::Text;
use shared_list::Shared;
use std::alloc::{AllocError, Global};
use std::sync::Arc;

/// The names of the columns that a cursor gives.
fn columns_of(
    alloc: Global,
    table: &Table,
    columns: Columns<'_>,
) -> Result<Shared<Text>, AllocError>
    requires { length (columns_left columns) ≤ 64 }
    ensures names { IfOk result (λ s. s ≡ selected table.now.columns (columns_left columns.entry)) }
    ensures width { IfOk result (λ s. length s ≤ 64) }
{
    let wanted = Names::listed(alloc, columns)?;
    let names = selected(alloc, table.columns().as_slice(), wanted)?;
    shared_names(alloc, names)
}

/// DECLARE of a cursor, which keeps the rows of now.
pub fn declare(
    alloc: Global,
    session: &mut SessionState,
    catalogue: &Catalogue,
    cursor: &[u8],
    columns: Columns<'_>,
    table: &[u8],
    filter: &Option<Filter<'_>>,
) -> Result<Ran, Stop>
    requires { length (columns_left columns) ≤ 64 }
    ensures { Runs result session.old session.new (declare_run session.old (folded cursor.now) (columns_left columns.entry) (filter_of filter.now) (to_read catalogue.now session.old (folded table.now)) (named cursor_name session.old.cursors (folded cursor.now))) }
{
    let name = Text::folded(alloc, cursor)?;
    if find_named(session.cursors(), name.as_slice()).is_some() {
        return Err(Stop::Refused(Cause::PortalExists));
    }
    let source = Text::folded(alloc, table)?;
    let Some(table) = readable(session, catalogue, source.as_slice()) else {
        return Err(Stop::Refused(Cause::NoTable));
    };
    let names = columns_of(alloc, table, columns)?;
    let rows = table_rows(alloc, &[], table, columns, filter)?;
    let cursors = session
        .cursors()
        .pushed(alloc, Cursor::new(name, names, rows))?;
    session.put_cursors(cursors);
    Ok(Ran::done(b"DECLARE CURSOR"))
}

/// How many of the rows that are left a FETCH gives.
#[tactic(auto, using(crate::proofs::Fetching::all_taken, crate::proofs::Fetching::all_dropped, crate::proofs::Fetching::whole_taken, crate::proofs::Fetching::whole_dropped))]
fn count_of(wanted: Option<u32>, rows: &Rows) -> usize
    ensures within { result ≤ length rows.now }
    ensures now { take result rows.now ≡ fetched wanted rows.now }
    ensures later { drop result rows.now ≡ unfetched wanted rows.now }
{
    let left = rows.len();
    match wanted {
        Some(count) => {
            if left <= count as usize {
                left
            } else {
                count as usize
            }
        }
        None => left,
    }
}

/// The first rows that are left.
fn first_rows(alloc: Global, rows: &Rows, count: usize) -> Result<Shared<Row>, AllocError>
    requires { count ≤ length rows.now }
    ensures { IfOk result (λ r. r ≡ take count rows.now) }
{
    let list = shared(alloc, rows.first(count))?;
    Shared::from_shared(alloc, list)
}

/// The same rows, each behind its own count.
fn shared(alloc: Global, rows: &[Arc<Row>]) -> Result<Vec<Arc<Row>>, AllocError>
    ensures { IfOk result (λ v. map arc_value v.items ≡ map arc_value rows.now) }
{
    let mut list = Vec::with_capacity(alloc, rows.len())?;
    for row in rows {
        list.push(Arc::try_clone(row)?)?;
    }
    Ok(list)
}

/// FETCH of a cursor's next rows.
pub fn fetch(
    alloc: Global,
    session: &mut SessionState,
    wanted: Option<u32>,
    cursor: &[u8],
) -> Result<Ran, Stop>
    ensures { Runs result session.old session.new (fetch_run session.old wanted (named cursor_name session.old.cursors (folded cursor.now))) }
{
    let name = Text::folded(alloc, cursor)?;
    let Some(cursor) = find_named(session.cursors(), name.as_slice()) else {
        return Err(Stop::Refused(Cause::NoPortal));
    };
    let count = count_of(wanted, cursor.rows());
    let rows = first_rows(alloc, cursor.rows(), count)?;
    let moved = cursor.after(count)?;
    let cursors = with_named(alloc, session.cursors(), moved)?;
    session.put_cursors(cursors);
    Ok(Ran::rows(rows))
}

/// CLOSE of a cursor.
pub fn close(alloc: Global, session: &mut SessionState, cursor: &[u8]) -> Result<Ran, Stop>
    ensures { Runs result session.old session.new (close_run session.old (folded cursor.now) (named cursor_name session.old.cursors (folded cursor.now))) }
{
    let name = Text::folded(alloc, cursor)?;
    if find_named(session.cursors(), name.as_slice()).is_none() {
        return Err(Stop::Refused(Cause::NoPortal));
    }
    let cursors = without_named(alloc, session.cursors(), name.as_slice())?;
    session.put_cursors(cursors);
    Ok(Ran::done(b"CLOSE CURSOR"))
}
