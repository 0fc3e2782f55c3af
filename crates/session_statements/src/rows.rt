//! SELECT and SHOW (PostgreSQL manual, "SQL Commands").
ghost use Rattle.std.specs.Prelude.{◌≡◌, ◌≤◌, ◌<◌, ◌^◌, ◌∷◌, [], Some, filter, length, map, IfOk};
ghost use Rattle.std.specs.Option.{option_copied};
ghost use Rattle.std.specs.Arc.{arc_value};
ghost use Rattle.mini_sql.specs.Meanings.{columns_left, filter_of};
ghost use Rattle.mini_sql.specs.Words.{folded};
ghost use Rattle.session_values.specs.Parameters.{parameter_named};
ghost use Rattle.session_values.specs.Runs.{cell, column_of, condition_of, meets, picked, rows_from, same_value, select_run, show_run};
ghost use Rattle.session_values.specs.Lookups.{selected, to_read};
ghost use Rattle.session_statements.specs.Rans.{Runs};

use crate::changes::operand_text;
use crate::lookup::{readable, selected};
use crate::ran::Ran;
use mini_sql::{Columns, Filter};
use session_state::Catalogue;
use session_state::session::SessionState;
use session_values::cause::Cause;
use session_values::names::Names;
use session_values::parameter::Parameter;
use session_values::row::Row;
use session_values::stop::Stop;
use session_values::table::Table;
use session_values::text::Text;
use shared_list::Shared;
use std::alloc::{AllocError, Global};
use std::marker::Model;
use std::sync::Arc;

/// The place of a column of this name.
fn column_of(columns: &[Arc<Text>], name: &[u8]) -> Option<usize>
    ensures { result ≡ column_of (map arc_value columns.now) name.now }
{
    for (place, column) in columns.iter().enumerate() {
        if column.is(name) {
            return Some(place);
        }
    }
    None
}

/// The value of a column, null where there is no such column.
fn cell(row: &[Option<Text>], place: Option<usize>) -> Option<&Text>
    ensures { option_copied result ≡ cell row.now place }
{
    match row.get(place?) {
        Some(Some(text)) => Some(text),
        Some(None) => None,
        None => None,
    }
}

fn copied(value: Option<&Text>) -> Result<Option<Text>, AllocError>
    ensures { IfOk result (λ v. v ≡ option_copied value.entry) }
{
    match value {
        Some(text) => Ok(Some(text.copied()?)),
        None => Ok(None),
    }
}

/// Whether two values are the same; null equals nothing.
fn same_value(a: Option<&Text>, b: &Option<Text>) -> bool
    ensures { result ≡ same_value (option_copied a.entry) b.now }
{
    match (a, b) {
        (Some(a), Some(b)) => a.is(b.as_slice()),
        _ => false,
    }
}

/// What WHERE asks of a row: a value, at the place of a column.
#[derive(Drop)]
struct Condition {
    place: Option<usize>,
    wanted: Option<Text>,
}

impl Model for Condition {
    ghost use Rattle.session_values.specs.Runs.{ConditionOf};

    ghost Value = { ConditionOf };

    ghost view = { λ c. record { place = c.place; wanted = c.wanted } };
}

fn condition_of(
    alloc: Global,
    given: &[Option<Text>],
    columns: &[Arc<Text>],
    filter: &Option<Filter<'_>>,
) -> Result<Option<Condition>, AllocError>
    ensures { IfOk result (λ c. c ≡ condition_of given.now (map arc_value columns.now) (filter_of filter.now)) }
{
    let Some(filter) = filter else {
        return Ok(None);
    };
    let name = Text::folded(alloc, filter.column)?;
    Ok(Some(Condition {
        place: column_of(columns, name.as_slice()),
        wanted: operand_text(alloc, given, &filter.value)?,
    }))
}

fn meets(condition: &Option<Condition>, row: &[Option<Text>]) -> bool
    ensures { result ≡ meets condition.now row.now }
{
    match condition {
        None => true,
        Some(condition) => same_value(cell(row, condition.place), &condition.wanted),
    }
}

/// The places of the selected columns; `*` selects all.
fn places(
    alloc: Global,
    columns: &[Arc<Text>],
    selected: &[Text],
) -> Result<Vec<Option<usize>>, AllocError>
    ensures { IfOk result (λ v. v.items ≡ map (column_of (map arc_value columns.now)) selected.now) }
{
    let mut places = Vec::with_capacity(alloc, selected.len())?;
    for name in selected {
        places.push(column_of(columns, name.as_slice()))?;
    }
    Ok(places)
}

fn picked(alloc: Global, places: &[Option<usize>], row: &[Option<Text>]) -> Result<Row, AllocError>
    requires { length places.now < 2 ^ 16 }
    ensures { IfOk result (λ r. r ≡ picked places.now row.now) }
{
    let mut values = Vec::with_capacity(alloc, places.len())?;
    for place in places {
        values.push(copied(cell(row, *place))?)?;
    }
    Ok(Row::from_vec(values))
}

/// The rows that meet the condition.
fn met_rows(
    alloc: Global,
    condition: &Option<Condition>,
    rows: &[Arc<Row>],
) -> Result<Vec<Arc<Row>>, AllocError>
    ensures { IfOk result (λ v. map arc_value v.items ≡ filter (meets condition.now) (map arc_value rows.now)) }
{
    let mut list = Vec::new(alloc);
    for row in rows {
        if meets(condition, row.as_slice()) {
            list.push(Arc::try_clone(row)?)?;
        }
    }
    Ok(list)
}

/// The values of each row at these places.
fn picked_rows(
    alloc: Global,
    places: &[Option<usize>],
    rows: &[Arc<Row>],
) -> Result<Vec<Arc<Row>>, AllocError>
    requires { length places.now < 2 ^ 16 }
    ensures { IfOk result (λ v. map arc_value v.items ≡ map (picked places.now) (map arc_value rows.now)) }
{
    let mut list = Vec::with_capacity(alloc, rows.len())?;
    for row in rows {
        list.push(Arc::new(alloc, picked(alloc, places, row.as_slice())?)?)?;
    }
    Ok(list)
}

pub(crate) fn table_rows(
    alloc: Global,
    given: &[Option<Text>],
    table: &Table,
    columns: Columns<'_>,
    filter: &Option<Filter<'_>>,
) -> Result<Shared<Row>, AllocError>
    requires { length (columns_left columns) ≤ 64 }
    ensures { IfOk result (λ r. r ≡ rows_from given.now (filter_of filter.now) (columns_left columns.entry) table.now) }
{
    let names = table.columns().as_slice();
    let condition = condition_of(alloc, given, names, filter)?;
    let selected = selected(alloc, names, Names::listed(alloc, columns)?)?;
    let places = places(alloc, names, selected.as_slice())?;
    let rows = table.rows().to_vec(alloc)?;
    let met = met_rows(alloc, &condition, &rows)?;
    Shared::from_shared(alloc, picked_rows(alloc, &places, &met)?)
}

/// One row of one value.
fn one_row(alloc: Global, value: &Text) -> Result<Shared<Row>, AllocError>
    ensures { IfOk result (λ r. r ≡ (Some value.now ∷ []) ∷ []) }
{
    let mut values = Vec::with_capacity(alloc, 1)?;
    values.push(Some(value.copied()?))?;
    Shared::new(alloc)?.pushed(alloc, Row::from_vec(values))
}

/// SHOW of a parameter.
pub fn show(alloc: Global, session: &SessionState, name: &[u8]) -> Result<Ran, Stop>
    ensures { Runs result session.now session.now (show_run session.now (parameter_named name.now)) }
{
    let Some(parameter) = Parameter::named(name) else {
        return Err(Stop::Refused(Cause::NoParameter));
    };
    let rows = one_row(alloc, session.values().get(parameter))?;
    Ok(Ran::rows(rows))
}

/// SELECT of a table's rows, with the values that a portal was given.
pub fn select(
    alloc: Global,
    session: &SessionState,
    catalogue: &Catalogue,
    given: &Row,
    columns: Columns<'_>,
    table: &[u8],
    filter: &Option<Filter<'_>>,
) -> Result<Ran, Stop>
    requires { length (columns_left columns) ≤ 64 }
    ensures { Runs result session.now session.now (select_run session.now given.now (filter_of filter.now) (columns_left columns.entry) (to_read catalogue.now session.now (folded table.now))) }
{
    let name = Text::folded(alloc, table)?;
    let Some(table) = readable(session, catalogue, name.as_slice()) else {
        return Err(Stop::Refused(Cause::NoTable));
    };
    let rows = table_rows(alloc, given.as_slice(), table, columns, filter)?;
    Ok(Ran::rows(rows))
}
