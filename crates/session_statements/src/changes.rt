//! CREATE TEMP TABLE, DROP TABLE and INSERT (PostgreSQL manual, "SQL Commands").
ghost use Rattle.std.specs.Prelude.{◌≡◌, ◌≤◌, ◌<◌, length, map, OnOk, IfOk};
ghost use Rattle.std.specs.Arc.{arc_value};
ghost use Rattle.mini_sql.specs.Meanings.{columns_left, operand_value as meant, operands_left};
ghost use Rattle.mini_sql.specs.Words.{folded};
ghost use Rattle.session_values.specs.Named.{named};
ghost use Rattle.session_values.specs.Runs.{all_fit, are_distinct, cell_at, create_run, drop_run, fits, insert_into, insert_run, operand_value, padded};
ghost use Rattle.session_values.specs.State.{has_text, table_name};
ghost use Rattle.session_statements.specs.Rans.{Runs};

use crate::ran::Ran;
use mini_sql::{Columns, Operand, Operands};
use session_state::session::SessionState;
use session_values::cause::Cause;
use session_values::names::Names;
use session_values::naming::{find_named, with_named, without_named};
use session_values::row::Row;
use session_values::setting::literal_text;
use session_values::stop::Stop;
use session_values::table::Table;
use session_values::text::Text;
use shared_list::Shared;
use std::alloc::{AllocError, Global};
use std::sync::Arc;

/// The greatest length of a value in a row, in bytes.
const MAX_VALUE: usize = 1_048_576;

/// The value at a place of a row, null past its end.
pub fn cell_at(row: &[Option<Text>], place: usize) -> Result<Option<Text>, AllocError>
    ensures { IfOk result (λ v. v ≡ cell_at row.now place) }
{
    match row.get(place) {
        Some(Some(text)) => Ok(Some(text.copied()?)),
        Some(None) => Ok(None),
        None => Ok(None),
    }
}

/// The value of an operand, with the values that a portal was given.
pub fn operand_text(
    alloc: Global,
    given: &[Option<Text>],
    operand: &Operand<'_>,
) -> Result<Option<Text>, AllocError>
    ensures { IfOk result (λ v. v ≡ operand_value given.now (meant operand.now)) }
{
    match operand {
        Operand::Literal(literal) => Ok(Some(literal_text(alloc, literal)?)),
        Operand::Parameter(number) => cell_at(given, (*number as usize).saturating_sub(1)),
        Operand::Null => Ok(None),
    }
}

fn operand_texts(
    alloc: Global,
    given: &[Option<Text>],
    operands: Operands<'_>,
) -> Result<Vec<Option<Text>>, AllocError>
    ensures { IfOk result (λ v. v.items ≡ map (operand_value given.now) (operands_left operands.entry)) }
{
    let mut values = Vec::new(alloc);
    for operand in operands {
        values.push(operand_text(alloc, given, &operand)?)?;
    }
    Ok(values)
}

fn fits(value: &Option<Text>) -> bool
    ensures { result ≡ fits value.now }
{
    match value {
        None => true,
        Some(text) => text.as_slice().len() <= MAX_VALUE,
    }
}

fn all_fit(values: &[Option<Text>]) -> bool
    ensures { result ≡ all_fit values.now }
{
    for value in values {
        if !fits(value) {
            return false;
        }
    }
    true
}

/// As many values as there are columns, the missing ones null.
#[tactic(auto, using(crate::proofs::Padding::padded_step))]
fn padded(
    alloc: Global,
    columns: &[Arc<Text>],
    values: &[Option<Text>],
) -> Result<Vec<Option<Text>>, AllocError>
    ensures row { IfOk result (λ v. v.items ≡ padded (map arc_value columns.now) values.now) }
    ensures width { IfOk result (λ v. length v.items ≡ length columns.now) }
{
    let mut row = Vec::with_capacity(alloc, columns.len())?;
    for place in 0..columns.len() {
        row.push(cell_at(values, place)?)?;
    }
    Ok(row)
}

fn are_distinct(names: &[Text]) -> bool
    ensures { result ≡ are_distinct names.now }
{
    let mut rest = names;
    while let [first, others @ ..] = rest {
        if is_among(others, first.as_slice()) {
            return false;
        }
        rest = others;
    }
    true
}

fn is_among(names: &[Text], name: &[u8]) -> bool
    ensures { result ≡ has_text names.now name.now }
{
    for candidate in names {
        if candidate.is(name) {
            return true;
        }
    }
    false
}

/// Names, each behind its own count.
pub(crate) fn shared_names(alloc: Global, names: Names) -> Result<Shared<Text>, AllocError>
    ensures names { IfOk result (λ s. s ≡ names) }
    ensures width { IfOk result (λ s. length s ≤ 64) }
{
    let mut list = Vec::with_capacity(alloc, names.as_slice().len())?;
    for name in names.as_slice() {
        list.push(Arc::new(alloc, name.copied()?)?)?;
    }
    Shared::from_shared(alloc, list)
}

/// CREATE TEMP TABLE.
pub fn create(
    alloc: Global,
    session: &mut SessionState,
    name: &[u8],
    columns: Columns<'_>,
) -> Result<Ran, Stop>
    requires { length (columns_left columns) ≤ 64 }
    ensures { Runs result session.old session.new (create_run session.old (folded name.now) (columns_left columns.entry) (named table_name session.old.tables (folded name.now))) }
{
    let name = Text::folded(alloc, name)?;
    if find_named(session.tables(), name.as_slice()).is_some() {
        return Err(Stop::Refused(Cause::TableExists));
    }
    let columns = Names::listed(alloc, columns)?;
    if !are_distinct(columns.as_slice()) {
        return Err(Stop::Refused(Cause::ColumnTwice));
    }
    let table = Table::new(alloc, name, shared_names(alloc, columns)?)?;
    let tables = session.tables().pushed(alloc, table)?;
    session.put_tables(tables)?;
    Ok(Ran::done(b"CREATE TABLE"))
}

/// DROP TABLE of a temporary table.
pub fn drop_table(alloc: Global, session: &mut SessionState, name: &[u8]) -> Result<Ran, Stop>
    ensures { Runs result session.old session.new (drop_run session.old (folded name.now)) }
{
    let name = Text::folded(alloc, name)?;
    let tables = without_named(alloc, session.tables(), name.as_slice())?;
    session.put_tables(tables)?;
    Ok(Ran::done(b"DROP TABLE"))
}

fn insert_into(
    alloc: Global,
    session: &mut SessionState,
    name: &[u8],
    values: &[Option<Text>],
) -> Result<(), AllocError>
    ensures { OnOk result (session.new ≡ insert_into session.old (named table_name session.old.tables name.now) values.now) }
{
    let Some(table) = find_named(session.tables(), name) else {
        return Ok(());
    };
    let row = padded(alloc, table.columns().as_slice(), values)?;
    let table = table.with_row(alloc, Row::from_vec(row))?;
    let tables = with_named(alloc, session.tables(), table)?;
    session.put_tables(tables)
}

/// INSERT of one row into a temporary table.
pub fn insert(
    alloc: Global,
    session: &mut SessionState,
    given: &Row,
    name: &[u8],
    operands: Operands<'_>,
) -> Result<Ran, Stop>
    ensures { Runs result session.old session.new (insert_run session.old (folded name.now) (map (operand_value given.now) (operands_left operands.entry))) }
{
    let name = Text::folded(alloc, name)?;
    let values = operand_texts(alloc, given.as_slice(), operands)?;
    if !all_fit(&values) {
        return Err(Stop::Refused(Cause::InvalidValue));
    }
    insert_into(alloc, session, name.as_slice(), &values)?;
    Ok(Ran::done(b"INSERT 0 1"))
}
