//! The reading of a catalogue file, line by line.
ghost use Rattle.std.specs.Prelude.{◌≡◌, ◌<◌, ◌≤◌, ◌-◌, length, map, slice_set, Some, None, true, IfOk, IfErr, []};
ghost use Rattle.std.specs.Arc.{arc_value};
ghost use Rattle.text_lines.specs.Files.{Took};
ghost use Rattle.session_catalogue.specs.Catalogues.{SaysRow, SaysTable, SaysVersion, SaysDatabase, fault_of, last_of, row_fault, said, value_of};
ghost use Rattle.session_catalogue.specs.Drafts.{IsWholeOf, with_row, with_said};
ghost use Rattle.session_catalogue.specs.declared.catalogue_fault.CatalogueCause.TheVariants.{Memory};
ghost use Rattle.session_catalogue.specs.FieldsLeft.{fields_left};
ghost use Rattle.session_values.specs.State.{has_text, table_name};

use crate::catalogue::Whole;
use crate::catalogue_fault::{CatalogueCause, CatalogueError};
use crate::catalogue_fields::Fields;
use crate::catalogue_lines::{Line, read_line};
use session_values::naming::HasName;
use session_values::row::Row;
use session_values::table::Table;
use session_values::text::{Text, has_text};
use shared_list::Shared;
use std::alloc::{AllocError, Global};
use std::marker::Model;
use std::sync::Arc;

/// What the lines so far spell.
#[derive(Drop)]
pub(crate) struct Draft {
    /// Each line so far is empty.
    untouched: bool,
    version: Option<Text>,
    databases: Vec<Arc<Text>>,
    tables: Vec<Arc<Table>>,
}

impl Model for Draft {
    ghost use Rattle.std.specs.Prelude.{map};
    ghost use Rattle.std.specs.Arc.{arc_value};
    ghost use Rattle.session_catalogue.specs.Catalogues.{PartsOf};

    ghost Value = { PartsOf };

    ghost view = { λ d. record { untouched = d.untouched; version = d.version; databases = map arc_value d.databases.items; tables = map arc_value d.tables.items } };
}

/// The fault of a file that has no version or no database.
const INCOMPLETE: CatalogueError = CatalogueError {
    cause: CatalogueCause::NotALine,
    line: 1,
};

/// The most values of a row.
const MAX_VALUES: usize = 64;

fn has_table(tables: &[Arc<Table>], name: &[u8]) -> bool
    ensures { result ≡ has_text (map table_name (map arc_value tables.now)) name.now }
{
    for table in tables {
        if table.name().is(name) {
            return true;
        }
    }
    false
}

/// A table without rows.
fn new_table(alloc: Global, name: &[u8], columns: Fields<'_>) -> Result<Arc<Table>, AllocError>
    requires { length (fields_left columns) ≤ 64 }
    ensures { IfOk result (λ t. arc_value t ≡ record { name = name.now; columns = fields_left columns.entry; rows = [] }) }
{
    let texts = columns.texts(alloc)?;
    let columns = Shared::from_shared(alloc, texts)?;
    let table = Table::new(alloc, Text::from_slice(alloc, name)?, columns)?;
    Ok(Arc::new(alloc, table)?)
}

impl Draft {
    /// No line is read.
    pub(crate) fn new(alloc: Global) -> Draft
        ensures { result ≡ record { untouched = true; version = None; databases = []; tables = [] } }
    {
        Draft {
            untouched: true,
            version: None,
            databases: Vec::new(alloc),
            tables: Vec::new(alloc),
        }
    }

    fn take_version(&mut self, alloc: Global, text: &[u8]) -> Result<(), CatalogueCause>
        ensures { Took Memory (fault_of self.old (SaysVersion text.now)) (with_said self.old (SaysVersion text.now)) self.new result }
    {
        if !self.untouched {
            return Err(CatalogueCause::NotALine);
        }
        let text = Text::from_slice(alloc, text).map_err(|_| CatalogueCause::Memory)?;
        self.untouched = false;
        self.version = Some(text);
        Ok(())
    }

    fn take_database(&mut self, alloc: Global, name: &[u8]) -> Result<(), CatalogueCause>
        ensures { Took Memory (fault_of self.old (SaysDatabase name.now)) (with_said self.old (SaysDatabase name.now)) self.new result }
    {
        if has_text(&self.databases, name) {
            return Err(CatalogueCause::NameTwice);
        }
        let name = shared_text(alloc, name).map_err(|_| CatalogueCause::Memory)?;
        self.untouched = false;
        self.databases
            .push(name)
            .map_err(|_| CatalogueCause::Memory)
    }

    fn take_table(
        &mut self,
        alloc: Global,
        name: &[u8],
        columns: Fields<'_>,
    ) -> Result<(), CatalogueCause>
        requires { length (fields_left columns) ≤ 64 }
        ensures { Took Memory (fault_of self.old (SaysTable name.now (fields_left columns.entry))) (with_said self.old (SaysTable name.now (fields_left columns.entry))) self.new result }
    {
        if has_table(&self.tables, name) || !columns.are_distinct() {
            return Err(CatalogueCause::NameTwice);
        }
        let table = new_table(alloc, name, columns).map_err(|_| CatalogueCause::Memory)?;
        self.untouched = false;
        self.tables.push(table).map_err(|_| CatalogueCause::Memory)
    }

    fn take_row(&mut self, alloc: Global, values: Fields<'_>) -> Result<(), CatalogueCause>
        ensures { Took Memory (fault_of self.old (SaysRow (map value_of (fields_left values.entry)))) (with_said self.old (SaysRow (map value_of (fields_left values.entry)))) self.new result }
    {
        let table = last_fitting(&self.tables, values)?;
        let table = with_row(alloc, table, values).map_err(|_| CatalogueCause::Memory)?;
        self.untouched = false;
        put_last(&mut self.tables, table);
        Ok(())
    }

    /// Takes a line, or tells its first fault. Want of memory comes after all others.
    pub(crate) fn take_line(&mut self, alloc: Global, line: &[u8]) -> Result<(), CatalogueCause>
        ensures { Took Memory (fault_of self.old (said line.now)) (with_said self.old (said line.now)) self.new result }
    {
        match read_line(line) {
            Line::Empty => Ok(()),
            Line::Version(text) => self.take_version(alloc, text),
            Line::Database(name) => self.take_database(alloc, name),
            Line::Table(name, columns) => self.take_table(alloc, name, columns),
            Line::Row(values) => self.take_row(alloc, values),
            Line::Other => Err(CatalogueCause::NotALine),
        }
    }

    /// The catalogue, at the end of a file of so many lines.
    pub(crate) fn finished(self, alloc: Global, lines: usize) -> Result<Whole, CatalogueError>
        ensures { IsWholeOf self lines result }
    {
        let Draft {
            version,
            databases,
            tables,
            ..
        } = self;
        let Some(version) = version else {
            return Err(INCOMPLETE);
        };
        if databases.is_empty() {
            return Err(INCOMPLETE);
        }
        Whole::new(alloc, version, databases, tables).map_err(|_| CatalogueError {
            cause: CatalogueCause::Memory,
            line: lines,
        })
    }
}

fn shared_text(alloc: Global, text: &[u8]) -> Result<Arc<Text>, AllocError>
    ensures { IfOk result (λ t. arc_value t ≡ text.now) }
{
    Ok(Arc::new(alloc, Text::from_slice(alloc, text)?)?)
}

/// The last table, if it has as many columns as there are values, or the fault of the row.
fn last_fitting<'a>(
    tables: &'a [Arc<Table>],
    values: Fields<'_>,
) -> Result<&'a Table, CatalogueCause>
    ensures ok { IfOk result (λ t. row_fault (last_of (map arc_value tables.now)) (map value_of (fields_left values.entry)) ≡ None) }
    ensures err { IfErr result (λ c. row_fault (last_of (map arc_value tables.now)) (map value_of (fields_left values.entry)) ≡ Some c) }
    ensures last { IfOk result (λ t. last_of (map arc_value tables.now) ≡ Some t.now) }
    ensures width { IfOk result (λ t. length (fields_left values.entry) ≤ 64) }
{
    let Some(table) = tables.last() else {
        return Err(CatalogueCause::NotALine);
    };
    if values.count_up_to(MAX_VALUES) != Some(table.columns().len()) {
        return Err(CatalogueCause::WrongNumberOfValues);
    }
    Ok(table)
}

/// The table with one row more.
fn with_row(alloc: Global, table: &Table, values: Fields<'_>) -> Result<Arc<Table>, AllocError>
    requires { length (fields_left values) ≤ 64 }
    ensures { IfOk result (λ t. arc_value t ≡ with_row table.now (map value_of (fields_left values.entry))) }
{
    let row = Row::from_vec(values.values(alloc)?);
    Ok(Arc::new(alloc, table.with_row(alloc, row)?)?)
}

/// Puts a table in the place of the last one.
fn put_last(tables: &mut Vec<Arc<Table>>, table: Arc<Table>)
    requires { 0 < length tables.old.items }
    ensures { map arc_value tables.new.items ≡ slice_set (map arc_value tables.old.items) (length tables.old.items - 1) (arc_value table) }
{
    let place = tables.len() - 1;
    tables[place] = table;
}
