//! What a line of a catalogue file says.
ghost use Rattle.std.specs.Prelude.{◌≡◌};
ghost use Rattle.session_catalogue.specs.Catalogues.{are_columns, database_said, is_not_zero, is_version, row_said, said, table_said, version_said};
ghost use Rattle.std.specs.List.{list_all};
ghost use Rattle.session_catalogue.specs.FieldsLeft.{IsNarrowLine, IsOnly, fields_left, said_by};

use crate::catalogue_fields::{Fields, is_lower_name};

/// A line, whose texts are still those of the file.
#[derive(Clone, Copy, Drop)]
pub(crate) enum Line<'a> {
    Empty,
    Version(&'a [u8]),
    Database(&'a [u8]),
    /// A name and columns.
    Table(&'a [u8], Fields<'a>),
    /// Values.
    Row(Fields<'a>),
    /// No line of a catalogue.
    Other,
}

/// The most bytes of a version.
const MAX_VERSION: usize = 63;

/// The most columns of a table.
const MAX_COLUMNS: usize = 64;

fn is_version(text: &[u8]) -> bool
    ensures { result ≡ is_version text.now }
{
    text.len() <= MAX_VERSION && has_no_zero(text)
}

fn has_no_zero(text: &[u8]) -> bool
    ensures { result ≡ list_all is_not_zero text.now }
{
    text.iter().all(|byte| *byte != 0)
}

/// The field, where there is just one.
fn only(fields: Fields<'_>) -> Option<&[u8]>
    ensures { IsOnly (fields_left fields.entry) result }
{
    let mut fields = fields;
    let field = fields.next()?;
    match fields.next() {
        None => Some(field),
        Some(_) => None,
    }
}

fn version_line(fields: Fields<'_>) -> Line<'_>
    ensures says { said_by result ≡ version_said (fields_left fields.entry) }
    ensures width { IsNarrowLine result }
{
    match only(fields) {
        Some(text) if is_version(text) => Line::Version(text),
        _ => Line::Other,
    }
}

fn database_line(fields: Fields<'_>) -> Line<'_>
    ensures says { said_by result ≡ database_said (fields_left fields.entry) }
    ensures width { IsNarrowLine result }
{
    match only(fields) {
        Some(name) => Line::Database(name),
        None => Line::Other,
    }
}

/// Whether these are 1 to 64 names of columns.
fn are_columns(fields: Fields<'_>) -> bool
    ensures { result ≡ are_columns (fields_left fields.entry) }
{
    match fields.count_up_to(MAX_COLUMNS) {
        Some(count) => count >= 1 && fields.are_names(),
        None => false,
    }
}

fn table_line(fields: Fields<'_>) -> Line<'_>
    ensures says { said_by result ≡ table_said (fields_left fields.entry) }
    ensures width { IsNarrowLine result }
{
    let mut columns = fields;
    match columns.next() {
        Some(name) if is_lower_name(name) && are_columns(columns) => Line::Table(name, columns),
        _ => Line::Other,
    }
}

fn row_line(fields: Fields<'_>) -> Line<'_>
    ensures says { said_by result ≡ row_said (fields_left fields.entry) }
    ensures width { IsNarrowLine result }
{
    if fields.are_values() {
        Line::Row(fields)
    } else {
        Line::Other
    }
}

/// What a line says.
#[tactic(auto, unfolding(crate::specs::Catalogues::said))]
pub(crate) fn read_line(line: &[u8]) -> Line<'_>
    ensures says { said_by result ≡ said line.now }
    ensures width { IsNarrowLine result }
{
    if line.is_empty() {
        return Line::Empty;
    }
    let mut fields = Fields::of(line);
    let Some(kind) = fields.next() else {
        return Line::Other;
    };
    if kind == b"version".as_slice() {
        version_line(fields)
    } else if kind == b"database".as_slice() {
        database_line(fields)
    } else if kind == b"table".as_slice() {
        table_line(fields)
    } else if kind == b"row".as_slice() {
        row_line(fields)
    } else {
        Line::Other
    }
}
