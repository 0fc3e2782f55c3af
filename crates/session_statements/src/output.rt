//! What a session writes of rows and columns.
ghost use Rattle.std.specs.Prelude.{◌≡◌, ◌++◌, length, map, OnOk, IfOk};
ghost use Rattle.std.specs.List.{flat_map};
ghost use Rattle.std.specs.Arc.{arc_value};
ghost use Rattle.frame_view.specs.Frames.{spelling};
ghost use Rattle.message_view.specs.Messages.{command_complete, data_row, row_description};
ghost use Rattle.message_view.specs.Parts.{formats_of as formats_in, names_of, row_of, shown_value};
ghost use Rattle.mini_sql.specs.Meanings.{meaning};
ghost use Rattle.session_values.specs.Extended.{description, format_at, formats_of};
ghost use Rattle.session_values.specs.Runs.{row_tag};

use bytes::BytesMut;
use message_view::{Column, put_command_complete, put_data_row, put_no_data, put_row_description};
use mini_sql::Stmt;
use session_values::names::Names;
use session_values::row::Row;
use session_values::text::Text;
use std::alloc::{AllocError, Global};
use std::sync::Arc;

/// The values of a row, where they lie.
fn cells(alloc: Global, row: &[Option<Text>]) -> Result<Vec<Option<&[u8]>>, AllocError>
    ensures values { IfOk result (λ v. row_of v.items ≡ row.now) }
    ensures width { IfOk result (λ v. length v.items ≡ length row.now) }
{
    let mut cells = Vec::with_capacity(alloc, row.len())?;
    for value in row {
        cells.push(bytes_of(value))?;
    }
    Ok(cells)
}

fn bytes_of(value: &Option<Text>) -> Option<&[u8]>
    ensures { shown_value result ≡ value.now }
{
    match value {
        Some(text) => Some(text.as_slice()),
        None => None,
    }
}

fn put_row(alloc: Global, row: &Row, out: &mut BytesMut) -> Result<(), AllocError>
    ensures { OnOk result (out.new.items ≡ out.old.items ++ spelling (data_row row.now)) }
{
    let cells = cells(alloc, row.as_slice())?;
    put_data_row(out, &cells)
}

/// A DataRow for each row.
pub fn put_rows(alloc: Global, rows: &[Arc<Row>], out: &mut BytesMut) -> Result<(), AllocError>
    ensures { OnOk result (out.new.items ≡ out.old.items ++ flat_map spelling (map data_row (map arc_value rows.now))) }
{
    for row in rows {
        put_row(alloc, row, out)?;
    }
    Ok(())
}

/// The format of the column at this place: none asked for means text, and one stands for all.
fn format_at(formats: &[u16], place: usize) -> u16
    ensures { result ≡ format_at formats.now place }
{
    match formats {
        [] => 0,
        [format] => *format,
        _ => formats.get(place).copied().unwrap_or(0),
    }
}

/// The columns of these names, with their formats.
fn columns_of<'a>(
    alloc: Global,
    names: &'a [Text],
    formats: &[u16],
) -> Result<Vec<Column<'a>>, AllocError>
    ensures names { IfOk result (λ v. names_of v.items ≡ names.now) }
    ensures formats { IfOk result (λ v. formats_in v.items ≡ formats_of names.now formats.now) }
    ensures count { IfOk result (λ v. length v.items ≡ length names.now) }
{
    let mut columns = Vec::with_capacity(alloc, names.len())?;
    for (place, name) in names.iter().enumerate() {
        columns.push(Column {
            name: name.as_slice(),
            format: format_at(formats, place),
        })?;
    }
    Ok(columns)
}

/// RowDescription of these columns, or NoData.
pub fn put_description(
    alloc: Global,
    formats: &[u16],
    names: &Option<Names>,
    out: &mut BytesMut,
) -> Result<(), AllocError>
    ensures { OnOk result (out.new.items ≡ out.old.items ++ spelling (description formats.now names.now)) }
{
    match names {
        Some(names) => put_columns(alloc, formats, names, out),
        None => put_no_data(out),
    }
}

/// RowDescription of these columns.
pub fn put_columns(
    alloc: Global,
    formats: &[u16],
    names: &Names,
    out: &mut BytesMut,
) -> Result<(), AllocError>
    ensures { OnOk result (out.new.items ≡ out.old.items ++ spelling (row_description names.now (formats_of names.now formats.now))) }
{
    let columns = columns_of(alloc, names.as_slice(), formats)?;
    put_row_description(out, &columns)
}

/// CommandComplete after so many rows.
pub fn put_row_tag(
    alloc: Global,
    statement: &Stmt<'_>,
    sent: usize,
    out: &mut BytesMut,
) -> Result<(), AllocError>
    ensures { OnOk result (out.new.items ≡ out.old.items ++ spelling (command_complete (row_tag (meaning statement.now) sent))) }
{
    if let Stmt::Show { .. } = statement {
        return put_command_complete(out, b"SHOW");
    }
    if let Stmt::Fetch { .. } = statement {
        let tag = format!(in alloc; "FETCH {sent}")?;
        return put_command_complete(out, tag.as_bytes());
    }
    let tag = format!(in alloc; "SELECT {sent}")?;
    put_command_complete(out, tag.as_bytes())
}
