//! Writers of rows and their descriptions.
ghost use Rattle.std.specs.Prelude.{◌≡◌, ℕ, ◌+◌, ◌-◌, ◌^◌, ◌<◌, ◌≤◌, ◌++◌, ◌∷◌, [], length, map, min, option_map};
ghost use Rattle.std.specs.List.{flat_map};
ghost use Rattle.message_view.specs.Bodies.{value as spelled_value, column as spelled_column, columns_body, int32};
ghost use Rattle.message_view.specs.Messages.{message, data_row, parameter_description, row_description};
ghost use Rattle.message_view.specs.Parts.{Puts, names_of, formats_of, row_of, shown_value, text_column_of};

use crate::kinds::TEXT_TYPE;
use crate::writers::{GREATEST_BODY, put_head};
use bytes::BytesMut;
use frame_view::server::{DATA_ROW, PARAMETER_DESCRIPTION, ROW_DESCRIPTION};
use std::alloc::AllocError;

/// A column of text: its name, and the format of its values (0 text, 1 binary).
#[derive(Clone, Copy, Drop)]
pub struct Column<'a> {
    pub name: &'a [u8],
    pub format: u16,
}

const SIZE_OF_COUNT: usize = 2;

const SIZE_OF_NUMBER: usize = 4;

const SIZE_OF_COLUMN: usize = 19;

fn value_length(value: Option<&[u8]>) -> usize
    ensures { SIZE_OF_NUMBER + result ≡ length (spelled_value (shown_value value.entry)) }
{
    match value {
        None => 0,
        Some(bytes) => bytes.len(),
    }
}

fn row_length(row: &[Option<&[u8]>]) -> usize
    ensures { result ≡ min (length (flat_map spelled_value (row_of row.now))) (2 ^ 64 - 1) }
{
    let mut size: usize = 0;
    for value in row {
        size = size
            .saturating_add(SIZE_OF_NUMBER)
            .saturating_add(value_length(*value));
    }
    size
}

fn put_value(out: &mut BytesMut, value: Option<&[u8]>)
    requires room { length (spelled_value (shown_value value)) ≤ out.old.spare }
    requires fits { length (spelled_value (shown_value value)) ≤ GREATEST_BODY }
    ensures items { out.new.items ≡ out.old.items ++ spelled_value (shown_value value.entry) }
    ensures spare { out.new.spare + length (spelled_value (shown_value value.entry)) ≡ out.old.spare }
{
    match value {
        None => out.extend_reserved(&[255; 4]),
        Some(bytes) => {
            out.extend_reserved(&(bytes.len() as u32).to_be_bytes());
            out.extend_reserved(bytes);
        }
    }
}

/// DataRow: the values of a row, `None` for null.
///
/// `AllocError` where a growth of `out` is refused, or the length field would be above
/// [`frame_view::MAX_FRAME`]; then `out` is unchanged.
pub fn put_data_row(out: &mut BytesMut, row: &[Option<&[u8]>]) -> Result<(), AllocError>
    requires { length row.now < 2 ^ 16 }
    ensures { Puts result out.old out.new (data_row (row_of row.now)) }
{
    let size = row_length(row);
    if size > GREATEST_BODY - SIZE_OF_COUNT {
        return Err(AllocError);
    }
    put_head(out, DATA_ROW, SIZE_OF_COUNT + size)?;
    out.extend_reserved(&(row.len() as u16).to_be_bytes());
    for value in row {
        put_value(out, *value);
    }
    Ok(())
}

fn columns_length(columns: &[Column<'_>]) -> usize
    ensures { result ≡ min (length (flat_map spelled_column (map text_column_of columns.now))) (2 ^ 64 - 1) }
{
    let mut size: usize = 0;
    for column in columns {
        size = size
            .saturating_add(SIZE_OF_COLUMN)
            .saturating_add(column.name.len());
    }
    size
}

fn put_column(out: &mut BytesMut, column: Column<'_>)
    requires { length (spelled_column (text_column_of column)) ≤ out.old.spare }
    ensures items { out.new.items ≡ out.old.items ++ spelled_column (text_column_of column.entry) }
    ensures spare { out.new.spare + length (spelled_column (text_column_of column.entry)) ≡ out.old.spare }
{
    out.extend_reserved(column.name);
    out.extend_reserved(&[0; 7]);
    out.extend_reserved(&TEXT_TYPE.to_be_bytes());
    out.extend_reserved(&[255; 6]);
    out.extend_reserved(&column.format.to_be_bytes());
}

fn put_columns(out: &mut BytesMut, columns: &[Column<'_>]) -> Result<(), AllocError>
    requires { length columns.now < 2 ^ 16 }
    ensures { Puts result out.old out.new (message ROW_DESCRIPTION (columns_body (map text_column_of columns.now))) }
{
    let size = columns_length(columns);
    if size > GREATEST_BODY - SIZE_OF_COUNT {
        return Err(AllocError);
    }
    put_head(out, ROW_DESCRIPTION, SIZE_OF_COUNT + size)?;
    out.extend_reserved(&(columns.len() as u16).to_be_bytes());
    for column in columns {
        put_column(out, *column);
    }
    Ok(())
}

/// RowDescription: the columns of the rows that follow, all of them text of no table.
///
/// `AllocError` where a growth of `out` is refused, or the length field would be above
/// [`frame_view::MAX_FRAME`]; then `out` is unchanged.
#[tactic(auto, using(crate::proofs::RowLists::text_columns_of))]
pub fn put_row_description(out: &mut BytesMut, columns: &[Column<'_>]) -> Result<(), AllocError>
    requires { length columns.now < 2 ^ 16 }
    ensures { Puts result out.old out.new (row_description (names_of columns.now) (formats_of columns.now)) }
{
    put_columns(out, columns)
}

#[tactic(auto, using(crate::proofs::RowLists::length_numbers))]
fn oids_length(oids: &[u32]) -> usize
    requires { length oids.now < 2 ^ 16 }
    ensures size { result ≡ length (flat_map int32 oids.now) }
    ensures low { result < 2 ^ 18 }
{
    SIZE_OF_NUMBER * oids.len()
}

/// ParameterDescription: the type oids of a statement's parameters.
///
/// `AllocError` where a growth of `out` is refused; then `out` is unchanged.
pub fn put_parameter_description(out: &mut BytesMut, oids: &[u32]) -> Result<(), AllocError>
    requires { length oids.now < 2 ^ 16 }
    ensures { Puts result out.old out.new (parameter_description oids.now) }
{
    put_head(
        out,
        PARAMETER_DESCRIPTION,
        SIZE_OF_COUNT + oids_length(oids),
    )?;
    out.extend_reserved(&(oids.len() as u16).to_be_bytes());
    for oid in oids {
        out.extend_reserved(&oid.to_be_bytes());
    }
    Ok(())
}
