//! A table as a text: a family of metrics for each column, and in it a sample for each row.
ghost use Rattle.std.specs.Prelude.{◌≡◌, ◌++◌, decimal, map, OnOk};
ghost use Rattle.std.specs.List.{flat_map};
ghost use Rattle.metrics_text.specs.Families as spec;
ghost use Rattle.metrics_text.specs.Views.{column_view};

use crate::columns::{Column, Kind, Measure};
use crate::rows::Row;
use itoa::Buffer;
use std::alloc::AllocError;

fn kind_name(kind: Kind) -> &'static [u8]
    ensures { result.now ≡ spec.kind_name kind }
{
    match kind {
        Kind::Gauge => b"gauge",
        Kind::Counter => b"counter",
        Kind::Info => b"info",
    }
}

/// What a sample's name has behind the family's.
fn suffix(kind: Kind) -> &'static [u8]
    ensures { result.now ≡ spec.suffix kind }
{
    match kind {
        Kind::Gauge => b"",
        Kind::Counter => b"_total",
        Kind::Info => b"_info",
    }
}

/// A line about the family of this name.
fn put_line(text: &mut Vec<u8>, words: &[u8], name: &str, rest: &[u8]) -> Result<(), AllocError>
    ensures { OnOk result (text.new.items ≡ text.old.items ++ spec.line words.now name.now rest.now) }
{
    text.extend_from_slice(words)?;
    text.extend_from_slice(name.as_bytes())?;
    text.push(b' ')?;
    text.extend_from_slice(rest)?;
    text.push(b'\n')?;
    Ok(())
}

/// The line of its unit, where it has one.
fn put_unit(text: &mut Vec<u8>, measure: Measure, name: &str) -> Result<(), AllocError>
    ensures { OnOk result (text.new.items ≡ text.old.items ++ spec.unit_line measure name.now) }
{
    match measure {
        Measure::Count => Ok(()),
        Measure::Bytes => put_line(text, b"# UNIT ", name, b"bytes"),
        Measure::Seconds | Measure::Microseconds => put_line(text, b"# UNIT ", name, b"seconds"),
    }
}

/// What is said of a family before its samples.
#[tactic(auto, unfolding(crate::specs::Families::heading))]
fn put_heading(text: &mut Vec<u8>, column: &Column) -> Result<(), AllocError>
    ensures { OnOk result (text.new.items ≡ text.old.items ++ spec.heading (column_view column.now)) }
{
    put_line(text, b"# TYPE ", column.name, kind_name(column.kind))?;
    put_unit(text, column.measure, column.name)?;
    put_line(text, b"# HELP ", column.name, column.help.as_bytes())
}

fn put_number(text: &mut Vec<u8>, n: u64) -> Result<(), AllocError>
    ensures { OnOk result (text.new.items ≡ text.old.items ++ decimal n) }
{
    let mut digits = Buffer::new();
    text.extend_from_slice(digits.format(n).as_bytes())
}

/// The last decimal digit of a number.
fn digit(n: u64) -> u8
    ensures { result ≡ spec.digit n }
{
    48 + (n % 10) as u8
}

/// Microseconds as seconds.
fn put_seconds(text: &mut Vec<u8>, n: u64) -> Result<(), AllocError>
    ensures { OnOk result (text.new.items ≡ text.old.items ++ spec.seconds n) }
{
    put_number(text, n / 1_000_000)?;
    text.extend_from_slice(&[
        b'.',
        digit(n / 100_000),
        digit(n / 10_000),
        digit(n / 1_000),
        digit(n / 100),
        digit(n / 10),
        digit(n),
    ])
}

fn put_figure(text: &mut Vec<u8>, measure: Measure, n: u64) -> Result<(), AllocError>
    ensures { OnOk result (text.new.items ≡ text.old.items ++ spec.figure_text measure n) }
{
    match measure {
        Measure::Count | Measure::Bytes | Measure::Seconds => put_number(text, n),
        Measure::Microseconds => put_seconds(text, n),
    }
}

/// The sample of a row in the column at this place.
#[tactic(auto, unfolding(crate::specs::Families::sample))]
fn put_sample(
    text: &mut Vec<u8>,
    column: &Column,
    place: usize,
    row: &Row,
) -> Result<(), AllocError>
    ensures { OnOk result (text.new.items ≡ text.old.items ++ spec.sample (column_view column.now) place row.now) }
{
    text.extend_from_slice(column.name.as_bytes())?;
    text.extend_from_slice(suffix(column.kind))?;
    text.extend_from_slice(row.labels())?;
    text.push(b' ')?;
    put_figure(text, column.measure, row.figure(place))?;
    text.push(b'\n')?;
    Ok(())
}

fn put_samples(
    text: &mut Vec<u8>,
    column: &Column,
    place: usize,
    rows: &[Row],
) -> Result<(), AllocError>
    ensures { OnOk result (text.new.items ≡ text.old.items ++ flat_map (spec.sample (column_view column.now) place) rows.now) }
{
    for row in rows {
        put_sample(text, column, place, row)?;
    }
    Ok(())
}

/// The family of the column at this place.
#[tactic(auto, unfolding(crate::specs::Families::family))]
fn put_family(
    text: &mut Vec<u8>,
    column: &Column,
    place: usize,
    rows: &[Row],
) -> Result<(), AllocError>
    ensures { OnOk result (text.new.items ≡ text.old.items ++ spec.family rows.now (place, column_view column.now)) }
{
    put_heading(text, column)?;
    put_samples(text, column, place, rows)
}

/// A table. The only error is that an allocation failed: then the text has a part of it.
pub(crate) fn put_table(
    text: &mut Vec<u8>,
    columns: &[Column],
    rows: &[Row],
) -> Result<(), AllocError>
    ensures { OnOk result (text.new.items ≡ text.old.items ++ spec.table (map column_view columns.now) rows.now) }
{
    for (place, column) in columns.iter().enumerate() {
        put_family(text, column, place, rows)?;
    }
    Ok(())
}
