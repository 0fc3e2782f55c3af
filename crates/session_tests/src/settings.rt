//! Each parameter that may be changed, set once and shown.
use bytes::{BufMut, BytesMut};
use frame_view::{Side, Step, next_frame};
use session_machine::{Catalogue, Session, StartKey, Text};
use std::alloc::Global;
use std::test::Fail;

fn catalogue(alloc: Global) -> Result<Catalogue, Fail> {
    Ok(Catalogue::read(alloc, b"version\t16.0\ndatabase\tshop\n")?)
}

fn session(alloc: Global, catalogue: &Catalogue) -> Result<Session, Fail> {
    let key = StartKey {
        row: Text::from_slice(alloc, b"shop")?,
        host: None,
        port: 0,
        dbname: Text::from_slice(alloc, b"shop")?,
        user: Text::from_slice(alloc, b"ann")?,
        parameters: Vec::new(alloc),
    };
    Ok(Session::start(alloc, catalogue, &key)?.map_err(|_| "refused")?)
}

/// A message of this kind with this text.
fn message(alloc: Global, kind: u8, text: &[u8]) -> Result<BytesMut, Fail> {
    let mut out = BytesMut::new(alloc);
    out.put_u8(kind)?;
    out.put_u32(u32::try_from(text.len().saturating_add(5))?)?;
    out.put_slice(text)?;
    out.put_u8(0)?;
    Ok(out)
}

/// What the session answers to the Query of this text.
fn answer(
    alloc: Global,
    catalogue: &Catalogue,
    session: &mut Session,
    text: &[u8],
) -> Result<BytesMut, Fail> {
    let query = message(alloc, b'Q', text)?;
    let mut out = BytesMut::new(alloc);
    if let Step::Whole(frame) = next_frame(query.as_slice(), 0, 1000, Side::Client) {
        session.step(alloc, catalogue, frame, &mut out)?;
    }
    Ok(out)
}

/// Whether these bytes stand somewhere in the others.
fn contains(bytes: &[u8], wanted: &[u8]) -> bool {
    bytes
        .windows(wanted.len().max(1))
        .any(|window| window == wanted)
}

/// One Query of SET, one of SHOW, and the value that stands in the answer's DataRow.
type Row = (&'static [u8], &'static [u8], &'static [u8]);

/// Whether each SET is answered as one.
fn are_set(
    alloc: Global,
    catalogue: &Catalogue,
    session: &mut Session,
    rows: &[Row],
) -> Result<bool, Fail> {
    for (set, _, _) in rows {
        let done = answer(alloc, catalogue, session, set)?;
        if !done.as_slice().starts_with(b"C\0\0\0\x08SET\0") {
            return Ok(false);
        }
    }
    Ok(true)
}

/// Whether each SHOW shows its value.
fn are_shown(
    alloc: Global,
    catalogue: &Catalogue,
    session: &mut Session,
    rows: &[Row],
) -> Result<bool, Fail> {
    for (_, show, row) in rows {
        let shown = answer(alloc, catalogue, session, show)?;
        if !contains(shown.as_slice(), row) {
            return Ok(false);
        }
    }
    Ok(true)
}

/// Sets all of them, and then looks at each.
fn are_set_and_shown(alloc: Global, rows: &[Row]) -> Result<bool, Fail> {
    let catalogue = catalogue(alloc)?;
    let mut session = session(alloc, &catalogue)?;
    let is_set = are_set(alloc, &catalogue, &mut session, rows)?;
    Ok(is_set && are_shown(alloc, &catalogue, &mut session, rows)?)
}

#[test]
fn reported_ones_are_set_and_shown(rt: HostRuntime) -> Result<(), Fail> {
    let rows: &[Row] = &[
        (
            b"SET application_name TO 'x'",
            b"SHOW application_name",
            b"D\0\0\0\x0b\0\x01\0\0\0\x01x",
        ),
        (
            b"SET client_encoding TO 'sql_ascii'",
            b"SHOW client_encoding",
            b"D\0\0\0\x13\0\x01\0\0\0\x09SQL_ASCII",
        ),
        (
            b"SET DateStyle TO 'sql, dmy'",
            b"SHOW datestyle",
            b"D\0\0\0\x12\0\x01\0\0\0\x08SQL, DMY",
        ),
        (
            b"SET IntervalStyle TO 'iso_8601'",
            b"SHOW intervalstyle",
            b"D\0\0\0\x12\0\x01\0\0\0\x08iso_8601",
        ),
        (
            b"SET standard_conforming_strings TO off",
            b"SHOW standard_conforming_strings",
            b"D\0\0\0\x0d\0\x01\0\0\0\x03off",
        ),
        (
            b"SET TimeZone TO 'Europe/Oslo'",
            b"SHOW timezone",
            b"D\0\0\0\x15\0\x01\0\0\0\x0bEurope/Oslo",
        ),
    ];
    assert!(rt; are_set_and_shown(rt.alloc(), rows)?);
    Ok(())
}

#[test]
fn unreported_ones_are_set_and_shown(rt: HostRuntime) -> Result<(), Fail> {
    let rows: &[Row] = &[
        (
            b"SET extra_float_digits TO 3",
            b"SHOW extra_float_digits",
            b"D\0\0\0\x0b\0\x01\0\0\0\x013",
        ),
        (
            b"SET search_path TO 'a'",
            b"SHOW search_path",
            b"D\0\0\0\x0b\0\x01\0\0\0\x01a",
        ),
        (
            b"SET statement_timeout TO 5",
            b"SHOW statement_timeout",
            b"D\0\0\0\x0b\0\x01\0\0\0\x015",
        ),
    ];
    assert!(rt; are_set_and_shown(rt.alloc(), rows)?);
    Ok(())
}
