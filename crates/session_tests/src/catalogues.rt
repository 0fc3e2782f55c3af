//! Catalogue files and their faults.
use session_catalogue::{Catalogue, CatalogueCause, CatalogueError};
use session_values::naming::HasName;
use session_values::text::Text;
use std::alloc::Global;
use std::process::Abort;
use std::test::Fail;

/// A catalogue as text: a word before each part, and a line for each row.
fn shown(alloc: Global, catalogue: &Catalogue) -> Result<Vec<u8>, Fail> {
    let mut out = Vec::new(alloc);
    put(&mut out, b"version ", catalogue.version().as_slice())?;
    for place in 0..catalogue.databases().len() {
        put(
            &mut out,
            b" database ",
            catalogue.databases().at(place).as_slice(),
        )?;
    }
    for place in 0..catalogue.tables().len() {
        let table = catalogue.tables().at(place);
        put(&mut out, b" table ", table.name().as_slice())?;
        for column in table.columns().as_slice() {
            put(&mut out, b" column ", column.as_slice())?;
        }
        for row in table.rows().to_vec(alloc)? {
            put(&mut out, b" row", b"")?;
            for value in row.as_slice() {
                put_value(&mut out, value)?;
            }
        }
    }
    Ok(out)
}

fn put(out: &mut Vec<u8>, word: &[u8], text: &[u8]) -> Result<(), Fail> {
    for byte in word {
        out.push(*byte)?;
    }
    for byte in text {
        out.push(*byte)?;
    }
    Ok(())
}

fn put_value(out: &mut Vec<u8>, value: &Option<Text>) -> Result<(), Fail> {
    match value {
        Some(text) => put(out, b" =", text.as_slice()),
        None => put(out, b" null", b""),
    }
}

/// What a file spells, or `refused`.
fn read(alloc: Global, text: &[u8]) -> Result<Vec<u8>, Fail> {
    match Catalogue::read(alloc, text) {
        Ok(catalogue) => shown(alloc, &catalogue),
        Err(_) => {
            let mut out = Vec::new(alloc);
            put(&mut out, b"refused", b"")?;
            Ok(out)
        }
    }
}

fn check<A: Abort>(rt: &A, alloc: Global, rows: &[(&[u8], &[u8])]) -> Result<(), Fail> {
    for (text, wanted) in rows {
        let got = read(alloc, text)?;
        assert!(rt; got.as_slice() == *wanted, "a file is read otherwise");
    }
    Ok(())
}

#[test]
fn a_shop(rt: HostRuntime) -> Result<(), Fail> {
    let rows: &[(&[u8], &[u8])] = &[(
        b"version\t16.0\ndatabase\tshop\ntable\tcity\tname\tcountry\nrow\tBern\tCH\nrow\tOslo\tNO\nrow\tNuuk\t\\N\n",
        b"version 16.0 database shop table city column name column country row =Bern =CH row =Oslo =NO row =Nuuk null",
    )];
    check(&rt, rt.alloc(), rows)
}

#[test]
fn lines_and_fields(rt: HostRuntime) -> Result<(), Fail> {
    let rows: &[(&[u8], &[u8])] = &[
        // Empty lines, CR LF, no line end at the end, and a CR that stays before the end.
        (
            b"\n\r\nversion\t1\r\n\n\ndatabase\ta",
            b"version 1 database a",
        ),
        (b"version\t1\ndatabase\ta\r", b"version 1 database a\r"),
        // Databases after tables, and a row of the last table.
        (
            b"version\t1\ntable\tt\tx\ntable\tu\tx\tx2\ndatabase\ta\nrow\t1\t2\ndatabase\tb\n",
            b"version 1 database a database b table t column x table u column x column x2 row =1 =2",
        ),
        // Nothing is trimmed, and an empty field is an empty text.
        (
            b"version\t\ndatabase\t a \ntable\t_t\tx_1\nrow\t\nrow\t\\N \nrow\t\\n\n",
            b"version  database  a  table _t column x_1 row = row =\\N  row =\\n",
        ),
        // Bytes stand for themselves, a zero byte too.
        (
            b"version\t1\ndatabase\t\ntable\tt\tx\nrow\ta\0b\xff\n",
            b"version 1 database  table t column x row =a\0b\xff",
        ),
    ];
    check(&rt, rt.alloc(), rows)
}

fn fault(alloc: Global, text: &[u8]) -> Option<(CatalogueCause, usize)> {
    match Catalogue::read(alloc, text) {
        Ok(_) => None,
        Err(fault) => Some((fault.cause, fault.line)),
    }
}

#[test]
fn lines_that_are_none(rt: HostRuntime) -> Result<(), Fail> {
    let rows: &[(&[u8], usize)] = &[
        (b"", 1),
        (b"\n\n", 1),
        (b"version\t1\n", 1),
        (b"\ndatabase\ta\n", 1),
        (b"\n\nversion\n", 3),
        (b"version\t1\t2\n", 1),
        (b"version\t1\0\n", 1),
        (b"database\ta\nversion\t1\n", 2),
        (b"version\t1\nversion\t1\n", 2),
        (b"version\t1\ndatabase\n", 2),
        (b"version\t1\ndatabase\ta\tb\n", 2),
        (b"version\t1\n \n", 2),
        (b"version\t1\n# a\n", 2),
        (b"version\t1\n\tversion\t1\n", 2),
        (b"version\t1\nVersion\t1\n", 2),
        (b"version\t1\ntable\tt\n", 2),
        (b"version\t1\ntable\n", 2),
        (b"version\t1\ntable\tT\tx\n", 2),
        (b"version\t1\ntable\tt\tX\n", 2),
        (b"version\t1\ntable\tt\t1x\n", 2),
        (b"version\t1\ntable\tt\t\n", 2),
        (b"version\t1\ntable\tt\tx y\n", 2),
        (b"version\t1\nrow\t1\ntable\tt\tx\n", 2),
        (b"version\t1\nrow\n", 2),
        (b"version\t1\r\ndatabase\ta\r\nversion", 3),
        // Both no name and a name twice.
        (b"version\t1\ntable\tt\tx\tx\tX\n", 2),
    ];
    for (text, line) in rows {
        assert!(rt; fault(rt.alloc(), text) == Some((CatalogueCause::NotALine, *line)));
    }
    Ok(())
}

#[test]
fn names_twice(rt: HostRuntime) -> Result<(), Fail> {
    let rows: &[(&[u8], usize)] = &[
        (b"version\t1\ndatabase\ta\n\ndatabase\ta\n", 4),
        (b"version\t1\ndatabase\t\ndatabase\t\n", 3),
        (b"version\t1\ntable\tt\tx\ntable\tt\ty\n", 3),
        (b"version\t1\ntable\tt\tx\ty\tx\n", 2),
    ];
    for (text, line) in rows {
        assert!(rt; fault(rt.alloc(), text) == Some((CatalogueCause::NameTwice, *line)));
    }
    Ok(())
}

#[test]
fn wrong_numbers_of_values(rt: HostRuntime) -> Result<(), Fail> {
    let rows: &[(&[u8], usize)] = &[
        (b"version\t1\ntable\tt\tx\nrow\n", 3),
        (b"version\t1\ntable\tt\tx\nrow\t1\t2\n", 3),
        (b"version\t1\ntable\tt\tx\ty\nrow\t1\t2\nrow\t1\n", 4),
        (b"version\t1\ntable\tt\tx\ntable\tu\tx\ty\nrow\t1\n", 4),
    ];
    for (text, line) in rows {
        let wanted = Some((CatalogueCause::WrongNumberOfValues, *line));
        assert!(rt; fault(rt.alloc(), text) == wanted);
    }
    Ok(())
}

/// A file with so many columns, and with a version, a name and a value of so many bytes.
fn wide(
    alloc: Global,
    columns: usize,
    version: usize,
    name: usize,
    value: usize,
) -> Result<Vec<u8>, Fail> {
    let mut out = Vec::new(alloc);
    put(&mut out, b"version\t", b"")?;
    for _ in 0..version {
        out.push(b'1')?;
    }
    put(&mut out, b"\ndatabase\ta\ntable\t", b"")?;
    for _ in 0..name {
        out.push(b'n')?;
    }
    for place in 0..columns {
        let column = format!(in alloc; "\tc{place}")?;
        put(&mut out, column.as_str().as_bytes(), b"")?;
    }
    if columns == 1 {
        put(&mut out, b"\nrow\t", b"")?;
        for _ in 0..value {
            out.push(b'v')?;
        }
    }
    Ok(out)
}

#[test]
fn limits(rt: HostRuntime) -> Result<(), Fail> {
    let alloc = rt.alloc();
    let rows: &[(usize, usize, usize, usize, Option<usize>)] = &[
        (64, 63, 63, 0, None),
        (65, 63, 63, 0, Some(3)),
        (1, 64, 63, 0, Some(1)),
        (1, 63, 64, 0, Some(3)),
        (1, 63, 63, 1_048_576, None),
        (1, 63, 63, 1_048_577, Some(4)),
    ];
    for (columns, version, name, value, line) in rows {
        let text = wide(alloc, *columns, *version, *name, *value)?;
        let wanted = match line {
            Some(line) => Some((CatalogueCause::NotALine, *line)),
            None => None,
        };
        assert!(rt; fault(alloc, text.as_slice()) == wanted);
    }
    Ok(())
}

#[test]
fn codes_and_lines_are_shown(rt: HostRuntime) -> Result<(), Fail> {
    let rows = [
        (CatalogueCause::NotALine, "K1", "K1 line 7"),
        (CatalogueCause::NameTwice, "K2", "K2 line 7"),
        (CatalogueCause::WrongNumberOfValues, "K3", "K3 line 7"),
        (CatalogueCause::Memory, "K4", "K4 line 7"),
    ];
    for (cause, code, wanted) in rows {
        assert!(rt; cause.code() == code);
        let fault = CatalogueError { cause, line: 7 };
        let line = format!(in rt.alloc(); "{fault}")?;
        assert!(rt; line.as_str() == wanted);
    }
    Ok(())
}
