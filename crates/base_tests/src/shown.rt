//! A statement as one line of text, and tables of texts with the lines that are wanted of them.
use itoa::Buffer;
use mini_sql::{Columns, Filter, Literal, Operand, Setting, SqlError, Stmt, read_statement};
use std::alloc::Global;
use std::process::Abort;
use std::test::Fail;

/// A statement as one line, to be compared with what the rules say.
fn shown(alloc: Global, text: &[u8]) -> Result<Vec<u8>, Fail> {
    let mut line = Vec::new(alloc);
    match read_statement(text) {
        Err(SqlError::Syntax) => line.extend_from_slice(b"syntax")?,
        Ok(stmt) => put_stmt(&mut line, &stmt)?,
    }
    Ok(line)
}

fn put(line: &mut Vec<u8>, text: &[u8]) -> Result<(), Fail> {
    line.extend_from_slice(text)?;
    Ok(())
}

fn put_named(line: &mut Vec<u8>, word: &[u8], name: &[u8]) -> Result<(), Fail> {
    line.extend_from_slice(word)?;
    line.push(b' ')?;
    line.extend_from_slice(name)?;
    Ok(())
}

fn put_literal(line: &mut Vec<u8>, literal: &Literal<'_>) -> Result<(), Fail> {
    put(line, b" '")?;
    for byte in literal.bytes() {
        line.push(byte)?;
    }
    put(line, b"'")
}

fn put_setting(line: &mut Vec<u8>, to: &Setting<'_>) -> Result<(), Fail> {
    match to {
        Setting::Default => put(line, b" default"),
        Setting::Word(name) => put_named(line, b" word", name),
        Setting::Digits(digits) => put_named(line, b" digits", digits),
        Setting::Literal(literal) => put_literal(line, literal),
    }
}

fn put_operand(line: &mut Vec<u8>, operand: &Operand<'_>) -> Result<(), Fail> {
    match operand {
        Operand::Null => put(line, b" null"),
        Operand::Parameter(number) => {
            put(line, b" $")?;
            line.push(b'0' + number / 10)?;
            line.push(b'0' + number % 10)?;
            Ok(())
        }
        Operand::Literal(literal) => put_literal(line, literal),
    }
}

fn put_columns(line: &mut Vec<u8>, columns: Columns<'_>) -> Result<(), Fail> {
    for column in columns {
        put_named(line, b" column", column)?;
    }
    Ok(())
}

fn put_filter(line: &mut Vec<u8>, filter: &Option<Filter<'_>>) -> Result<(), Fail> {
    if let Some(filter) = filter {
        put_named(line, b" where", filter.column)?;
        put_operand(line, &filter.value)?;
    }
    Ok(())
}

fn put_count(line: &mut Vec<u8>, count: Option<u32>) -> Result<(), Fail> {
    match count {
        None => put(line, b" all"),
        Some(rows) => {
            put(line, b" ")?;
            put(line, Buffer::new().format(rows).as_bytes())
        }
    }
}

fn put_set(line: &mut Vec<u8>, word: &[u8], name: &[u8], to: &Setting<'_>) -> Result<(), Fail> {
    put_named(line, word, name)?;
    put_setting(line, to)
}

fn put_select(
    line: &mut Vec<u8>,
    word: &[u8],
    table: &[u8],
    columns: Columns<'_>,
    filter: &Option<Filter<'_>>,
) -> Result<(), Fail> {
    put_named(line, word, table)?;
    put_columns(line, columns)?;
    put_filter(line, filter)
}

fn put_stmt(line: &mut Vec<u8>, stmt: &Stmt<'_>) -> Result<(), Fail> {
    match stmt {
        Stmt::Empty => put(line, b"empty"),
        Stmt::Begin => put(line, b"begin"),
        Stmt::Commit => put(line, b"commit"),
        Stmt::Rollback => put(line, b"rollback"),
        Stmt::Set { name, to } => put_set(line, b"set", name, to),
        Stmt::SetLocal { name, to } => put_set(line, b"set local", name, to),
        Stmt::Reset { name } => put_named(line, b"reset", name),
        Stmt::ResetAll => put(line, b"reset all"),
        Stmt::Show { name } => put_named(line, b"show", name),
        Stmt::DiscardAll => put(line, b"discard all"),
        Stmt::Create { table, columns } => {
            put_named(line, b"create", table)?;
            put_columns(line, *columns)
        }
        Stmt::Drop { table } => put_named(line, b"drop", table),
        Stmt::Insert { table, operands } => {
            put_named(line, b"insert", table)?;
            for operand in *operands {
                put_operand(line, &operand)?;
            }
            Ok(())
        }
        Stmt::Select {
            columns,
            table,
            filter,
        } => put_select(line, b"select", table, *columns, filter),
        Stmt::Declare {
            cursor,
            columns,
            table,
            filter,
        } => {
            put_named(line, b"declare", cursor)?;
            put_select(line, b" select", table, *columns, filter)
        }
        Stmt::Fetch { count, cursor } => {
            put_named(line, b"fetch", cursor)?;
            put_count(line, *count)
        }
        Stmt::CloseCursor { cursor } => put_named(line, b"close", cursor),
    }
}

/// Each text gives its line.
pub(crate) fn check<A: Abort>(rt: &A, alloc: Global, table: &[(&[u8], &[u8])]) -> Result<(), Fail> {
    for (text, expected) in table {
        let line = shown(alloc, text)?;
        assert!(rt; line.as_slice() == *expected, "a text is read otherwise");
    }
    Ok(())
}
