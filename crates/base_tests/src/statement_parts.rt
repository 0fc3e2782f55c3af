//! Words, and what is counted of a statement.
use mini_sql::{Setting, Stmt, is_same_word, read_statement};
use std::test::Fail;

#[test]
fn words(rt: HostRuntime) -> Result<(), Fail> {
    let table: &[(&[u8], &[u8], bool)] = &[
        (b"TimeZone", b"timezone", true),
        (b"TimeZone", b"timezon", false),
        (b"[a", b"{a", false),
        (b"", b"", true),
    ];
    for (word, other, expected) in table {
        assert!(rt; is_same_word(word, other) == *expected);
    }
    Ok(())
}

#[test]
fn parameters(rt: HostRuntime) -> Result<(), Fail> {
    let table: &[(&[u8], u8)] = &[
        (b"insert into t values ($2, $7, null, $3)", 7),
        (b"insert into t values ('$9')", 0),
        (b"select * from t where a = $41", 41),
        (b"select * from t where a = null", 0),
        (b"select * from t", 0),
        (b"begin", 0),
    ];
    for (text, expected) in table {
        let stmt = read_statement(text).map_err(|_| "a statement was refused")?;
        assert!(rt; stmt.parameters() == *expected);
    }
    Ok(())
}

/// How many values, columns or bytes a statement has; none where it has no such part.
fn count(text: &[u8]) -> Option<usize> {
    match read_statement(text) {
        Ok(Stmt::Insert { operands, .. }) => Some(operands.len()),
        Ok(Stmt::Create { columns, .. } | Stmt::Select { columns, .. }) => Some(columns.len()),
        Ok(
            Stmt::Set {
                to: Setting::Literal(literal),
                ..
            },
        ) => Some(literal.len()),
        _ => None,
    }
}

#[test]
fn lengths(rt: HostRuntime) -> Result<(), Fail> {
    let table: &[(&[u8], usize)] = &[
        (b"insert into t values ($1, 'a', null)", 3),
        (b"create temp table t (a text, b text)", 2),
        (b"select a, b from t", 2),
        (b"select * from t", 0),
        (b"set x to 'it''s'", 4),
        (b"set x to ''", 0),
    ];
    for (text, expected) in table {
        assert!(rt; count(text) == Some(*expected));
    }
    Ok(())
}
