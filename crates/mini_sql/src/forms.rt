//! The forms of statements, each after its first word.
ghost use Rattle.std.specs.Prelude.{[], Some, codes, true, false};
ghost use Rattle.mini_sql.specs.Words.{folded};
ghost use Rattle.mini_sql.specs.Tokens.{star};
ghost use Rattle.mini_sql.specs.Statements as spec;
ghost use Rattle.mini_sql.specs.Statements.{phrase, read};
ghost use Rattle.mini_sql.specs.Meanings.{IsFilter, IsSource, Reads, meaning};

use crate::SqlError;
use crate::lists::{Columns, Operands, after_columns, after_operands};
use crate::parts::{
    expect_assignment, expect_either, expect_sign, expect_word, is_end, take_count, take_name,
    take_operand, take_setting,
};
use crate::stmt::{Filter, Stmt};

/// The statement, at the end of its text.
fn finish<'a>(text: &[u8], stmt: Stmt<'a>) -> Result<Stmt<'a>, SqlError>
    ensures { Reads result (read (spec.ends (meaning stmt.entry)) (phrase text.now)) }
{
    if is_end(text) {
        Ok(stmt)
    } else {
        Err(SqlError::Syntax)
    }
}

/// BEGIN, COMMIT or ROLLBACK, after that word.
pub(crate) fn block<'a>(text: &'a [u8], stmt: Stmt<'a>) -> Result<Stmt<'a>, SqlError>
    ensures { Reads result (read (spec.block (meaning stmt.entry)) (phrase text.now)) }
{
    if is_end(text) {
        return Ok(stmt);
    }
    let rest = expect_either(text, b"work", b"transaction")?;
    finish(rest, stmt)
}

/// `name TO v` or `name = v`.
fn assignment(text: &[u8]) -> Result<Stmt<'_>, SqlError>
    ensures { Reads result (read (spec.assignment spec.Set) (phrase text.now)) }
{
    let (name, after_name) = take_name(text)?;
    let after_sign = expect_assignment(after_name)?;
    let (to, rest) = take_setting(after_sign)?;
    finish(rest, Stmt::Set { name, to })
}

/// `name TO v` after the word SESSION.
fn session_assignment(text: &[u8]) -> Result<Stmt<'_>, SqlError>
    ensures { Reads result (read (spec.pass (spec.is_word (codes "session")) (spec.assignment spec.Set)) (phrase text.now)) }
{
    let rest = expect_word(text, b"session")?;
    assignment(rest)
}

/// `name TO v` after the word LOCAL.
fn local_assignment(text: &[u8]) -> Result<Stmt<'_>, SqlError>
    ensures { Reads result (read (spec.pass (spec.is_word (codes "local")) (spec.assignment spec.SetLocal)) (phrase text.now)) }
{
    let after_word = expect_word(text, b"local")?;
    let (name, after_name) = take_name(after_word)?;
    let after_sign = expect_assignment(after_name)?;
    let (to, rest) = take_setting(after_sign)?;
    finish(rest, Stmt::SetLocal { name, to })
}

/// SET of a parameter, with LOCAL before its name or not.
fn set_name(text: &[u8]) -> Result<Stmt<'_>, SqlError>
    ensures { Reads result (read spec.set_name (phrase text.now)) }
{
    match local_assignment(text) {
        Ok(stmt) => Ok(stmt),
        Err(_) => assignment(text),
    }
}

/// SET, after that word.
pub(crate) fn set(text: &[u8]) -> Result<Stmt<'_>, SqlError>
    ensures { Reads result (read spec.set (phrase text.now)) }
{
    match session_assignment(text) {
        Ok(stmt) => Ok(stmt),
        Err(_) => set_name(text),
    }
}

/// ALL alone.
fn all<'a>(text: &[u8], stmt: Stmt<'a>) -> Result<Stmt<'a>, SqlError>
    ensures { Reads result (read (spec.pass (spec.is_word (codes "all")) (spec.ends (meaning stmt.entry))) (phrase text.now)) }
{
    let rest = expect_word(text, b"all")?;
    finish(rest, stmt)
}

/// The name of RESET.
fn reset_name(text: &[u8]) -> Result<Stmt<'_>, SqlError>
    ensures { Reads result (read (spec.take_value spec.name_of (λ n. spec.ends (spec.Reset n))) (phrase text.now)) }
{
    let (name, rest) = take_name(text)?;
    finish(rest, Stmt::Reset { name })
}

/// RESET, after that word.
pub(crate) fn reset(text: &[u8]) -> Result<Stmt<'_>, SqlError>
    ensures { Reads result (read spec.reset (phrase text.now)) }
{
    match all(text, Stmt::ResetAll) {
        Ok(stmt) => Ok(stmt),
        Err(_) => reset_name(text),
    }
}

/// SHOW, after that word.
pub(crate) fn show(text: &[u8]) -> Result<Stmt<'_>, SqlError>
    ensures { Reads result (read spec.show (phrase text.now)) }
{
    let (name, rest) = take_name(text)?;
    finish(rest, Stmt::Show { name })
}

/// DISCARD, after that word.
pub(crate) fn discard(text: &[u8]) -> Result<Stmt<'_>, SqlError>
    ensures { Reads result (read spec.discard (phrase text.now)) }
{
    all(text, Stmt::DiscardAll)
}

/// `(c text, ..)` of a new table.
fn definitions<'a>(text: &'a [u8], table: &'a [u8]) -> Result<Stmt<'a>, SqlError>
    ensures { Reads result (read (spec.definition_list (folded table.now)) (phrase text.now)) }
{
    let list = expect_sign(text, b'(')?;
    let after = after_columns(true, list)?;
    let rest = expect_sign(after, b')')?;
    if !is_end(rest) {
        return Err(SqlError::Syntax);
    }
    Ok(Stmt::Create {
        table,
        columns: Columns::new(true, list),
    })
}

/// CREATE, after that word.
pub(crate) fn create(text: &[u8]) -> Result<Stmt<'_>, SqlError>
    ensures { Reads result (read spec.create (phrase text.now)) }
{
    let after_temporary = expect_either(text, b"temp", b"temporary")?;
    let after_word = expect_word(after_temporary, b"table")?;
    let (table, rest) = take_name(after_word)?;
    definitions(rest, table)
}

/// DROP, after that word.
pub(crate) fn drop_table(text: &[u8]) -> Result<Stmt<'_>, SqlError>
    ensures { Reads result (read spec.drop_table (phrase text.now)) }
{
    let after_word = expect_word(text, b"table")?;
    let (table, rest) = take_name(after_word)?;
    finish(rest, Stmt::Drop { table })
}

/// `(v, ..)` of a row.
fn values<'a>(text: &'a [u8], table: &'a [u8]) -> Result<Stmt<'a>, SqlError>
    ensures { Reads result (read (spec.value_list (folded table.now)) (phrase text.now)) }
{
    let list = expect_sign(text, b'(')?;
    let after = after_operands(list)?;
    let rest = expect_sign(after, b')')?;
    if !is_end(rest) {
        return Err(SqlError::Syntax);
    }
    Ok(Stmt::Insert {
        table,
        operands: Operands::new(list),
    })
}

/// INSERT, after that word.
pub(crate) fn insert(text: &[u8]) -> Result<Stmt<'_>, SqlError>
    ensures { Reads result (read spec.insert (phrase text.now)) }
{
    let after_into = expect_word(text, b"into")?;
    let (table, after_table) = take_name(after_into)?;
    let rest = expect_word(after_table, b"values")?;
    values(rest, table)
}

/// `WHERE c = v`, or nothing.
fn filter(text: &[u8]) -> Result<Option<Filter<'_>>, SqlError>
    ensures { IsFilter result (phrase text.now) }
{
    if is_end(text) {
        return Ok(None);
    }
    let after_word = expect_word(text, b"where")?;
    let (column, after_column) = take_name(after_word)?;
    let after_sign = expect_sign(after_column, b'=')?;
    let (value, after_value) = take_operand(after_sign)?;
    if !is_end(after_value) {
        return Err(SqlError::Syntax);
    }
    Ok(Some(Filter { column, value }))
}

/// `FROM t` with its filter.
fn source(text: &[u8]) -> Result<(&[u8], Option<Filter<'_>>), SqlError>
    ensures { IsSource result (phrase text.now) }
{
    let after_word = expect_word(text, b"from")?;
    let (table, after_table) = take_name(after_word)?;
    let filter = filter(after_table)?;
    Ok((table, filter))
}

/// SELECT of all columns, after that word.
fn select_all(text: &[u8]) -> Result<Stmt<'_>, SqlError>
    ensures { Reads result (read (spec.pass (spec.is_sign star) (spec.from_of [])) (phrase text.now)) }
{
    let after_star = expect_sign(text, b'*')?;
    let (table, filter) = source(after_star)?;
    Ok(Stmt::Select {
        columns: Columns::none(),
        table,
        filter,
    })
}

/// SELECT of columns by name, after that word.
fn select_columns(text: &[u8]) -> Result<Stmt<'_>, SqlError>
    ensures { Reads result (read (spec.take_columns false spec.from_of) (phrase text.now)) }
{
    let after = after_columns(false, text)?;
    let (table, filter) = source(after)?;
    Ok(Stmt::Select {
        columns: Columns::new(false, text),
        table,
        filter,
    })
}

/// SELECT, after that word.
pub(crate) fn select(text: &[u8]) -> Result<Stmt<'_>, SqlError>
    ensures { Reads result (read spec.select (phrase text.now)) }
{
    match select_all(text) {
        Ok(stmt) => Ok(stmt),
        Err(_) => select_columns(text),
    }
}

/// A cursor over what a SELECT without parameters gives.
fn declared_over<'a>(cursor: &'a [u8], select: Stmt<'a>) -> Result<Stmt<'a>, SqlError>
    ensures { Reads result (spec.declared_over (folded cursor.now) (Some (meaning select.entry))) }
{
    if select.parameters() != 0 {
        return Err(SqlError::Syntax);
    }
    match select {
        Stmt::Select {
            columns,
            table,
            filter,
        } => Ok(Stmt::Declare {
            cursor,
            columns,
            table,
            filter,
        }),
        _ => Err(SqlError::Syntax),
    }
}

/// The SELECT of a cursor.
fn rows<'a>(text: &'a [u8], cursor: &'a [u8]) -> Result<Stmt<'a>, SqlError>
    ensures { Reads result (read (spec.rows_of (folded cursor.now)) (phrase text.now)) }
{
    let rest = expect_word(text, b"select")?;
    let stmt = select(rest)?;
    declared_over(cursor, stmt)
}

/// DECLARE, after that word.
pub(crate) fn declare(text: &[u8]) -> Result<Stmt<'_>, SqlError>
    ensures { Reads result (read spec.declare (phrase text.now)) }
{
    let (cursor, after_name) = take_name(text)?;
    let after_cursor = expect_word(after_name, b"cursor")?;
    let after_with = expect_word(after_cursor, b"with")?;
    let after_hold = expect_word(after_with, b"hold")?;
    let rest = expect_word(after_hold, b"for")?;
    rows(rest, cursor)
}

/// FETCH, after that word.
pub(crate) fn fetch(text: &[u8]) -> Result<Stmt<'_>, SqlError>
    ensures { Reads result (read spec.fetch (phrase text.now)) }
{
    let (count, after_count) = take_count(text)?;
    let after_word = expect_word(after_count, b"from")?;
    let (cursor, rest) = take_name(after_word)?;
    finish(rest, Stmt::Fetch { count, cursor })
}

/// CLOSE, after that word.
pub(crate) fn close(text: &[u8]) -> Result<Stmt<'_>, SqlError>
    ensures { Reads result (read spec.close (phrase text.now)) }
{
    let (cursor, rest) = take_name(text)?;
    finish(rest, Stmt::CloseCursor { cursor })
}
