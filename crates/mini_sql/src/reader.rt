//! The statement that a text spells.
ghost use Rattle.std.specs.Prelude.{◌≡◌, MatchResult, None, Some};
ghost use Rattle.mini_sql.specs.Lexing.{token_of};
ghost use Rattle.mini_sql.specs.Statements.{of_cursor, of_other, of_word, phrase, read, statement};
ghost use Rattle.mini_sql.specs.Meanings.{Reads, meaning};

use crate::SqlError;
use crate::forms::{
    block, close, create, declare, discard, drop_table, fetch, insert, reset, select, set, show,
};
use crate::parts::is_word;
use crate::stmt::Stmt;
use crate::token::{Token, next_token};

/// The statement that a text spells, by slices of the text. It takes no memory.
///
/// Words are matched without regard to ASCII case, and none is reserved. White space is space, tab, LF, CR and FF, and one semicolon may
/// end the text. The forms are BEGIN, COMMIT and ROLLBACK with WORK or TRANSACTION after them or not, SET with SESSION or LOCAL
/// after it or not, RESET, SHOW, DISCARD ALL, CREATE TEMP TABLE, DROP TABLE, INSERT, SELECT, and of a cursor DECLARE, FETCH and
/// CLOSE; every other text is `SqlError::Syntax`.
pub fn read_statement<'a>(text: &'a [u8]) -> Result<Stmt<'a>, SqlError>
    ensures { MatchResult result (λ s. statement text.now ≡ Some (meaning s)) (λ e. statement text.now ≡ None) }
{
    match next_token(text) {
        Ok(Some((word, rest))) => statement_of(word, rest),
        Ok(None) => Ok(Stmt::Empty),
        Err(fault) => Err(fault),
    }
}

/// The statement that begins with a word.
fn statement_of<'a>(word: Token<'a>, rest: &'a [u8]) -> Result<Stmt<'a>, SqlError>
    ensures { Reads result (read (of_word (token_of word.entry)) (phrase rest.now)) }
{
    if is_word(&word, b"begin") {
        return block(rest, Stmt::Begin);
    }
    if is_word(&word, b"commit") {
        return block(rest, Stmt::Commit);
    }
    if is_word(&word, b"rollback") {
        return block(rest, Stmt::Rollback);
    }
    if is_word(&word, b"set") {
        return set(rest);
    }
    if is_word(&word, b"reset") {
        return reset(rest);
    }
    if is_word(&word, b"show") {
        return show(rest);
    }
    other_statement(word, rest)
}

/// The statement that begins with one of the other words.
fn other_statement<'a>(word: Token<'a>, rest: &'a [u8]) -> Result<Stmt<'a>, SqlError>
    ensures { Reads result (read (of_other (token_of word.entry)) (phrase rest.now)) }
{
    if is_word(&word, b"discard") {
        return discard(rest);
    }
    if is_word(&word, b"create") {
        return create(rest);
    }
    if is_word(&word, b"drop") {
        return drop_table(rest);
    }
    if is_word(&word, b"insert") {
        return insert(rest);
    }
    if is_word(&word, b"select") {
        return select(rest);
    }
    cursor_statement(word, rest)
}

/// The statement of a cursor that begins with a word.
fn cursor_statement<'a>(word: Token<'a>, rest: &'a [u8]) -> Result<Stmt<'a>, SqlError>
    ensures { Reads result (read (of_cursor (token_of word.entry)) (phrase rest.now)) }
{
    if is_word(&word, b"declare") {
        return declare(rest);
    }
    if is_word(&word, b"fetch") {
        return fetch(rest);
    }
    if is_word(&word, b"close") {
        return close(rest);
    }
    Err(SqlError::Syntax)
}
