//! Lists of columns and of values, which stand in their text.
ghost use Rattle.std.specs.Prelude.{length, ◌≡◌, ◌<◌, [], Some, true, is_some};
ghost use Rattle.mini_sql.specs.Statements.{at_most_64, columns_at, items, operand_of, phrase, read};
ghost use Rattle.mini_sql.specs.Reading.{Follows};
ghost use Rattle.mini_sql.specs.Lists.{columns_from, items_of, operands_from, rest_of};

use crate::SqlError;
use crate::parts::{next_item, take_column, take_operand};
use crate::stmt::Operand;

/// The columns of a CREATE or SELECT, which stand in its text. Each is handed out as it stands there, in any case.
#[derive(Clone, Copy, Drop)]
pub struct Columns<'a> {
    typed: bool,
    rest: Option<&'a [u8]>,
    ghost listed: { is_some (columns_from typed rest) ≡ true },
}

impl<'a> Columns<'a> {
    ghost use Rattle.mini_sql.specs.Meanings.{columns_left};

    /// The columns at the front of a text.
    pub(crate) fn new(typed: bool, text: &'a [u8]) -> Columns<'a>
        requires { is_some (read (columns_at typed) (phrase text.now)) ≡ true }
        ensures { columns_left result ≡ items_of (read (columns_at typed) (phrase text.now)) }
    {
        Columns {
            typed,
            rest: Some(text),
        }
    }

    /// How many columns are still to come.
    pub fn len(&self) -> usize
        ensures { result ≡ length (columns_left self.now) }
    {
        match self.rest {
            Some(text) => count_columns(self.typed, text),
            None => 0,
        }
    }

    /// No columns.
    pub(crate) fn none() -> Columns<'a>
        ensures { columns_left result ≡ [] }
    {
        Columns {
            typed: false,
            rest: None,
        }
    }
}

impl<'a> Iterator for Columns<'a> {
    ghost use Rattle.std.specs.Iterator.{YieldsFirstBy, item_count};
    ghost use Rattle.mini_sql.specs.Words.{folded};
    ghost use Rattle.mini_sql.specs.Meanings.{columns_left};

    type Item = &'a [u8];

    ghost next_gives = { YieldsFirstBy (λ c. folded c.now) columns_left };

    ghost remaining = { item_count columns_left };

    fn next(&mut self) -> Option<&'a [u8]> {
        let text = self.rest?;
        match take_column(self.typed, text) {
            Ok((name, after)) => {
                self.rest = next_item(after);
                Some(name)
            }
            Err(_) => unreachable!(),
        }
    }
}

/// The values of an INSERT, which stand in its text.
#[derive(Clone, Copy, Drop)]
pub struct Operands<'a> {
    rest: Option<&'a [u8]>,
    ghost listed: { is_some (operands_from rest) ≡ true },
}

impl<'a> Operands<'a> {
    ghost use Rattle.mini_sql.specs.Meanings.{operands_left};

    /// The values at the front of a text.
    pub(crate) fn new(text: &'a [u8]) -> Operands<'a>
        requires { is_some (read (items operand_of) (phrase text.now)) ≡ true }
        ensures { operands_left result ≡ items_of (read (items operand_of) (phrase text.now)) }
    {
        Operands { rest: Some(text) }
    }

    /// How many values are still to come.
    pub fn len(&self) -> usize
        ensures { result ≡ length (operands_left self.now) }
    {
        match self.rest {
            Some(text) => count_operands(text),
            None => 0,
        }
    }
}

impl<'a> Iterator for Operands<'a> {
    ghost use Rattle.std.specs.Iterator.{YieldsFirstBy, item_count};
    ghost use Rattle.mini_sql.specs.Meanings.{operand_value, operands_left};

    type Item = Operand<'a>;

    ghost next_gives = { YieldsFirstBy operand_value operands_left };

    ghost remaining = { item_count operands_left };

    fn next(&mut self) -> Option<Operand<'a>> {
        let text = self.rest?;
        match take_operand(text) {
            Ok((operand, after)) => {
                self.rest = next_item(after);
                Some(operand)
            }
            Err(_) => unreachable!(),
        }
    }
}

/// The most columns that a list may have.
const MAX_COLUMNS: usize = 64;

fn count_columns(typed: bool, text: &[u8]) -> usize
    requires { is_some (read (columns_at typed) (phrase text.now)) ≡ true }
    ensures { result ≡ length (items_of (read (columns_at typed) (phrase text.now))) }
{
    Columns::new(typed, text).count()
}

fn count_operands(text: &[u8]) -> usize
    requires { is_some (read (items operand_of) (phrase text.now)) ≡ true }
    ensures { result ≡ length (items_of (read (items operand_of) (phrase text.now))) }
{
    Operands::new(text).count()
}

/// What follows a list of columns.
pub(crate) fn after_columns(typed: bool, text: &[u8]) -> Result<&[u8], SqlError>
    ensures { Follows result (rest_of (at_most_64 (read (columns_at typed) (phrase text.now)))) }
{
    let mut rest = text;
    for count in 0..MAX_COLUMNS {
        let (_, after) = take_column(typed, rest)?;
        match next_item(after) {
            Some(next) => rest = next,
            None => return Ok(after),
        }
    }
    Err(SqlError::Syntax)
}

/// What follows a list of values.
pub(crate) fn after_operands(text: &[u8]) -> Result<&[u8], SqlError>
    ensures { Follows result (rest_of (read (items operand_of) (phrase text.now))) }
{
    let mut rest = text;
    loop {
        let (_, after) = take_operand(rest)?;
        match next_item(after) {
            Some(next) => rest = next,
            None => return Ok(after),
        }
    }
}
