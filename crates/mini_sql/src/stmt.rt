//! Statements, by slices of their text.
ghost use Rattle.std.specs.Prelude.{◌≡◌, max};
ghost use Rattle.mini_sql.specs.Statements.{greatest, operand_parameter, parameters_of};
ghost use Rattle.mini_sql.specs.Meanings.{meaning, operand_value, operands_left};

use crate::lists::{Columns, Operands};
use crate::literal::Literal;

/// What a parameter is set to.
#[derive(Clone, Copy, Drop)]
pub enum Setting<'a> {
    /// DEFAULT.
    Default,
    Literal(Literal<'a>),
    /// A name, as it stands in the text; it stands for itself in lower case.
    Word(&'a [u8]),
    /// Whole digits, with a minus before them or none.
    Digits(&'a [u8]),
}

/// A value of INSERT or WHERE.
#[derive(Clone, Copy, Drop)]
pub enum Operand<'a> {
    Literal(Literal<'a>),
    /// `$1` to `$99`.
    Parameter(u8),
    Null,
}

/// `WHERE column = value`.
#[derive(Clone, Copy, Drop)]
pub struct Filter<'a> {
    /// As it stands in the text, in any case.
    pub column: &'a [u8],
    pub value: Operand<'a>,
}

/// A statement, by slices of its text: names as they stand there, in any case.
#[derive(Clone, Copy, Drop)]
pub enum Stmt<'a> {
    /// No token, or a semicolon alone.
    Empty,
    Begin,
    Commit,
    Rollback,
    Set {
        name: &'a [u8],
        to: Setting<'a>,
    },
    /// SET, until the transaction ends.
    SetLocal {
        name: &'a [u8],
        to: Setting<'a>,
    },
    Reset {
        name: &'a [u8],
    },
    ResetAll,
    Show {
        name: &'a [u8],
    },
    DiscardAll,
    /// A temporary table of 1 to 64 columns.
    Create {
        table: &'a [u8],
        columns: Columns<'a>,
    },
    Drop {
        table: &'a [u8],
    },
    /// One row of one or more values.
    Insert {
        table: &'a [u8],
        operands: Operands<'a>,
    },
    /// 1 to 64 columns, or an empty list for all of them.
    Select {
        columns: Columns<'a>,
        table: &'a [u8],
        filter: Option<Filter<'a>>,
    },
    /// A cursor over what a SELECT without parameters gives.
    Declare {
        cursor: &'a [u8],
        columns: Columns<'a>,
        table: &'a [u8],
        filter: Option<Filter<'a>>,
    },
    /// So many rows of a cursor, 1 to 2147483647, or all that are left.
    Fetch {
        count: Option<u32>,
        cursor: &'a [u8],
    },
    CloseCursor {
        cursor: &'a [u8],
    },
}

impl<'a> Operand<'a> {
    /// The number of the parameter, or 0.
    fn parameter(&self) -> u8
        ensures { result ≡ operand_parameter (operand_value self.now) }
    {
        match self {
            Operand::Parameter(number) => *number,
            _ => 0,
        }
    }
}

fn larger(a: u8, b: u8) -> u8
    ensures { result ≡ max a b }
{
    if a < b { b } else { a }
}

/// The greatest parameter of a row's values, or 0.
fn greatest_parameter(operands: Operands<'_>) -> u8
    ensures { result ≡ greatest (operands_left operands.entry) }
{
    let mut most = 0;
    for operand in operands {
        most = larger(most, operand.parameter());
    }
    most
}

impl<'a> Stmt<'a> {
    /// How many parameters the statement has: the greatest number after a `$` in it, or 0.
    pub fn parameters(&self) -> u8
        ensures { result ≡ parameters_of (meaning self.now) }
    {
        match self {
            Stmt::Insert { operands, .. } => greatest_parameter(*operands),
            Stmt::Select {
                filter: Some(filter),
                ..
            } => filter.value.parameter(),
            _ => 0,
        }
    }
}
