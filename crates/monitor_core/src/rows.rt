//! Rows of texts.
ghost use Rattle.std.specs.Prelude.{◌≡◌, ◌+◌, ◌<◌, ◌≤◌, ◌∷◌, ◌++◌, [], decimal, length, map, IfOk};

use itoa::Buffer;
use session_values::text::Text;
use std::alloc::{AllocError, Global};
use std::marker::Model;

/// The columns of the table that has most, that of the averages and totals.
pub const WIDEST: usize = 24;

/// The texts of a row, of which there are at most [`WIDEST`].
pub struct Row {
    list: Vec<Text>,
}

impl Drop for Row {
    fn drop(self) {
        let Row { list: _ } = self;
    }
}

impl Model for Row {
    ghost use Rattle.std.specs.Prelude.{◌≤◌, List, ℕ, length};
    ghost use Rattle.monitor_core.specs.declared.rows.TheConstants.{WIDEST};

    ghost Value = { List (List ℕ) };

    ghost view = { λ r. r.list.items };

    ghost invariant = { λ r. length r.list.items ≤ WIDEST };
}

impl Row {
    /// No texts.
    pub(crate) fn new(alloc: Global) -> Row
        ensures { result ≡ [] }
    {
        Row {
            list: Vec::new(alloc),
        }
    }

    /// A text more.
    pub(crate) fn with(self, alloc: Global, text: &[u8]) -> Result<Row, AllocError>
        requires { length self < WIDEST }
        ensures { IfOk result (λ r. r ≡ self ++ text.now ∷ []) }
    {
        let Row { list } = self;
        let mut list = list;
        list.push(Text::from_slice(alloc, text)?)?;
        Ok(Row { list })
    }

    /// The texts of another row more.
    pub(crate) fn with_cells(self, alloc: Global, cells: &[Text]) -> Result<Row, AllocError>
        requires { length self + length cells.now ≤ WIDEST }
        ensures { IfOk result (λ r. r ≡ self ++ cells.now) }
    {
        let mut row = self;
        for cell in cells {
            row = row.with(alloc, cell.as_slice())?;
        }
        Ok(row)
    }

    /// A number more, in decimal digits.
    pub(crate) fn with_number(self, alloc: Global, n: u64) -> Result<Row, AllocError>
        requires { length self < WIDEST }
        ensures { IfOk result (λ r. r ≡ self ++ decimal n ∷ []) }
    {
        let mut digits = Buffer::new();
        self.with(alloc, digits.format(n).as_bytes())
    }

    /// So many numbers more.
    pub(crate) fn with_numbers(self, alloc: Global, numbers: &[u64]) -> Result<Row, AllocError>
        requires { length self + length numbers.now ≤ WIDEST }
        ensures { IfOk result (λ r. r ≡ self ++ map decimal numbers.now) }
    {
        let mut row = self;
        for n in numbers {
            row = row.with_number(alloc, *n)?;
        }
        Ok(row)
    }

    /// The texts.
    pub fn as_slice(&self) -> &[Text]
        ensures texts { result.now ≡ self.now }
        ensures width { length self.now ≤ WIDEST }
    {
        self.list.as_slice()
    }
}
