//! Rows of texts.
ghost use Rattle.std.specs.Prelude.{◌≡◌, ◌+◌, ◌<◌, ◌≤◌, ◌∷◌, ◌++◌, [], decimal, length, map, IfOk};

use itoa::Buffer;
use session_values::text::Text;
use std::alloc::{AllocError, Global};
use std::marker::Model;

/// The columns of the table that has most, that of the pools.
pub const WIDEST: usize = 6;

/// The texts of a row, of which there are at most [`WIDEST`].
pub struct Cells {
    list: Vec<Text>,
}

impl Drop for Cells {
    fn drop(self) {
        let Cells { list: _ } = self;
    }
}

impl Model for Cells {
    ghost use Rattle.std.specs.Prelude.{◌≤◌, List, ℕ, length};
    ghost use Rattle.console_core.specs.declared.cells.TheConstants.{WIDEST};

    ghost Value = { List (List ℕ) };

    ghost view = { λ c. c.list.items };

    ghost invariant = { λ c. length c.list.items ≤ WIDEST };
}

impl Cells {
    /// No texts, with room for all.
    pub(crate) fn new(alloc: Global) -> Result<Cells, AllocError>
        ensures { IfOk result (λ c. c ≡ []) }
    {
        Ok(Cells {
            list: Vec::with_capacity(alloc, WIDEST)?,
        })
    }

    /// A text more.
    pub(crate) fn with(self, alloc: Global, text: &[u8]) -> Result<Cells, AllocError>
        requires { length self < WIDEST }
        ensures { IfOk result (λ c. c ≡ self ++ text.now ∷ []) }
    {
        let Cells { list } = self;
        let mut list = list;
        list.push(Text::from_slice(alloc, text)?)?;
        Ok(Cells { list })
    }

    /// A number more, in decimal digits.
    pub(crate) fn with_number(self, alloc: Global, n: u64) -> Result<Cells, AllocError>
        requires { length self < WIDEST }
        ensures { IfOk result (λ c. c ≡ self ++ decimal n ∷ []) }
    {
        let mut digits = Buffer::new();
        self.with(alloc, digits.format(n).as_bytes())
    }

    /// So many numbers more.
    pub(crate) fn with_numbers(self, alloc: Global, numbers: &[u64]) -> Result<Cells, AllocError>
        requires { length self + length numbers.now ≤ WIDEST }
        ensures { IfOk result (λ c. c ≡ self ++ map decimal numbers.now) }
    {
        let mut cells = self;
        for n in numbers {
            cells = cells.with_number(alloc, *n)?;
        }
        Ok(cells)
    }

    /// The texts.
    pub fn as_slice(&self) -> &[Text]
        ensures texts { result.now ≡ self.now }
        ensures width { length self.now ≤ WIDEST }
    {
        self.list.as_slice()
    }
}
