//! Rows of a table.
ghost use Rattle.std.specs.Prelude.{◌≡◌, ◌<◌, ◌^◌, length, IfOk};

use crate::text::Text;
use std::alloc::AllocError;
use std::marker::Model;

/// Values, of which some may be null. Contracts see a list.
pub struct Row {
    values: Vec<Option<Text>>,
}

impl Drop for Row {
    fn drop(self) {
        let Row { values: _ } = self;
    }
}

impl Model for Row {
    ghost use Rattle.std.specs.Prelude.{◌<◌, ◌^◌, List, Option, ℕ, length};

    ghost Value = { List (Option (List ℕ)) };

    ghost view = { λ r. r.values.items };

    ghost invariant = { λ r. length r.values.items < 2 ^ 16 };
}

impl Row {
    /// The row of these values, of which there are fewer than 65,536.
    pub fn from_vec(values: Vec<Option<Text>>) -> Row
        requires { length values.items < 2 ^ 16 }
        ensures { result ≡ values.items }
    {
        Row { values }
    }

    /// The values.
    pub fn as_slice(&self) -> &[Option<Text>]
        ensures values { result.now ≡ self.now }
        ensures width { length self.now < 2 ^ 16 }
    {
        self.values.as_slice()
    }

    /// Another copy.
    pub fn copied(&self) -> Result<Row, AllocError>
        ensures { IfOk result (λ r. r ≡ self.now) }
    {
        Ok(Row {
            values: self.values.clone()?,
        })
    }
}
