//! The names of columns.
ghost use Rattle.std.specs.Prelude.{◌≡◌, ◌≤◌, ◌∷◌, [], length, IfOk, map};
ghost use Rattle.std.specs.Arc.{arc_value};
ghost use Rattle.mini_sql.specs.Meanings.{columns_left};

use crate::text::Text;
use mini_sql::Columns;
use std::alloc::{AllocError, Global};
use std::marker::Model;
use std::sync::Arc;

/// The names of at most 64 columns. Contracts see a list.
pub struct Names {
    list: Vec<Text>,
}

impl Drop for Names {
    fn drop(self) {
        let Names { list: _ } = self;
    }
}

impl Model for Names {
    ghost use Rattle.std.specs.Prelude.{◌≤◌, List, ℕ, length};

    ghost Value = { List (List ℕ) };

    ghost view = { λ n. n.list.items };

    ghost invariant = { λ n. length n.list.items ≤ 64 };
}

impl Names {
    /// One name.
    pub fn one(alloc: Global, name: &[u8]) -> Result<Names, AllocError>
        ensures { IfOk result (λ n. n ≡ name.now ∷ []) }
    {
        let mut list = Vec::with_capacity(alloc, 1)?;
        list.push(Text::from_slice(alloc, name)?)?;
        Ok(Names { list })
    }

    /// The names that a text lists, in lower case.
    pub fn listed(alloc: Global, columns: Columns<'_>) -> Result<Names, AllocError>
        requires { length (columns_left columns) ≤ 64 }
        ensures { IfOk result (λ n. n ≡ columns_left columns.entry) }
    {
        let mut list = Vec::new(alloc);
        for column in columns {
            list.push(Text::folded(alloc, column)?)?;
        }
        Ok(Names { list })
    }

    /// The same names.
    pub fn copied(alloc: Global, names: &[Arc<Text>]) -> Result<Names, AllocError>
        requires { length names.now ≤ 64 }
        ensures { IfOk result (λ n. n ≡ map arc_value names.now) }
    {
        let mut list = Vec::with_capacity(alloc, names.len())?;
        for name in names {
            list.push(name.copied()?)?;
        }
        Ok(Names { list })
    }

    /// The names in order.
    pub fn as_slice(&self) -> &[Text]
        ensures names { result.now ≡ self.now }
        ensures count { length self.now ≤ 64 }
    {
        self.list.as_slice()
    }
}
