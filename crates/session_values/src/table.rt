//! Tables of texts.
ghost use Rattle.std.specs.Prelude.{◌≡◌, ◌≤◌, length, IfOk, [], ◌∷◌, ◌++◌};

use crate::naming::HasName;
use crate::row::Row;
use crate::text::Text;
use shared_list::{AppendList, Shared};
use std::alloc::{AllocError, Global};
use std::marker::Model;

/// A table of texts, of the catalogue or temporary. Its copies share names and rows.
pub struct Table {
    name: Text,
    columns: Shared<Text>,
    rows: AppendList<Row>,
}

impl Drop for Table {
    fn drop(self) {
        let Table {
            name: _,
            columns: _,
            rows: _,
        } = self;
    }
}

impl Model for Table {
    ghost use Rattle.std.specs.Prelude.{◌≤◌, length};
    ghost use Rattle.session_values.specs.State.{TableOf};

    ghost Value = { TableOf };

    ghost view = { λ t. record { name = t.name; columns = t.columns; rows = t.rows } };

    ghost invariant = { λ t. length t.columns ≤ 64 };
}

impl HasName for Table {
    ghost use Rattle.session_values.specs.State.{table_name};

    ghost name_of = { table_name };

    fn name(&self) -> &Text {
        &self.name
    }
}

impl Table {
    ghost use Rattle.session_values.specs.State.{TableOf};

    /// A table without rows, of at most 64 columns.
    pub fn new(alloc: Global, name: Text, columns: Shared<Text>) -> Result<Table, AllocError>
        requires { length columns ≤ 64 }
        ensures { IfOk result (λ t. t ≡ record { name = name; columns = columns; rows = [] }) }
    {
        Ok(Table {
            name,
            columns,
            rows: AppendList::new(alloc)?,
        })
    }

    /// The names of its columns.
    pub fn columns(&self) -> &Shared<Text>
        ensures columns { result.now ≡ self.now.columns }
        ensures width { length result.now ≤ 64 }
    {
        &self.columns
    }

    /// Its rows, in order of insertion.
    pub fn rows(&self) -> &AppendList<Row>
        ensures { result.now ≡ self.now.rows }
    {
        &self.rows
    }

    /// This table with a row after the others.
    pub fn with_row(&self, alloc: Global, row: Row) -> Result<Table, AllocError>
        ensures { IfOk result (λ t. t ≡ record self.now { rows = self.now.rows ++ row ∷ [] }) }
    {
        Ok(Table {
            name: self.name.copied()?,
            columns: self.columns.copied()?,
            rows: self.rows.pushed(alloc, row)?,
        })
    }
}
