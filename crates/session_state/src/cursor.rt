//! Cursors (PostgreSQL manual, "DECLARE", "FETCH", "CLOSE").
ghost use Rattle.std.specs.Prelude.{◌≡◌, ◌≤◌, drop, false, filter, length, map, IfOk};
ghost use Rattle.std.specs.Arc.{arc_value};
ghost use Rattle.session_values.specs.State.{held, is_held};

use crate::portal::Rows;
use session_values::naming::HasName;
use session_values::row::Row;
use session_values::text::Text;
use shared_list::Shared;
use std::alloc::{AllocError, Global};
use std::marker::Model;
use std::sync::Arc;

/// A cursor: its columns, and the rows that are left.
pub struct Cursor {
    name: Text,
    columns: Shared<Text>,
    rows: Rows,
    is_held: bool,
}

impl Drop for Cursor {
    fn drop(self) {
        let Cursor {
            name: _,
            columns: _,
            rows: _,
            is_held: _,
        } = self;
    }
}

impl Model for Cursor {
    ghost use Rattle.std.specs.Prelude.{◌≤◌, length};
    ghost use Rattle.session_values.specs.State.{CursorOf};

    ghost Value = { CursorOf };

    ghost view = { λ c. record { name = c.name; columns = c.columns; rows = c.rows; held = c.is_held } };

    ghost invariant = { λ c. length c.columns ≤ 64 };
}

impl HasName for Cursor {
    ghost use Rattle.session_values.specs.State.{cursor_name};

    ghost name_of = { cursor_name };

    fn name(&self) -> &Text {
        &self.name
    }
}

impl Cursor {
    ghost use Rattle.session_values.specs.State.{CursorOf};

    /// A cursor of this name over these rows, of at most 64 columns, which its transaction hasn't committed yet.
    pub fn new(name: Text, columns: Shared<Text>, rows: Shared<Row>) -> Cursor
        requires { length columns ≤ 64 }
        ensures { result ≡ record { name = name; columns = columns; rows = rows; held = false } }
    {
        Cursor {
            name,
            columns,
            rows: Rows::new(rows),
            is_held: false,
        }
    }

    /// The names of its columns.
    pub fn columns(&self) -> &Shared<Text>
        ensures columns { result.now ≡ self.now.columns }
        ensures width { length result.now ≤ 64 }
    {
        &self.columns
    }

    /// The rows that are left.
    pub fn rows(&self) -> &Rows
        ensures { result.now ≡ self.now.rows }
    {
        &self.rows
    }

    /// The cursor behind the first `count` rows that are left.
    pub fn after(&self, count: usize) -> Result<Cursor, AllocError>
        requires { count ≤ length self.now.rows }
        ensures { IfOk result (λ c. c ≡ record self.now { rows = drop count self.now.rows }) }
    {
        Ok(Cursor {
            name: self.name.copied()?,
            columns: self.columns.copied()?,
            rows: self.rows.after(count)?,
            is_held: self.is_held,
        })
    }

    fn is_held(&self) -> bool
        ensures { result ≡ is_held self.now }
    {
        self.is_held
    }

    /// The cursor once its transaction was committed.
    fn held(&self) -> Result<Cursor, AllocError>
        ensures { IfOk result (λ c. c ≡ held self.now) }
    {
        Ok(Cursor {
            name: self.name.copied()?,
            columns: self.columns.copied()?,
            rows: self.rows.after(0)?,
            is_held: true,
        })
    }
}

/// The cursors once their transaction was committed.
pub(crate) fn all_held(
    alloc: Global,
    cursors: &[Arc<Cursor>],
) -> Result<Vec<Arc<Cursor>>, AllocError>
    ensures { IfOk result (λ v. map arc_value v.items ≡ map held (map arc_value cursors.now)) }
{
    let mut list = Vec::with_capacity(alloc, cursors.len())?;
    for cursor in cursors {
        list.push(Arc::new(alloc, cursor.held()?)?)?;
    }
    Ok(list)
}

/// The cursors that outlive their transaction's roll back.
pub(crate) fn held_ones(
    alloc: Global,
    cursors: &[Arc<Cursor>],
) -> Result<Vec<Arc<Cursor>>, AllocError>
    ensures { IfOk result (λ v. map arc_value v.items ≡ filter is_held (map arc_value cursors.now)) }
{
    let mut list = Vec::new(alloc);
    for cursor in cursors {
        if cursor.is_held() {
            list.push(Arc::try_clone(cursor)?)?;
        }
    }
    Ok(list)
}
