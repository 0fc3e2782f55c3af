//! The table of database rows.
ghost use Rattle.std.specs.Prelude.{◌≡◌, [], ◌∷◌, ◌++◌, length, option_copied, option_map, slice_get, OnOk, OnErr, None, bytes_eq};
ghost use Rattle.ini_config.specs.Tables.{is_database_name, row_for, row_named, row_of_served};

use crate::database_rows::{DbRow, ServedRow, WILDCARD};
use crate::database_values::is_database;
use indexmap::IndexMap;
use std::alloc::{AllocError, Global};
use std::marker::Model;

/// The longest name of a database that PostgreSQL has.
const MAX_NAME: usize = 63;

/// Whether a server can have a database of this name.
fn is_database_name(name: &[u8]) -> bool
    ensures { result ≡ is_database_name name.now }
{
    is_database(name) && name.len() <= MAX_NAME
}

/// Database rows in the order of the file, found by name.
pub struct Rows {
    by_name: IndexMap<Vec<u8>, DbRow>,
}

impl Drop for Rows {
    fn drop(self) {
        let Rows { by_name: _ } = self;
    }
}

impl Model for Rows {
    ghost use Rattle.std.specs.Prelude.{◌≡◌, List, map};
    ghost use Rattle.ini_config.specs.declared.database_rows.DbRow.{DbRow};

    ghost Value = { List DbRow };

    ghost view = { λ r. map (λ e. e.1) r.by_name.entries };

    ghost invariant = { λ r. map (λ e. e.0.items) r.by_name.entries ≡ map (λ e. e.1.name) r.by_name.entries };
}

impl Rows {
    /// No rows. It takes no memory.
    pub fn new(alloc: Global) -> Rows
        ensures { result ≡ [] }
    {
        Rows {
            by_name: IndexMap::new(alloc),
        }
    }

    /// The row of this name.
    pub fn get(&self, name: &[u8]) -> Option<&DbRow>
        ensures { option_copied result ≡ row_named name.now self.now }
    {
        self.by_name.get(name)
    }

    /// The row that serves the database of this name: the one of that name, else that of `*` where the name has 1 to 63 bytes and no zero
    /// byte.
    pub fn serving<'a>(&'a self, name: &'a [u8]) -> Option<ServedRow<'a>>
        ensures { option_map row_of_served result ≡ row_for name.entry.now self.entry.now }
    {
        if let Some(row) = self.get(name) {
            return Some(row.served());
        }
        if !is_database_name(name) {
            return None;
        }
        let row = self.get(WILDCARD)?;
        Some(row.served_as(name))
    }

    /// How many rows there are.
    pub fn len(&self) -> usize
        ensures { result ≡ length self.now }
    {
        self.by_name.len()
    }

    /// The row at an index, counted from 0.
    pub fn at(&self, index: usize) -> Option<&DbRow>
        ensures { option_copied result ≡ slice_get self.now index }
    {
        let (_, row) = self.by_name.get_index(index)?;
        Some(row)
    }

    /// Adds a row at the end. The only error is out of memory, which leaves the rows as they were.
    pub fn add(&mut self, alloc: Global, row: DbRow) -> Result<(), AllocError>
        requires { row_named row.name self.old ≡ None }
        ensures ok { OnOk result (self.new ≡ self.old ++ row ∷ []) }
        ensures err { OnErr result (self.new ≡ self.old) }
    {
        let key = Vec::from_slice(alloc, row.name.as_bytes())?;
        self.by_name.insert(key, row)?;
        Ok(())
    }
}
