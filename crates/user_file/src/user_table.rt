//! The table of users.
ghost use Rattle.std.specs.Prelude.{◌≡◌, [], ◌∷◌, ◌++◌, length, is_some, option_copied, slice_get, OnOk, None};
ghost use Rattle.user_file.specs.Fields.{unquoted};
ghost use Rattle.user_file.specs.Users.{user_named};

use crate::fields::is_text_of;
use crate::secrets::Secret;
use indexmap::IndexMap;
use std::alloc::{AllocError, Global};
use std::fmt;
use std::marker::Model;
use text_lines::Text;

/// A user: a name that isn't empty, and a secret. It shows without name and secret.
pub struct UserRow {
    pub name: Text,
    pub secret: Secret,
}

impl Drop for UserRow {
    fn drop(self) {
        let UserRow { name: _, secret: _ } = self;
    }
}

impl fmt::Debug for UserRow {
    fn fmt<W: fmt::Write>(&self, f: &mut fmt::Formatter<W>) -> fmt::Result {
        f.write_str("UserRow(..)")
    }
}

/// The users that a file spells, in its order, found by name.
pub struct UserTable {
    by_name: IndexMap<Vec<u8>, UserRow>,
}

impl Drop for UserTable {
    fn drop(self) {
        let UserTable { by_name: _ } = self;
    }
}

impl Model for UserTable {
    ghost use Rattle.std.specs.Prelude.{◌≡◌, List, map};
    ghost use Rattle.user_file.specs.declared.user_table.UserRow.{UserRow};

    ghost Value = { List UserRow };

    ghost view = { λ u. map (λ e. e.1) u.by_name.entries };

    ghost invariant = { λ u. map (λ e. e.0.items) u.by_name.entries ≡ map (λ e. e.1.name) u.by_name.entries };
}

impl fmt::Debug for UserTable {
    fn fmt<W: fmt::Write>(&self, f: &mut fmt::Formatter<W>) -> fmt::Result {
        f.write_str("UserTable(..)")
    }
}

impl UserTable {
    /// No users. It takes no memory.
    pub fn new(alloc: Global) -> UserTable
        ensures { result ≡ [] }
    {
        UserTable {
            by_name: IndexMap::new(alloc),
        }
    }

    /// The user of this name, byte for byte.
    pub fn row(&self, name: &[u8]) -> Option<&UserRow>
        ensures { option_copied result ≡ user_named name.now self.now }
    {
        self.by_name.get(name)
    }

    /// The user at a place of the file, counted from 0.
    pub fn at(&self, place: usize) -> Option<&UserRow>
        ensures { option_copied result ≡ slice_get self.now place }
    {
        let (_, row) = self.by_name.get_index(place)?;
        Some(row)
    }

    /// Whether a user has the name that a field of the file spells. It takes no memory, and looks at each user.
    pub(crate) fn has_field(&self, field: &[u8]) -> bool
        ensures { result ≡ is_some (user_named (unquoted field.now) self.now) }
    {
        for user in self.by_name.values() {
            if is_text_of(user.name.as_bytes(), field) {
                return true;
            }
        }
        false
    }

    /// How many users there are.
    pub fn len(&self) -> usize
        ensures { result ≡ length self.now }
    {
        self.by_name.len()
    }

    /// Adds a user at the end. The only error is out of memory.
    pub(crate) fn add(&mut self, alloc: Global, row: UserRow) -> Result<(), AllocError>
        requires { user_named row.name self.old ≡ None }
        ensures { OnOk result (self.new ≡ self.old ++ row ∷ []) }
    {
        let key = Vec::from_slice(alloc, row.name.as_bytes())?;
        self.by_name.insert(key, row)?;
        Ok(())
    }
}
