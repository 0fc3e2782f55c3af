//! The users that a login goes by.
ghost use Rattle.std.specs.Prelude.{◌≡◌, IfOk, length, option_copied, slice_get};
ghost use Rattle.user_file.specs.Salts.{judged_by, keys_for, salt_for, salting_for};
ghost use Rattle.user_file.specs.Users.{user_named, users_of};

use crate::salts::{Judging, ROUNDS, Salting, salt_for};
use crate::secrets::Secret;
use crate::user_table::{UserRow, UserTable};
use once_cell::race::OnceBool;
use scram::ServerKeys;
use scram::keys::salted;
use std::alloc::{AllocError, Global};
use std::fmt;
use std::marker::Model;

/// The users of a file, found by name, and the key of the salts that names have for SCRAM.
///
/// The key is a secret of the pooler's own: who knows it can tell which names have a verifier. Under one key a name has one salt.
pub struct Users {
    table: UserTable,
    salts: [u8; 32],
    /// Set once the keys of all plain secrets are kept.
    derived: OnceBool,
}

impl Drop for Users {
    fn drop(self) {
        let Users {
            table: _,
            salts: _,
            derived: _,
        } = self;
    }
}

impl Model for Users {
    ghost use Rattle.user_file.specs.Users.{UsersOf, users_of};

    ghost Value = { UsersOf };

    ghost view = { λ u. users_of u.table u.salts };
}

impl fmt::Debug for Users {
    fn fmt<W: fmt::Write>(&self, f: &mut fmt::Formatter<W>) -> fmt::Result {
        f.write_str("Users(..)")
    }
}

impl Users {
    /// The users of this table, under this key of their salts. It takes no memory.
    pub fn new(table: UserTable, salts: [u8; 32]) -> Users
        ensures { result ≡ users_of table salts }
    {
        Users {
            table,
            salts,
            derived: OnceBool::new(),
        }
    }

    /// The key of the salts.
    pub fn salts(&self) -> &[u8; 32]
        ensures { result.now ≡ self.now.salts }
    {
        &self.salts
    }

    /// The user of this name, byte for byte.
    pub fn row(&self, name: &[u8]) -> Option<&UserRow>
        ensures { option_copied result ≡ user_named name.now self.now.rows }
    {
        self.table.row(name)
    }

    /// The user at a place of the file, counted from 0.
    pub fn at(&self, place: usize) -> Option<&UserRow>
        ensures { option_copied result ≡ slice_get self.now.rows place }
    {
        self.table.at(place)
    }

    /// How many users there are.
    pub fn len(&self) -> usize
        ensures { result ≡ length self.now.rows }
    {
        self.table.len()
    }

    /// How the password of this name is salted: as its verifier says, else by the name's salt in 4,096 rounds, be there such a user or
    /// not. It takes no memory.
    pub fn salting(&self, name: &[u8]) -> Salting
        ensures { result ≡ salting_for (user_named name.now self.now.rows) (salt_for self.now.salts name.now) }
    {
        let salt = salt_for(&self.salts, name);
        match self.row(name) {
            Some(user) => user.secret.salting(salt),
            None => Salting {
                salt,
                rounds: ROUNDS,
            },
        }
    }

    /// The keys by which a proof of this name is judged. An unknown name, and one whose secret has no keys, is judged by some that don't
    /// count, which cost as much to have: nothing, or as long as [`Users::derive`] isn't through, what a plain secret's cost. The only
    /// error is out of memory.
    pub fn judging(&self, alloc: Global, name: &[u8]) -> Result<Judging, AllocError>
        ensures { IfOk result (λ j. judged_by j ≡ keys_for (user_named name.now self.now.rows) (salt_for self.now.salts name.now)) }
    {
        let salt = salt_for(&self.salts, name);
        let known = match self.row(name) {
            Some(user) => user.secret.server_keys(alloc, &salt)?,
            None => None,
        };
        match known {
            Some(keys) => Ok(Judging { keys, counts: true }),
            None => Ok(Judging {
                keys: self.nobodys_keys(salt.as_bytes()),
                counts: false,
            }),
        }
    }

    /// Whether the keys of all users were found to be kept ([`Users::look_derived`]).
    pub fn is_derived(&self) -> bool {
        self.derived.get().is_some()
    }

    /// Keys of nobody.
    fn nobodys_keys(&self, salt: &[u8]) -> ServerKeys {
        if self.is_derived() {
            return ServerKeys {
                stored: self.salts,
                server: self.salts,
            };
        }
        ServerKeys::of(&salted(&self.salts, salt, ROUNDS))
    }

    /// Derives the keys of the user at a place, where its secret is plain, and keeps them, if there is memory: thousands of rounds, if they
    /// aren't kept yet.
    pub fn derive(&self, alloc: Global, place: usize) {
        if let Some(user) = self.at(place) {
            let salt = salt_for(&self.salts, user.name.as_bytes());
            let _ = user.secret.server_keys(alloc, &salt);
        }
    }

    /// Looks whether the keys of all users are kept. Where they are, nobody's cost nothing either from here on.
    pub fn look_derived(&self) {
        for place in 0..self.len() {
            if let Some(user) = self.at(place) {
                if !user.secret.is_derived() {
                    return;
                }
            }
        }
        let _ = self.derived.set(true);
    }

    /// Takes over the keys that were derived of equal secrets under an equal key of the salts, if there is memory. Where these are the keys
    /// of all users, nobody's cost nothing either from here on.
    pub fn take_over(&self, alloc: Global, earlier: &Users) {
        if self.salts == earlier.salts {
            for place in 0..self.len() {
                if let Some(user) = self.at(place) {
                    if let Some(before) = earlier.row(user.name.as_bytes()) {
                        user.secret.take_over(alloc, &before.secret);
                    }
                }
            }
        }
        self.look_derived();
    }
}
