//! The keys that a file has given so far.
ghost use Rattle.std.specs.Prelude.{◌≡◌, [], ◌∷◌, ◌++◌, false, OnOk, bytes_eq};
ghost use Rattle.std.specs.List.{list_any};

use indexmap::IndexSet;
use std::alloc::{AllocError, Global};
use std::marker::Model;

/// Keys as the file spells them, in the order of the file.
#[derive(Drop)]
pub(crate) struct SeenKeys<'a> {
    keys: IndexSet<&'a [u8]>,
}

impl<'a> Model for SeenKeys<'a> {
    ghost use Rattle.std.specs.Prelude.{List, ℕ, map};

    ghost Value = { List (List ℕ) };

    ghost view = { λ s. map (λ key. key.now) s.keys.keys };
}

impl<'a> SeenKeys<'a> {
    pub(crate) fn new(alloc: Global) -> SeenKeys<'a>
        ensures { result ≡ [] }
    {
        SeenKeys {
            keys: IndexSet::new(alloc),
        }
    }

    pub(crate) fn has(&self, key: &[u8]) -> bool
        ensures { result ≡ list_any (bytes_eq key.now) self.now }
    {
        self.keys.contains(key)
    }

    pub(crate) fn add(&mut self, key: &'a [u8]) -> Result<(), AllocError>
        requires { list_any (bytes_eq key.now) self.old ≡ false }
        ensures { OnOk result (self.new ≡ self.old ++ key.entry.now ∷ []) }
    {
        self.keys.insert(key)?;
        Ok(())
    }
}
