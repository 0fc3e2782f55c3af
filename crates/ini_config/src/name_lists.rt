//! Lists of names, as the values of some settings have them.
ghost use Rattle.std.specs.Prelude.{◌≡◌, [], ◌∷◌, ◌==◌, length, map, IfOk, bytes_eq};
ghost use Rattle.std.specs.Str.{str_eq_ignore_ascii_case};
ghost use Rattle.std.specs.List.{list_any};
ghost use Rattle.ini_config.specs.Hosts as hosts;
ghost use Rattle.ini_config.specs.Values as spec;

use crate::hosts::listened;
use bstr::ByteSlice;
use std::alloc::{AllocError, Global};
use std::marker::Model;
use text_lines::{Text, trimmed};

/// Names in the order of the file. None is empty.
pub struct Names {
    list: Vec<Text>,
}

impl Drop for Names {
    fn drop(self) {
        let Names { list: _ } = self;
    }
}

impl Model for Names {
    ghost use Rattle.std.specs.Prelude.{List, ℕ};

    ghost Value = { List (List ℕ) };

    ghost view = { λ n. n.list.items };
}

impl Names {
    /// No names. It takes no memory.
    pub fn new(alloc: Global) -> Names
        ensures { result ≡ [] }
    {
        Names {
            list: Vec::new(alloc),
        }
    }

    /// One name. The only error is out of memory.
    pub fn one(alloc: Global, name: &[u8]) -> Result<Names, AllocError>
        ensures { IfOk result (λ n. n ≡ name.now ∷ []) }
    {
        let mut list = Vec::new(alloc);
        list.push(Text::copy(alloc, name)?)?;
        Ok(Names { list })
    }

    /// The names of a text, parted by commas. Spaces and tabs round a name are dropped, and empty names are left out. The only
    /// error is out of memory.
    #[tactic(auto, unfolding(crate::specs::Values::names))]
    pub fn read(alloc: Global, text: &[u8]) -> Result<Names, AllocError>
        ensures { IfOk result (λ n. n ≡ spec.names text.now) }
    {
        let mut list = Vec::new(alloc);
        for part in text.split_str(b",") {
            let name = trimmed(part);
            if !name.is_empty() {
                list.push(Text::copy(alloc, name)?)?;
            }
        }
        Ok(Names { list })
    }

    /// Those that an address to listen on stands for by each. The only error is out of memory.
    #[tactic(auto, unfolding(crate::specs::Values::names))]
    pub(crate) fn read_listened(alloc: Global, text: &[u8]) -> Result<Names, AllocError>
        ensures { IfOk result (λ n. n ≡ map hosts.listened (spec.names text.now)) }
    {
        let mut list = Vec::new(alloc);
        for part in text.split_str(b",") {
            let address = trimmed(part);
            if !address.is_empty() {
                list.push(Text::copy(alloc, listened(address))?)?;
            }
        }
        Ok(Names { list })
    }

    /// The names.
    pub fn as_slice(&self) -> &[Text]
        ensures { result.now ≡ self.now }
    {
        self.list.as_slice()
    }

    /// How many names there are.
    pub fn len(&self) -> usize
        ensures { result ≡ length self.now }
    {
        self.list.len()
    }

    /// Whether there is no name.
    pub fn is_empty(&self) -> bool
        ensures { result ≡ (length self.now == 0) }
    {
        self.list.is_empty()
    }

    /// Whether the name is among them, byte for byte.
    pub fn has(&self, name: &[u8]) -> bool
        ensures { result ≡ list_any (λ n. bytes_eq n name.now) self.now }
    {
        self.list.iter().any(|n| n.as_bytes() == name)
    }

    /// Whether the name is among them, without regard to the case of ASCII letters.
    pub fn has_folded(&self, name: &[u8]) -> bool
        ensures { result ≡ list_any (λ n. str_eq_ignore_ascii_case n name.now) self.now }
    {
        self.list
            .iter()
            .any(|n| n.as_bytes().eq_ignore_ascii_case(name))
    }
}
