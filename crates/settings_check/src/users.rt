//! The faults of a user file, all of them.
ghost use Rattle.std.specs.Prelude.{◌≡◌, [], ◌∷◌, ◌++◌, false, IfOk, OnOk, bytes_eq, map, option_map};
ghost use Rattle.std.specs.List.{list_any};
ghost use Rattle.text_lines.specs.Lines.{raw_lines};
ghost use Rattle.settings_check.specs.Users as spec;

use bstr::ByteSlice;
use indexmap::IndexSet;
use std::alloc::{AllocError, Global};
use std::marker::Model;
use text_lines::Text;
use user_file::{UserCause, read_users};

/// A faulty line of a user file. Of its text it has the name alone.
pub struct FaultyUser {
    pub cause: UserCause,
    /// Counted from 1.
    pub number: usize,
    /// The name that is there twice; empty where the line can't be read.
    pub name: Text,
}

impl Drop for FaultyUser {
    fn drop(self) {
        let FaultyUser {
            cause: _,
            number: _,
            name: _,
        } = self;
    }
}

/// The users' names so far.
#[derive(Drop)]
struct SeenNames {
    names: IndexSet<Vec<u8>>,
}

impl Model for SeenNames {
    ghost use Rattle.std.specs.Prelude.{List, ℕ, map};

    ghost Value = { List (List ℕ) };

    ghost view = { λ s. map (λ name. name.items) s.names.keys };
}

impl SeenNames {
    fn new(alloc: Global) -> SeenNames
        ensures { result ≡ [] }
    {
        SeenNames {
            names: IndexSet::new(alloc),
        }
    }

    fn has(&self, name: &[u8]) -> bool
        ensures { result ≡ list_any (bytes_eq name.now) self.now }
    {
        self.names.contains(name)
    }

    fn add(&mut self, alloc: Global, name: &[u8]) -> Result<(), AllocError>
        requires { list_any (bytes_eq name.now) self.old ≡ false }
        ensures { OnOk result (self.new ≡ self.old ++ name.now ∷ []) }
    {
        let name = Vec::from_slice(alloc, name)?;
        self.names.insert(name)?;
        Ok(())
    }
}

/// The fault of the next line, whose name is added to those above it where it has none. The only error is out of memory.
fn judge(
    seen: &mut SeenNames,
    alloc: Global,
    number: usize,
    line: &[u8],
) -> Result<Option<FaultyUser>, AllocError>
    ensures fault { IfOk result (λ fault. option_map spec.found fault ≡ spec.fault_of seen.old number line.now) }
    ensures after { IfOk result (λ fault. seen.new ≡ spec.names_after seen.old line.now) }
{
    let users = match read_users(alloc, line) {
        Ok(users) => users,
        Err(fault) => {
            if fault.cause == UserCause::Memory {
                return Err(AllocError);
            }
            return Ok(Some(FaultyUser {
                cause: fault.cause,
                number,
                name: Text::copy(alloc, b"")?,
            }));
        }
    };
    let Some(user) = users.at(0) else {
        return Ok(None);
    };
    let name = user.name.as_bytes();
    if seen.has(name) {
        return Ok(Some(FaultyUser {
            cause: UserCause::NameTwice,
            number,
            name: Text::copy(alloc, name)?,
        }));
    }
    seen.add(alloc, name)?;
    Ok(None)
}

/// Every faulty line of a file, each judged after the lines above it that have no fault. The only error is out of memory.
pub fn faulty_users(alloc: Global, text: &[u8]) -> Result<Vec<FaultyUser>, AllocError>
    ensures { IfOk result (λ v. map spec.found v.items ≡ spec.faults (raw_lines text.now)) }
{
    let mut seen = SeenNames::new(alloc);
    let mut faulty = Vec::new(alloc);
    let mut number = 0usize;
    for line in text.lines() {
        number += 1;
        if let Some(fault) = judge(&mut seen, alloc, number, line)? {
            faulty.push(fault)?;
        }
    }
    Ok(faulty)
}
