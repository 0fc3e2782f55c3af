//! A password that the user file has as it is, with what SCRAM has made of it.
ghost use Rattle.std.specs.Prelude.{◌≡◌, IfOk, IfSome};
ghost use Rattle.scram.specs.Hmac.{hi};
ghost use Rattle.scram.specs.Keys.{server_keys};
ghost use Rattle.sasl_prep.specs.Prepared.{prepared};
ghost use Rattle.user_file.specs.Passwords.{IsDerivedFrom, IsSalted};

use once_cell::race::OnceBox;
use sasl_prep::prepared;
use scram::keys::salted;
use scram::{Salt, ServerKeys};
use std::alloc::{AllocError, Global};
use std::marker::Model;
use text_lines::Text;

/// SaltedPassword, and the keys that a server keeps of it.
#[derive(Clone, Copy, Drop)]
struct Salted {
    password: [u8; 32],
    keys: ServerKeys,
}

impl Salted {
    /// Of a password that isn't prepared yet. The only error is out of memory.
    fn new(alloc: Global, password: &[u8], salt: &Salt, rounds: u32) -> Result<Salted, AllocError>
        ensures { IfOk result (λ s. IsSalted password.now salt.now rounds s) }
    {
        let text = prepared(alloc, password)?;
        let password = salted(text.as_slice(), salt.as_bytes(), rounds);
        Ok(Salted {
            password,
            keys: ServerKeys::of(&password),
        })
    }
}

/// What a password gives that is salted so.
struct Derived {
    password: Text,
    salt: Salt,
    rounds: u32,
    salted: Salted,
}

impl Drop for Derived {
    fn drop(self) {
        let Derived {
            password: _,
            salt: _,
            rounds: _,
            salted: _,
        } = self;
    }
}

impl Model for Derived {
    ghost use Rattle.user_file.specs.Passwords.{DerivedOf, IsSalted, derived};

    ghost Value = { DerivedOf };

    ghost view = { λ d. derived d.password d.salt d.rounds d.salted };

    ghost invariant = { λ d. IsSalted d.password d.salt d.rounds d.salted };
}

impl Derived {
    /// The only error is out of memory.
    fn new(alloc: Global, password: &[u8], salt: &Salt, rounds: u32) -> Result<Derived, AllocError>
        ensures { IfOk result (λ d. IsDerivedFrom password.now salt.now rounds d) }
    {
        Ok(Derived {
            password: Text::copy(alloc, password)?,
            salt: Salt::new(salt.as_bytes()),
            rounds,
            salted: Salted::new(alloc, password, salt, rounds)?,
        })
    }

    /// The same once more. The only error is out of memory.
    fn copied(&self, alloc: Global) -> Result<Derived, AllocError> {
        Ok(Derived {
            password: Text::copy(alloc, self.password.as_bytes())?,
            salt: Salt::new(self.salt.as_bytes()),
            rounds: self.rounds,
            salted: self.salted,
        })
    }

    /// What it is, if it was derived so.
    fn salted_so(&self, password: &[u8], salt: &Salt, rounds: u32) -> Option<Salted>
        ensures { IfSome result (λ s. IsSalted password.now salt.now rounds s) }
    {
        if self.password.as_bytes() != password || self.salt.as_bytes() != salt.as_bytes() {
            return None;
        }
        if self.rounds != rounds {
            return None;
        }
        Some(self.salted)
    }
}

/// A password. What SCRAM makes of it with a salt takes thousands of rounds, so it is kept: with the salt that its name has here, and with
/// each of eight salts of servers. Contracts see its text alone.
pub struct Password {
    text: Text,
    /// With the salt that its name has here.
    own: OnceBox<Derived>,
    /// With the salts of servers.
    theirs: [OnceBox<Derived>; 8],
}

impl Drop for Password {
    fn drop(self) {
        let Password {
            text: _,
            own: _,
            theirs: _,
        } = self;
    }
}

impl Model for Password {
    ghost use Rattle.std.specs.Prelude.{List, ℕ};

    ghost Value = { List ℕ };

    ghost view = { λ p. p.text };
}

impl Password {
    pub(crate) fn new(alloc: Global, text: Text) -> Password
        ensures { result ≡ text }
    {
        Password {
            text,
            own: OnceBox::new(alloc),
            theirs: [
                OnceBox::new(alloc),
                OnceBox::new(alloc),
                OnceBox::new(alloc),
                OnceBox::new(alloc),
                OnceBox::new(alloc),
                OnceBox::new(alloc),
                OnceBox::new(alloc),
                OnceBox::new(alloc),
            ],
        }
    }

    /// Its bytes.
    pub fn as_bytes(&self) -> &[u8]
        ensures { result.now ≡ self.now }
    {
        self.text.as_bytes()
    }

    /// What a cell keeps, if it was derived so.
    fn kept_in(&self, cell: &OnceBox<Derived>, salt: &Salt, rounds: u32) -> Option<Salted>
        ensures { IfSome result (λ s. IsSalted self.now salt.now rounds s) }
    {
        cell.get()?.salted_so(self.text.as_bytes(), salt, rounds)
    }

    /// What is kept for servers, if it was derived so.
    fn kept(&self, salt: &Salt, rounds: u32) -> Option<Salted>
        ensures { IfSome result (λ s. IsSalted self.now salt.now rounds s) }
    {
        for cell in &self.theirs {
            if let Some(salted) = self.kept_in(cell, salt, rounds) {
                return Some(salted);
            }
        }
        None
    }

    /// Keeps what was derived for a server, if there is memory, and a salt's place is free.
    fn keep(&self, alloc: Global, derived: Derived) {
        let Ok(mut derived) = Box::new(alloc, derived) else {
            return;
        };
        for cell in &self.theirs {
            match cell.set(derived) {
                Ok(()) => return,
                Err(refused) => derived = refused,
            }
        }
    }

    /// Keeps what was derived with the salt that its name has here, if there is memory, and none is kept yet.
    fn keep_own(&self, alloc: Global, derived: Derived) {
        if let Ok(derived) = Box::new(alloc, derived) {
            let _ = self.own.set(derived);
        }
    }

    /// The password, prepared by SASLprep and salted in so many rounds: SCRAM's SaltedPassword (RFC 5802, section 3). It is derived at the
    /// first call with a salt and rounds, of the first eight of these, and kept. The only error is out of memory.
    pub fn salted(&self, alloc: Global, salt: &Salt, rounds: u32) -> Result<[u8; 32], AllocError>
        ensures { IfOk result (λ k. k ≡ hi (prepared self.now) salt.now rounds) }
    {
        if let Some(salted) = self.kept(salt, rounds) {
            return Ok(salted.password);
        }
        let derived = Derived::new(alloc, self.text.as_bytes(), salt, rounds)?;
        let password = derived.salted.password;
        self.keep(alloc, derived);
        Ok(password)
    }

    /// The keys that a server keeps of the password that is salted so, as its name's is here. They are derived at the first call, and kept.
    /// The only error is out of memory.
    pub(crate) fn server_keys(
        &self,
        alloc: Global,
        salt: &Salt,
        rounds: u32,
    ) -> Result<ServerKeys, AllocError>
        ensures { IfOk result (λ k. k ≡ server_keys (hi (prepared self.now) salt.now rounds)) }
    {
        if let Some(salted) = self.kept_in(&self.own, salt, rounds) {
            return Ok(salted.keys);
        }
        let derived = Derived::new(alloc, self.text.as_bytes(), salt, rounds)?;
        let keys = derived.salted.keys;
        self.keep_own(alloc, derived);
        Ok(keys)
    }

    /// Whether the keys that a server keeps of it are kept.
    pub(crate) fn is_derived(&self) -> bool {
        self.own.get().is_some()
    }

    /// Takes over what was derived of an equal password whose name has the same salt here, if there is memory. What was derived with salts of
    /// servers isn't taken over: those that no server has any more would hold the places of others for ever.
    pub(crate) fn take_over(&self, alloc: Global, earlier: &Password) {
        if self.text.as_bytes() != earlier.text.as_bytes() {
            return;
        }
        if let Some(derived) = earlier.own.get() {
            if let Ok(copy) = derived.copied(alloc) {
                self.keep_own(alloc, copy);
            }
        }
    }
}
