//! An exchange that is kept, with what it was made of.
ghost use Rattle.std.specs.Prelude.{◌≡◌, IfOk, IfSome, None, Some};
ghost use Rattle.user_file.specs.declared.secrets.Secret.TheVariants.{Plain};
ghost use Rattle.credentials.specs.Credentials.{credential_of};
ghost use Rattle.credentials.specs.Exchanges.{exchange_of, made_of};

use crate::exchange::Exchange;
use std::alloc::{AllocError, Global};
use std::marker::Model;
use text_lines::Text;

/// What a password with this nonce makes of this challenge. Contracts see nothing of a cell but that what is in it is one of these, so it
/// tells itself what it was made of.
pub(crate) struct Made {
    password: Text,
    nonce: [u8; 24],
    challenge: Text,
    exchange: Exchange,
}

impl Drop for Made {
    fn drop(self) {
        let Made {
            password: _,
            nonce: _,
            challenge: _,
            exchange: _,
        } = self;
    }
}

impl Model for Made {
    ghost use Rattle.credentials.specs.Exchanges.{IsMade, MadeOf, made_of};

    ghost Value = { MadeOf };

    ghost view = { λ m. made_of m.password m.nonce m.challenge m.exchange };

    ghost invariant = { λ m. IsMade (made_of m.password m.nonce m.challenge m.exchange) };
}

impl Made {
    /// The only error is out of memory.
    pub(crate) fn new(
        alloc: Global,
        password: &[u8],
        nonce: &[u8; 24],
        challenge: &[u8],
        exchange: &Exchange,
    ) -> Result<Box<Made>, AllocError>
        requires { exchange_of (credential_of (Plain password.now) None nonce.now) challenge.now ≡ Some exchange.now }
    {
        let made = Made {
            password: Text::copy(alloc, password)?,
            nonce: *nonce,
            challenge: Text::copy(alloc, challenge)?,
            exchange: exchange.copy(),
        };
        Ok(Box::new(alloc, made)?)
    }

    /// The exchange, if it was made of these.
    pub(crate) fn exchange_of(
        &self,
        password: &[u8],
        nonce: &[u8; 24],
        challenge: &[u8],
    ) -> Option<Exchange>
        ensures { IfSome result (λ e. exchange_of (credential_of (Plain password.now) None nonce.now) challenge.now ≡ Some e) }
    {
        if self.password.as_bytes() != password || self.challenge.as_bytes() != challenge {
            return None;
        }
        if self.nonce.as_slice() != nonce.as_slice() {
            return None;
        }
        Some(self.exchange.copy())
    }
}
