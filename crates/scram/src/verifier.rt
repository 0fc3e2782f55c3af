//! What a server keeps of a password in place of it.
ghost use Rattle.std.specs.Prelude.{◌≡◌, ◌≤◌, IfOk, IfSome, length, option_map};
ghost use Rattle.scram.specs.Verifiers as spec;
ghost use Rattle.scram.specs.declared.verifier.TheConstants.{MAX_SALT};

use crate::keys::ServerKeys;
use crate::texts::{behind, from_base64, key_in, number, split_at_first};
use std::alloc::{AllocError, Global};
use std::marker::Model;

/// The greatest length of a salt, in bytes. PostgreSQL's have 16.
pub const MAX_SALT: usize = 64;

/// The most rounds that a verifier may tell, as in PostgreSQL, whose `scram_iterations` has 31 bits. A proof is judged without any round.
pub const MAX_ROUNDS_KEPT: u32 = 2_147_483_647;

/// A salt of at most [`MAX_SALT`] bytes, which takes no memory. Contracts see its bytes.
#[derive(Drop)]
pub struct Salt {
    bytes: [u8; 64],
    length: usize,
}

impl Model for Salt {
    ghost use Rattle.std.specs.Prelude.{◌≤◌, ℕ, List, take};
    ghost use Rattle.scram.specs.declared.verifier.TheConstants.{MAX_SALT};

    ghost Value = { List ℕ };

    ghost view = { λ s. take s.length s.bytes };

    ghost invariant = { λ s. s.length ≤ MAX_SALT };
}

impl Salt {
    /// The salt of these bytes, at most [`MAX_SALT`].
    pub fn new(salt: &[u8]) -> Salt
        requires { length salt.now ≤ MAX_SALT }
        ensures { result ≡ salt.now }
    {
        let mut bytes = [0u8; 64];
        bytes[..salt.len()].copy_from_slice(salt);
        Salt {
            bytes,
            length: salt.len(),
        }
    }

    /// Its bytes.
    pub fn as_bytes(&self) -> &[u8]
        ensures value { result.now ≡ self.now }
        ensures short { length result.now ≤ MAX_SALT }
    {
        &self.bytes[..self.length]
    }
}

/// What PostgreSQL keeps of a password in place of it (`pg_authid.rolpassword`): how it is salted, and the server's keys.
#[derive(Drop)]
pub struct Verifier {
    /// From 1 to [`MAX_ROUNDS_KEPT`].
    pub rounds: u32,
    /// From one byte to [`MAX_SALT`].
    pub salt: Salt,
    /// StoredKey and ServerKey, 32 bytes each.
    pub keys: ServerKeys,
}

/// A salt in base64, of from one byte to [`MAX_SALT`]; None where it is another text. The only error is out of memory.
pub(crate) fn salt_in(alloc: Global, text: &[u8]) -> Result<Option<Salt>, AllocError>
    ensures { IfOk result (λ o. o ≡ spec.salt_in text.now) }
{
    let Some(bytes) = from_base64(alloc, text)? else {
        return Ok(None);
    };
    if bytes.is_empty() || bytes.len() > MAX_SALT {
        return Ok(None);
    }
    Ok(Some(Salt::new(bytes.as_slice())))
}

impl Verifier {
    /// The verifier that a text is: `SCRAM-SHA-256$`, the rounds in decimal digits, `:`, the salt, `$`, StoredKey, `:` and ServerKey, the
    /// last three in base64.
    ///
    /// None where it is another text: of another scheme, of 0 rounds or more than [`MAX_ROUNDS_KEPT`], with a salt of no byte or more
    /// than [`MAX_SALT`], with a key that isn't of 32 bytes, or with base64 in another than its one spelling. The only error is out
    /// of memory.
    #[tactic(auto, unfolding(crate::specs::Verifiers::verifier_of))]
    pub fn read(alloc: Global, text: &[u8]) -> Result<Option<Verifier>, AllocError>
        ensures { IfOk result (λ o. o ≡ spec.verifier_of text.now) }
    {
        let Some(rest) = behind(b"SCRAM-SHA-256$", text) else {
            return Ok(None);
        };
        let Some((rounds, rest)) = split_at_first(rest, b':') else {
            return Ok(None);
        };
        let Some((salt, keys)) = split_at_first(rest, b'$') else {
            return Ok(None);
        };
        let Some((stored, server)) = split_at_first(keys, b':') else {
            return Ok(None);
        };
        let Some(rounds) = number(rounds, 1, MAX_ROUNDS_KEPT) else {
            return Ok(None);
        };
        let Some(salt) = salt_in(alloc, salt)? else {
            return Ok(None);
        };
        let Some(stored) = key_in(alloc, stored)? else {
            return Ok(None);
        };
        let Some(server) = key_in(alloc, server)? else {
            return Ok(None);
        };
        Ok(Some(Verifier {
            rounds,
            salt,
            keys: ServerKeys { stored, server },
        }))
    }
}
