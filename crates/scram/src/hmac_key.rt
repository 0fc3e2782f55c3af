//! HMAC-SHA-256 (RFC 2104), and Hi (RFC 5802, section 2.2).
ghost use Rattle.std.specs.Prelude.{◌≡◌, ◌-◌, ◌≤◌, ◌++◌, ◌∷◌, [], length, replicate};
ghost use Rattle.sha2.specs.Hashers.{Holds256};
ghost use Rattle.scram.specs.Hmac as spec;
ghost use Rattle.scram.specs.Hmac.{hmac_under, inner_pad, key_block, outer_pad};
ghost use Rattle.scram.specs.Keys.{auth_message};

use sha2::{Digest, Sha256};
use std::marker::Model;
use std::simd::prelude::*;

/// The bytes of a block of SHA-256.
const BLOCK: usize = 64;

/// What HMAC lays over its key's block for its inner digest.
const INNER: u8 = 0x36;

/// And for its outer one.
const OUTER: u8 = 0x5c;

/// The exclusive or of two keys, byte by byte.
pub(crate) fn xor(left: &[u8; 32], right: &[u8; 32]) -> [u8; 32]
    ensures { result ≡ spec.xor left.now right.now }
{
    (u8x32::from_array(*left) ^ u8x32::from_array(*right)).to_array()
}

fn padded(block: &[u8; 64], pad: u8) -> [u8; 64]
    ensures { result ≡ spec.xor block.now (replicate 64 pad) }
{
    (u8x64::from_array(*block) ^ u8x64::splat(pad)).to_array()
}

/// A key of at most a block, with zeros behind it.
fn filled(key: &[u8]) -> [u8; 64]
    requires { length key.now ≤ 64 }
    ensures { result ≡ key.now ++ replicate (64 - length key.now) 0 }
{
    let mut block = [0u8; 64];
    block[..key.len()].copy_from_slice(key);
    block
}

/// The block of a key, which counts as its digest where it is longer than a block.
fn key_block(key: &[u8]) -> [u8; 64]
    ensures { result ≡ spec.key_block key.now }
{
    if key.len() > BLOCK {
        return filled(&Sha256::digest(key));
    }
    filled(key)
}

fn hasher_of(block: &[u8]) -> Sha256
    ensures { Holds256 result block.now }
{
    let mut hasher = Sha256::new();
    hasher.update(block);
    hasher
}

fn copied(hasher: &Sha256) -> Sha256
    ensures { result ≡ hasher.now }
{
    let Ok(copy) = hasher.clone() else {
        unreachable!();
    };
    copy
}

/// HMAC under one key, whose two padded blocks are hashed once. Contracts see the key's block.
pub(crate) struct HmacKey {
    block: [u8; 64],
    inner: Sha256,
    outer: Sha256,
}

impl Drop for HmacKey {
    fn drop(self) {
        let HmacKey {
            block: _,
            inner: _,
            outer: _,
        } = self;
    }
}

impl Model for HmacKey {
    ghost use Rattle.std.specs.Prelude.{ℕ, List};
    ghost use Rattle.sha2.specs.Hashers.{Holds256};
    ghost use Rattle.scram.specs.Hmac.{inner_pad, outer_pad};

    ghost Value = { List ℕ };

    ghost view = { λ h. h.block };

    ghost invariant = { λ h. Holds256 h.inner (inner_pad h.block) × Holds256 h.outer (outer_pad h.block) };
}

impl HmacKey {
    pub(crate) fn new(key: &[u8]) -> HmacKey
        ensures { result ≡ key_block key.now }
    {
        let block = key_block(key);
        HmacKey {
            block,
            inner: hasher_of(&padded(&block, INNER)),
            outer: hasher_of(&padded(&block, OUTER)),
        }
    }

    /// HMAC of a message.
    pub(crate) fn of(&self, message: &[u8]) -> [u8; 32]
        ensures { result ≡ hmac_under self.now message.now }
    {
        let mut inner = copied(&self.inner);
        inner.update(message);
        let mut outer = copied(&self.outer);
        outer.update(inner.finalize());
        outer.finalize()
    }

    /// HMAC of a salt and the number 1 in four bytes.
    fn of_salt(&self, salt: &[u8]) -> [u8; 32]
        ensures { result ≡ hmac_under self.now (salt.now ++ 0 ∷ 0 ∷ 0 ∷ 1 ∷ []) }
    {
        let mut inner = copied(&self.inner);
        inner.update(salt);
        inner.update([0u8, 0, 0, 1]);
        let mut outer = copied(&self.outer);
        outer.update(inner.finalize());
        outer.finalize()
    }

    /// HMAC of AuthMessage: of three texts with commas between.
    pub(crate) fn of_exchange(&self, bare: &[u8], challenge: &[u8], unproved: &[u8]) -> [u8; 32]
        ensures { result ≡ hmac_under self.now (auth_message bare.now challenge.now unproved.now) }
    {
        let mut inner = copied(&self.inner);
        inner.update(bare);
        inner.update(b",");
        inner.update(challenge);
        inner.update(b",");
        inner.update(unproved);
        let mut outer = copied(&self.outer);
        outer.update(inner.finalize());
        outer.finalize()
    }
}

/// HMAC-SHA-256 (RFC 2104) of a message under a key, each of any length. It takes no memory.
pub fn hmac(key: &[u8], message: &[u8]) -> [u8; 32]
    ensures { result ≡ spec.hmac key.now message.now }
{
    HmacKey::new(key).of(message)
}

/// Hi: so many rounds of HMAC under a password, laid over one another; 0 rounds count as 1.
#[tactic(auto, unfolding(crate::specs::Hmac::round_under, crate::specs::Hmac::rounds_under))]
pub(crate) fn hi(password: &[u8], salt: &[u8], rounds: u32) -> [u8; 32]
    ensures { result ≡ spec.hi password.now salt.now rounds }
{
    let key = HmacKey::new(password);
    let mut round = key.of_salt(salt);
    let mut sum = round;
    let more = rounds.saturating_sub(1);
    for n in 0..more {
        round = key.of(&round);
        sum = xor(&sum, &round);
    }
    sum
}
