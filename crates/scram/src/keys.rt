//! The keys of a password, and what proves that a side has them (RFC 5802, section 3).
ghost use Rattle.std.specs.Prelude.{◌≡◌, bytes_eq};
ghost use Rattle.scram.specs.Hmac.{hi};
ghost use Rattle.scram.specs.Keys as spec;
ghost use Rattle.scram.specs.Keys.{auth_message};

use crate::hmac_key::{HmacKey, hi, xor};
use sha2::{Digest, Sha256};
use std::simd::prelude::*;

/// What a server keeps of a password. Whoever has it can pass as the server; and as the client too, once it listens to a login of the
/// client, or is its server in one (RFC 5802, section 9).
#[derive(Clone, Copy, Drop)]
pub struct ServerKeys {
    /// StoredKey: the SHA-256 of ClientKey.
    pub stored: [u8; 32],
    /// ServerKey, which signs the server's last message.
    pub server: [u8; 32],
}

/// What a client needs of a password to log in, and to know its server.
#[derive(Clone, Copy, Drop)]
pub struct ClientKeys {
    /// ClientKey, whose SHA-256 is the server's StoredKey.
    pub client: [u8; 32],
    /// ServerKey, as the server has it.
    pub server: [u8; 32],
}

/// Whether the keys are equal. All bytes are compared at once, with no branch on any of them.
fn is_same(left: &[u8; 32], right: &[u8; 32]) -> bool
    ensures { result ≡ bytes_eq left.now right.now }
{
    !u8x32::from_array(*left)
        .simd_ne(u8x32::from_array(*right))
        .any()
}

/// SaltedPassword: Hi of a password that was prepared, of so many rounds, where 0 counts as 1.
///
/// Each round costs two blocks of SHA-256: PostgreSQL's default of 4,096 some milliseconds, a million about a second. It takes no memory.
pub fn salted(password: &[u8], salt: &[u8], rounds: u32) -> [u8; 32]
    ensures { result ≡ hi password.now salt.now rounds }
{
    hi(password, salt, rounds)
}

fn client_key(salted: &[u8; 32]) -> [u8; 32]
    ensures { result ≡ spec.client_key salted.now }
{
    HmacKey::new(salted).of(b"Client Key")
}

fn server_key(salted: &[u8; 32]) -> [u8; 32]
    ensures { result ≡ spec.server_key salted.now }
{
    HmacKey::new(salted).of(b"Server Key")
}

impl ServerKeys {
    /// StoredKey and ServerKey of a salted password.
    pub fn of(salted: &[u8; 32]) -> ServerKeys
        ensures { result ≡ spec.server_keys salted.now }
    {
        ServerKeys {
            stored: Sha256::digest(client_key(salted)),
            server: server_key(salted),
        }
    }

    /// Whether this is the client's key: whether its SHA-256 is StoredKey. The two digests are compared whole, with no branch on any of
    /// their bytes.
    pub fn is_client_key(&self, client: &[u8; 32]) -> bool
        ensures { result ≡ spec.is_client_key self.now.stored client.now }
    {
        is_same(&Sha256::digest(client), &self.stored)
    }

    /// The client key that a client's proof reveals, where it is right ([`ServerKeys::is_client_key`]). None where the proof is wrong.
    pub fn revealed(
        &self,
        bare: &[u8],
        challenge: &[u8],
        unproved: &[u8],
        given: &[u8; 32],
    ) -> Option<[u8; 32]>
        ensures { result ≡ spec.revealed self.now.stored (auth_message bare.now challenge.now unproved.now) given.now }
    {
        let signature = HmacKey::new(&self.stored).of_exchange(bare, challenge, unproved);
        let client = xor(given, &signature);
        if self.is_client_key(&client) {
            Some(client)
        } else {
            None
        }
    }
}

impl ClientKeys {
    /// ClientKey and ServerKey of a salted password.
    pub fn of(salted: &[u8; 32]) -> ClientKeys
        ensures { result ≡ spec.client_keys salted.now }
    {
        ClientKeys {
            client: client_key(salted),
            server: server_key(salted),
        }
    }

    /// ClientProof over these parts of the exchange.
    pub fn proof(&self, bare: &[u8], challenge: &[u8], unproved: &[u8]) -> [u8; 32]
        ensures { result ≡ spec.proof self.now.client (auth_message bare.now challenge.now unproved.now) }
    {
        let stored = Sha256::digest(self.client);
        let signature = HmacKey::new(&stored).of_exchange(bare, challenge, unproved);
        xor(&self.client, &signature)
    }
}

/// ServerSignature over these parts of the exchange: by it a server proves that it has this server key.
pub fn signature(server: &[u8; 32], bare: &[u8], challenge: &[u8], unproved: &[u8]) -> [u8; 32]
    ensures { result ≡ spec.signature server.now (auth_message bare.now challenge.now unproved.now) }
{
    HmacKey::new(server).of_exchange(bare, challenge, unproved)
}
