//! What a server sends (RFC 5802, section 7).
ghost use Rattle.std.specs.Prelude.{◌≡◌, ◌+◌, ◌≤◌, ◌++◌, IfOk, IfSome, length, option_map};
ghost use Rattle.scram.specs.Messages as spec;
ghost use Rattle.scram.specs.Short.{text_of};
ghost use Rattle.scram.specs.Keys.{auth_message};
ghost use Rattle.scram.specs.declared.client_messages.TheConstants.{MAX_JOINT_NONCE};

use crate::client_messages::MAX_JOINT_NONCE;
use crate::keys::signature;
use crate::message::Message;
use crate::texts::{attribute, number, split_at_first};
use crate::verifier::{Salt, salt_in};
use base64::engine::general_purpose::STANDARD;
use sha2::{Digest, Sha256};
use std::alloc::{AllocError, Global};

/// The most rounds that a server may ask of its client: about a second of a processor. PostgreSQL's default is 4,096.
pub const MAX_ROUNDS: u32 = 1_000_000;

/// A server's challenge.
#[derive(Drop)]
pub struct Challenge<'a> {
    /// The nonce of both: the client's, and at least one byte behind it, of at most [`MAX_JOINT_NONCE`] bytes.
    pub nonce: &'a [u8],
    /// From one byte to 64.
    pub salt: Salt,
    /// From 1 to [`MAX_ROUNDS`].
    pub rounds: u32,
}

impl<'a> Challenge<'a> {
    /// Reads the challenge of a client that sent this nonce.
    ///
    /// None where it is malformed or has an extension, where its nonce doesn't begin with the client's, adds nothing to it, or is longer
    /// than [`MAX_JOINT_NONCE`], where its salt has no byte or more than 64, or isn't in the one spelling of base64, or where it asks
    /// for 0 rounds or more than [`MAX_ROUNDS`]. The only error is out of memory.
    #[tactic(auto, unfolding(crate::specs::Messages::challenge_of))]
    pub fn read(
        alloc: Global,
        own: &[u8],
        text: &'a [u8],
    ) -> Result<Option<Challenge<'a>>, AllocError>
        ensures value { IfOk result (λ o. option_map spec.challenge_view o ≡ spec.challenge_of own.now text.now) }
        ensures short { IfOk result (λ o. IfSome o (λ x. length x.nonce.now ≤ MAX_JOINT_NONCE)) }
    {
        let Some((nonce, rest)) = split_at_first(text, b',') else {
            return Ok(None);
        };
        let Some((salted, counted)) = split_at_first(rest, b',') else {
            return Ok(None);
        };
        let Some(nonce) = attribute(b'r', nonce) else {
            return Ok(None);
        };
        let Some(salted) = attribute(b's', salted) else {
            return Ok(None);
        };
        let Some(counted) = attribute(b'i', counted) else {
            return Ok(None);
        };
        let Some(salt) = salt_in(alloc, salted)? else {
            return Ok(None);
        };
        let Some(rounds) = number(counted, 1, MAX_ROUNDS) else {
            return Ok(None);
        };
        if !nonce.starts_with(own) {
            return Ok(None);
        }
        if nonce.len() <= own.len() || nonce.len() > MAX_JOINT_NONCE {
            return Ok(None);
        }
        Ok(Some(Challenge {
            nonce,
            salt,
            rounds,
        }))
    }
}

/// The challenge to a client with this nonce, to which the server adds its own; both together have at most [`MAX_JOINT_NONCE`] bytes.
pub fn challenge_message(client: &[u8], own: &[u8], salt: &Salt, rounds: u32) -> Message
    requires { length client.now + length own.now ≤ MAX_JOINT_NONCE }
    ensures value { text_of result ≡ spec.challenge (client.now ++ own.now) salt.now rounds }
    ensures short { length (text_of result) ≤ 328 }
{
    let mut message = Message::new();
    message.push(b"r=");
    message.push(client);
    message.push(own);
    message.push(b",s=");
    message.push_base64(salt.as_bytes());
    message.push(b",i=");
    message.push_number(rounds);
    message
}

/// The server's last message, by which it proves that it has this server key: `v=` and ServerSignature in base64.
pub fn final_message(server: &[u8; 32], bare: &[u8], challenge: &[u8], unproved: &[u8]) -> Message
    ensures value { text_of result ≡ spec.final server.now (auth_message bare.now challenge.now unproved.now) }
    ensures short { length (text_of result) ≤ 90 }
{
    let mut message = Message::new();
    message.push(b"v=");
    message.push_base64(&signature(server, bare, challenge, unproved));
    message
}

/// A nonce of 24 printing characters, made of a secret: as hard to tell beforehand as the secret, but for more than 144 bits of it, and
/// it doesn't tell the secret. One secret gives one nonce.
pub fn nonce(secret: &[u8]) -> [u8; 24]
    ensures { result ≡ spec.nonce_of secret.now }
{
    let digest = Sha256::digest(secret);
    let mut text = [0u8; 24];
    let Ok(_) = STANDARD.encode_slice(&digest[..18], &mut text) else {
        unreachable!();
    };
    text
}
