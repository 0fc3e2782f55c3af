//! A secret, with what its client revealed and the nonce of one start.
ghost use Rattle.std.specs.Prelude.{◌≡◌, IfOk, IfSome, Some, length, true};
ghost use Rattle.user_file.specs.declared.secrets.Secret.TheVariants.{Plain};
ghost use Rattle.message_view.specs.Parts.{Puts};
ghost use Rattle.credentials.specs.Credentials.{answers_scram, credential_of, first_response, start_nonce};
ghost use Rattle.credentials.specs.Exchanges.{exchange_by_key, exchange_of, exchange_over};

use crate::exchange::Exchange;
use crate::made::Made;
use bytes::BytesMut;
use frame_view::client::PASSWORD_MESSAGE;
use message_view::{KeyWord, put_message};
use once_cell::race::OnceBox;
use scram::client_messages::first_message;
use scram::server_messages::{Challenge, nonce};
use scram::{ClientKeys, Message, Verifier};
use std::alloc::{AllocError, Global};
use std::marker::Model;
use user_file::{Password, Secret};

/// The secret by which a user is let in at a server, the client key that its client revealed of a verifier, and the nonce by which it asks
/// for that by SCRAM. A start has a nonce of its own, and comes to one challenge: what a password made of that is kept, which contracts
/// don't see.
pub struct Credential<'a> {
    secret: &'a Secret,
    revealed: Option<[u8; 32]>,
    nonce: [u8; 24],
    made: OnceBox<Made>,
}

impl<'a> Drop for Credential<'a> {
    fn drop(self) {
        let Credential {
            secret: _,
            revealed: _,
            nonce: _,
            made: _,
        } = self;
    }
}

impl<'a> Model for Credential<'a> {
    ghost use Rattle.credentials.specs.Credentials.{CredentialOf, credential_of};

    ghost Value = { CredentialOf };

    ghost view = { λ c. credential_of c.secret.now c.revealed c.nonce };
}

/// The nonce of the start of a link: 24 characters, which nobody can guess who doesn't know the key word. A client may start more than one
/// link, so the link's number is in it.
fn nonce_of(word: &KeyWord, number: u64) -> [u8; 24]
    ensures { result ≡ start_nonce word.now number }
{
    let mut seed = Message::new();
    seed.push(b"link");
    seed.push(&word.pid.to_be_bytes());
    seed.push(&word.secret.to_be_bytes());
    seed.push(&word.salt);
    seed.push(&number.to_be_bytes());
    nonce(seed.as_bytes())
}

impl<'a> Credential<'a> {
    /// The credential of a user with this secret, of which its client revealed this client key, for the start of a link of this number, for
    /// a client with this key word.
    pub fn new(
        alloc: Global,
        secret: &'a Secret,
        revealed: Option<[u8; 32]>,
        word: &KeyWord,
        number: u64,
    ) -> Credential<'a>
        ensures { result ≡ credential_of secret.now revealed (start_nonce word.now number) }
    {
        Credential {
            secret,
            revealed,
            nonce: nonce_of(word, number),
            made: OnceBox::new(alloc),
        }
    }

    pub fn secret(&self) -> &'a Secret
        ensures { result.now ≡ self.now.secret }
    {
        self.secret
    }

    /// Whether it answers a server that asks for SCRAM: by a password, or by the client key that belongs to a verifier. Neither a digest nor
    /// a verifier alone keeps what SCRAM wants of a client.
    pub fn answers_scram(&self) -> bool
        ensures { result ≡ answers_scram self.now }
    {
        match self.secret {
            Secret::Plain(_) => true,
            Secret::Scram(_) => self.revealed.is_some(),
            Secret::Md5(_) | Secret::Unusable => false,
        }
    }

    /// Puts the SASLInitialResponse, which names the mechanism SCRAM-SHA-256 and has the client's first message.
    ///
    /// `AllocError` where a growth is refused; then `out` is unchanged.
    pub fn put_first(&self, out: &mut BytesMut) -> Result<(), AllocError>
        ensures { Puts result out.old out.new (first_response self.now) }
    {
        let first = first_message(&self.nonce);
        let text = first.as_bytes();
        let length = (text.len() as u32).to_be_bytes();
        put_message(out, PASSWORD_MESSAGE, &[b"SCRAM-SHA-256\0", &length, text])
    }

    /// What was made of this challenge, if it was kept.
    #[tactic(auto, unfolding(crate::specs::Exchanges::exchange_of))]
    fn made(&self, password: &[u8], challenge: &[u8]) -> Option<Exchange>
        ensures { IfSome result (λ e. exchange_over (Plain password.now) self.now.revealed self.now.nonce challenge.now ≡ Some e) }
    {
        self.made
            .get()?
            .exchange_of(password, &self.nonce, challenge)
    }

    /// What a password makes of a challenge. It is made at the first call, and kept.
    #[tactic(auto, unfolding(crate::specs::Exchanges::exchange_of))]
    fn by_password(
        &self,
        alloc: Global,
        password: &Password,
        challenge: &[u8],
    ) -> Result<Option<Exchange>, AllocError>
        ensures { IfOk result (λ o. o ≡ exchange_over (Plain password.now) self.now.revealed self.now.nonce challenge.now) }
    {
        if let Some(made) = self.made(password.as_bytes(), challenge) {
            return Ok(Some(made));
        }
        let Some(read) = Challenge::read(alloc, &self.nonce, challenge)? else {
            return Ok(None);
        };
        let keys = ClientKeys::of(&password.salted(alloc, &read.salt, read.rounds)?);
        let exchange = Exchange::of(&keys, &self.nonce, challenge, read.nonce);
        if let Ok(made) = Made::new(
            alloc,
            password.as_bytes(),
            &self.nonce,
            challenge,
            &exchange,
        ) {
            let _ = self.made.set(made);
        }
        Ok(Some(exchange))
    }

    /// What a verifier and the client key that belongs to it make of the challenge of a server with the same verifier.
    fn by_verifier(
        &self,
        alloc: Global,
        verifier: &Verifier,
        challenge: &[u8],
    ) -> Result<Option<Exchange>, AllocError>
        ensures { IfOk result (λ o. o ≡ exchange_by_key verifier.now self.now.revealed self.now.nonce challenge.now) }
    {
        let Some(client) = self.revealed else {
            return Ok(None);
        };
        let Some(read) = Challenge::read(alloc, &self.nonce, challenge)? else {
            return Ok(None);
        };
        if read.salt.as_bytes() != verifier.salt.as_bytes() || read.rounds != verifier.rounds {
            return Ok(None);
        }
        let keys = ClientKeys {
            client,
            server: verifier.keys.server,
        };
        Ok(Some(Exchange::of(&keys, &self.nonce, challenge, read.nonce)))
    }

    /// What it makes of a server's challenge, by its text; none where it answers no SCRAM, where the text is no challenge to its nonce
    /// ([`Challenge::read`]), or where the server's verifier is salted otherwise than its own. The only error is out of memory.
    #[tactic(auto, unfolding(crate::specs::Exchanges::exchange_of))]
    pub fn exchange(&self, alloc: Global, challenge: &[u8]) -> Result<Option<Exchange>, AllocError>
        ensures { IfOk result (λ o. o ≡ exchange_of self.now challenge.now) }
    {
        match self.secret {
            Secret::Plain(password) => self.by_password(alloc, password, challenge),
            Secret::Scram(verifier) => self.by_verifier(alloc, verifier, challenge),
            Secret::Md5(_) | Secret::Unusable => Ok(None),
        }
    }
}
