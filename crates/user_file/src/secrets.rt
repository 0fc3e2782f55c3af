//! Secrets, and what proves that a client knows one.
ghost use Rattle.std.specs.Prelude.{◌≡◌, IfErr, IfOk, IfSome, None, Some, bytes_eq, if◌then◌else◌, true};
ghost use Rattle.std.specs.List.{list_all};
ghost use Rattle.user_file.specs.Salts.{keys_of, salting_of};
ghost use Rattle.user_file.specs.Secrets as spec;

use crate::password::Password;
use crate::salts::{ROUNDS, Salting};
use md5::{Digest, Md5};
use sasl_prep::prepared;
use scram::keys::salted;
use scram::server_messages::MAX_ROUNDS;
use scram::{ClientKeys, Salt, ServerKeys, Verifier};
use std::alloc::{AllocError, Global};
use std::fmt;
use text_lines::Text;

/// What the user file says of a user's password. It shows as its kind alone.
pub enum Secret {
    /// The password.
    Plain(Password),
    /// The 32 lower-case hex digits of the MD5 digest of the password followed by the user's name.
    Md5([u8; 32]),
    /// What PostgreSQL keeps of the password (`pg_authid.rolpassword`), by which a proof of SCRAM is judged, or a password.
    Scram(Verifier),
    /// No secret: it accepts nothing.
    Unusable,
}

impl Drop for Secret {
    fn drop(self) {
        match self {
            Secret::Plain(_first) => {}
            Secret::Md5(_first) => {}
            Secret::Scram(_first) => {}
            Secret::Unusable => {}
        }
    }
}

impl fmt::Debug for Secret {
    fn fmt<W: fmt::Write>(&self, f: &mut fmt::Formatter<W>) -> fmt::Result {
        match self {
            Secret::Plain(_) => f.write_str("Plain(..)"),
            Secret::Md5(_) => f.write_str("Md5(..)"),
            Secret::Scram(_) => f.write_str("Scram(..)"),
            Secret::Unusable => f.write_str("Unusable"),
        }
    }
}

/// The hex digits of the MD5 digest of the password followed by the user's name.
fn digits(password: &[u8], user: &[u8]) -> [u8; 32]
    ensures { result ≡ spec.digits password.now user.now }
{
    let mut digest = Md5::new();
    digest.update(password);
    digest.update(user);
    let mut text = [0u8; 32];
    let _ = hex::encode_to_slice(digest.finalize(), &mut text);
    text
}

/// Whether the texts are equal. Every byte that both have is compared, whatever the others were, so the time that it takes
/// hangs on the lengths alone.
fn is_same(left: &[u8], right: &[u8]) -> bool
    ensures { result ≡ bytes_eq left.now right.now }
{
    let mut same = true;
    for i in 0..left.len().min(right.len()) {
        same = same & (left[i] == right[i]);
    }
    same & (left.len() == right.len())
}

fn is_lower_hex(byte: u8) -> bool
    ensures { result ≡ spec.is_lower_hex byte }
{
    (byte >= b'0' && byte <= b'9') || (byte >= b'a' && byte <= b'f')
}

fn is_all_lower_hex(text: &[u8]) -> bool
    ensures { result ≡ list_all spec.is_lower_hex text.now }
{
    text.iter().all(|digit| is_lower_hex(*digit))
}

/// The digits of an MD5 secret's text. None where it is the text of a plain one.
fn md5_digits(text: &[u8]) -> Option<[u8; 32]>
    ensures { result ≡ spec.md5_digits text.now }
{
    if text.len() != 35 || !text.starts_with(b"md5") {
        return None;
    }
    let digits = &text[3..];
    if !is_all_lower_hex(digits) {
        return None;
    }
    let mut copy = [0u8; 32];
    copy.copy_from_slice(digits);
    Some(copy)
}

/// Whether a text that is neither a digest nor a verifier is a password.
fn is_password(text: &[u8]) -> bool
    ensures { result ≡ spec.is_password text.now }
{
    if text.is_empty() {
        return false;
    }
    !text.starts_with(b"SCRAM-SHA-")
}

/// The right answer to an MD5 question with this salt, of who has these digits.
fn salted_answer(salt: [u8; 4], own: [u8; 32]) -> [u8; 35]
    ensures { result ≡ spec.salted_answer salt own }
{
    let mut digest = Md5::new();
    digest.update(own);
    digest.update(salt);
    let mut text = *b"md500000000000000000000000000000000";
    let _ = hex::encode_to_slice(digest.finalize(), &mut text[3..]);
    text
}

/// The client key of a password, where it is the verifier's. The only error is out of memory.
fn verified(
    alloc: Global,
    verifier: &Verifier,
    password: &[u8],
) -> Result<Option<[u8; 32]>, AllocError>
    ensures { IfOk result (λ k. k ≡ (if spec.is_verified verifier.now password.now then Some (spec.client_key_by verifier.now password.now) else None)) }
{
    if verifier.rounds > MAX_ROUNDS {
        return Ok(None);
    }
    let text = prepared(alloc, password)?;
    let salted = salted(text.as_slice(), verifier.salt.as_bytes(), verifier.rounds);
    let ClientKeys { client, server: _ } = ClientKeys::of(&salted);
    if verifier.keys.is_client_key(&client) {
        return Ok(Some(client));
    }
    Ok(None)
}

impl Secret {
    /// The secret of a text: `md5` and 32 lower-case hex digits are an MD5 secret, a verifier ([`Verifier::read`]) is a SCRAM secret; no
    /// bytes, and another text that begins with `SCRAM-SHA-`, are no secret; every other text is a plain one. The only error is out of
    /// memory.
    pub fn read(alloc: Global, text: &[u8]) -> Result<Secret, AllocError>
        ensures { IfOk result (λ s. s ≡ spec.secret_of text.now) }
    {
        if let Some(digits) = md5_digits(text) {
            return Ok(Secret::Md5(digits));
        }
        if let Some(verifier) = Verifier::read(alloc, text)? {
            return Ok(Secret::Scram(verifier));
        }
        if !is_password(text) {
            return Ok(Secret::Unusable);
        }
        Ok(Secret::Plain(Password::new(alloc, Text::copy(alloc, text)?)))
    }

    /// The digits that stand for the password of this user. A verifier has none.
    fn stored(&self, user: &[u8]) -> Option<[u8; 32]>
        ensures { result ≡ spec.stored self.now user.now }
    {
        match self {
            Secret::Plain(password) => Some(digits(password.as_bytes(), user)),
            Secret::Md5(digits) => Some(*digits),
            Secret::Scram(_) | Secret::Unusable => None,
        }
    }

    /// Whether it has an answer to MD5 questions.
    pub fn answers_md5(&self) -> bool
        ensures { result ≡ spec.answers_md5 self.now }
    {
        match self {
            Secret::Plain(_) | Secret::Md5(_) => true,
            Secret::Scram(_) | Secret::Unusable => false,
        }
    }

    /// The right answer of this user to an MD5 question with this salt (PostgreSQL manual, "Authentication"): the text `md5` and the
    /// hex digits of the MD5 digest of the stored digits followed by the salt; none of a verifier. It takes no memory.
    pub fn answer(&self, user: &[u8], salt: [u8; 4]) -> Option<[u8; 35]>
        ensures { result ≡ spec.answer self.now user.now salt }
    {
        let own = self.stored(user)?;
        Some(salted_answer(salt, own))
    }

    /// Whether a password that came as it is, is this user's: equal to a plain secret, its digits equal to an MD5 secret, or its keys to
    /// a verifier's, which takes the verifier's rounds; one of more than 1,000,000 rounds accepts none.
    ///
    /// The comparison goes through every byte that both texts have, whatever differs, so its time tells nothing of where the first
    /// wrong byte stands. The only error is out of memory, and comes of a verifier alone.
    pub fn accepts_plain(
        &self,
        alloc: Global,
        user: &[u8],
        password: &[u8],
    ) -> Result<bool, AllocError>
        ensures value { IfOk result (λ b. b ≡ spec.accepts_plain self.now user.now password.now) }
        ensures memory { IfErr result (λ e. spec.is_verifier self.now ≡ true) }
    {
        match self {
            Secret::Plain(own) => Ok(is_same(password, own.as_bytes())),
            Secret::Md5(own) => Ok(is_same(digits(password, user).as_slice(), own.as_slice())),
            Secret::Scram(_) => Ok(self.revealed_by(alloc, password)?.is_some()),
            Secret::Unusable => Ok(false),
        }
    }

    /// The client key that a password reveals, where it is this verifier's: by it a client is let in at every server that has the same
    /// verifier (RFC 5802, section 3). It takes the verifier's rounds; one of more than 1,000,000 accepts no password. None of a secret that
    /// is no verifier. The only error is out of memory, and comes of a verifier alone.
    pub fn revealed_by(
        &self,
        alloc: Global,
        password: &[u8],
    ) -> Result<Option<[u8; 32]>, AllocError>
        ensures value { IfOk result (λ k. k ≡ spec.revealed_by self.now password.now) }
        ensures memory { IfErr result (λ e. spec.is_verifier self.now ≡ true) }
    {
        match self {
            Secret::Scram(verifier) => verified(alloc, verifier, password),
            Secret::Plain(_) | Secret::Md5(_) | Secret::Unusable => Ok(None),
        }
    }

    /// Whether it is the right answer of this user to an MD5 question with this salt.
    ///
    /// It takes no memory, and compares as [`Secret::accepts_plain`] does.
    pub fn accepts_md5(&self, user: &[u8], salt: [u8; 4], answer: &[u8]) -> bool
        ensures { result ≡ spec.accepts_md5 self.now user.now salt answer.now }
    {
        match self.answer(user, salt) {
            Some(right) => is_same(answer, right.as_slice()),
            None => false,
        }
    }

    /// Whether it is a verifier.
    pub fn is_verifier(&self) -> bool
        ensures { result ≡ spec.is_verifier self.now }
    {
        matches!(self, Secret::Scram(_))
    }

    /// How the password is salted: as a verifier says, else by this salt.
    pub(crate) fn salting(&self, salt: Salt) -> Salting
        ensures { result ≡ salting_of self.now salt }
    {
        match self {
            Secret::Scram(verifier) => Salting {
                salt: Salt::new(verifier.salt.as_bytes()),
                rounds: verifier.rounds,
            },
            Secret::Plain(_) | Secret::Md5(_) | Secret::Unusable => Salting {
                salt,
                rounds: ROUNDS,
            },
        }
    }

    /// The keys that a proof has to fit, of a password that is salted by this salt where no verifier says how. The only error is out of
    /// memory.
    pub(crate) fn server_keys(
        &self,
        alloc: Global,
        salt: &Salt,
    ) -> Result<Option<ServerKeys>, AllocError>
        ensures { IfOk result (λ k. k ≡ keys_of self.now salt.now) }
    {
        match self {
            Secret::Plain(password) => Ok(Some(password.server_keys(alloc, salt, ROUNDS)?)),
            Secret::Scram(verifier) => Ok(Some(verifier.keys)),
            Secret::Md5(_) | Secret::Unusable => Ok(None),
        }
    }

    /// Whether there is nothing to derive of it that isn't kept.
    pub(crate) fn is_derived(&self) -> bool {
        match self {
            Secret::Plain(password) => password.is_derived(),
            Secret::Md5(_) | Secret::Scram(_) | Secret::Unusable => true,
        }
    }

    /// Takes over the keys that were derived of an equal plain secret whose name has the same salt.
    pub(crate) fn take_over(&self, alloc: Global, earlier: &Secret) {
        if let (Secret::Plain(own), Secret::Plain(before)) = (self, earlier) {
            own.take_over(alloc, before);
        }
    }
}
