//! What a client sends (RFC 5802, section 7).
ghost use Rattle.std.specs.Prelude.{◌≡◌, ◌≤◌, ◌++◌, IfOk, IfSome, codes, length, option_map};
ghost use Rattle.std.specs.List.{list_all};
ghost use Rattle.scram.specs.Messages as spec;
ghost use Rattle.scram.specs.Short.{text_of};
ghost use Rattle.scram.specs.declared.client_messages.TheConstants.{MAX_JOINT_NONCE, MAX_NONCE};

use crate::message::Message;
use crate::texts::{attribute, behind, first_part, key_in};
use std::alloc::{AllocError, Global};

/// The greatest length of a nonce that a client may send, in bytes. Those of libpq have 24, those of other libraries up to 36.
pub const MAX_NONCE: usize = 128;

/// The greatest length of the nonce of both, in bytes: the client's, and the server's behind it.
pub const MAX_JOINT_NONCE: usize = 192;

/// A client's first message, in the parts of it that count.
#[derive(Clone, Copy, Drop)]
pub struct First<'a> {
    /// The GS2 header: `n,,`, or `y,,` of a client that could bind the channel and takes it that the server can't.
    pub header: &'a [u8],
    /// What follows it: `bare`.
    pub bare: &'a [u8],
    /// The client's nonce: from 1 to [`MAX_NONCE`] printing characters other than a comma.
    pub nonce: &'a [u8],
}

/// A client's last message.
#[derive(Clone, Copy, Drop)]
pub struct Last<'a> {
    /// What stands before its proof: `unproved`.
    pub unproved: &'a [u8],
    /// ClientProof.
    pub proof: [u8; 32],
}

fn is_printing(byte: u8) -> bool
    ensures { result ≡ spec.is_printing byte }
{
    33 <= byte && byte <= 126
}

fn are_printing(text: &[u8]) -> bool
    ensures { result ≡ list_all spec.is_printing text.now }
{
    text.iter().all(|byte| is_printing(*byte))
}

fn is_nonce(text: &[u8]) -> bool
    ensures { result ≡ spec.is_nonce text.now }
{
    !text.is_empty() && (text.len() <= MAX_NONCE && are_printing(text))
}

fn is_header(text: &[u8]) -> bool
    ensures { result ≡ spec.is_header text.now }
{
    text == b"n,,".as_slice() || text == b"y,,".as_slice()
}

impl<'a> First<'a> {
    /// Reads a client's first message. The name in it isn't looked at, since the StartupMessage has told it; nor is what follows the
    /// nonce.
    ///
    /// None where it is malformed, wants to bind the channel (`p=`) or to log in as somebody else, has an extension that must be
    /// understood (`m=`), or a nonce of no byte, of more than [`MAX_NONCE`], or of other than printing characters.
    #[tactic(auto, unfolding(crate::specs::Messages::first_of))]
    pub fn read(text: &'a [u8]) -> Option<First<'a>>
        ensures value { option_map spec.first_view result ≡ spec.first_of text.now }
        ensures short { IfSome result (λ x. length x.nonce.now ≤ MAX_NONCE) }
        ensures header { IfSome result (λ x. length x.header.now ≤ 3) }
    {
        if text.len() < 3 {
            return None;
        }
        let (header, bare) = text.split_at(3);
        let (name, rest) = first_part(bare);
        let _ = attribute(b'n', name)?;
        let (nonce, _) = first_part(rest);
        let nonce = attribute(b'r', nonce)?;
        if !is_header(header) {
            return None;
        }
        if !is_nonce(nonce) {
            return None;
        }
        Some(First {
            header,
            bare,
            nonce,
        })
    }
}

/// What stands before the proof in a client's last message whose first one had this header, and then these bytes.
fn unproved(header: &[u8], nonce: &[u8], more: &[u8]) -> Message
    requires header { length header.now ≤ 64 }
    requires nonce { length nonce.now ≤ MAX_JOINT_NONCE }
    requires more { length more.now ≤ 3 }
    ensures value { text_of result ≡ spec.unproved header.now nonce.now ++ more.now }
    ensures short { length (text_of result) ≤ 288 }
{
    let mut message = Message::new();
    message.push(b"c=");
    message.push_base64(header);
    message.push(b",r=");
    message.push(nonce);
    message.push(more);
    message
}

/// Whether a text is what stands before the proof, or goes on from it by further attributes.
fn goes_on(header: &[u8], nonce: &[u8], text: &[u8]) -> bool
    requires header { length header.now ≤ 64 }
    requires nonce { length nonce.now ≤ MAX_JOINT_NONCE }
    ensures { result ≡ spec.goes_on (spec.unproved header.now nonce.now) text.now }
{
    text == unproved(header, nonce, b"").as_bytes()
        || text.starts_with(unproved(header, nonce, b",").as_bytes())
}

/// The proof at the end of a client's last message; None where another text stands there. The only error is out of memory.
fn proof_in(alloc: Global, tail: &[u8]) -> Result<Option<[u8; 32]>, AllocError>
    ensures { IfOk result (λ o. o ≡ spec.proof_in tail.now) }
{
    match behind(b",p=", tail) {
        Some(text) => key_in(alloc, text),
        None => Ok(None),
    }
}

impl<'a> Last<'a> {
    /// Reads the last message of a client whose first one had this header, of at most 64 bytes, where the nonce of both is this, of at
    /// most [`MAX_JOINT_NONCE`].
    ///
    /// None where it is malformed: where its channel binding (`c=`) isn't that header in base64, its nonce is another, its proof isn't
    /// its last attribute or isn't 32 bytes in base64. Whether the proof is right [`crate::ServerKeys::revealed`] tells. The only error
    /// is out of memory.
    #[tactic(auto, unfolding(crate::specs::Messages::last_of))]
    pub fn read(
        alloc: Global,
        header: &[u8],
        nonce: &[u8],
        text: &'a [u8],
    ) -> Result<Option<Last<'a>>, AllocError>
        requires header { length header.now ≤ 64 }
        requires nonce { length nonce.now ≤ MAX_JOINT_NONCE }
        ensures { IfOk result (λ o. option_map spec.last_view o ≡ spec.last_of header.now nonce.now text.now) }
    {
        let (front, tail) = text.split_at(text.len().saturating_sub(47));
        let Some(proof) = proof_in(alloc, tail)? else {
            return Ok(None);
        };
        if !goes_on(header, nonce, front) {
            return Ok(None);
        }
        Ok(Some(Last {
            unproved: front,
            proof,
        }))
    }
}

/// The first message of a client with this nonce, of at most [`MAX_NONCE`] bytes: it binds no channel, and gives no name, since the
/// StartupMessage has told it. All but its first three bytes are `bare`.
pub fn first_message(nonce: &[u8]) -> Message
    requires { length nonce.now ≤ MAX_NONCE }
    ensures { text_of result ≡ spec.first nonce.now }
{
    let mut message = Message::new();
    message.push(b"n,,n=,r=");
    message.push(nonce);
    message
}

/// The last message of such a client without its proof, where the nonce of both is this, of at most [`MAX_JOINT_NONCE`] bytes:
/// `unproved`.
pub fn last_unproved(nonce: &[u8]) -> Message
    requires { length nonce.now ≤ MAX_JOINT_NONCE }
    ensures value { text_of result ≡ spec.unproved (codes "n,,") nonce.now }
    ensures short { length (text_of result) ≤ 288 }
{
    unproved(b"n,,", nonce, b"")
}

/// The last message of such a client, with its proof.
pub fn last_message(nonce: &[u8], proof: &[u8; 32]) -> Message
    requires { length nonce.now ≤ MAX_JOINT_NONCE }
    ensures { text_of result ≡ spec.last nonce.now proof.now }
{
    let mut message = unproved(b"n,,", nonce, b",p=");
    message.push_base64(proof);
    message
}
