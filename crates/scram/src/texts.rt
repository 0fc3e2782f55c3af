//! Parts of texts: what stands before and behind a mark, behind a front, numbers, base64 and attributes.
ghost use Rattle.std.specs.Prelude.{◌≡◌, ◌≤◌, IfOk, IfSome, option_map};
ghost use Rattle.scram.specs.Texts as spec;

use base64::DecodeAllocError;
use base64::engine::general_purpose::STANDARD;
use bstr::ByteSlice;
use std::alloc::{AllocError, Global};

/// What stands before the first `mark`, and what follows it; None where there is no mark.
pub(crate) fn split_at_first<'a>(text: &'a [u8], mark: u8) -> Option<(&'a [u8], &'a [u8])>
    ensures { option_map (λ p. (p.0.now, p.1.now)) result ≡ spec.split_at_first mark text.now }
{
    text.split_once_str(&[mark])
}

/// What follows this front; None where the text begins otherwise.
pub(crate) fn behind<'a>(front: &[u8], text: &'a [u8]) -> Option<&'a [u8]>
    ensures { option_map (λ t. t.now) result ≡ spec.behind front.now text.now }
{
    if text.starts_with(front) {
        Some(&text[front.len()..])
    } else {
        None
    }
}

/// The number that decimal digits spell, leading zeros allowed, from `low` to `high`; None where they spell no such number.
pub(crate) fn number(text: &[u8], low: u32, high: u32) -> Option<u32>
    ensures value { result ≡ spec.number_between low high text.now }
    ensures bounds { IfSome result (λ n. n ≤ high) }
{
    let mut total: u64 = 0;
    for digit in text {
        if !digit.is_ascii_digit() {
            return None;
        }
        total = 10 * total + u64::from(*digit - b'0');
        if total > u64::from(high) {
            return None;
        }
    }
    if text.is_empty() {
        return None;
    }
    if total < u64::from(low) {
        return None;
    }
    Some(total as u32)
}

/// What a text in base64 stands for; None where it isn't the one spelling of some bytes, padding included. The only error is out of
/// memory.
pub(crate) fn from_base64(alloc: Global, text: &[u8]) -> Result<Option<Vec<u8>>, AllocError>
    ensures { IfOk result (λ o. option_map (λ v. v.items) o ≡ spec.from_base64 text.now) }
{
    match STANDARD.decode(alloc, text) {
        Ok(bytes) => Ok(Some(bytes)),
        Err(DecodeAllocError::DecodeError(_)) => Ok(None),
        Err(DecodeAllocError::OutOfMemory) => Err(AllocError),
    }
}

/// A key of these bytes; None where they aren't 32.
fn if_key(bytes: &[u8]) -> Option<[u8; 32]>
    ensures { result ≡ spec.if_key bytes.now }
{
    if bytes.len() != 32 {
        return None;
    }
    let mut key = [0u8; 32];
    key.copy_from_slice(bytes);
    Some(key)
}

/// A key in base64; None where it isn't the one spelling of 32 bytes. The only error is out of memory.
#[tactic(auto, unfolding(crate::specs::Texts::key_in))]
pub(crate) fn key_in(alloc: Global, text: &[u8]) -> Result<Option<[u8; 32]>, AllocError>
    ensures { IfOk result (λ o. o ≡ spec.key_in text.now) }
{
    match from_base64(alloc, text)? {
        Some(bytes) => Ok(if_key(bytes.as_slice())),
        None => Ok(None),
    }
}

/// The value of an attribute: what follows its letter and an equals sign.
pub(crate) fn attribute(letter: u8, text: &[u8]) -> Option<&[u8]>
    ensures { option_map (λ t. t.now) result ≡ spec.attribute letter text.now }
{
    behind(&[letter, b'='], text)
}

/// The part before the first comma and what follows that; all of it and nothing, where there is no comma.
pub(crate) fn first_part(text: &[u8]) -> (&[u8], &[u8])
    ensures { (result.0.now, result.1.now) ≡ spec.first_part text.now }
{
    match split_at_first(text, b',') {
        Some(parts) => parts,
        None => (text, b""),
    }
}
