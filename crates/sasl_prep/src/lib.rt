//! SASLprep (RFC 4013), as PostgreSQL prepares passwords for SCRAM: differently typed forms of one password give the same bytes.
//!
//! Public: `prepared`, which `user_file` calls before it salts a password; definitions of `user_file` and `credentials` cite what it
//! makes of a password (`Prepared`). Free to change: how the tables are searched.
#![tactic(auto)]

ghost use Rattle.std.specs.Prelude.{◌≡◌, IfOk, MatchOption, chars, encode_utf8_all, false, option_copied, option_map, string_bytes, true};
ghost use Rattle.std.specs.List.{list_any};
ghost use Rattle.std.specs.Str.{is_utf8};
ghost use Rattle.sasl_prep.specs.Prepared as spec;

mod tables;

use std::alloc::{AllocError, Global};
use std::str;
use tables::{
    LEFT_TO_RIGHT, MAPPED_TO_NOTHING, NON_ASCII_SPACES, PROHIBITED, RIGHT_TO_LEFT, UNASSIGNED,
};
use unicode_normalization::slice::extend_nfkc;

/// Whether one of the ranges has the character.
#[tactic(auto, unfolding(crate::specs::Prepared::is_in))]
fn is_in(ranges: &[(u32, u32)], c: char) -> bool
    ensures { result ≡ spec.is_in ranges.now c }
{
    ranges
        .iter()
        .any(|range| range.0 <= c as u32 && c as u32 <= range.1)
}

#[tactic(auto, unfolding(crate::specs::Prepared::is_non_ascii_space))]
fn is_non_ascii_space(c: char) -> bool
    ensures { result ≡ spec.is_non_ascii_space c }
{
    is_in(&NON_ASCII_SPACES, c)
}

#[tactic(auto, unfolding(crate::specs::Prepared::is_mapped_to_nothing))]
fn is_mapped_to_nothing(c: char) -> bool
    ensures { result ≡ spec.is_mapped_to_nothing c }
{
    is_in(&MAPPED_TO_NOTHING, c)
}

#[tactic(auto, unfolding(crate::specs::Prepared::is_prohibited))]
fn is_prohibited(c: char) -> bool
    ensures { result ≡ spec.is_prohibited c }
{
    is_in(&PROHIBITED, c)
}

#[tactic(auto, unfolding(crate::specs::Prepared::is_unassigned))]
fn is_unassigned(c: char) -> bool
    ensures { result ≡ spec.is_unassigned c }
{
    is_in(&UNASSIGNED, c)
}

#[tactic(auto, unfolding(crate::specs::Prepared::is_right_to_left))]
fn is_right_to_left(c: char) -> bool
    ensures { result ≡ spec.is_right_to_left c }
{
    is_in(&RIGHT_TO_LEFT, c)
}

#[tactic(auto, unfolding(crate::specs::Prepared::is_left_to_right))]
fn is_left_to_right(c: char) -> bool
    ensures { result ≡ spec.is_left_to_right c }
{
    is_in(&LEFT_TO_RIGHT, c)
}

fn to_space(c: char) -> char
    ensures { result ≡ spec.to_space c }
{
    if is_non_ascii_space(c) { ' ' } else { c }
}

fn is_kept(c: char) -> bool
    ensures { result ≡ spec.is_kept c }
{
    !is_mapped_to_nothing(c)
}

/// Prohibited (RFC 4013, section 2.3), or unassigned (section 2.5).
fn is_forbidden(c: char) -> bool
    ensures { result ≡ spec.is_forbidden c }
{
    is_prohibited(c) | is_unassigned(c)
}

fn has_forbidden(text: &[char]) -> bool
    ensures { result ≡ list_any spec.is_forbidden text.now }
{
    text.iter().any(|c| is_forbidden(*c))
}

fn has_right_to_left(text: &[char]) -> bool
    ensures { result ≡ list_any spec.is_right_to_left text.now }
{
    text.iter().any(|c| is_right_to_left(*c))
}

fn has_left_to_right(text: &[char]) -> bool
    ensures { result ≡ list_any spec.is_left_to_right text.now }
{
    text.iter().any(|c| is_left_to_right(*c))
}

fn is_some_right_to_left(c: Option<&char>) -> bool
    ensures { result ≡ spec.is_some_right_to_left (option_copied c.entry) }
{
    match c {
        Some(c) => is_right_to_left(*c),
        None => false,
    }
}

/// Whether a text has a character that is written from the right to the left, and isn't written so throughout (RFC 3454, section 6).
fn mixes_directions(text: &[char]) -> bool
    ensures { result ≡ spec.mixes_directions text.now }
{
    let begins = is_some_right_to_left(text.first());
    let ends = is_some_right_to_left(text.last());
    has_right_to_left(text) & !(begins & (ends & !has_left_to_right(text)))
}

fn is_refused(text: &[char]) -> bool
    ensures { result ≡ spec.is_refused text.now }
{
    text.is_empty() | (has_forbidden(text) | mixes_directions(text))
}

/// The characters of a text, mapped (RFC 4013, section 2.1). The only error is out of memory.
#[tactic(auto, unfolding(crate::specs::Prepared::mapped))]
fn mapped(alloc: Global, text: &str) -> Result<Vec<char>, AllocError>
    ensures { IfOk result (λ v. v.items ≡ spec.mapped (chars text.now)) }
{
    text.chars()
        .map(|c| to_space(c))
        .filter(|c| is_kept(*c))
        .collect(alloc)
}

fn encoded(alloc: Global, text: &[char]) -> Result<String, AllocError>
    ensures { IfOk result (λ t. string_bytes t ≡ encode_utf8_all text.now) }
{
    text.iter().copied().collect(alloc)
}

/// A mapped text, normalized by form KC (RFC 4013, section 2.2); None where it is refused. The only error is out of memory.
#[tactic(auto, unfolding(crate::specs::Prepared::normalized_text))]
fn normalized_text(alloc: Global, text: &[char]) -> Result<Option<String>, AllocError>
    ensures { IfOk result (λ o. option_map string_bytes o ≡ spec.normalized_text text.now) }
{
    if is_refused(text) {
        return Ok(None);
    }
    let mut normal = Vec::new(alloc);
    extend_nfkc(&mut normal, text)?;
    Ok(Some(encoded(alloc, normal.as_slice())?))
}

fn is_ascii(text: &[u8]) -> bool
    ensures { result ≡ spec.is_ascii text.now }
{
    text.iter().all(|byte| *byte < 128)
}

/// The text that bytes are in UTF-8, if they are one.
fn text_of(bytes: &[u8]) -> Option<&str>
    ensures { MatchOption result (is_utf8 bytes.now ≡ false) (λ t. (is_utf8 bytes.now ≡ true) × (t.now ≡ bytes.now)) }
{
    match str::from_utf8(bytes) {
        Ok(text) => Some(text),
        Err(_) => None,
    }
}

/// A text, prepared; as it is, where it is refused. The only error is out of memory.
fn prepared_utf8(alloc: Global, text: &str) -> Result<Vec<u8>, AllocError>
    ensures { IfOk result (λ v. v.items ≡ spec.prepared_utf8 text.now) }
{
    let mapped = mapped(alloc, text)?;
    match normalized_text(alloc, mapped.as_slice())? {
        Some(prepared) => Ok(prepared.into_bytes()),
        None => Vec::from_slice(alloc, text.as_bytes()),
    }
}

/// A password, prepared: the bytes that SCRAM salts.
///
/// Non-ASCII spaces become U+0020, characters such as the soft hyphen vanish, and what is left is normalized by form KC, which may make
/// it several times as long. A password stays as it is where it is ASCII alone (its control characters too), where it isn't UTF-8, and
/// where SASLprep refuses it: where nothing is left, or for a character that is prohibited or that Unicode 3.2 doesn't assign, or for
/// directions of writing that are mixed. It has no limit of length; each character is looked for in some 800 ranges.
///
/// The only error is out of memory.
#[tactic(auto, unfolding(crate::specs::Prepared::prepared))]
pub fn prepared(alloc: Global, password: &[u8]) -> Result<Vec<u8>, AllocError>
    ensures { IfOk result (λ v. v.items ≡ spec.prepared password.now) }
{
    if is_ascii(password) {
        return Vec::from_slice(alloc, password);
    }
    match text_of(password) {
        Some(text) => prepared_utf8(alloc, text),
        None => Vec::from_slice(alloc, password),
    }
}
