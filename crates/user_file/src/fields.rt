//! The quoted fields of a line.
ghost use Rattle.std.specs.Prelude.{◌≡◌, ◌∷◌, [], IfOk, MatchOption, bytes_eq, option_map};
ghost use Rattle.std.specs.Iterator.{YieldsFirst, item_count};
ghost use Rattle.user_file.specs.Fields as spec;

use bstr::ByteSlice;
use std::alloc::{AllocError, Global};

/// The text up to the closing quote, and what follows that quote. None where there is none.
#[tactic(auto, unfolding(crate::specs::Fields::quoted))]
fn quoted(text: &[u8]) -> Option<(&[u8], &[u8])>
    ensures { option_map (λ p. (p.0.now, p.1.now)) result ≡ spec.quoted text.now }
{
    let mut at = 0;
    while at < text.len() {
        if text[at] == b'"' {
            let next = at + 1;
            if next == text.len() || text[next] != b'"' {
                return Some((&text[..at], &text[next..]));
            }
            at += 2;
        } else {
            at += 1;
        }
    }
    None
}

/// The first field of a text that begins with a quote, and what follows the field.
fn field(text: &[u8]) -> Option<(&[u8], &[u8])>
    ensures { option_map (λ p. (p.0.now, p.1.now)) result ≡ spec.field text.now }
{
    if text.is_empty() || text[0] != b'"' {
        return None;
    }
    quoted(&text[1..])
}

/// The two fields of a line, quotes still doubled. The second is parted from the first by spaces or tabs.
#[tactic(auto, unfolding(crate::specs::Fields::fields))]
pub(crate) fn fields(line: &[u8]) -> Option<(&[u8], &[u8])>
    ensures { option_map (λ p. (p.0.now, p.1.now)) result ≡ spec.fields line.now }
{
    let (name, rest) = field(line)?;
    let second = rest.trim_start_with(|c| c == ' ' || c == '\t');
    if name.is_empty() || second.len() == rest.len() {
        return None;
    }
    let (secret, _) = field(second)?;
    Some((name, secret))
}

/// The bytes of a field's text: each doubled quote is one.
#[derive(Clone, Copy, Drop)]
pub(crate) struct FieldBytes<'a> {
    rest: &'a [u8],
}

impl<'a> Iterator for FieldBytes<'a> {
    type Item = u8;

    ghost next_gives = { YieldsFirst spec.bytes_left };

    ghost remaining = { item_count spec.bytes_left };

    fn next(&mut self) -> Option<u8> {
        let (byte, after) = first_byte(self.rest)?;
        self.rest = after;
        Some(byte)
    }
}

/// The first byte of a field's text, and what follows it in the field.
fn first_byte(field: &[u8]) -> Option<(u8, &[u8])>
    ensures { MatchOption result (spec.unquoted field.now ≡ []) (λ p. spec.unquoted field.now ≡ p.0 ∷ spec.unquoted p.1.now) }
{
    let [byte, tail @ ..] = field else {
        return None;
    };
    if *byte != b'"' {
        return Some((*byte, tail));
    }
    match tail {
        [_, after @ ..] => Some((*byte, after)),
        [] => Some((*byte, tail)),
    }
}

/// A field's text. The only error is out of memory.
pub(crate) fn unquoted(alloc: Global, field: &[u8]) -> Result<Vec<u8>, AllocError>
    ensures { IfOk result (λ v. v.items ≡ spec.unquoted field.now) }
{
    FieldBytes { rest: field }.collect(alloc)
}

/// Whether a field's text is this one. It takes no memory.
pub(crate) fn is_text_of(text: &[u8], field: &[u8]) -> bool
    ensures { result ≡ bytes_eq (spec.unquoted field.now) text.now }
{
    let mut rest = text;
    for byte in (FieldBytes { rest: field }) {
        match rest {
            [first, tail @ ..] if *first == byte => rest = tail,
            _ => return false,
        }
    }
    rest.is_empty()
}
