//! Readers of one part at the front of some bytes: each answers the part and what follows it.
ghost use Rattle.std.specs.Prelude.{◌≡◌, ℕ, ◌+◌, ◌-◌, ◌^◌, ◌<◌, ◌≤◌, ◌++◌, ◌∷◌, [], drop, length, IfErr, IfOk, IfSome, OnOk};
ghost use Rattle.frame_view.specs.Answers.{LiesAt};
ghost use Rattle.message_view.specs.declared.ViewError.TheVariants.{TooShort};
ghost use Rattle.message_view.specs.Bodies.{value as spelled_value};
ghost use Rattle.message_view.specs.Parts.{shown_value};
ghost use Rattle.message_view.specs.Reading.{field_at, int16_at, int32_at, pair_at, text_at, value_at};
ghost use Rattle.message_view.specs.Views.{Gives, LiesIfAny, shown_field, shown_pair};

use crate::ViewError;
use byteorder::{BigEndian, ByteOrder};
use memchr::memchr;

/// A text, without the zero byte that ends it.
pub(crate) fn take_text(bytes: &[u8]) -> Result<(&[u8], &[u8]), ViewError>
    ensures part { Gives (λ t. t.now) result (text_at bytes.now) }
    ensures place { IfOk result (λ x. LiesAt x.0 bytes.entry 0 × LiesAt x.1 bytes.entry (1 + length x.0.now)) }
{
    match memchr(0, bytes) {
        Some(end) => Ok((&bytes[..end], &bytes[end + 1..])),
        None => Err(ViewError::NoZero),
    }
}

/// What follows this many bytes.
#[tactic(auto, using(crate::proofs::Ints::to_end))]
pub(crate) fn bytes_after(bytes: &[u8], size: usize) -> Result<&[u8], ViewError>
    ensures enough { OnOk result (size ≤ length bytes.now) }
    ensures rest { IfOk result (λ r. r.now ≡ drop size bytes.now) }
    ensures place { IfOk result (λ r. LiesAt r bytes.entry size) }
    ensures short { IfErr result (λ e. (e ≡ TooShort) × (length bytes.now < size)) }
{
    if bytes.len() < size {
        return Err(ViewError::TooShort);
    }
    Ok(&bytes[size..])
}

/// A big-endian number of two bytes.
#[tactic(auto, using(crate::proofs::Ints::int16_at_long, crate::proofs::Ints::int16_at_short))]
pub(crate) fn take_u16(bytes: &[u8]) -> Result<(u16, &[u8]), ViewError>
    ensures part { Gives (λ n. n) result (int16_at bytes.now) }
    ensures place { IfOk result (λ x. LiesAt x.1 bytes.entry 2) }
{
    let rest = bytes_after(bytes, 2)?;
    Ok((BigEndian::read_u16(bytes), rest))
}

/// A big-endian number of four bytes.
#[tactic(auto, using(crate::proofs::Ints::int32_at_long, crate::proofs::Ints::int32_at_short))]
pub(crate) fn take_u32(bytes: &[u8]) -> Result<(u32, &[u8]), ViewError>
    ensures part { Gives (λ n. n) result (int32_at bytes.now) }
    ensures place { IfOk result (λ x. LiesAt x.1 bytes.entry 4) }
{
    let rest = bytes_after(bytes, 4)?;
    Ok((BigEndian::read_u32(bytes), rest))
}

/// The length of a null value.
const NULL: u32 = 4_294_967_295;

/// The greatest length of a value, as a signed number of four bytes.
const GREATEST_VALUE: u32 = 2_147_483_647;

/// A value with its length before it, or null.
#[tactic(auto, unfolding(crate::specs::Reading::value_at))]
pub(crate) fn take_value(bytes: &[u8]) -> Result<(Option<&[u8]>, &[u8]), ViewError>
    ensures part { Gives shown_value result (value_at bytes.now) }
    ensures place { IfOk result (λ x. LiesIfAny x.0 bytes.entry 4 × LiesAt x.1 bytes.entry (length (spelled_value (shown_value x.0)))) }
{
    let (length, rest) = take_u32(bytes)?;
    if length == NULL {
        return Ok((None, rest));
    }
    if length > GREATEST_VALUE {
        return Err(ViewError::BadLength);
    }
    let size = length as usize;
    let after = bytes_after(rest, size)?;
    Ok((Some(&rest[..size]), after))
}

/// A pair of texts, or none where an empty name ends the pairs.
#[tactic(auto, unfolding(crate::specs::Reading::pair_at))]
pub(crate) fn take_pair(bytes: &[u8]) -> Result<(Option<(&[u8], &[u8])>, &[u8]), ViewError>
    ensures part { Gives shown_pair result (pair_at bytes.now) }
    ensures place { IfOk result (λ x. IfSome x.0 (λ p. LiesAt p.0 bytes.entry 0 × LiesAt p.1 bytes.entry (1 + length p.0.now) × LiesAt x.1 bytes.entry (2 + length p.0.now + length p.1.now))) }
{
    let (name, rest) = take_text(bytes)?;
    if name.is_empty() {
        return Ok((None, rest));
    }
    let (value, rest) = take_text(rest)?;
    Ok((Some((name, value)), rest))
}

/// A field's code and its text, or none where a zero byte ends the fields.
#[tactic(auto, unfolding(crate::specs::Reading::field_at))]
pub(crate) fn take_field(bytes: &[u8]) -> Result<(Option<(u8, &[u8])>, &[u8]), ViewError>
    ensures part { Gives shown_field result (field_at bytes.now) }
    ensures place { IfOk result (λ x. IfSome x.0 (λ f. LiesAt f.1 bytes.entry 1 × LiesAt x.1 bytes.entry (2 + length f.1.now))) }
{
    let [code, rest @ ..] = bytes else {
        return Err(ViewError::TooShort);
    };
    if *code == 0 {
        return Ok((None, rest));
    }
    let (text, rest) = take_text(rest)?;
    Ok((Some((*code, text)), rest))
}
