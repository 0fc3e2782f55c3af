//! Values of settings: numbers, addresses and parts of lines.
ghost use Rattle.std.specs.Prelude.{◌≡◌, ◌<◌, ◌≤◌, ◌^◌, option_copied, option_map, IfSome};
ghost use Rattle.ini_config.specs.Values as spec;

use bstr::ByteSlice;

/// What stands before the first `mark`, and what follows it.
pub(crate) fn split_at_first<'a>(text: &'a [u8], mark: u8) -> Option<(&'a [u8], &'a [u8])>
    ensures { option_map (λ p. (p.0.now, p.1.now)) result ≡ spec.split_at_first mark text.now }
{
    text.split_once_str(&[mark])
}

/// A number of decimal digits, leading zeros allowed, within bounds.
pub(crate) fn number(text: &[u8], low: u32, high: u32) -> Option<u32>
    ensures value { result ≡ spec.number_between low high text.now }
    ensures bounds { IfSome result (λ n. n ≤ high) }
{
    let mut total: u64 = 0;
    for digit in text {
        if !digit.is_ascii_digit() {
            return None;
        }
        total = 10 * total + u64::from(*digit - b'0');
        if total > u64::from(high) {
            return None;
        }
    }
    if text.is_empty() {
        return None;
    }
    if total < u64::from(low) {
        return None;
    }
    Some(total as u32)
}

/// A TCP port.
pub(crate) fn port(text: &[u8]) -> Option<u16>
    ensures { result ≡ spec.number_between 1 65535 text.now }
{
    Some(number(text, 1, 65535)? as u16)
}

/// One of the four numbers of an address.
#[tactic(auto, unfolding(crate::specs::Values::octet))]
fn octet(text: &[u8]) -> Option<u8>
    ensures { result ≡ spec.octet text.now }
{
    if text.len() > 1 && text[0] == b'0' {
        return None;
    }
    Some(number(text, 0, 255)? as u8)
}

/// An IPv4 address: four numbers from 0 to 255 without leading zeros, parted by dots.
#[tactic(auto, unfolding(crate::specs::Values::dotted))]
pub(crate) fn dotted(text: &[u8]) -> Option<[u8; 4]>
    ensures { result ≡ spec.dotted text.now }
{
    let (first, rest) = split_at_first(text, b'.')?;
    let (second, rest) = split_at_first(rest, b'.')?;
    let (third, fourth) = split_at_first(rest, b'.')?;
    Some([octet(first)?, octet(second)?, octet(third)?, octet(fourth)?])
}

/// An octal digit.
fn octal(digit: u8) -> Option<u32>
    ensures value { result ≡ spec.octal digit }
    ensures bound { IfSome result (λ n. n ≤ 7) }
{
    if b'0' <= digit && digit <= b'7' {
        Some(u32::from(digit - b'0'))
    } else {
        None
    }
}

/// Three octal digits.
fn octals(first: u8, second: u8, third: u8) -> Option<u32>
    ensures { result ≡ spec.octals first second third }
{
    Some(64 * octal(first)? + 8 * octal(second)? + octal(third)?)
}

/// The rights of a file: three octal digits, for its owner, its group and others. A zero may stand before them.
pub(crate) fn mode(text: &[u8]) -> Option<u32>
    ensures { result ≡ spec.mode text.now }
{
    match text {
        [first, second, third] => octals(*first, *second, *third),
        [b'0', first, second, third] => octals(*first, *second, *third),
        _ => None,
    }
}
