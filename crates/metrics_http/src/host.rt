//! The values of a Host field, `host [":" port]`.
ghost use Rattle.std.specs.Prelude.{◌≡◌, ◌≤◌, ◌↔◌, false, length, IsTrue};
ghost use Rattle.std.specs.Char.{is_ascii_digit};
ghost use Rattle.std.specs.List.{list_all};
ghost use Rattle.metrics_http.specs.Hosts as spec;

use std::net::{Ipv4Addr, Ipv6Addr};

/// Whether both are the same, without regard to ASCII case.
pub(crate) fn is_same_word(text: &[u8], word: &[u8]) -> bool
    ensures { result ≡ spec.same_word text.now word.now }
{
    text.eq_ignore_ascii_case(word)
}

/// How many bytes stand before the first that is this one, or how many there are.
fn length_before(mark: u8, text: &[u8]) -> usize
    ensures value { result ≡ spec.length_before mark text.now }
    ensures bound { result ≤ length text.now }
{
    text.iter().take_while(|b| **b != mark).count()
}

fn is_digit(b: u8) -> bool
    ensures { result ≡ is_ascii_digit b }
{
    b.is_ascii_digit()
}

fn are_digits(text: &[u8]) -> bool
    ensures { result ≡ list_all is_ascii_digit text.now }
{
    text.iter().all(|b| is_digit(*b))
}

/// Whether nothing is there, or a colon and digits.
fn is_port(text: &[u8]) -> bool
    ensures { result ≡ spec.is_port text.now }
{
    let [first, digits @ ..] = text else {
        return true;
    };
    if *first != b':' {
        return false;
    }
    are_digits(digits)
}

/// Whether this is `localhost`, or an address of IPv4.
fn is_name_here(host: &[u8]) -> bool
    ensures { IsTrue result ↔ spec.IsNameHere host.now }
{
    if is_same_word(host, b"localhost") {
        return true;
    }
    match Ipv4Addr::parse_ascii(host) {
        Ok(_) => true,
        Err(_) => false,
    }
}

/// Whether a byte is there, and a port behind it.
fn is_closed(text: &[u8]) -> bool
    ensures { result ≡ spec.is_closed text.now }
{
    let [_, port @ ..] = text else {
        return false;
    };
    is_port(port)
}

/// Whether an address of IPv6, a `]` and a port follow a `[`.
fn is_bracketed_address(rest: &[u8]) -> bool
    ensures { IsTrue result ↔ spec.IsBracketedAddress rest.now }
{
    let (address, closed) = rest.split_at(length_before(b']', rest));
    if !is_closed(closed) {
        return false;
    }
    match Ipv6Addr::parse_ascii(address) {
        Ok(_) => true,
        Err(_) => false,
    }
}

fn is_bracketed(value: &[u8]) -> bool
    ensures { result ≡ spec.is_bracketed value.now }
{
    !value.is_empty() && value[0] == b'['
}

/// Whether `localhost` or an address of IPv4 is there, and a port.
fn is_named_here(value: &[u8]) -> bool
    ensures { IsTrue result ↔ spec.NamesAt false value.now }
{
    let (host, port) = value.split_at(length_before(b':', value));
    if !is_port(port) {
        return false;
    }
    is_name_here(host)
}

/// Whether a Host of this value names this machine, or an address.
pub(crate) fn is_here(value: &[u8]) -> bool
    ensures { IsTrue result ↔ spec.NamesHere value.now }
{
    if is_bracketed(value) {
        return is_bracketed_address(&value[1..]);
    }
    is_named_here(value)
}
