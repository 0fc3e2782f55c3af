//! The hosts that database rows name, and the addresses that are listened on.
ghost use Rattle.std.specs.Prelude.{◌≡◌, ◌+◌, ◌≤◌, option_map, option_copied, IfSome, length, map, nat_le};
ghost use Rattle.std.specs.Char.{is_ascii_hexdigit};
ghost use Rattle.std.specs.List.{list_all};
ghost use Rattle.ini_config.specs.Hosts as spec;
ghost use Rattle.ini_config.specs.Values.{names};
ghost use Rattle.server_host.specs.declared.TheConstants.{MAX_HOST};

use crate::values::dotted;
use bstr::ByteSlice;
use server_host::MAX_HOST;
use text_lines::trimmed;

const MAX_GROUP: usize = 4;

const GROUPS: usize = 8;

const MAX_LABEL: usize = 63;

/// A Unix socket's path has at most 107 bytes, of which `/.s.PGSQL.` and a port take 15.
const MAX_FOLDER: usize = 92;

/// Whether it has 1 to so many bytes.
fn has_length(most: usize, text: &[u8]) -> bool
    ensures { result ≡ spec.has_length most text.now }
{
    !text.is_empty() && text.len() <= most
}

fn is_hex_digit(b: u8) -> bool
    ensures { result ≡ is_ascii_hexdigit b }
{
    b.is_ascii_hexdigit()
}

fn are_hex_digits(text: &[u8]) -> bool
    ensures { result ≡ list_all is_ascii_hexdigit text.now }
{
    text.iter().all(|b| is_hex_digit(*b))
}

/// Whether these are one to four hexadecimal digits.
#[tactic(auto, unfolding(crate::specs::Hosts::is_group))]
fn is_group(text: &[u8]) -> bool
    ensures { result ≡ spec.is_group text.now }
{
    has_length(MAX_GROUP, text) && are_hex_digits(text)
}

/// Whether these are groups with colons between.
fn are_groups(text: &[u8]) -> bool
    ensures { result ≡ spec.are_groups text.now }
{
    text.split_str(b":").all(is_group)
}

fn group_count(text: &[u8]) -> usize
    ensures { result ≡ spec.group_count text.now }
{
    text.split_str(b":").count()
}

/// Whether this is one side of a double colon.
#[tactic(auto, unfolding(crate::specs::Hosts::is_side))]
fn is_side(text: &[u8]) -> bool
    ensures { result ≡ spec.is_side text.now }
{
    text.is_empty() || are_groups(text)
}

#[tactic(auto, unfolding(crate::specs::Hosts::side_count))]
fn side_count(text: &[u8]) -> usize
    ensures { result ≡ spec.side_count text.now }
{
    if text.is_empty() {
        return 0;
    }
    group_count(text)
}

/// Whether two counts are less than eight together.
fn are_few(first: usize, second: usize) -> bool
    ensures { result ≡ nat_le (first + second) 7 }
{
    first < GROUPS && second < GROUPS - first
}

/// Whether these are both sides of a double colon, with at most seven groups.
#[tactic(auto, unfolding(crate::specs::Hosts::are_sides))]
fn are_sides(left: &[u8], right: &[u8]) -> bool
    ensures { result ≡ spec.are_sides left.now right.now }
{
    are_few(side_count(left), side_count(right)) && is_side(left) && is_side(right)
}

/// Whether this is an IPv6 address: eight groups, or fewer with a double colon.
#[tactic(auto, unfolding(crate::specs::Hosts::is_ipv6))]
fn is_ipv6(text: &[u8]) -> bool
    ensures { result ≡ spec.is_ipv6 text.now }
{
    match text.split_once_str(b"::") {
        None => group_count(text) == GROUPS && are_groups(text),
        Some((left, right)) => are_sides(left, right),
    }
}

fn is_name_byte(b: u8) -> bool
    ensures { result ≡ spec.is_name_byte b }
{
    b.is_ascii_alphanumeric() || b == b'-' || b == b'_'
}

fn are_name_bytes(text: &[u8]) -> bool
    ensures { result ≡ list_all spec.is_name_byte text.now }
{
    text.iter().all(|b| is_name_byte(*b))
}

/// Whether this is a part of a name.
#[tactic(auto, unfolding(crate::specs::Hosts::is_label))]
fn is_label(text: &[u8]) -> bool
    ensures { result ≡ spec.is_label text.now }
{
    has_length(MAX_LABEL, text) && !text.starts_with(b"-") && are_name_bytes(text)
}

/// Whether this is a name: labels with dots between.
fn is_name(text: &[u8]) -> bool
    ensures { result ≡ spec.is_name text.now }
{
    text.split_str(b".").all(is_label)
}

fn is_digit_or_dot(b: u8) -> bool
    ensures { result ≡ spec.is_digit_or_dot b }
{
    b.is_ascii_digit() || b == b'.'
}

fn is_numeric(text: &[u8]) -> bool
    ensures { result ≡ spec.is_numeric text.now }
{
    text.iter().all(|b| is_digit_or_dot(*b))
}

fn is_printing(b: u8) -> bool
    ensures { result ≡ spec.is_printing b }
{
    33 <= b && b <= 126
}

fn are_printing(text: &[u8]) -> bool
    ensures { result ≡ list_all spec.is_printing text.now }
{
    text.iter().all(|b| is_printing(*b))
}

/// Whether this is the folder of a Unix socket.
#[tactic(auto, unfolding(crate::specs::Hosts::is_folder))]
fn is_folder(text: &[u8]) -> bool
    ensures { result ≡ spec.is_folder text.now }
{
    text.starts_with(b"/") && has_length(MAX_FOLDER, text) && are_printing(text)
}

fn has_colon(text: &[u8]) -> bool
    ensures { result ≡ spec.has_colon text.now }
{
    text.iter().any(|b| *b == b':')
}

/// Whether this is an IPv4 address.
fn is_dotted(text: &[u8]) -> bool
    ensures { result ≡ spec.is_dotted text.now }
{
    dotted(text).is_some()
}

/// Whether this is an address of IPv4 or IPv6, or a name.
#[tactic(auto, unfolding(crate::specs::Hosts::is_ip_host))]
fn is_ip_host(text: &[u8]) -> bool
    ensures { result ≡ spec.is_ip_host text.now }
{
    if has_colon(text) {
        return is_ipv6(text);
    }
    if is_numeric(text) {
        return is_dotted(text);
    }
    is_name(text)
}

/// Whether this is one host of a row.
#[tactic(auto, unfolding(crate::specs::Hosts::is_host))]
fn is_host(text: &[u8]) -> bool
    ensures { result ≡ spec.is_host text.now }
{
    is_folder(text) || is_ip_host(text)
}

/// Whether these are hosts with commas between.
fn are_hosts(text: &[u8]) -> bool
    ensures { result ≡ spec.are_hosts text.now }
{
    text.split_str(b",").all(is_host)
}

/// The host of a row: one, or several with commas between.
#[tactic(auto, unfolding(crate::specs::Hosts::host_of))]
pub(crate) fn host_of(text: &[u8]) -> Option<&[u8]>
    ensures value { option_copied result ≡ spec.host_of text.now }
    ensures short { IfSome result (λ t. length t.now ≤ MAX_HOST) }
{
    if text == b"localhost".as_slice() {
        return Some(b"127.0.0.1");
    }
    if !has_length(MAX_HOST, text) || !are_hosts(text) {
        return None;
    }
    Some(text)
}

/// Whether this can be listened on.
#[tactic(auto, unfolding(crate::specs::Hosts::is_listened))]
fn is_listened(name: &[u8]) -> bool
    ensures { result ≡ spec.is_listened name.now }
{
    name == b"*".as_slice() || is_ip_host(name)
}

/// The address that a name stands for: that of all for `*`, and of this machine for `localhost`.
#[tactic(auto, unfolding(crate::specs::Hosts::listened))]
pub(crate) fn listened(name: &[u8]) -> &[u8]
    ensures { result.now ≡ spec.listened name.now }
{
    if name == b"*".as_slice() {
        return b"0.0.0.0";
    }
    if name == b"localhost".as_slice() {
        return b"127.0.0.1";
    }
    name
}

/// Whether each of the names can be listened on, and there is one.
#[tactic(auto, unfolding(crate::specs::Values::names))]
fn are_listened(text: &[u8]) -> bool
    ensures { result ≡ spec.are_listened (names text.now) }
{
    let mut count = 0usize;
    for part in text.split_str(b",") {
        let name = trimmed(part);
        if !name.is_empty() {
            if !is_listened(name) {
                return false;
            }
            count = 1;
        }
    }
    count == 1
}

/// A list of addresses to listen on. None where it is empty, or where one can't be.
#[tactic(auto, unfolding(crate::specs::Hosts::listen_addresses))]
pub(crate) fn listen_addresses(text: &[u8]) -> Option<&[u8]>
    ensures { option_map (λ t. map spec.listened (names t.now)) result ≡ spec.listen_addresses text.now }
{
    if !are_listened(text) {
        return None;
    }
    Some(text)
}
