//! Why a line is faulty, in words.
ghost use Rattle.std.specs.Prelude.{◌≡◌, ◌++◌, option_map, OnOk, None};
ghost use Rattle.ini_config.specs.Lines.{said_of};
ghost use Rattle.ini_config.specs.Values as values;
ghost use Rattle.settings_check.specs.Words as spec;

use crate::faults::FaultyLine;
use bstr::ByteSlice;
use ini_config::{IniCause, Line, Section, read_line, takes_item};
use log_lines::shown::put_text;
use neutral_keys::is_read_over;
use std::alloc::AllocError;

/// Why a key isn't served: at which value it would be read over, if at any.
fn unknown_key(name: &[u8]) -> &'static [u8]
    ensures { result.now ≡ spec.unknown_key name.now }
{
    if is_read_over(name, b"0") {
        return b"asks for what is not done; 0 is read over";
    }
    if is_read_over(name, b"disable") {
        return b"asks for TLS, which is not done; disable is read over";
    }
    if is_read_over(name, b"") {
        return b"asks for what is not done; no value is read over";
    }
    if name.starts_with(b"server_tls_") {
        return b"there is no TLS to servers";
    }
    b"no key of pgsess, nor of PgBouncer 1.24"
}

fn is_one_of(name: &[u8], one: &[u8], two: &[u8]) -> bool
    ensures { result ≡ spec.is_one_of name.now one.now two.now }
{
    name == one || name == two
}

/// What the value of a key may be that is a number.
#[tactic(auto, unfolding(crate::specs::Words::numbers_of))]
fn numbers_of(name: &[u8]) -> &'static [u8]
    ensures { result.now ≡ spec.numbers_of name.now }
{
    if is_one_of(name, b"listen_port", b"metrics_port") {
        return b"takes a number from 1 to 65535";
    }
    if is_one_of(name, b"max_client_conn", b"default_pool_size") {
        return b"takes a number from 1 to 10000";
    }
    if name == b"max_links".as_slice() {
        return b"takes a number from 1 to 10000";
    }
    if name == b"max_packet_size".as_slice() {
        return b"takes a number from 1024 to 2147483647";
    }
    if name == b"stats_period".as_slice() {
        return b"takes a number from 1 to 2147483647";
    }
    if name == b"peer_id".as_slice() {
        return b"takes a number from 0 to 127";
    }
    b"takes a number from 0 to 2147483647"
}

/// What the value of a key may be that is a word, or a number.
#[tactic(auto, unfolding(crate::specs::Words::choices_of))]
fn choices_of(name: &[u8]) -> &'static [u8]
    ensures { result.now ≡ spec.choices_of name.now }
{
    if name == b"auth_type".as_slice() {
        return b"takes trust, plain, md5, scram-sha-256";
    }
    if name == b"console_style".as_slice() {
        return b"takes pgsess, pgbouncer";
    }
    if name == b"unix_socket_mode".as_slice() {
        return b"takes three octal digits";
    }
    numbers_of(name)
}

/// What the value of a key may be.
#[tactic(auto, unfolding(crate::specs::Words::values_of))]
fn values_of(name: &[u8]) -> &'static [u8]
    ensures { result.now ≡ spec.values_of name.now }
{
    if is_one_of(name, b"listen_addr", b"metrics_addr") {
        return b"takes addresses and names, parted by commas";
    }
    if name == b"untrack_parameters".as_slice() {
        return b"takes names of parameters that are followed by default";
    }
    choices_of(name)
}

/// What stands before the first equals sign, and what follows it.
fn split_item(item: &[u8]) -> Option<(&[u8], &[u8])>
    ensures { option_map (λ p. (p.0.now, p.1.now)) result ≡ values.split_at_first 61 item.now }
{
    item.split_once_str(b"=")
}

/// Whether no row may have this item.
fn is_bad_item(item: &[u8]) -> bool
    ensures { result ≡ spec.is_bad_item item.now }
{
    if item.is_empty() {
        return false;
    }
    match split_item(item) {
        Some((key, value)) => !takes_item(key, value),
        None => true,
    }
}

/// The first item that no row may have.
fn bad_item_in(value: &[u8]) -> Option<&[u8]>
    ensures { option_map (λ item. item.now) result ≡ spec.bad_item_in value.now }
{
    for item in value.split_str(b" ") {
        if is_bad_item(item) {
            return Some(item);
        }
    }
    None
}

fn has_host(value: &[u8]) -> bool
    ensures { result ≡ spec.has_host value.now }
{
    for item in value.split_str(b" ") {
        if item.starts_with(b"host=") {
            return true;
        }
    }
    false
}

/// Why an item is refused: its key alone is told.
fn put_bad_item(line: &mut Vec<u8>, item: &[u8]) -> Result<(), AllocError>
    ensures { OnOk result (line.new.items ≡ line.old.items ++ spec.bad_pair (values.split_at_first 61 item.now)) }
{
    match split_item(item) {
        Some((key, _)) => {
            put_text(line, key)?;
            line.extend_from_slice(b" is not served in a row, or not at this value")
        }
        None => line.extend_from_slice(b"an item of a row is key=value"),
    }
}

/// Why a row whose items might all stand in one is refused.
fn row_without(value: &[u8]) -> &'static [u8]
    ensures { result.now ≡ spec.bad_items value.now None }
{
    if has_host(value) {
        return b"a key for the second time, no name of a database, or a password without a user";
    }
    b"no host; with PgBouncer it is the folder of its Unix sockets: write it, as host=/var/run/postgresql"
}

/// Why a row is refused.
fn put_bad_row(line: &mut Vec<u8>, name: &[u8], value: &[u8]) -> Result<(), AllocError>
    ensures { OnOk result (line.new.items ≡ line.old.items ++ spec.bad_row name.now value.now) }
{
    if name == b"pgbouncer".as_slice() {
        return line.extend_from_slice(b"the console has this name");
    }
    if value.contains(&b'\'') {
        return line.extend_from_slice(b"no quotes are read in a row");
    }
    match bad_item_in(value) {
        Some(item) => put_bad_item(line, item),
        None => line.extend_from_slice(row_without(value)),
    }
}

/// Why a value is refused.
fn put_bad_value(line: &mut Vec<u8>, section: Section, faulty: Line<'_>) -> Result<(), AllocError>
    ensures { OnOk result (line.new.items ≡ line.old.items ++ spec.bad_value section (said_of faulty.entry)) }
{
    match (section, faulty) {
        (Section::Databases, Line::Pair(name, value)) => put_bad_row(line, name, value),
        (_, Line::Pair(name, _)) => line.extend_from_slice(values_of(name)),
        _ => Ok(()),
    }
}

/// Why a section is refused, or a line in it.
fn unknown_section(faulty: Line<'_>) -> &'static [u8]
    ensures { result.now ≡ spec.unknown_section (said_of faulty.entry) }
{
    match faulty {
        Line::UnknownHeader => b"no section of this name",
        _ => b"lines in [users] and [peers] are not served",
    }
}

/// Why a line's key is refused.
fn unknown_name(faulty: Line<'_>) -> &'static [u8]
    ensures { result.now ≡ spec.unknown_name (said_of faulty.entry) }
{
    match faulty {
        Line::Pair(name, _) => unknown_key(name),
        _ => b"",
    }
}

fn no_line(text: &[u8]) -> &'static [u8]
    ensures { result.now ≡ spec.no_line text.now }
{
    if text.starts_with(b"%include") {
        return b"no file is included: its lines belong here";
    }
    b"neither a header nor a key and its value below one"
}

/// Why a line is faulty.
pub(crate) fn put_words(line: &mut Vec<u8>, faulty: &FaultyLine<'_>) -> Result<(), AllocError>
    ensures { OnOk result (line.new.items ≡ line.old.items ++ spec.words faulty.now.cause faulty.now.section faulty.now.text.now) }
{
    let said = read_line(faulty.text);
    match faulty.cause {
        IniCause::UnknownSection => line.extend_from_slice(unknown_section(said)),
        IniCause::UnknownKey => line.extend_from_slice(unknown_name(said)),
        IniCause::BadValue => put_bad_value(line, faulty.section, said),
        IniCause::KeyTwice => line.extend_from_slice(b"given above already"),
        IniCause::PoolMode => line.extend_from_slice(b"takes session alone"),
        IniCause::ResetQuery => line.extend_from_slice(b"takes DISCARD ALL alone"),
        IniCause::NotALine => line.extend_from_slice(no_line(faulty.text)),
        IniCause::Memory => Ok(()),
    }
}
