//! The value of a database row.
ghost use Rattle.std.specs.Prelude.{◌≡◌, ◌≤◌, length, is_some, option_copied, option_map, IfSome};
ghost use Rattle.ini_config.specs.Hosts.{IsShort};
ghost use Rattle.ini_config.specs.DatabaseValues as spec;
ghost use Rattle.server_host.specs.declared.TheConstants.{MAX_HOST};

use crate::hosts::host_of;
use crate::values::{number, port, split_at_first};
use bstr::ByteSlice;
use neutral_keys::is_read_over_in_row;

/// What the items of a row's value say.
#[derive(Clone, Copy)]
pub(crate) struct Items<'a> {
    host: Option<&'a [u8]>,
    port: Option<u16>,
    dbname: Option<&'a [u8]>,
    pool_size: Option<u32>,
    user: Option<&'a [u8]>,
    password: Option<&'a [u8]>,
}

/// A row whose texts are still those of the file.
#[derive(Clone, Copy)]
pub(crate) struct RowText<'a> {
    pub(crate) name: &'a [u8],
    pub(crate) host: &'a [u8],
    pub(crate) port: u16,
    pub(crate) dbname: &'a [u8],
    pub(crate) pool_size: Option<u32>,
    pub(crate) user: Option<&'a [u8]>,
    pub(crate) password: Option<&'a [u8]>,
}

const DEFAULT_PORT: u16 = 5432;

/// The items with one more. None where its key is unknown or there already, or its value isn't one of the key. One that is read over at
/// its value changes nothing.
fn with_item<'a>(items: Items<'a>, key: &[u8], value: &'a [u8]) -> Option<Items<'a>>
    requires short { IsShort (option_copied items.host) }
    ensures value { option_map spec.values_of result ≡ spec.with_item (spec.values_of items.entry) key.now value.entry.now }
    ensures short { IfSome result (λ i. IsShort (option_copied i.host)) }
{
    if key == b"host".as_slice() && items.host.is_none() {
        let host = Some(host_of(value)?);
        return Some(Items { host, ..items });
    }
    if key == b"port".as_slice() && items.port.is_none() {
        let port = Some(port(value)?);
        return Some(Items { port, ..items });
    }
    if key == b"dbname".as_slice() && items.dbname.is_none() {
        let dbname = Some(value);
        return Some(Items { dbname, ..items });
    }
    if key == b"pool_size".as_slice() && items.pool_size.is_none() {
        let pool_size = Some(number(value, 1, 10_000)?);
        return Some(Items { pool_size, ..items });
    }
    if key == b"user".as_slice() && items.user.is_none() && is_user(value) {
        let user = Some(value);
        return Some(Items { user, ..items });
    }
    if key == b"password".as_slice() && items.password.is_none() && !value.is_empty() {
        let password = Some(value);
        return Some(Items { password, ..items });
    }
    if is_read_over_in_row(key, value) {
        return Some(items);
    }
    None
}

/// Whether a row may have this item at all: a key that is served at one of its values, or that is read over at this value.
pub fn takes_item(key: &[u8], value: &[u8]) -> bool
    ensures { result ≡ is_some (spec.with_item spec.nothing_said key.now value.now) }
{
    let none = Items {
        host: None,
        port: None,
        dbname: None,
        pool_size: None,
        user: None,
        password: None,
    };
    with_item(none, key, value).is_some()
}

/// The items of a value, parted by spaces.
#[tactic(auto, using(crate::proofs::Items::no_texts), unfolding(crate::specs::DatabaseValues::values_in))]
fn items_of(value: &[u8]) -> Option<Items<'_>>
    ensures value { option_map spec.values_of result ≡ spec.values_in value.now }
    ensures short { IfSome result (λ i. IsShort (option_copied i.host)) }
{
    let mut items = Items {
        host: None,
        port: None,
        dbname: None,
        pool_size: None,
        user: None,
        password: None,
    };
    for item in value.split_str(b" ") {
        if !item.is_empty() {
            let (key, given) = split_at_first(item, b'=')?;
            items = with_item(items, key, given)?;
        }
    }
    Some(items)
}

/// Whether this is the console's name, which no row may have.
fn is_console(name: &[u8]) -> bool
    ensures { result ≡ spec.is_console name.now }
{
    name == b"pgbouncer".as_slice()
}

/// Whether a server can have a database of this name.
pub(crate) fn is_database(name: &[u8]) -> bool
    ensures { result ≡ spec.is_database name.now }
{
    !name.is_empty() && !name.contains(&0)
}

/// Whether a server can have a user of this name.
fn is_user(name: &[u8]) -> bool
    ensures { result ≡ spec.is_user name.now }
{
    is_database(name)
}

/// The row of a name and a value. None where the row isn't served or the value can't be read.
#[tactic(auto, unfolding(crate::specs::DatabaseValues::row_of))]
pub(crate) fn read_row<'a>(name: &'a [u8], value: &'a [u8]) -> Option<RowText<'a>>
    ensures value { option_map spec.row_in result ≡ spec.row_of name.entry.now value.entry.now }
    ensures name { IfSome result (λ r. r.name.now ≡ name.entry.now) }
    ensures short { IfSome result (λ r. length r.host.now ≤ MAX_HOST) }
{
    if is_console(name) || value.contains(&b'\'') {
        return None;
    }
    let items = items_of(value)?;
    let host = items.host?;
    let dbname = items.dbname.unwrap_or(name);
    let is_nobodys = items.password.is_some() && items.user.is_none();
    if !is_database(dbname) || is_nobodys {
        return None;
    }
    Some(RowText {
        name,
        host,
        port: items.port.unwrap_or(DEFAULT_PORT),
        dbname,
        pool_size: items.pool_size,
        user: items.user,
        password: items.password,
    })
}
