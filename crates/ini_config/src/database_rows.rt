//! Database rows.
ghost use Rattle.std.specs.Prelude.{◌≡◌, ◌≤◌, length, IfOk, option_copied};
ghost use Rattle.ini_config.specs.DatabaseValues.{row_in};
ghost use Rattle.ini_config.specs.Tables.{row_as, row_of_served};
ghost use Rattle.server_host.specs.declared.TheConstants.{MAX_HOST};

use crate::database_values::RowText;
use server_host::Host;
use std::alloc::{AllocError, Global};
use text_lines::Text;

/// The row by which databases are served that no other row names; and as a database's name the one that was asked for.
pub(crate) const WILDCARD: &[u8] = b"*";

/// A row of the section `[databases]`: where the server of a database is.
pub struct DbRow {
    /// The name that clients ask for.
    pub name: Text,
    /// The server's host: an address of IPv4 or IPv6, a name, the folder of a Unix socket; or several of these, with commas between.
    pub host: Host,
    /// The server's port, at least 1.
    pub port: u16,
    /// The server's name of the database: not empty, without a zero byte.
    pub dbname: Text,
    /// How many links a pool of this row may have, from 1 to 10,000; none: as many as `default_pool_size` says.
    pub pool_size: Option<u32>,
    /// The user as whom its links are started, whoever logs in: not empty, without a zero byte; none: each client's own.
    pub user: Option<Text>,
    /// That user's password, as the user file writes secrets; none: that of the user file.
    pub password: Option<Text>,
}

impl Drop for DbRow {
    fn drop(self) {
        let DbRow {
            name: _,
            host: _,
            port: _,
            dbname: _,
            pool_size: _,
            user: _,
            password: _,
        } = self;
    }
}

/// The row that serves a database, as it is lent: that of its name, or that of `*` under its name.
#[derive(Clone, Copy)]
pub struct ServedRow<'a> {
    /// The name that was asked for.
    pub name: &'a [u8],
    /// The server's host.
    pub host: &'a Host,
    /// The server's port.
    pub port: u16,
    /// The server's name of the database.
    pub dbname: &'a [u8],
    /// How many links a pool of this row may have, as in a [`DbRow`].
    pub pool_size: Option<u32>,
    /// The user as whom its links are started, as in a [`DbRow`].
    pub user: Option<&'a [u8]>,
    /// That user's password, as in a [`DbRow`].
    pub password: Option<&'a [u8]>,
}

fn text_of(text: &Option<Text>) -> Option<&[u8]>
    ensures { option_copied result ≡ text.now }
{
    match text {
        Some(text) => Some(text.as_bytes()),
        None => None,
    }
}

fn copy_of(alloc: Global, text: Option<&[u8]>) -> Result<Option<Text>, AllocError>
    ensures { IfOk result (λ copy. copy ≡ option_copied text.entry) }
{
    match text {
        Some(text) => Ok(Some(Text::copy(alloc, text)?)),
        None => Ok(None),
    }
}

impl DbRow {
    /// The row as it stands.
    pub(crate) fn served(&self) -> ServedRow<'_>
        ensures { row_of_served result ≡ self.now }
    {
        ServedRow {
            name: self.name.as_bytes(),
            host: &self.host,
            port: self.port,
            dbname: self.dbname.as_bytes(),
            pool_size: self.pool_size,
            user: text_of(&self.user),
            password: text_of(&self.password),
        }
    }

    /// The row under another name, which is the server's of the database too where the row says none: `*`.
    pub(crate) fn served_as<'a>(&'a self, name: &'a [u8]) -> ServedRow<'a>
        ensures { row_of_served result ≡ row_as name.entry.now self.entry.now }
    {
        let served = self.served();
        let dbname = if served.dbname == WILDCARD {
            name
        } else {
            served.dbname
        };
        ServedRow {
            name,
            dbname,
            ..served
        }
    }
}

impl RowText<'_> {
    /// The row with texts of its own.
    pub(crate) fn copy(&self, alloc: Global) -> Result<DbRow, AllocError>
        requires short { length self.now.host.now ≤ MAX_HOST }
        ensures { IfOk result (λ row. row ≡ row_in self.now) }
    {
        let Some(host) = Host::new(self.host) else {
            unreachable!()
        };
        Ok(DbRow {
            name: Text::copy(alloc, self.name)?,
            host,
            port: self.port,
            dbname: Text::copy(alloc, self.dbname)?,
            pool_size: self.pool_size,
            user: copy_of(alloc, self.user)?,
            password: copy_of(alloc, self.password)?,
        })
    }
}
