//! Database rows, as the lease book decides by them.
ghost use Rattle.std.specs.Prelude.{◌≡◌, IfOk, Some, option_copied, option_map};
ghost use Rattle.start_keys.specs.Keys.{same_host};
ghost use Rattle.book_model.specs.Book.{is_row_of, leads_to, row_as, row_for, row_named, wildcard_row};
ghost use Rattle.book_model.specs.RowIndex.{FindsRows};

use indexmap::IndexMap;
use session_values::text::Text;
use start_keys::{Host, StartKey};
use std::alloc::{AllocError, Global};
use std::marker::Model;

/// A database row: the name that clients ask for, where its server is, and how many links a pool of it may have (PgBouncer's
/// `pool_size`).
pub struct DatabaseRow {
    pub name: Text,
    /// The server's host.
    pub host: Host,
    /// The server's port.
    pub port: u16,
    /// The server's name of the database.
    pub dbname: Text,
    pub size: u32,
}

impl Drop for DatabaseRow {
    fn drop(self) {
        let DatabaseRow {
            name: _,
            host: _,
            port: _,
            dbname: _,
            size: _,
        } = self;
    }
}

impl Model for DatabaseRow {
    ghost use Rattle.book_model.specs.Book.{Row};

    ghost Value = { Row };

    ghost view = { λ r. record { name = r.name; host = r.host; port = r.port; dbname = r.dbname; size = r.size } };
}

/// Whether a key's host is this one.
fn is_host(own: &Host, host: &Option<Host>) -> bool
    ensures { result ≡ same_host (Some own.now) host.now }
{
    match host {
        Some(host) => own.is(host.as_bytes()),
        None => false,
    }
}

/// The row by which databases are served that no other row names; and as a database's name the one that was asked for.
const WILDCARD: &[u8] = b"*";

/// The longest name of a database that PostgreSQL has.
const MAX_NAME: usize = 63;

impl DatabaseRow {
    /// Whether the key's server is that of the row.
    pub fn leads(&self, key: &StartKey) -> bool
        ensures { result ≡ leads_to self.now key.now }
    {
        self.leads_by(self.dbname.as_slice(), key)
    }

    /// The same, where the server's database has this name.
    fn leads_by(&self, dbname: &[u8], key: &StartKey) -> bool
        ensures { result ≡ leads_to (record self.now { dbname = dbname.now }) key.now }
    {
        is_host(&self.host, &key.host) && self.port == key.port && dbname == key.dbname.as_slice()
    }

    /// The same of a row that serves databases of other names: `*`.
    fn leads_as(&self, name: &[u8], key: &StartKey) -> bool
        ensures { result ≡ leads_to (row_as name.now self.now) key.now }
    {
        if self.dbname.is(WILDCARD) {
            return self.leads_by(name, key);
        }
        self.leads(key)
    }
}

/// Database rows in their order, each found by its name at once. Of several rows of one name the first counts.
pub struct DatabaseRows {
    rows: Vec<DatabaseRow>,
    places: IndexMap<Vec<u8>, usize>,
}

impl Drop for DatabaseRows {
    fn drop(self) {
        let DatabaseRows { rows: _, places: _ } = self;
    }
}

impl Model for DatabaseRows {
    ghost use Rattle.std.specs.Prelude.{List};
    ghost use Rattle.book_model.specs.Book.{Row};
    ghost use Rattle.book_model.specs.RowIndex.{FindsRows};

    ghost Value = { List Row };

    ghost view = { λ r. r.rows.items };

    ghost invariant = { λ r. FindsRows (λ k. k.items) r.places.entries r.rows.items r.rows.items };
}

/// Where the first row of each name stands. The only error is that memory was refused.
fn places_of(alloc: Global, rows: &[DatabaseRow]) -> Result<IndexMap<Vec<u8>, usize>, AllocError>
    ensures { IfOk result (λ m. FindsRows (λ k. k.items) m.entries rows.now rows.now) }
{
    let mut places = IndexMap::new(alloc);
    let mut left = rows.len();
    'rows: while left > 0 {
        left -= 1;
        let row = &rows[left];
        places.insert(Vec::from_slice(alloc, row.name.as_slice())?, left)?;
    }
    Ok(places)
}

impl DatabaseRows {
    /// These rows. The only error is that memory was refused.
    pub fn new(alloc: Global, rows: Vec<DatabaseRow>) -> Result<DatabaseRows, AllocError>
        ensures { IfOk result (λ r. r ≡ rows.items) }
    {
        let places = places_of(alloc, &rows)?;
        Ok(DatabaseRows { rows, places })
    }

    /// The rows, in their order.
    pub fn as_slice(&self) -> &[DatabaseRow]
        ensures { result.now ≡ self.now }
    {
        self.rows.as_slice()
    }

    /// The first row of this name.
    pub fn named(&self, name: &[u8]) -> Option<&DatabaseRow>
        ensures { option_copied result ≡ row_named name.now self.now }
    {
        let place = self.places.get(name)?;
        self.rows.get(*place)
    }

    /// The row of `*`, for a database of this name that no row names.
    fn wildcard(&self, name: &[u8]) -> Option<&DatabaseRow>
        ensures { option_map (row_as name.now) (option_copied result) ≡ wildcard_row name.now self.now }
    {
        if name.len() > MAX_NAME {
            return None;
        }
        self.named(WILDCARD)
    }

    /// How many links a pool of this database may have, if a row serves it: that of its name, else that of `*`.
    pub fn size_for(&self, name: &[u8]) -> Option<u32>
        ensures { result ≡ option_map (λ row. row.size) (row_for name.now self.now) }
    {
        if let Some(row) = self.named(name) {
            return Some(row.size);
        }
        let row = self.wildcard(name)?;
        Some(row.size)
    }

    /// Whether the row that serves the key's database, if there is one, leads to the key's server.
    pub fn leads(&self, key: &StartKey) -> bool
        ensures { result ≡ is_row_of key.now (row_for key.now.row self.now) }
    {
        let name = key.row.as_slice();
        if let Some(row) = self.named(name) {
            return row.leads(key);
        }
        match self.wildcard(name) {
            Some(row) => row.leads_as(name, key),
            None => false,
        }
    }
}
