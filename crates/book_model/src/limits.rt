//! The settings that the lease book decides by.
ghost use Rattle.std.specs.Prelude.{◌≡◌};
ghost use Rattle.book_model.specs.Book.{is_listed, row_for, size_of};
ghost use Rattle.book_model.specs.Limits.{usual};

use crate::rows::DatabaseRows;
use start_keys::StartKey;
use std::marker::Model;

/// The most clients that may be there at once, but for those of the console.
pub const MAX_CLIENTS: u32 = 10_000;

/// The most clients that a book can hold: with those of the console.
pub const MAX_PRESENT: u32 = 10_080;

/// The most links that a book can hold, lent and idle together.
pub const MAX_LINKS: u32 = 10_000;

/// The settings that the lease book decides by, with PgBouncer's names. Times are in seconds; clients and links are 10,000 at most.
pub struct Limits {
    /// How many clients may be connected.
    pub max_client_conn: u32,
    /// How many links a pool may have whose row says nothing else.
    pub default_pool_size: u32,
    /// How many links there may be in all.
    pub max_links: u32,
    /// For how many seconds a client waits for a link; 0 is without limit.
    pub query_wait_timeout: u32,
    /// After how many seconds a link is closed when it comes back; 0: after its first use.
    pub server_lifetime: u32,
    /// After how many seconds an idle link is closed; 0: never.
    pub server_idle_timeout: u32,
    /// The database rows, which tell how many links a pool may have.
    pub rows: DatabaseRows,
}

impl Drop for Limits {
    fn drop(self) {
        let Limits {
            max_client_conn: _,
            default_pool_size: _,
            max_links: _,
            query_wait_timeout: _,
            server_lifetime: _,
            server_idle_timeout: _,
            rows: _,
        } = self;
    }
}

impl Model for Limits {
    ghost use Rattle.std.specs.Prelude.{◌≤◌};
    ghost use Rattle.book_model.specs.Book.{Limits as LimitsOf};
    ghost use Rattle.book_model.specs.declared.limits.TheConstants.{MAX_CLIENTS, MAX_LINKS};

    ghost Value = { LimitsOf };

    ghost view = { λ l. record {
      rows = l.rows;
      max_clients = l.max_client_conn;
      default_size = l.default_pool_size;
      max_links = l.max_links;
      wait_timeout = l.query_wait_timeout;
      lifetime = l.server_lifetime;
      idle_timeout = l.server_idle_timeout;
    } };

    ghost invariant = { λ l. (l.max_client_conn ≤ MAX_CLIENTS) × (l.max_links ≤ MAX_LINKS) };
}

impl Limits {
    /// What an empty settings file says, over these rows: for tests, which change what they are about.
    pub fn usual(rows: DatabaseRows) -> Limits
        ensures { result ≡ usual rows }
    {
        Limits {
            max_client_conn: 100,
            default_pool_size: 20,
            max_links: 1000,
            query_wait_timeout: 120,
            server_lifetime: 3600,
            server_idle_timeout: 600,
            rows,
        }
    }

    /// The most links of a pool of the database of this name.
    pub fn pool_size(&self, database: &[u8]) -> u32
        ensures { result ≡ size_of self.now.default_size (row_for database.now self.now.rows) }
    {
        match self.rows.size_for(database) {
            Some(size) => size,
            None => self.default_pool_size,
        }
    }

    /// Whether a database row serves the key's database, with its host, port and dbname. It takes as long for many rows as for few.
    pub fn lists(&self, key: &StartKey) -> bool
        ensures { result ≡ is_listed self.now key.now }
    {
        self.rows.leads(key)
    }
}
