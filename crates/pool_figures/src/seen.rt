//! What is known of a pool beside its lease book.
ghost use Rattle.std.specs.Prelude.{◌≡◌, length};

use crate::decisions::DecisionSeen;
use crate::figures::Figures;
use session_values::text::Text;
use std::alloc::Global;
use std::marker::Model;
use std::sync::Arc;
use user_file::Users;

/// What went through a database.
pub struct DatabaseSeen {
    pub name: Text,
    /// In all.
    pub total: Figures,
    /// In the last whole period.
    pub recent: Figures,
}

impl Drop for DatabaseSeen {
    fn drop(self) {
        let DatabaseSeen {
            name: _,
            total: _,
            recent: _,
        } = self;
    }
}

impl Model for DatabaseSeen {
    ghost use Rattle.pool_figures.specs.Seen.{DatabaseOf};

    ghost Value = { DatabaseOf };

    ghost view = { λ d. record { name = d.name; total = d.total; recent = d.recent } };
}

/// What a client is at.
#[derive(Clone, Copy, Drop)]
pub enum Activity {
    LoggingIn,
    /// It waits for a link.
    Waiting,
    /// It has a link, and nothing is under way.
    Idle,
    /// Nothing is under way, within a transaction.
    InTransaction,
    /// The same, in one that failed.
    InFailed,
    /// Something is under way.
    Running,
    /// It is a client of the console.
    AtConsole,
}

/// A client, as it is seen from its connection.
pub struct ClientSeen {
    pub number: u64,
    pub user: Text,
    pub database: Text,
    /// An address, or `unix`.
    pub host: Text,
    pub port: u16,
    /// Milliseconds since its connection came.
    pub age: u64,
    pub activity: Activity,
    /// Milliseconds since it is at that.
    pub since: u64,
    /// The number of its link, and the process of the link's server, or 0.
    pub link: u64,
    pub process: u32,
    pub figures: Figures,
}

impl Drop for ClientSeen {
    fn drop(self) {
        let ClientSeen {
            number: _,
            user: _,
            database: _,
            host: _,
            port: _,
            age: _,
            activity: _,
            since: _,
            link: _,
            process: _,
            figures: _,
        } = self;
    }
}

impl Model for ClientSeen {
    ghost use Rattle.pool_figures.specs.Seen.{ClientOf};

    ghost Value = { ClientOf };

    ghost view = { λ c. record { number = c.number; user = c.user; database = c.database; host = c.host; port = c.port; age = c.age; activity = c.activity; since = c.since; link = c.link; process = c.process; figures = c.figures } };
}

/// What is known of a pool beside its lease book, at one moment.
pub struct Seen {
    pub databases: Vec<DatabaseSeen>,
    pub clients: Vec<ClientSeen>,
    /// The user file's users, of whom names alone are shown; `None` where they aren't known.
    pub users: Option<Arc<Users>>,
    /// The decisions of the book that are kept, from the oldest on.
    pub decisions: Vec<DecisionSeen>,
    /// The seconds of a period.
    pub period: u64,
    /// The seconds since 1970 began.
    pub second: u64,
}

impl Drop for Seen {
    fn drop(self) {
        let Seen {
            databases: _,
            clients: _,
            users: _,
            decisions: _,
            period: _,
            second: _,
        } = self;
    }
}

impl Model for Seen {
    ghost use Rattle.pool_figures.specs.Seen.{SeenOf, users_in};

    ghost Value = { SeenOf };

    ghost view = { λ s. record { databases = s.databases.items; clients = s.clients.items; users = users_in s.users; decisions = s.decisions.items; period = s.period; second = s.second } };
}

impl Seen {
    /// Nothing is known.
    pub fn nothing(alloc: Global) -> Seen {
        Seen {
            databases: Vec::new(alloc),
            clients: Vec::new(alloc),
            users: None,
            decisions: Vec::new(alloc),
            period: 0,
            second: 0,
        }
    }

    /// How many users the user file has; 0 where that isn't known.
    pub fn user_count(&self) -> u64
        ensures { result ≡ length self.now.users }
    {
        match &self.users {
            Some(users) => users.len() as u64,
            None => 0,
        }
    }
}
