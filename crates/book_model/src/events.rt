//! What can happen to the lease book, and what it answers.

ghost use Rattle.std.specs.Prelude.{◌≡◌};
ghost use Rattle.book_model.specs.Book.{places_beyond};

use crate::limits::Limits;
use message_view::{KeyView, Refusal};
use start_keys::StartKey;
use std::sync::Arc;

/// What is changed for all from now on.
#[derive(Drop)]
pub enum Change {
    /// These settings hold.
    Limits(Arc<Limits>),
    /// No link is lent until Resume.
    Pause,
    Resume,
    /// No client is let in and no link lent any more.
    Shutdown,
    /// No link that is there now is lent again.
    Reconnect,
}

/// What happens to the book, with clients and links by their numbers. Seconds are those of the pooler's clock.
#[derive(Drop)]
pub enum Event {
    /// A client has come, which may use so many places beyond the limit.
    Arrive {
        beyond: Beyond,
    },
    /// A client that is through its login asks for a link of this key.
    Ask {
        client: u64,
        key: Arc<StartKey>,
    },
    /// A client that waits takes its link, if it may have one now.
    Take {
        client: u64,
    },
    /// A lent link has been closed.
    Lost {
        link: u64,
    },
    /// A link that was to be started could not be.
    StartFailed {
        link: u64,
    },
    /// A client has gone.
    Leave {
        client: u64,
    },
    /// The clock has reached this second.
    Tick {
        now: u64,
    },
    /// This is changed for all from now on.
    Change(Change),
    /// This lent link serves the client of this key word, and its server told that one.
    Keyed {
        link: u64,
        client: KeyView,
        server: KeyView,
    },
    /// What the client of this key word is at is to be cancelled.
    Cancel {
        client: KeyView,
    },
    /// The lease of this link has ended.
    EndLease {
        link: u64,
    },
    /// The server of this idle link has hung up, or said something that nobody asked for.
    HungUp {
        link: u64,
    },
}

/// The places beyond `max_client_conn` that a client may use, so that who runs the pooler isn't locked out of its console.
#[derive(Clone, Copy, PartialEq, Eq, Drop)]
pub enum Beyond {
    /// None: so it is for every client of a database.
    Nothing,
    /// Those of the console: [`CONSOLE_PLACES`].
    Console,
    /// Those of the console where its client has come over a Unix socket: [`LOCAL_PLACES`].
    LocalConsole,
}

/// The places beyond the limit for clients of the console.
pub const CONSOLE_PLACES: u32 = 64;

/// Those for clients of the console that have come over a Unix socket: with them the ones above.
pub const LOCAL_PLACES: u32 = 80;

impl Beyond {
    /// How many places that are.
    pub fn places(self) -> u32
        ensures { result ≡ places_beyond self }
    {
        match self {
            Beyond::Nothing => 0,
            Beyond::Console => CONSOLE_PLACES,
            Beyond::LocalConsole => LOCAL_PLACES,
        }
    }
}

/// What the book answers.
#[derive(Clone, Copy, Drop)]
pub enum Reply {
    /// The client that has come has this number.
    Arrived(u64),
    /// The client waits behind this many of its pool.
    Queued(u64),
    /// The client has this link, which was idle.
    Lend(u64),
    /// A link of this number and second of birth is to be started for the client, once this idle one is closed.
    Start {
        link: u64,
        started_at: u64,
        evicted: Option<u64>,
    },
    /// This link is to be closed.
    Close(u64),
    /// The client is refused, or loses its place.
    Refuse(Refusal),
    /// It is done.
    Done,
    /// No such client, ticket or link is there, the client has a ticket already, or the lease was keyed or has ended. Nothing has
    /// changed.
    Stranger,
    /// The cancel is for the server of this link, which told this key word. Where that is, the link's start key says.
    Strike {
        link: u64,
        server: KeyView,
    },
    /// Nobody of this key word has a lease, or the link that hung up isn't idle any more. Nothing has changed.
    Nobody,
    /// The lease's link may be reset, or given back unused: no cancel is for it.
    Reset,
    /// The lease's link is to be closed: a cancel is for it, and may still come.
    Dispose,
}

/// A client's state.
#[derive(Clone, Copy, PartialEq, Eq, Drop)]
pub enum ClientState {
    /// It has not asked for a link yet.
    LoggingIn,
    /// It waits for a link, from its Ask until a Take of it is granted.
    Waiting,
    /// It has had a link.
    Active,
}
