//! What each call of a desk answers.

use link_start::links::CleanLink;
use message_view::{KeyView, Refusal};
use server_end::ServerEnd;
use start_keys::Host;

/// To a client that has come.
#[derive(Clone, Copy, Drop)]
pub enum Arrival {
    /// It has this number.
    Client(u64),
    /// It is refused: too many clients are there, the pooler is shutting down, or the book has made its last decision.
    Refused(Refusal),
}

/// To a client that asks for a link.
#[derive(Clone, Copy, Drop)]
pub enum Asked {
    /// It waits behind so many of its pool.
    Queued(u64),
    /// It is refused: the pooler is shutting down, or the book has made its last decision.
    Refused(Refusal),
    /// Memory was refused before the book was asked.
    Memory,
    /// No such client is there, or it has asked already.
    Stranger,
}

/// To a client that takes its link.
#[derive(Drop)]
pub enum Grant<E: ServerEnd> {
    /// It waits on.
    Queued,
    /// This link, which was idle.
    Lend(CleanLink<E>),
    /// A link of this number and second of birth is to be started, once this idle one is closed.
    Start {
        number: u64,
        started_at: u64,
        evicted: Option<CleanLink<E>>,
    },
    /// It is refused: it has waited too long, the pooler is shutting down, or the book has made its last decision.
    Refused(Refusal),
    /// It has not asked.
    Stranger,
}

/// To a client whose server had no place for its link.
#[derive(Clone, Copy, Drop)]
pub enum Place {
    /// It waits on, a while later.
    Waits,
    /// A link of its pool has come back or gone: it may ask again.
    Free,
    /// It needn't wait: no link of its pool is lent, the pooler is shutting down, its time is over, or memory was refused.
    Nowhere,
}

/// To a link that is given back.
#[derive(Clone, Copy, Drop)]
pub enum Back {
    /// The desk keeps it.
    Done,
    /// It is handed back, to be closed.
    Close,
    /// It is handed back: the book has made its last decision.
    Last,
    /// It is handed back: no such link is lent.
    Stranger,
}

/// To a lease that may be cancelled from now on.
#[derive(Clone, Copy, Drop)]
pub enum Keying {
    Done,
    /// The book has made its last decision.
    Last,
    /// No such link is lent, or its lease was keyed or has ended.
    Stranger,
}

/// To a lease that ends.
#[derive(Clone, Copy, Drop)]
pub enum Release {
    /// No cancel is for its link, which may be reset, or given back unused.
    Reset,
    /// A cancel is for its link, and may still come: the link is to be closed.
    Dispose,
    /// The book has made its last decision.
    Last,
    /// No such link is lent.
    Stranger,
}

/// The session that a cancel is for: the link of its lease, and the key word that the link's server told.
#[derive(Clone, Copy, Drop)]
pub struct Target {
    pub link: u64,
    pub server: KeyView,
}

/// A cancel on its way: the link that it is for, the key word that the link's server told, and where that server is.
#[derive(Clone, Copy, Drop)]
pub struct Strike {
    pub link: u64,
    pub server: KeyView,
    /// The server's host.
    pub host: Host,
    /// The server's port.
    pub port: u16,
}

/// To a CancelRequest.
#[derive(Clone, Copy, Drop)]
pub enum Cancelled {
    /// This cancel is to be sent.
    Strike(Strike),
    /// Nobody of this key word has a lease.
    Nobody,
    /// The book has made its last decision.
    Last,
}

/// To what is changed for all.
#[derive(Clone, Copy, Drop)]
pub enum Changed {
    Done,
    /// The book has made its last decision.
    Last,
}

/// To a client that goes, and to a link that is lost or could not be started.
#[derive(Clone, Copy, Drop)]
pub enum Gone {
    Done,
    /// The book has made its last decision.
    Last,
    /// No such client is there, or no such link is lent.
    Stranger,
}
