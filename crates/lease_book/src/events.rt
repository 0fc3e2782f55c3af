//! What can happen to the lease book, and what it answers, with the links themselves.
use book_model::events::Event;
use link_run::links::CleanLink;
use message_view::{KeyView, Refusal};
use server_end::ServerEnd;
use start_keys::Host;

/// What happens to the book.
#[derive(Drop)]
pub enum BookEvent<E: ServerEnd> {
    /// A client has given its link back clean.
    GiveBack(CleanLink<E>),
    /// Any other event: no link comes with it.
    Plain(Event),
}

/// What the book answers. A link that leaves the book, or isn't kept, comes with the reply.
#[derive(Drop)]
pub enum BookReply<E: ServerEnd> {
    /// The client that has come has this number.
    Client(u64),
    /// The client waits behind this many of its pool.
    Queued(u64),
    /// The client has this link, which was idle.
    Lend(CleanLink<E>),
    /// A link of this number and second of birth is to be started for the client, once this idle one is closed.
    Start {
        number: u64,
        started_at: u64,
        evicted: Option<CleanLink<E>>,
    },
    /// This link is to be closed.
    Close(CleanLink<E>),
    /// The client is refused, or loses its place. A link that was given back is handed back.
    Refuse(Refusal, Option<CleanLink<E>>),
    /// It is done; a link that was given back is kept.
    Done,
    /// No such client, ticket or link is there, the client has a ticket already, or the lease was keyed or has ended. A link that was
    /// given back is handed back.
    Stranger(Option<CleanLink<E>>),
    /// The cancel is for the server of this link, which told this key word and is at this place.
    Strike {
        number: u64,
        server: KeyView,
        host: Host,
        port: u16,
    },
    /// Nobody of this key word has a lease, or the link that hung up isn't idle any more.
    Nobody,
    /// The lease's link may be reset, or given back unused: no cancel is for it.
    Reset,
    /// The lease's link is to be closed: a cancel is for it, and may still come.
    Dispose,
}
