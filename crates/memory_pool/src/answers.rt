//! What a client that waits for its link comes to.
use link_run::links::CleanLink;
use link_start::start::StartError;
use memory_ends::memory_server::MemoryServer;
use message_view::Refusal;

/// What a client is answered that comes, or that asks for a link.
#[derive(Clone, Copy, Drop)]
pub enum Answer {
    /// Its number in the book; or how many of its pool wait before it.
    Number(u64),
    /// It is refused.
    Refused(Refusal),
    /// The book doesn't know it.
    Strange,
}

/// What a client that takes its link is answered.
#[derive(Drop)]
pub enum Taken {
    /// It has this link, which was idle or is new.
    Link(CleanLink<MemoryServer>),
    /// It waits on.
    Waits,
    /// It is refused.
    Refused(Refusal),
    /// The server refused the start of its link, by this error.
    Failed(StartError),
    /// The book knows it no more.
    Strange,
}
