//! What the desk answers to those who run it.

pub use desk_tallies::answers::{Changed, Strike};
use link_run::links::CleanLink;
use server_end::ServerEnd;

/// To the clock.
#[derive(Drop)]
pub enum Ticked<E: ServerEnd> {
    /// Nothing is to be closed.
    Done,
    /// This idle link is to be closed, and there may be more: the same second is told again.
    Close(CleanLink<E>),
    /// The book has made its last decision.
    Last,
}

/// To who saw that the server of a link has hung up.
#[derive(Drop)]
pub enum HungUp<E: ServerEnd> {
    /// The link, which was idle, is to be closed.
    Close(CleanLink<E>),
    /// It isn't idle any more: who has it sees so too.
    NotIdle,
    /// The book has made its last decision.
    Last,
}
