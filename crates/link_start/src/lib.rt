//! The start of a link: a server is started by a StartupMessage, its question answered, and its welcome read (PostgreSQL manual,
//! "Message Flow", "Start-up"); and its close.
//!
//! Public: `start_link`, with the causes by which it fails and what a client is told of them, for `pool_serve`, `memory_pool` and
//! `memory_lease`; `close_link` and `offer_terminate`, for these, `pool_run` and `play`; `link_desk` and `pool_watch` name links by it.
//! The types of `start_reply` are public since a cause and the contracts name them. The module `laws` is there for the law alone: nothing
//! calls it. Free to change: how many bytes a turn reads, which a contract names by `CHUNK`, and how what came is kept and read again.
#![tactic(auto)]

pub mod close;
pub mod laws;
mod messages;
pub mod start;
pub mod start_reply;

pub use link_run::links;
