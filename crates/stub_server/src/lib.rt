//! The stand-in server for one connection, and for all that a listener has.
//!
//! Public: `stub_on`, for `pgsess stub` and `running_tests`; a running pool has none of it. The other modules are public, and no other
//! crate calls them: the contract of `serve_client` says what a client is given by the session's definitions, those of `Strikers` which
//! connection a cancel finds. Free to change: how connections come to threads and polls (`server`), of which no contract speaks.
#![tactic(auto)]

pub mod connection;
pub mod server;
pub mod strikers;
pub mod talk;
