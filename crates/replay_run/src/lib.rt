//! `pgsess replay`: one client in memory, under standing settings and users, over a stand-in server of its own.
//!
//! Public: `replay`, which `pgsess` calls, and `replies`, for `trials` and `app_tests`, which cut the bytes and let the server die. Its
//! contracts (`Replay`) say what one client is owed, by the definitions of the login and the session; no crate cites them. `Unended` is
//! what is answered where a lease comes to no end: that none does isn't proved, and no test has met one. Free to change: how many bytes a
//! call of an end moves.
#![tactic(auto)]

pub mod replay;
mod standing;
