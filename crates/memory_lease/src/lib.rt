//! One client in memory over one new link, on one thread: from its first byte after the login to its end.
//!
//! Public: `serve_alone` with its `ServeError`, whose contract says what a client is given behind its login; `replay_run` calls it for
//! `pgsess replay`, and `link_tests` tries it. Its server and its client are ends of its own. Free to change: which side is pumped first,
//! and after how many pumps in vain a lease is given up; the turns of a start a contract names by `START_TURNS`.
#![tactic(auto)]

pub mod alone;
mod own_server;
mod patient_client;
