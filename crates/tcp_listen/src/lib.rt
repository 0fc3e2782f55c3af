//! The connections that clients make, at one listener or several.
//!
//! Public: `Acceptor` with its `Turn`, where `pool_run` and `stub_server` wait for clients; `listen_at`, `listen_at_name` and
//! `Listener::at_file`, by which `pgsess` listens; `Peer`, by which `pool_run` tells where a client comes from. Contracts say at which
//! places a listener may be, and that a client's end is new. Free to change: which listener is looked at next, and when all are looked at
//! again.
#![tactic(auto)]

pub mod acceptor;
pub mod binding;
pub mod listener;
