//! By what a user is let in at a server: its secret, the client key that its client revealed of a verifier, and a nonce; and what they make
//! of a server's challenge by SCRAM-SHA-256 (RFC 5802, RFC 7677; PostgreSQL manual, "SASL Authentication").
//!
//! Public: `Credential`, which `pool_serve` makes for each start of a link (in memory `memory_pool` and `replay_run` do), desks and dials
//! hand on, and `link_start` asks; and `Exchange`, for `link_start`. The definitions (`Credentials`, `Exchanges`) are cited by
//! `link_start`, `pool_serve`, what serves in memory, and `memory_start_laws`. Free to change: what is kept of a challenge that was
//! answered, which contracts don't see.
#![tactic(auto)]

mod credential;
mod exchange;
mod made;

pub use credential::Credential;
pub use exchange::Exchange;
