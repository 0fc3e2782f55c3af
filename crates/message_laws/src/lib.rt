//! The laws of messages: what is written is cut out and read again, and a body is read as parts only where they spell it.
//!
//! Public: twenty-one laws over the definitions of `message_view`, contracts of functions that do nothing, and nothing calls them. The
//! proofs of `session_laws`, `link_model`, `start_before`, `memory_ends`, `link_start` and `play` cite lemmas of `proofs/`; all else in
//! the proofs is free to change.
#![tactic(auto)]

pub mod laws;
