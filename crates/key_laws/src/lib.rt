//! The laws of start keys, proved over the definitions alone.
//!
//! Public: six laws over the definitions of `start_keys`, contracts of functions that do nothing, and nothing calls them. `link_model` and
//! `login_laws` cite the definitions, such as `key_pairs`, and they and `link_start` the lemmas. All else in the proofs is free to
//! change.
#![tactic(auto)]

pub mod laws;
