//! The laws of the keys that StartupMessages give under settings, and of the key with which a login passes, proved over the
//! definitions alone.
//!
//! Public: seven laws, contracts of functions that do nothing. `pool_serve`, `play` and `replay_run` call those by which a key that
//! passed starts a link and is of its row (`passed_keys_are_link_keys`, `passed_keys_are_of_their_rows`, `bounded_rows_are_lawful`,
//! `settings_rows_are_lawful`); the other three nothing calls. `pool_serve` and `world_steps` cite the definitions. The proofs are free
//! to change, but for the lemmas that `world_steps` and `world_story` cite.
#![tactic(auto)]

pub mod laws;
