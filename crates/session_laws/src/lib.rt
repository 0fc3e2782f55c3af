//! The laws of a stand-in server's session: of a statement and its text, of one step, and of its start and its resets.
//!
//! Public: laws over the definitions of `session_values`, contracts of functions that do nothing, of which `world_leases` calls
//! `start_error_is_frame` and nothing calls the others. `session_run_laws`, `relay_model` and `world_steps` cite the definitions, such as
//! `Reaches` and `IsSent`, and they and crates above the lemmas. With `session_run_laws` they are all that a pooler needs to know of a
//! server's session. All else in the proofs is free to change.
#![tactic(auto)]

pub mod laws;
pub mod starts;
pub mod statements;
