//! The laws of whole runs of a stand-in server's session, and conversations worked out by its definitions.
//!
//! Public: eight laws of lists of frames and of settled counts, contracts of functions that do nothing, and nothing calls them.
//! `link_model`, `link_run`, `paced_client`, `start_before`, `world_steps` and `world_model` cite the definitions, some of them those of
//! `session_values` and `session_laws` that are handed on here. The conversations (`proofs/Worked.antt`) are there for the law alone:
//! nothing cites them. The proofs are free to change, but for the lemmas that crates above cite.
#![tactic(auto)]

pub mod runs;

pub use session_values::{cause, parameter};
