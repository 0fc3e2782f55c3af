//! The state of a session, how it begins, and what a transaction keeps and gives back.
//!
//! Public: `SessionState` and what it has (`portal`, `cursor`, `kept`, `work`), for `session_statements`, which changes it, and passes
//! `session` and `portal` on to `session_machine`: the stand-in server alone runs it. Contracts see the state as `session_values` defines
//! it. Free to change: what it knows beside that to leave work out (`Known`: that no report is due, that no statement is unnamed), and
//! when what a roll back gives back is copied.
#![tactic(auto)]

pub mod cursor;
pub mod kept;
pub mod portal;
pub mod ready;
pub mod session;
pub mod start;
pub mod work;

pub use session_catalogue::Catalogue;
