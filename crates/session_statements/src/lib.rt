//! Statements: what their names stand for, and what running them gives.
//!
//! Public, for `session_machine` alone: `look_up`, `read_narrow`, `usable` and `run`, what a run leaves (`ran`), and the writers of rows
//! and columns (`output`). The statements stand in private modules, whose contracts are the definitions of `session_values` (`Lookups`,
//! `Runs`, `Picks`). The stand-in server alone runs it. Free to change: how tables, columns and cursors are searched.
#![tactic(auto)]

mod blocks;
mod changes;
mod cursors;
pub mod lookup;
pub mod output;
pub mod ran;
mod rows;
pub mod run;
mod set;

pub use session_state::{portal, session};
