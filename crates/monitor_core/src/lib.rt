//! What monitors ask of the console beside its own commands, and what they are answered: the tables of PgBouncer's console, with its
//! columns and types (PgBouncer manual, "Admin console"). It does nothing itself.
//!
//! Public: `read_request`, `monitor_answer` and the writers of its replies; `console_run` cites them, `metrics_text` the figures of rows.
//! Free to change: how a table's rows are found.
#![tactic(auto)]

mod addresses;
pub mod asking;
pub mod columns;
mod known;
mod pools;
pub mod reply;
pub mod rows;
mod servers;
mod tables;
mod times;
pub mod writing;
