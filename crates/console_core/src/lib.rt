//! The console: its commands, what it answers to each from a view of the lease book and the settings, and what it answers to the other
//! messages of its clients. It does nothing itself.
//!
//! Public: `answer` and `reply_to`, which are functions of a view and of settings, and the writers of their replies; `monitor_core`,
//! `metrics_text` and `console_run` cite them. Free to change: how cells are put together.
#![tactic(auto)]

pub mod cells;
pub mod commands;
pub mod config;
mod lists;
pub mod messages;
pub mod pools;
pub mod reply;
pub mod writing;
