//! A worker that serves one client of the console, behind its login.
//!
//! Public: `serve_console`, whose exchanges `pool_serve` cites. Free to change: what is logged beside them.
#![tactic(auto)]

mod acting;
mod answering;
pub mod console;
mod talk;
