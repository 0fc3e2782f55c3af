//! Clients in memory that send by the acts of a play.
//!
//! Public: `Act`, `Script`, `scripts` and `ActClient`, for `play` alone; the program has none of it. Contracts say what each client sends
//! in all. How far a play has come with it stands in cells that they don't see, and how that is kept is free to change.
#![tactic(auto)]

mod client;
mod script;

pub use client::ActClient;
pub use script::{Act, Script, scripts};
