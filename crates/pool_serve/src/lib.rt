//! A worker that serves one client: from its first byte, over any desk that lends links, to its end.
//!
//! Public: `serve`, the contract of what one client is given, and `uselessness`, for the log. `pool_run` calls both. Free to change: which
//! part of the work stands in which module, as long as each call of the desk stays one event.
#![tactic(auto)]

mod arriving;
mod ending;
mod final_message;
mod leasing;
mod logged_in;
mod noting;
mod opening;
mod relaying;
mod returning;
pub mod secrets;
pub mod serve;
mod worker;
