//! A login over a client's end: it reads what the login waits for and no byte more, and gives the client what the login says.
//!
//! Public: `LoginRun` with what a turn came to and what is said at it, and the laws of what a run says of its client, contracts of
//! functions that do nothing; `pool_serve` alone calls them, and cites the definitions. Free to change: how many bytes a turn reads at
//! most.
#![tactic(auto)]

pub mod laws;
mod login_reply;
pub mod run;

pub use login_reply::LoginReply;
pub use run::{LoginRun, LoginTurn, Phase};
