//! Plays: several clients over one lease book and its links, on one thread.
//!
//! Public: `play`, whose contract says of several clients what the headline says of all; it is there for the law and its tests, and the
//! program has none of it.
#![tactic(auto)]

mod acts;
mod lease;
mod login;
mod played;
mod player;
mod stage;
mod table;
mod waiting;

pub use act_client::Act;
pub use acts::play;
pub use played::{Given, Played};
