//! A client in memory that waits for the answer to each closing message before it goes on.
//!
//! Public: `PacedClient`, for `end_tests`, `link_tests` and `pool_tests`; the program has none of it. Free to change: how the places
//! where it waits are kept, and how the answers are counted (`pauses`); contracts know its input, what was taken of it and what it was
//! given.
#![tactic(auto)]

mod paced_client;
mod pauses;

pub use paced_client::PacedClient;
