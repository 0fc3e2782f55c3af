//! Links to servers: clean, lent and used, and the reset that leads from used to clean.
//!
//! Public: `CleanLink`, `UsedLink` and `LinkParts`, whose invariants say what went over a link: `lease_book` keeps clean ones, and a
//! lease of `relay_core` makes one of either kind, or neither, of the one that it was lent; `reset_link`, for `pool_serve` and
//! `memory_pool`; `welcome_over`, for `relay_core`; `ReplyFrames` and the numbers of `sasl`, for `link_start`. The module `laws` is there
//! for the law alone: nothing calls it. Free to change: how many bytes a turn of a reset reads, and how the answer is kept meanwhile.
#![tactic(auto)]

pub mod laws;
pub mod links;
pub mod reply;
pub mod reset;
pub mod sasl;
pub mod welcome;

pub use server_end::{Moved, ServerEnd, gate};
