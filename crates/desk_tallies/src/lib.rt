//! Counters of decisions by class, and the passes that share in them, each of which knows who holds it.
//!
//! Public: `Pass` and `Tallies`, for `pool_desk`. That all passes together made all decisions follows from ledgers of the standard
//! library, whose parts can't be made twice: their types are there for the law. Free to change: when a counter goes on.
#![tactic(auto)]

pub mod ledgers;
pub mod passes;
pub mod tallies;

pub use link_desk::{answers, calls, desk};
