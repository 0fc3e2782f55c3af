//! The law of servers that ask one question at most: they answer as by a shorter definition, in which nothing is asked in rounds.
//!
//! Public: `starts_are_as_before`, the contract of a function that does nothing, and that definition of a server from its StartupMessage
//! on. Both are there for the law alone: nothing calls or cites them, and no crate stands on this one. The proof is free to change.
#![tactic(auto)]

ghost use Rattle.start_before.specs.Before.{StartsAreAsBefore};

/// A server that asks for nothing, or one question whose answer is a text, goes on from its StartupMessage as it did before a server
/// could ask in rounds.
pub fn starts_are_as_before()
    ensures { StartsAreAsBefore }
{}
