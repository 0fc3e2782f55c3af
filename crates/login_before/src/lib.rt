//! The law of a login that asks nobody for SCRAM: its dialogue is that of a shorter definition, which knows no SCRAM.
//!
//! Public: `logins_are_as_before`, the contract of a function that does nothing, and the definition `login_before`. Both are there for
//! the law alone: nothing calls or cites them, and no crate stands on this one. The proof is free to change.
#![tactic(auto)]

ghost use Rattle.login_before.specs.Before.{LoginsAreAsBefore};

/// Where nobody is asked for SCRAM, the login's dialogue is the one of before it knew SCRAM.
pub fn logins_are_as_before()
    ensures { LoginsAreAsBefore }
{}
