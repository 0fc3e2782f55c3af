//! What a worker knows of the desk that lends links: the calls, and what each answers.
//!
//! Public: the trait `LinkDesk`, whose clauses say of each call what it makes of its pass; `pool_serve` and `console_run` know no other
//! desk. `pool_desk` is the one that runs, `pool_watch` looks on at one. Whoever changes a clause changes what `serve` is proved over.
#![tactic(auto)]

pub mod answers;
pub mod calls;
pub mod desk;
