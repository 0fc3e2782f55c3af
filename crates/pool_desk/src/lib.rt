//! The desk that lends links: the lease book behind one lock. What it adds to the book: each event is one hold of the lock, is made
//! through a pass that counts it and knows who holds it, and wakes the clients that it may help.
//!
//! Public: `Desk`, which is a `LinkDesk`, and the trait `Outside` of what it reaches; `pool_run` gives it servers, files and a log,
//! `memory_dial` servers in memory. Free to change: who is woken when (`helping`, `wants`), of which contracts say only that those are
//! whom a definition names.
#![tactic(auto)]

pub mod answers;
mod bells;
pub mod desk;
mod hearing;
mod helping;
mod inner;
mod minding;
pub mod outside;
mod wants;
