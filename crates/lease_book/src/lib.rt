//! The lease book: which link goes to whom, and the links that wait for it.
//!
//! Public: `Book`, whose `apply` says of lists, history and idle links what the definitions do; `pool_desk` has one behind its lock,
//! `memory_pool` one without. The histories behind its kept decisions are there for the law: nothing at run time reads them. Free to
//! change: how idle links are stored.
#![tactic(auto)]

mod base;
pub mod book;
mod event_kinds;
pub mod events;
mod ghost_event;
pub mod history;
mod idle;
mod kept_event;
pub mod shown;
