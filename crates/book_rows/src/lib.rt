//! The rows of the lease book, each kind in a list of its own: clients, tickets, links and leases, found by number, by pool or by key
//! word.
//!
//! Public to `book_register` and to those that show rows (the console, the metrics). Contracts say that each list is the definition's, in
//! its order; how a row is found (slots, notes, the index by pool) is free to change.
#![tactic(auto)]

pub mod clients;
pub mod firsts;
pub mod index;
pub mod leases;
pub mod links;
mod pool_index;
pub mod pools;
mod short_names;
pub mod tickets;
