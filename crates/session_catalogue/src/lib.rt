//! The catalogue of the stand-in server, and the reading of its file.
//!
//! Public: `Catalogue`, which `pool_app` reads from a file, sessions look into (`session_state`, `session_statements`), and servers in
//! memory and `stub_server` share; and its faults, which `pool_app` tells. What a file spells is in the contracts (`Catalogues`), and
//! that all of it can be sent. `Catalogue::is_lawful` does nothing: it is there for the law, and called by `memory_dial`, `memory_pool`
//! and `replay_run`. A pool that serves has no catalogue. Free to change: how lines and fields are read.
#![tactic(auto)]

mod catalogue;
mod catalogue_draft;
mod catalogue_fault;
mod catalogue_fields;
mod catalogue_lines;

pub use catalogue::Catalogue;
pub use catalogue_fault::{CatalogueCause, CatalogueError};
