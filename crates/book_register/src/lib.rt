//! The register of the lease book: its lists, and what each event makes of them. After it was made it needs no
//! memory: only its indexes by pool may take some, and are given up where they can't.
//!
//! Public: `BookState`, whose `apply` and `apply_return` are the definition's, and `BookView`, a copy that the console and the metrics
//! read. `lease_book` alone changes it. Free to change: in which order a list is searched.
#![tactic(auto)]

mod beginning;
pub mod book_state;
mod deciding;
pub mod view;
