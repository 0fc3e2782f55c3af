//! Tests of the lease book (`lease_book`), over links whose servers have gone: what it answers, and what it keeps and shows of itself.
//! Public: `book_parts`, for `desk_tests`.
#![tactic(auto)]

#[cfg(test)]
mod acts;
pub mod book_parts;
#[cfg(test)]
mod book_stories;
#[cfg(test)]
mod cancel_stories;
#[cfg(test)]
mod hang_up_stories;
#[cfg(test)]
mod histories;
#[cfg(test)]
mod places_beyond;
#[cfg(test)]
mod reconnect_stories;
#[cfg(test)]
mod row_stories;
#[cfg(test)]
mod shown_decisions;
