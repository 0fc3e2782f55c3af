//! The ends that a client's time with a worker can have: rows of who comes, of what stands behind the desk and of what comes of it, and
//! how workers are held to a row; who is let in where many are there; and what is told where no memory is found for what a client asks
//! for. The tests above, `refusing_tests` and `serving_tests`, have the rows.
//!
//! Public: rows and their parts, with `first_departure`, which tells where workers depart from them, `Crowd` with `is_next_told`, and `is_told_unasked`;
//! those two crates alone call them. It tests nothing itself: workers (`pool_serve`) are run by `worker_parts`.
#![tactic(auto)]

mod crowds;
mod gates;
mod guests;
mod meanwhile;
mod rows;
mod servers;
mod serving;
mod unasked;

pub use crowds::{Crowd, is_next_told};
pub use gates::TurnClock;
pub use guests::Talk;
pub use meanwhile::{Act, Moment};
pub use rows::{
    ASKED, Client, IN_CONSOLE, LEAVES, LET_IN, Last, NAMED, NONE, QUIET, Row, SHOWS, STAYS,
    UP_TO_KEY, Under, WELCOMED,
};
pub use servers::Behind;
pub use serving::first_departure;
pub use unasked::is_told_unasked;
