//! Tests of several clients over ends in memory, on one thread (`play`). Public: `files`, which the crates of tests of workers have
//! their settings, users and catalogue from, and `play_parts`, for StartupMessages of `serving_parts`.
#![tactic(auto)]

#[cfg(test)]
mod deaths;
pub mod files;
#[cfg(test)]
mod links;
pub mod play_parts;
#[cfg(test)]
mod refusals;
#[cfg(test)]
mod waiting;
