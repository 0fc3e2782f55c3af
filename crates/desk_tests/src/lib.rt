//! Tests of the desk that lends by the lease book (`pool_desk`, with the passes of `desk_tallies`), over links whose servers have gone:
//! its answers one after the other, and clients that wait there in threads.
#![tactic(auto)]

#[cfg(test)]
mod cancel_stories;
#[cfg(test)]
mod desk_acts;
#[cfg(test)]
mod desk_decisions;
#[cfg(test)]
mod desk_parts;
#[cfg(test)]
mod desk_rows;
#[cfg(test)]
mod desk_stories;
#[cfg(test)]
mod minded_links;
#[cfg(test)]
mod waits;
