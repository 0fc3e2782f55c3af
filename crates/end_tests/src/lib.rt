//! Tests of the ends in memory (`server_end`, `memory_ends`) and of the client that waits for its answers (`paced_client`).
#![tactic(auto)]

#[cfg(test)]
mod cancels;
#[cfg(test)]
mod client_talk;
#[cfg(test)]
mod clients;
#[cfg(test)]
mod deaths;
#[cfg(test)]
mod paced_clients;
#[cfg(test)]
mod packets;
#[cfg(test)]
mod server_starts;
#[cfg(test)]
mod server_talk;
