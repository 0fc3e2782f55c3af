//! What is known of a pool beside its lease book: who is there and what each is at, and what went through each database. Nothing is proved
//! of it but that it is safe, and that a watched desk is a desk; what monitors are shown of it is proved by monitor_core.
//!
//! Public: `Watch` and `WatchedDesk`, for `pool_run`. Everything behind their signatures is free to change.
#![tactic(auto)]

pub mod databases;
pub mod desk;
pub mod seats;
pub mod watch;
