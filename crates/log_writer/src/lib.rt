//! The writer of the pool's log: lines wait in a queue, and one thread writes them.
//!
//! Public: `begin`, which gives the `Log` and its thread, and `Limiter`, for `pool_run`; nobody else has a `Queue`. Contracts say which
//! lines wait and which are counted as dropped (`Queues`), and how often something is logged (`Limits`); no other crate cites them. Of the
//! thread nothing is proved. Free to change: how many lines may wait, and how long one may be.
#![tactic(auto)]

pub mod limiter;
pub mod log;
pub mod queue;
