//! Ends of a lease in memory: a stand-in server, what cancels its statements, a client that hands out its input, an end that fails,
//! and one that has gone.
//!
//! Public: `MemoryServer`, over which `memory_lease`, `memory_pool` and `memory_dial` serve, and which `replay_run` makes; `started`,
//! `strikes` and `Striker`, by which `stub_server` answers and is cancelled; `MemoryClient`, `FailingEnd` and `GoneEnd`, for tests and
//! tools alone. A running pool has none of it. Free to change: at which call a server answers its packets, as long as a read that gives
//! nothing leaves none unanswered. What a `MemoryServer` keeps of all that it accepted and of the frames that were struck is there for
//! the law: nothing at run time reads it.
#![tactic(auto)]

pub mod dialogue;
pub mod failing_end;
pub mod gone_end;
pub mod memory_client;
pub mod memory_server;
pub mod striker;
