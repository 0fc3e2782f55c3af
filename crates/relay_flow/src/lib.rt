//! One direction of a relay: bytes on their way from one end to the other, through a buffer of a fixed size.
//!
//! [`parts`] says how far a cursor goes, so that a frame longer than the buffer goes on in parts, and none goes on
//! before its head is lawful. [`flow`] has the bytes that may go on, and behind them those that may not yet, in one of the buffers of
//! [`buffers`]. Nothing but new buffers takes memory.
//!
//! Public: `Buffers`, which a thread of `pool_run` keeps from one lease to the next and `pool_serve` hands on; `Flow`, `Passed` and
//! `Ends`, for `relay_core`. `relay_model`, `relay_core` and `wire_laws` cite the definitions. Free to change: when bytes are moved to the
//! front of a buffer, as long as one that isn't full has room for a byte more.
#![tactic(auto)]

pub mod buffers;
pub mod flow;
pub mod parts;
