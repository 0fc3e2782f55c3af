//! What the clients of a play are served over: the lease book with its links, and a server in memory behind each of them.
//!
//! Public: `MemoryPool`, for `play` alone, which follows the same definitions as the desk does without its lock; the program has none of
//! it.
#![tactic(auto)]

pub mod answers;
mod pool;

pub use pool::MemoryPool;
