//! Laws by which links to ends begin, the contracts of functions that do nothing.
//!
//! Public: `memory_servers_can_start`, which `memory_pool`, `memory_dial`, `oom_probe` and `link_tests` call of their stand-in servers;
//! `unfollowed_starts_are_clean`, by which `trials`, `oom_probe`, `book_tests` and `link_tests` have links that no server was started
//! behind. The two laws of servers that ask for SCRAM are there for the law alone: no stand-in server asks so. The proofs alone are free
//! to change.
#![tactic(auto)]

ghost use Rattle.memory_start_laws.specs.Scram.{ScramServersCanStart, ScramServersLetIn};
ghost use Rattle.memory_start_laws.specs.Starts.{MemoryServersCanStart, UnfollowedStartsAreClean};

/// A stand-in server in memory, as it was made, can be started by anybody.
pub fn memory_servers_can_start()
    ensures { MemoryServersCanStart }
{}

/// An end that follows nothing makes a clean link, where it tells that one was started over it by the shortest answer.
pub fn unfollowed_starts_are_clean()
    ensures { UnfollowedStartsAreClean }
{}

/// A server that asks for SCRAM-SHA-256 can be started by the user for whom it was made.
pub fn scram_servers_can_start()
    ensures { ScramServersCanStart }
{}

/// It lets that user in, by the user's own password.
pub fn scram_servers_let_in()
    ensures { ScramServersLetIn }
{}
