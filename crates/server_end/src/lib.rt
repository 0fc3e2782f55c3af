//! The two ends of a lease, as traits whose ghost member says where an end stands, and the gate where a worker waits for their bytes.
//!
//! Public: `ServerEnd`, `ClientEnd` and `Gate`, over any of which links, logins, relays and workers are proved; `memory_ends`,
//! `memory_lease`, `paced_client`, `act_client`, `tcp_end`, `trials` and crates of tests have ends of their own. Whoever changes a clause
//! changes what all of them are proved over. `Transcript` and `TurnCount` are there for the law: what notes in them does nothing at run
//! time. No clause says how long a turn waits, nor more of `limit`, `know`, `tell`, `watch` and `unwatch` than that they take no turn and
//! leave ends as they stand: each gate is free in that.
#![tactic(auto)]

pub mod gate;
pub mod transcript;

ghost use Rattle.std.specs.Prelude.{◌≡◌, ◌<◌, ◌≤◌, [], drop, length};
ghost use Rattle.link_model.specs.Standing.{Standing, Moves, ClientFacts};
ghost use Rattle.server_end.specs.Moves.{ClientReads, ClientWrites, CountsRead, CountsWrite, IsWithin, moved};

/// What a read or a write came to.
#[derive(Clone, Copy, PartialEq, Eq, Drop)]
pub enum Moved {
    /// So many bytes, from 1 to the slice's length.
    Count(usize),
    /// None at this time.
    NotNow,
    /// None any more.
    Ended,
    /// None, by a fault.
    Fault,
}

/// What of these bytes is still to go, of which so many have gone. It stands for itself, since a loop that cuts its bytes is proved
/// the faster without the cut.
pub fn rest_of(bytes: &[u8], gone: usize) -> &[u8]
    requires { gone ≤ length bytes.now }
    ensures { result.now ≡ drop gone bytes.now }
{
    &bytes[gone..]
}

/// A server's end of a link.
pub trait ServerEnd: Drop {
    ghost standing: { Self → Standing };

    /// Reads bytes of the server into the front of `into`, which isn't empty.
    fn read_some(&mut self, into: &mut [u8]) -> Moved
        requires { 0 < length into.old }
        ensures within { IsWithin result (length into.old) }
        ensures moves { Moves (standing self.old) [] (standing self.new) (moved result into.new) }
        ensures counts { CountsRead (standing self.old) (standing self.new) result };

    /// Gives the server the first bytes of `from`, which isn't empty.
    fn write_some(&mut self, from: &[u8]) -> Moved
        requires { 0 < length from.now }
        ensures within { IsWithin result (length from.now) }
        ensures moves { Moves (standing self.old) (moved result from.now) (standing self.new) [] }
        ensures counts { CountsWrite (standing self.old) (standing self.new) result };

    /// How many calls came to a fault.
    fn faults(&self) -> u64
        ensures { result ≡ (standing self.now).faults };

    /// How many reads, and how many writes, came to nothing at that time.
    fn waits(&self) -> (u64, u64)
        ensures read { result.0 ≡ (standing self.now).read_waits }
        ensures write { result.1 ≡ (standing self.now).write_waits };
}

/// A client's end.
pub trait ClientEnd: Drop {
    ghost facts: { Self → ClientFacts };

    /// Reads bytes of the client into the front of `into`, which isn't empty.
    fn read_some(&mut self, into: &mut [u8]) -> Moved
        requires { 0 < length into.old }
        ensures within { IsWithin result (length into.old) }
        ensures reads { ClientReads (facts self.old) (facts self.new) (moved result into.new) result };

    /// Gives the client the first bytes of `from`, which isn't empty.
    fn write_some(&mut self, from: &[u8]) -> Moved
        requires { 0 < length from.now }
        ensures within { IsWithin result (length from.now) }
        ensures writes { ClientWrites (facts self.old) (facts self.new) (moved result from.now) result };

    /// How many calls came to a fault.
    fn faults(&self) -> u64
        ensures { result ≡ (facts self.now).faults };

    /// How many reads, and how many writes, came to nothing at that time.
    fn waits(&self) -> (u64, u64)
        ensures read { result.0 ≡ (facts self.now).read_waits }
        ensures write { result.1 ≡ (facts self.now).write_waits };
}
