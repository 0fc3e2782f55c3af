//! A lease under way, by definitions alone: what each move of bytes keeps of it, what a pump answers and why it waits, and what the
//! lease says of the client and the link.
//!
//! What follows from it are the laws here, contracts of functions that do nothing. That each move keeps it, and that reads, writes
//! and answers are what they are said to be, are lemmas in `proofs/`, which the relay's code cites. The types are those that the
//! definitions name.
//!
//! Public: the types, for `relay_core`, of which `pool_serve` and `play` have `Next` too; `leases_are_allowed`, which `pool_serve` calls.
//! The other three laws nothing calls. `relay_core`, `pool_serve`, `play` and `wire_laws` cite the definitions: whoever changes `IsLease`
//! or `judged` changes what a lease promises. Nothing but the types is there at run time, and nothing but the proofs is free to change.
#![tactic(auto)]

ghost use Rattle.relay_model.specs.Laws.{LeasesAreAllowed, LeasesAreExact, SettledLinksAreUsed, UntouchedLinksAreClean};

use disposal::laws::settled_exactly;
use message_view::Refusal;

/// What the ends have answered so far.
#[derive(Clone, Copy, Drop)]
pub struct Flags {
    /// A byte went over the link, either way.
    pub touched: bool,
    /// The client's end faulted, or takes nothing more.
    pub client_over: bool,
    /// The client's end gives nothing more.
    pub input_over: bool,
    /// The link's end faulted or ended.
    pub link_over: bool,
}

/// Whether a relay has ended.
#[derive(Clone, Copy, Drop)]
pub enum Phase {
    /// Bytes move.
    Running,
    /// By its client.
    Done,
    /// By a refusal, or by the link's end.
    Shut,
}

/// What a pump came to.
#[derive(Clone, Copy, PartialEq, Eq, Drop)]
pub enum Next {
    /// A byte was read or written: pump again.
    Again,
    /// None was: wait until an end is ready.
    Wait,
    /// The client is done: it sent Terminate, and what stands before it is written, or its end ended or faulted.
    ClientDone,
    /// The client is refused, at a border of the frames that it was given: its bytes are malformed or too long, the
    /// server's are malformed, or the server's end faulted or ended.
    Refuse(Refusal),
    /// The server's end faulted or ended inside a frame of which a part was given, so no refusal can stand behind it; or
    /// the client was refused before.
    Closed,
}

/// Over a link that follows and lives, what the client was given and is still to be given is what a server started for it
/// alone answers to its frames, where cancels struck those that the link's end has marked.
pub fn leases_are_exact()
    ensures { LeasesAreExact }
{}

/// Over a link that follows, dead or alive, what the client was given begins that, and what the link accepted are the
/// client's own bytes.
pub fn leases_are_allowed()
    ensures { LeasesAreAllowed }
{}

/// A link over which nothing went is as clean as it was.
pub fn untouched_links_are_clean()
    ensures { UntouchedLinksAreClean }
{}

/// Over a link on which the verdict is Settled a settled lease went, and where its end follows it is at rest.
pub fn settled_links_are_used()
    ensures { SettledLinksAreUsed }
{
    settled_exactly();
}
