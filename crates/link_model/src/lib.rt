//! What a link is, by definitions alone: the server behind it from its StartupMessage on, the moves of bytes over its end, and
//! what a lease of it keeps. The laws are contracts of functions that do nothing.
//!
//! Public: twelve laws, of which `stub_server` calls `futures_stay` and nothing calls the others, and the definitions, above all
//! `Standing`, `ClientFacts` and `Moves`, in which the traits of `server_end` are written: so whatever has an end, a link or a lease
//! stands on them. Nothing is there at run time. The proofs are free to change, but for the lemmas that crates above cite (`Both`,
//! `ByName`, `InSession`, `Splits`).
#![tactic(auto)]

ghost use Rattle.link_model.specs.Dialogues.{StartPacketsSplit, StartRepliesAreFrames, StartedIsFresh, StartsAreTold};
ghost use Rattle.link_model.specs.Futures.{DeathsCut, FuturesStay};
ghost use Rattle.link_model.specs.Leases.{LeasesAreExact, LeasesAreFronts, SettledLinksRest};
ghost use Rattle.link_model.specs.Standing.{MovesJoin, SparedAreUnstruck};
ghost use Rattle.link_model.specs.Starts.{StartsAreOfTheirKeys};

use frame_view::laws::{first_spelled_is_read, spelled_is_first, spelled_is_front};

/// Two moves, one after the other, are one.
pub fn moves_join()
    ensures { MovesJoin }
{}

/// A server that no cancel reaches is never struck.
#[tactic(auto, using(crate::proofs::ByName::spared_are_unstruck))]
pub fn spared_are_unstruck()
    ensures { SparedAreUnstruck }
{}

/// A server that is started by a link's StartupMessage opens the fresh session of the link's key, or refuses it as that key is
/// refused.
pub fn starts_are_of_their_keys()
    ensures { StartsAreOfTheirKeys }
{}

/// What a server answers to a start is whole frames, each of at most 65,536 bytes.
pub fn start_replies_are_frames()
    ensures { StartRepliesAreFrames }
{}

/// The packets of a start that a server took are the first of those that were sent to it.
pub fn start_packets_split()
    ensures { StartPacketsSplit }
{}

/// Of a server that follows, dead or alive, the whole frames that came are a front of what it answers to the start.
pub fn starts_are_told()
    ensures { StartsAreTold }
{}

/// Once a ReadyForQuery came, last of all, the server stands idle in the fresh session of the link's key.
pub fn started_is_fresh()
    ensures { StartedIsFresh }
{}

/// What a server takes and gives leaves its future as it was, under the marks of the frames that it took.
pub fn futures_stay()
    ensures { FuturesStay }
{
    spelled_is_front();
    spelled_is_first();
    first_spelled_is_read();
}

/// What comes of a server that dies is a beginning of its future.
pub fn deaths_cut()
    ensures { DeathsCut }
{
    spelled_is_front();
    spelled_is_first();
    first_spelled_is_read();
}

/// Over a link that follows and lives, what the client was given, what is held and what is still to come are what a server of
/// the client's own answers to the frames that went on, where cancels struck those that the link's end has marked.
#[tactic(auto, using(crate::proofs::ByName::leases_are_exact))]
pub fn leases_are_exact()
    ensures { LeasesAreExact }
{}

/// Over a link that follows, dead or alive, what the client was given and what is held begin it.
#[tactic(auto, using(crate::proofs::ByName::leases_are_fronts))]
pub fn leases_are_fronts()
    ensures { LeasesAreFronts }
{}

/// A settled lease leaves its link at rest.
pub fn settled_links_rest()
    ensures { SettledLinksRest }
{}
