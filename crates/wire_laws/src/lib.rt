//! Laws of how much is kept of what goes over a link, contracts of functions that do nothing.
//!
//! Public: `sizes_are`, which states the bounds of `relay_flow`, `link_run` and `param_track` as numbers, and `idle_has_room`. They are
//! there for the law alone: nothing calls them, and no crate stands on this one. Whoever changes one of those constants changes
//! `AreSizes` with it.
#![tactic(auto)]

ghost use Rattle.wire_laws.specs.Sizes.{AreSizes, IdleHasRoom};

/// The sizes by which a lease's buffers, its longest reports, a start's names and the answers to it are bound.
pub fn sizes_are()
    ensures { AreSizes }
{}

/// Where nothing is held of a direction, and nothing of its part may go on, there is room for a read: so a lease doesn't wait for ever
/// on a lawful frame.
#[tactic(auto, using(crate::proofs::Sizes::idle_has_room))]
pub fn idle_has_room()
    ensures { IdleHasRoom }
{}
