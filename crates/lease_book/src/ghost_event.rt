//! An event that only clauses read: it takes no memory, and what makes it does nothing at run time.
ghost use Rattle.std.specs.Prelude.{◌≡◌};
ghost use Rattle.std.specs.Borrow.{ftrue};
ghost use Rattle.book_model.specs.Events.{event_of};
ghost use Rattle.book_model.specs.Outcomes.{Event};
ghost use Rattle.book_model.specs.Outcomes.Event.{GiveBack};

use book_model::events as lists;
use std::marker::{Model, PhantomData};

/// An event of the lists. A clause reads it as `event`.
#[derive(Drop)]
pub struct GhostEvent {
    marker: PhantomData<u8>,
    pub ghost event: { Event },
}

impl Model for GhostEvent {
    ghost also_owns = { λ _. ftrue };
}

// It owns nothing.
unsafe impl Send for GhostEvent {}

impl GhostEvent {
    /// This event.
    pub fn of(_event: &lists::Event) -> GhostEvent
        ensures { result.event ≡ event_of _event.now }
    {
        GhostEvent {
            marker: PhantomData,
        }
    }

    /// That the link of this number came back.
    pub fn returned(_link: &u64) -> GhostEvent
        ensures { result.event ≡ GiveBack _link.now }
    {
        GhostEvent {
            marker: PhantomData,
        }
    }
}
