//! Where a connection was dialled, which only clauses read: it takes no memory, and what makes it does nothing at run time.
ghost use Rattle.std.specs.Prelude.{◌≡◌, Option, None, Some};
ghost use Rattle.std.specs.Borrow.{ftrue};
ghost use Rattle.tcp_reach.specs.Places.{PlaceOf};

use std::marker::{Model, PhantomData};
use tcp_reach::places::Place;

/// The place to which a connection leads, where it was dialled. A clause reads it as `place`.
#[derive(Drop)]
pub struct Destination {
    marker: PhantomData<u8>,
    pub ghost place: { Option PlaceOf },
}

impl Model for Destination {
    ghost also_owns = { λ _. ftrue };
}

// It owns nothing.
unsafe impl Send for Destination {}

impl Destination {
    /// That of a connection that wasn't dialled.
    pub fn unknown() -> Destination
        ensures { result.place ≡ None }
    {
        Destination {
            marker: PhantomData,
        }
    }

    /// This place.
    pub fn of(_place: &Place) -> Destination
        ensures { result.place ≡ Some _place.now }
    {
        Destination {
            marker: PhantomData,
        }
    }
}
