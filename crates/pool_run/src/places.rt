//! Where links lead whose hosts have several places.

use std::alloc::{AllocError, Global};
use tcp_reach::places::Place;

/// So many links are remembered, the latest of those whose numbers leave the same rest.
const REMEMBERED: u64 = 16_384;

/// A link's number, and where its server is.
#[derive(Clone, Copy)]
struct Led {
    number: u64,
    place: Place,
}

/// Where the latest links lead, each found by its number: a cancel must go where its link went, though a name may stand for other
/// places by then. A link that others have driven out is found nowhere.
#[derive(Drop)]
pub(crate) struct Places {
    led: Vec<Option<Led>>,
}

/// Where a link is remembered.
fn slot(number: u64) -> usize {
    (number % REMEMBERED) as usize
}

impl Places {
    /// None yet. It takes no memory.
    pub(crate) fn new(alloc: Global) -> Places {
        Places {
            led: Vec::new(alloc),
        }
    }

    /// Remembers where the link of this number leads. The only error is that an allocation failed: then it isn't remembered.
    pub(crate) fn put(&mut self, number: u64, place: Place) -> Result<(), AllocError> {
        let at = slot(number);
        for _ in self.led.len()..=at {
            self.led.push(None)?;
        }
        if let Some(led) = self.led.get_mut(at) {
            *led = Some(Led { number, place });
        }
        Ok(())
    }

    /// Where the link of this number leads, if it is remembered.
    pub(crate) fn of(&self, number: u64) -> Option<Place> {
        match self.led.get(slot(number)) {
            Some(Some(led)) if led.number == number => Some(led.place),
            _ => None,
        }
    }
}
