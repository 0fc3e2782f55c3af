//! Bytes of which clauses read which they were, and the program how many.
ghost use Rattle.std.specs.Prelude.{◌≡◌, ◌++◌, ◌-◌, ◌^◌, [], length, min};

use server_end::transcript::Transcript;
use std::marker::Model;

/// All bytes that an end took, or all that it gave. The program keeps their number, which stops at the greatest.
pub(crate) struct Counted {
    noted: Transcript,
    count: u64,
}

impl Drop for Counted {
    fn drop(self) {
        let Counted { noted: _, count: _ } = self;
    }
}

impl Model for Counted {
    ghost use Rattle.std.specs.Prelude.{◌≡◌, ◌-◌, ◌^◌, List, ℕ, length, min};

    ghost Value = { List ℕ };

    ghost view = { λ c. c.noted.bytes };

    ghost invariant = { λ c. c.count ≡ min (length c.noted.bytes) (2 ^ 64 - 1) };
}

impl Counted {
    /// None so far.
    pub(crate) fn new() -> Counted
        ensures { result ≡ [] }
    {
        Counted {
            noted: Transcript::new(),
            count: 0,
        }
    }

    /// These came too.
    pub(crate) fn note(&mut self, bytes: &[u8])
        ensures { self.new ≡ self.old ++ bytes.now }
    {
        self.noted.note(bytes);
        self.count = self.count.saturating_add(bytes.len() as u64);
    }

    /// How many there are.
    pub(crate) fn count(&self) -> u64
        ensures { result ≡ min (length self.now) (2 ^ 64 - 1) }
    {
        self.count
    }
}
