//! Bytes that only clauses read: they take no memory, and what notes them does nothing at run time.
ghost use Rattle.std.specs.Prelude.{◌≡◌, ℕ, List, [], ◌++◌};
ghost use Rattle.std.specs.Borrow.{ftrue};

use std::marker::{Model, PhantomData};

/// All bytes that an end took, or all that it gave. A clause reads them as `bytes`.
#[derive(Drop)]
pub struct Transcript {
    marker: PhantomData<u8>,
    pub ghost bytes: { List ℕ },
}

impl Model for Transcript {
    ghost also_owns = { λ _. ftrue };
}

// It owns nothing.
unsafe impl Send for Transcript {}

impl Transcript {
    /// None so far.
    pub fn new() -> Transcript
        ensures { result.bytes ≡ [] }
    {
        Transcript {
            marker: PhantomData,
        }
    }

    /// These came too.
    pub fn note(&mut self, _bytes: &[u8])
        ensures { self.new.bytes ≡ self.old.bytes ++ _bytes.now }
    {}
}
