//! An index of key words: for each of 65,536 places, how many leases there are whose client's key word belongs there.
ghost use Rattle.std.specs.Prelude.{◌≡◌, ◌<◌, ◌≤◌, ◌-◌, suc, IfOk, get_or, nat_lt, replicate, set};
ghost use Rattle.book_rows.specs.Index as spec;
ghost use Rattle.book_rows.specs.declared.index.TheConstants.{PLACES};

use message_view::KeyView;
use std::alloc::{AllocError, Global};
use std::marker::Model;

/// How many places there are: more than six for each link that there can be.
pub const PLACES: u32 = 65_536;

/// The place of a key word: by its process id, which is no secret.
fn place_of(word: KeyView) -> usize
    ensures place { result ≡ spec.place_of word }
    ensures within { result < PLACES }
{
    (word.pid % PLACES) as usize
}

/// How many key words of each place there are.
pub struct Index {
    counts: Vec<u16>,
}

impl Drop for Index {
    fn drop(self) {
        let Index { counts: _ } = self;
    }
}

impl Model for Index {
    ghost use Rattle.std.specs.Prelude.{◌≡◌, ℕ, List, length};
    ghost use Rattle.book_rows.specs.declared.index.TheConstants.{PLACES};

    ghost Value = { List ℕ };

    ghost view = { λ i. i.counts.items };

    ghost invariant = { λ i. length i.counts.items ≡ PLACES };
}

impl Index {
    /// No key words.
    pub fn new(alloc: Global) -> Result<Index, AllocError>
        ensures { IfOk result (λ i. i ≡ replicate PLACES 0) }
    {
        let counts = vec![in alloc; 0u16; PLACES as usize]?;
        Ok(Index { counts })
    }

    /// Whether a key word of this one's place is there.
    pub fn may_have(&self, word: KeyView) -> bool
        ensures { result ≡ nat_lt 0 (get_or self.now (spec.place_of word) 0) }
    {
        0 < self.counts[place_of(word)]
    }

    /// A key word more.
    pub fn raise(&mut self, word: KeyView)
        requires { get_or self.old (spec.place_of word) 0 < 65535 }
        ensures { self.new ≡ spec.with_one_more (spec.place_of word) self.old }
    {
        self.counts[place_of(word)] += 1;
    }

    /// A key word less, which is there.
    pub fn lower(&mut self, word: KeyView)
        requires { 0 < get_or self.old (spec.place_of word) 0 }
        ensures { self.new ≡ spec.with_one_less (spec.place_of word) self.old }
    {
        self.counts[place_of(word)] -= 1;
    }
}
