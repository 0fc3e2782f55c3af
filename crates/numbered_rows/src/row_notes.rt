//! Where rows stand, noted by their numbers, so that a row is found at once, or known to be none.
ghost use Rattle.std.specs.Prelude.{◌≡◌, [], ℕ, IfOk, OnSome, is_some};
ghost use Rattle.numbered_rows.specs.RowNotes.{Forgets, Notes, noted};
ghost use Rattle.numbered_rows.specs.Indexes.{Follows};

use indexmap::IndexMap;
use std::alloc::{AllocError, Global};
use std::marker::Model;

/// The places to which rows came, by their numbers.
pub(crate) struct RowNotes {
    places: IndexMap<u64, usize>,
}

impl Drop for RowNotes {
    fn drop(self) {
        let RowNotes { places: _ } = self;
    }
}

impl Model for RowNotes {
    ghost use Rattle.std.specs.Prelude.{ℕ, List};

    ghost Value = { List (ℕ × ℕ) };

    ghost view = { λ n. n.places.entries };
}

impl RowNotes {
    /// Of no row, with room for so many.
    pub(crate) fn new(alloc: Global, rows: usize) -> Result<RowNotes, AllocError>
        ensures { IfOk result (λ notes. notes ≡ []) }
    {
        Ok(RowNotes {
            places: IndexMap::with_capacity(alloc, rows)?,
        })
    }

    /// The slot of the row of this number, where so many slots have gone at the front; none where no row bears it.
    pub(crate) fn slot(&self, number: u64, gone: usize) -> Option<usize>
        ensures { result ≡ noted self.now gone number }
    {
        Some(self.places.get(&number)?.saturating_sub(gone))
    }

    /// The row of this number came to this place. `None`: there is no room for a note.
    fn add(&mut self, number: u64, place: usize) -> Option<()>
        ensures { OnSome result (Notes number place self.old self.new) }
    {
        let _ = self.places.insert(number, place).ok()?;
        Some(())
    }

    /// The row of this number went.
    fn remove(&mut self, number: u64)
        ensures { Forgets number self.old self.new }
    {
        let _ = self.places.swap_remove(&number);
    }

    /// All rows went.
    fn clear(&mut self)
        ensures { self.new ≡ [] }
    {
        self.places.clear();
    }
}

/// Notes that the row of this number came to this place, or gives the notes up where there is no room for it.
pub(crate) fn note(notes: &mut Option<RowNotes>, number: u64, place: usize)
    ensures { Follows (Notes number place) notes.old notes.new }
{
    if let Some(places) = notes {
        if places.add(number, place).is_none() {
            *notes = None;
        }
    }
}

/// Notes that the row of this number went. The notes are never given up for that.
pub(crate) fn forget(notes: &mut Option<RowNotes>, number: u64)
    ensures forgets { Follows (Forgets number) notes.old notes.new }
    ensures kept { is_some notes.new ≡ is_some notes.old }
{
    if let Some(places) = notes {
        places.remove(number);
    }
}

/// Notes that all rows went. The notes are never given up for that.
pub(crate) fn forget_all(notes: &mut Option<RowNotes>)
    ensures forgets { Follows (λ old new. new ≡ []) notes.old notes.new }
    ensures kept { is_some notes.new ≡ is_some notes.old }
{
    if let Some(places) = notes {
        places.clear();
    }
}
