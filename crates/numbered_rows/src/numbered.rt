//! Rows that bear numbers, in the order in which they came. A row is found at once, unless there was no room to note where one stands, and
//! goes without a move of the others: its slot stays empty, until the slots are used up.
ghost use Rattle.std.specs.Prelude.{◌≡◌, ◌<◌, ◌≤◌, ◌++◌, ◌∷◌, [], ℕ, IfOk, List, OnOk, Option, cond, count_by, filter, find, length, map, not, option_copied, position};
ghost use Rattle.std.specs.VecDeque.{deque_capacity};
ghost use Rattle.numbered_rows.specs.Numbered.{HasSlot, bears, emptied, filled, row_at, rows_in};
ghost use Rattle.numbered_rows.specs.Places.{passes};
ghost use Rattle.numbered_rows.specs.RowNotes.{AreNotedIfAny};
ghost use Rattle.numbered_rows.specs.declared.numbered.TheConstants.{ROWS, SLOTS};

use crate::row_notes::{RowNotes, forget, forget_all, note};
use std::alloc::{AllocError, Global};
use std::collections::VecDeque;
use std::marker::Model;

/// The most rows that there can be.
pub const ROWS: usize = 10_080;

/// So many slots are there: the more, the less often the empty ones are given up.
const SLOTS: usize = 16_384;

/// So many slots go at the front at most, until they are counted anew: a place that is counted with them fits.
const MAX_GONE: usize = 1_000_000_000_000;

/// A row that bears a number of its own.
pub trait Numbered: Drop {
    ghost number: { Self → ℕ };

    fn number(&self) -> u64
        ensures { result ≡ number self.now };
}

/// Whether a row of this number is in the slot.
fn is_in<T: Numbered>(slot: &Option<T>, number: u64) -> bool
    ensures { result ≡ passes (bears T.number number) slot.now }
{
    match slot {
        Some(row) => row.number() == number,
        None => false,
    }
}

/// The first slot of a row of this number.
fn first_slot_of<T: Numbered>(slots: &VecDeque<Option<T>>, number: u64) -> Option<usize>
    ensures { result ≡ position (λ s. passes (bears T.number number) s) slots.now.items }
{
    slots.iter().position(|s| is_in(s, number))
}

/// The slot of the row of this number, by what is noted of it, where so many slots have gone at the front; by a walk where the notes were
/// given up.
#[tactic(auto, using(crate::proofs::Numbering::by_position))]
fn slot_of<T: Numbered>(
    slots: &VecDeque<Option<T>>,
    notes: &Option<RowNotes>,
    gone: usize,
    number: u64,
) -> Option<usize>
    requires { AreNotedIfAny T.number notes.now gone slots.now.items }
    ensures { HasSlot T.number number slots.now.items result }
{
    match notes {
        Some(notes) => notes.slot(number, gone),
        None => first_slot_of(slots, number),
    }
}

/// The row in this slot.
fn row_at<T>(slots: &VecDeque<Option<T>>, place: Option<usize>) -> Option<&T>
    ensures { option_copied result ≡ row_at slots.now.items place }
{
    slots.get(place?)?.as_ref()
}

/// Takes the row out of this slot.
fn take_at<T: Drop>(slots: &mut VecDeque<Option<T>>, place: Option<usize>) -> Option<T>
    ensures row { result ≡ row_at slots.old.items place }
    ensures rest { slots.new.items ≡ emptied slots.old.items place }
    ensures capacity { deque_capacity slots.new ≡ deque_capacity slots.old }
{
    slots.get_mut(place?)?.take()
}

/// Puts a row into this slot.
fn put_at<T: Drop>(slots: &mut VecDeque<Option<T>>, place: Option<usize>, row: T)
    ensures slots { slots.new.items ≡ filled slots.old.items place row }
    ensures capacity { deque_capacity slots.new ≡ deque_capacity slots.old }
{
    if let Some(place) = place {
        if let Some(slot) = slots.get_mut(place) {
            *slot = Some(row);
        }
    }
}

/// All empty slots go.
fn close_up<T: Drop>(slots: &mut VecDeque<Option<T>>)
    ensures rows { rows_in slots.new.items ≡ rows_in slots.old.items }
    ensures all { length slots.new.items ≡ length (rows_in slots.old.items) }
    ensures capacity { deque_capacity slots.new ≡ deque_capacity slots.old }
{
    slots.retain(|s| s.is_some());
}

/// Notes that the row in this slot came to it, if there is one.
#[tactic(auto, using(crate::proofs::Noting::noted_first, crate::proofs::Noting::noted_none))]
fn note_slot<T: Numbered>(notes: &mut Option<RowNotes>, slot: &Option<T>, place: usize)
    ensures { (slots : List (Option T)) → length slots ≡ place → AreNotedIfAny T.number notes.old 0 slots → AreNotedIfAny T.number notes.new 0 (slots ++ slot.now ∷ []) }
{
    if let Some(row) = slot {
        note(notes, row.number(), place);
    }
}

/// Notes anew where each row is.
#[tactic(auto, using(crate::proofs::Noting::noted_anew))]
fn note_all<T: Numbered>(notes: &mut Option<RowNotes>, slots: &VecDeque<Option<T>>)
    ensures { AreNotedIfAny T.number notes.new 0 slots.now.items }
{
    forget_all(notes);
    'slots: for place in 0..slots.len() {
        note_slot(notes, &slots[place], place);
    }
}

/// Rows that bear numbers, in the order in which they came, with room for the most that there can be.
pub struct NumberedRows<T: Numbered> {
    slots: VecDeque<Option<T>>,
    /// How many slots aren't empty.
    len: usize,
    /// So many slots have gone at the front.
    gone: usize,
    /// Where each row stands, counted with the slots that have gone, until there is no room for a note.
    notes: Option<RowNotes>,
}

impl<T: Numbered> Drop for NumberedRows<T> {
    fn drop(self) {
        let NumberedRows {
            slots: _,
            len: _,
            gone: _,
            notes: _,
        } = self;
    }
}

impl<T: Numbered> Model for NumberedRows<T> {
    ghost use Rattle.std.specs.Prelude.{◌≡◌, ◌<◌, ◌≤◌, List, length};
    ghost use Rattle.std.specs.VecDeque.{deque_capacity};
    ghost use Rattle.numbered_rows.specs.Numbered.{rows_in};
    ghost use Rattle.numbered_rows.specs.RowNotes.{AreNotedIfAny};
    ghost use Rattle.numbered_rows.specs.declared.numbered.TheConstants.{MAX_GONE, SLOTS};

    ghost Value = { List T };

    ghost view = { λ r. rows_in r.slots.items };

    ghost invariant = { λ r. (SLOTS ≤ deque_capacity r.slots) × (length r.slots.items < SLOTS) × (r.len ≡ length (rows_in r.slots.items)) × (r.gone ≤ MAX_GONE) × AreNotedIfAny T.number r.notes r.gone r.slots.items };
}

impl<T: Numbered> NumberedRows<T> {
    /// No rows, with all the room.
    pub fn new(alloc: Global) -> Result<NumberedRows<T>, AllocError>
        ensures { IfOk result (λ r. r ≡ []) }
    {
        let slots = VecDeque::with_capacity(alloc, SLOTS)?;
        let notes = Some(RowNotes::new(alloc, ROWS)?);
        Ok(NumberedRows {
            slots,
            len: 0,
            gone: 0,
            notes,
        })
    }

    /// How many there are.
    #[tactic(auto, using(crate::proofs::Numbering::fewer_rows))]
    pub fn len(&self) -> usize
        ensures count { result ≡ length self.now }
        ensures fits { result < SLOTS }
    {
        self.len
    }

    /// The slots.
    pub fn slots(&self) -> &VecDeque<Option<T>>
        ensures rows { rows_in result.now.items ≡ self.now }
        ensures fits { length result.now.items < SLOTS }
    {
        &self.slots
    }

    /// The row of this number.
    #[tactic(auto, using(crate::proofs::Numbering::found_row))]
    pub fn get(&self, number: u64) -> Option<&T>
        requires once { (n : ℕ) → count_by (bears T.number n) self.now ≤ 1 }
        ensures { option_copied result ≡ find (bears T.number number) self.now }
    {
        let place = slot_of(&self.slots, &self.notes, self.gone, number);
        row_at(&self.slots, place)
    }

    /// A row more, behind all others. Where the slots are used up, all empty ones go.
    #[tactic(auto, using(crate::proofs::Noting::noted_more, crate::proofs::Numbering::one_behind))]
    pub fn push(&mut self, row: T)
        requires { length self.old < ROWS }
        ensures { self.new ≡ self.old ++ row ∷ [] }
    {
        let place = self.gone + self.slots.len();
        note(&mut self.notes, row.number(), place);
        self.len += 1;
        self.slots.push_back_reserved(Some(row));
        if self.slots.len() == SLOTS {
            close_up(&mut self.slots);
            self.gone = 0;
            note_all(&mut self.notes, &self.slots);
        }
    }

    /// Puts a row in the place of the one of its number.
    #[tactic(auto, using(crate::proofs::Numbering::put_row, crate::proofs::Numbering::as_many))]
    pub fn replace(&mut self, row: T)
        requires once { (n : ℕ) → count_by (bears T.number n) self.old ≤ 1 }
        ensures { self.new ≡ map (λ r. cond (bears T.number (T.number row) r) row r) self.old }
    {
        let number = row.number();
        let place = slot_of(&self.slots, &self.notes, self.gone, number);
        put_at(&mut self.slots, place, row);
    }

    /// Takes the row of this number out.
    #[tactic(auto, using(crate::proofs::Numbering::found_row, crate::proofs::Numbering::taken_row, crate::proofs::Numbering::one_fewer))]
    pub fn take(&mut self, number: u64) -> Option<T>
        requires once { (n : ℕ) → count_by (bears T.number n) self.old ≤ 1 }
        ensures row { result ≡ find (bears T.number number) self.old }
        ensures rest { self.new ≡ filter (λ row. not (bears T.number number row)) self.old }
    {
        let place = slot_of(&self.slots, &self.notes, self.gone, number);
        let row = take_at(&mut self.slots, place)?;
        forget(&mut self.notes, number);
        self.len -= 1;
        // twice, so that there are ever fewer of them at the front
        self.drop_empty();
        self.drop_empty();
        Some(row)
    }

    /// An empty slot at the front goes.
    #[tactic(auto, using(crate::proofs::Noting::noted_front))]
    fn drop_empty(&mut self)
        ensures { self.new ≡ self.old }
    {
        if self.gone == MAX_GONE {
            return;
        }
        if let Some(None) = self.slots.front() {
            let _ = self.slots.pop_front();
            self.gone += 1;
        }
    }
}

/// Adds a clone of the row in the slot, if there is one.
fn add_clone<T: Clone>(rows: &mut Vec<T>, slot: &Option<T>) -> Result<(), AllocError>
    ensures { OnOk result (((x y : T) → T.is_clone x y → y ≡ x) → rows.new.items ≡ rows.old.items ++ rows_in (slot.now ∷ [])) }
{
    match slot {
        Some(row) => Ok(rows.push(row.clone()?)?),
        None => Ok(()),
    }
}

/// The rows in these slots, each cloned.
fn cloned<T: Clone>(alloc: Global, slots: &VecDeque<Option<T>>) -> Result<Vec<T>, AllocError>
    ensures { IfOk result (λ v. ((x y : T) → T.is_clone x y → y ≡ x) → v.items ≡ rows_in slots.now.items) }
{
    let mut rows = Vec::new(alloc);
    'slots: for place in 0..slots.len() {
        add_clone(&mut rows, &slots[place])?;
    }
    Ok(rows)
}

impl<T: Numbered + Clone> NumberedRows<T> {
    /// The rows, each cloned, in a list of the holder's own.
    pub fn copied(&self, alloc: Global) -> Result<Vec<T>, AllocError>
        ensures { IfOk result (λ v. ((x y : T) → T.is_clone x y → y ≡ x) → v.items ≡ self.now) }
    {
        cloned(alloc, &self.slots)
    }
}
