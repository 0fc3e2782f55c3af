//! The decisions that led to the lists of the lease book: the last 256 are kept, and the older ones are in the base, which only clauses
//! read.
ghost use Rattle.std.specs.Prelude.{◌≡◌, ◌+◌, ◌≤◌, [], IfOk, cond, length, map, suc};
ghost use Rattle.book_model.specs.Outcomes.{last_decision};
ghost use Rattle.book_model.specs.Replay.{noted};
ghost use Rattle.lease_book.specs.Shown.{as_shown, shown_from};

use crate::base::Base;
use crate::kept_event::KeptEvent;
use crate::shown::all_shown;
use book_model::events::Reply;
use book_register::book_state::BookState;
use circular_buffer::HeapCircularBuffer;
use pool_figures::decisions::DecisionSeen;
use std::alloc::{AllocError, Global};
use std::marker::Model;

/// So many decisions are kept.
pub const MAX_KEPT: usize = 256;

/// An event that changed the book, with its reply, and the pass through which it came.
#[derive(Drop)]
pub struct Decision {
    pub pass: u64,
    pub event: KeptEvent,
    pub reply: Reply,
}

impl Model for Decision {
    ghost use Rattle.book_model.specs.Replay.{Decision as DecisionOf};

    ghost Value = { DecisionOf };

    ghost view = { λ d. record { pass = d.pass; event = d.event; reply = d.reply } };
}

/// The last decisions, and the lists that they begin from.
pub struct History {
    base: Base,
    kept: HeapCircularBuffer<Decision>,
}

impl Drop for History {
    fn drop(self) {
        let History { base: _, kept: _ } = self;
    }
}

impl Model for History {
    ghost use Rattle.std.specs.Prelude.{◌≡◌, ◌≤◌, length};
    ghost use Rattle.book_model.specs.Replay.{History as HistoryOf, most_kept};

    ghost Value = { HistoryOf };

    ghost view = { λ h. record { base = h.base.lists; kept = h.kept.items } };

    ghost invariant = { λ h. (h.kept.capacity ≡ most_kept) × (length h.kept.items ≤ most_kept) };
}

impl History {
    /// A history without decisions, of these lists.
    ///
    /// `AllocError` where memory is refused.
    pub(crate) fn new(alloc: Global, lists: &BookState) -> Result<History, AllocError>
        ensures { IfOk result (λ h. h ≡ record { base = lists.now; kept = [] }) }
    {
        let kept = HeapCircularBuffer::with_capacity(alloc, MAX_KEPT)?;
        Ok(History {
            base: Base::of(lists),
            kept,
        })
    }

    /// How many decisions are kept.
    pub(crate) fn len(&self) -> usize
        ensures { result ≡ length self.now.kept }
    {
        self.kept.len()
    }

    /// What is shown of them, from the oldest on, behind so many others.
    ///
    /// `AllocError` where memory is refused.
    pub(crate) fn shown(&self, alloc: Global, before: u64) -> Result<Vec<DecisionSeen>, AllocError>
        requires numbered { before + length self.now.kept ≤ last_decision }
        ensures { IfOk result (λ v. map as_shown v.items ≡ shown_from (suc before) self.now.kept) }
    {
        all_shown(alloc, before, &self.kept)
    }

    /// Keeps an event that was a decision, and needs no memory: the oldest of more than 256 goes into the base.
    pub(crate) fn note(&mut self, is_decision: bool, decision: Decision)
        ensures { self.new ≡ cond is_decision (noted self.old decision) self.old }
    {
        if !is_decision {
            return;
        }
        if let Some(oldest) = self.kept.push_back(decision) {
            self.base.fold(&oldest.event);
        }
    }
}
