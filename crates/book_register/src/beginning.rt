//! The lists that a register begins with.
ghost use Rattle.std.specs.Prelude.{◌≡◌, IfOk};
ghost use Rattle.std.specs.Arc.{arc_value};
ghost use Rattle.book_model.specs.Book.{empty_book, no_counts};
ghost use Rattle.book_register.specs.Counted.{counted_book};
ghost use Rattle.book_model.specs.Kept.{Kept, KeptLimits};

use crate::book_state::BookState;
use book_model::counts::Counts;
use book_model::limits::Limits;
use book_rows::clients::Clients;
use book_rows::leases::{Leases, Numbers};
use book_rows::links::Links;
use book_rows::tickets::Tickets;
use std::alloc::{AllocError, Global};
use std::sync::Arc;

/// All settings fit.
pub(crate) fn fits(limits: &Limits)
    ensures { KeptLimits limits.now }
{
    // for the prover: a look into the limits, whose type keeps them within what a book can hold
    let _ = &limits.max_links;
}

/// So many decisions, told as Ticks.
fn all_ticks(decisions: u64) -> Counts
    ensures { result ≡ record no_counts { ticked = decisions } }
{
    Counts {
        arrived: 0,
        arrivals_refused: 0,
        asked: 0,
        asks_refused: 0,
        granted: 0,
        tickets_lost: 0,
        given_back: 0,
        lost: 0,
        starts_failed: 0,
        left: 0,
        ticked: decisions,
        limited: 0,
        paused: 0,
        resumed: 0,
        shut_down: 0,
        keyed: 0,
        cancelled: 0,
        leases_ended: 0,
        hung_up: 0,
        reconnected: 0,
    }
}

/// Empty lists, with all the room.
fn empty_state(alloc: Global, limits: Arc<Limits>, decisions: u64) -> Result<BookState, AllocError>
    ensures { IfOk result (λ b. b ≡ counted_book (arc_value limits) decisions) }
{
    Ok(BookState {
        clients: Clients::new(alloc)?,
        tickets: Tickets::new(alloc)?,
        lent: Links::new(alloc)?,
        idle: Links::new(alloc)?,
        keyed: Leases::new(alloc)?,
        marked: Numbers::new(alloc)?,
        ended: Numbers::new(alloc)?,
        last_client: 0,
        last_link: 0,
        clock: 0,
        limits,
        is_paused: false,
        is_shut: false,
        fresh_from: 1,
        decisions,
        counts: all_ticks(decisions),
        starts: 0,
        reuses: 0,
        evictions: 0,
        losses: 0,
    })
}

impl BookState {
    /// Empty lists, with room for all that they may hold.
    ///
    /// `AllocError` where memory is refused.
    pub fn new(alloc: Global, limits: Arc<Limits>) -> Result<BookState, AllocError>
        ensures kept { IfOk result (λ l. Kept l) }
        ensures book { IfOk result (λ l. l ≡ empty_book (arc_value limits)) }
    {
        BookState::from_count(alloc, limits, 0)
    }

    /// The same, after so many decisions, which are told as Ticks.
    ///
    /// `AllocError` where memory is refused.
    #[tactic(auto, using(crate::proofs::Beginnings::counted_keeps))]
    pub fn from_count(
        alloc: Global,
        limits: Arc<Limits>,
        decisions: u64,
    ) -> Result<BookState, AllocError>
        ensures kept { IfOk result (λ l. Kept l) }
        ensures book { IfOk result (λ l. l ≡ counted_book (arc_value limits) decisions) }
    {
        fits(&limits);
        let state = empty_state(alloc, limits, decisions)?;
        Ok(state)
    }
}
