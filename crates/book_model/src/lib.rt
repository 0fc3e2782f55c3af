//! The lease book by definitions: which client waits, which link is lent or idle, what each event makes of them, and what holds of
//! every book that began empty; and the limits that it decides by, which the settings give.
//!
//! Public: `Event`, `Change`, `Reply`, `Limits`, `Counts`, and the definitions over them (`apply`, `Kept`, `Replays`), which every crate
//! of the book, the desk, the console and the worlds cites. `book_laws`, `books_are_in_order` and `old_links_are_done_with` do nothing:
//! they are there for the law. Free to change: how `Limits` finds a row.
#![tactic(auto)]

ghost use Rattle.book_model.specs.Laws.{PlainEventsAddNothing, ArrivalsNumber, AsksQueue, TakesLend, TakesStart, TakesEvict, ReturnsAdd, ReturnsClose, TicksClose, HangUpsClose, KeyedKeys, CancelsStrike, ResetsRelease};
ghost use Rattle.book_model.specs.Kept.{EmptyBooksAreKept, EventsKeep, LatestFreshIsLent, ReturnsKeep};
ghost use Rattle.book_model.specs.Reconnects.{NeverKeptAgain, NeverLentAgain};

pub mod counts;
pub mod events;
pub mod limits;
pub mod rows;
pub mod settings;

/// What each event makes of the book's tickets, its links, its leases and its next numbers.
pub fn book_laws()
    ensures plain { PlainEventsAddNothing }
    ensures arrives { ArrivalsNumber }
    ensures asks { AsksQueue }
    ensures lends { TakesLend }
    ensures starts { TakesStart }
    ensures evicts { TakesEvict }
    ensures gives_back { ReturnsAdd }
    ensures too_late { ReturnsClose }
    ensures tick { TicksClose }
    ensures hangs_up { HangUpsClose }
    ensures keyed { KeyedKeys }
    ensures cancels { CancelsStrike }
    ensures resets { ResetsRelease }
{}

/// Each client's number stands once, each link's once, lent or idle; each ticket is its client's only one, each lease its lent link's;
/// the counts agree with one another and with the lists, so that the lent links are as many as were granted and neither given back,
/// lost nor failed; and the link of a key that may be lent is the latest returned one of those that are fresh. An empty book is so, and every
/// event leaves it so, whose new limits are within what a book can hold.
pub fn books_are_in_order()
    ensures empty { EmptyBooksAreKept }
    ensures events { EventsKeep }
    ensures returns { ReturnsKeep }
    ensures lends { LatestFreshIsLent }
{}

/// Once a Reconnect is done, no link that was there is lent again, whatever happens then: one that lies idle isn't, and one that comes back
/// isn't kept.
pub fn old_links_are_done_with()
    ensures lent { NeverLentAgain }
    ensures kept { NeverKeptAgain }
{}
