//! The lease book. What it adds to the lists: the decisions that led to them, and the idle links themselves, each the one of its number.
ghost use Rattle.std.specs.Prelude.{find, ◌≡◌, ◌+◌, [], ◌∷◌, ◌++◌, IfOk, IfSome, IsSome, None, Some, cond, false, true, length, map, option_copied, option_map};
ghost use Rattle.std.specs.Arc.{arc_value};
ghost use Rattle.std.specs.List.{list_any};
ghost use Rattle.start_keys.specs.Keys.{same_key};
ghost use Rattle.book_model.specs.Book.{empty_book, is_link};
ghost use Rattle.book_model.specs.Events.{event_of};
ghost use Rattle.book_model.specs.Outcomes.{apply, apply_return, is_started_as};
ghost use Rattle.book_model.specs.declared.events.Reply.TheVariants.{Strike};
ghost use Rattle.book_model.specs.Outcomes.Event.{GiveBack};
ghost use Rattle.book_model.specs.Kept.{Kept};
ghost use Rattle.book_model.specs.Places.{IsPlaceOf};
ghost use Rattle.book_register.specs.Counted.{counted_book};
ghost use Rattle.book_register.specs.Views.{view_of};
ghost use Rattle.book_model.specs.Replay.{noted_of};
ghost use Rattle.lease_book.specs.Histories.{LeadsTo};
ghost use Rattle.lease_book.specs.Shown.{as_shown, decisions_shown};
ghost use Rattle.lease_book.specs.Links.{answered, can_strike, found, goes_out, handed, handed_after, handed_back, has_place, history_after, idle_after, idle_with, is_done, StrikesInPlace, may_hand_back, number_of, reply_of};

use crate::events::{BookEvent, BookReply};
use crate::history::{Decision, History};
use crate::idle::IdleLinks;
use crate::kept_event::KeptEvent;
use book_model::events::Reply;
use book_model::limits::Limits;
use book_register::book_state::BookState;
use book_register::view::BookView;
use link_run::links::CleanLink;
use message_view::KeyView;
use pool_figures::decisions::DecisionSeen;
use server_end::ServerEnd;
use start_keys::{Host, StartKey};
use std::alloc::{AllocError, Global};
use std::marker::Model;
use std::sync::Arc;

/// The number of the idle link that goes out with a reply.
fn goes_out(told: Reply) -> Option<u64>
    ensures { result ≡ goes_out told }
{
    match told {
        Reply::Lend(link) => Some(link),
        Reply::Close(link) => Some(link),
        Reply::Start { evicted, .. } => evicted,
        _ => None,
    }
}

/// Where the server of a lent link is.
#[tactic(auto, using(crate::proofs::Striking::in_place))]
fn place_of(lists: &BookState, number: u64) -> Option<(Host, u16)>
    requires kept { Kept lists.now }
    ensures there { has_place (find (is_link number) lists.now.lent) ≡ true → IsSome result }
    ensures place { IfSome result (λ p. IsPlaceOf lists.now number p.0 p.1) }
{
    let key = lists.lent_key(number)?;
    Some((key.host?, key.port))
}

/// The strike at the place of its link, which is lent.
fn strike<E: ServerEnd>(lists: &BookState, number: u64, server: KeyView) -> BookReply<E>
    requires kept { Kept lists.now }
    requires place { has_place (find (is_link number) lists.now.lent) ≡ true }
    ensures reply { reply_of result ≡ Strike number server }
    ensures place { StrikesInPlace lists.now result }
    ensures link { handed result ≡ None }
{
    let Some((host, port)) = place_of(lists, number) else {
        unreachable!()
    };
    BookReply::Strike {
        number,
        server,
        host,
        port,
    }
}

/// The reply, with the link that goes out with it. A strike's place is that of its link in the lists.
fn reply_with<E: ServerEnd>(
    lists: &BookState,
    told: Reply,
    link: Option<CleanLink<E>>,
) -> BookReply<E>
    requires number { number_of link ≡ goes_out told }
    requires kept { Kept lists.now }
    requires place { can_strike lists.now told ≡ true }
    ensures reply { reply_of result ≡ told }
    ensures place { StrikesInPlace lists.now result }
    ensures link { handed result ≡ link }
{
    match (told, link) {
        (Reply::Lend(_), Some(link)) => BookReply::Lend(link),
        (Reply::Close(_), Some(link)) => BookReply::Close(link),
        (
            Reply::Start {
                link,
                started_at,
                ..
            },
            evicted,
        ) => BookReply::Start {
            number: link,
            started_at,
            evicted,
        },
        (Reply::Arrived(client), _) => BookReply::Client(client),
        (Reply::Queued(before), _) => BookReply::Queued(before),
        (Reply::Refuse(refusal), _) => BookReply::Refuse(refusal, None),
        (Reply::Done, _) => BookReply::Done,
        (Reply::Stranger, _) => BookReply::Stranger(None),
        (Reply::Strike { link, server }, _) => strike(lists, link, server),
        (Reply::Nobody, _) => BookReply::Nobody,
        (Reply::Reset, _) => BookReply::Reset,
        (Reply::Dispose, _) => BookReply::Dispose,
        _ => unreachable!(),
    }
}

/// Whether a link that was given back is kept.
fn is_done(told: Reply) -> bool
    ensures { result ≡ is_done told }
{
    match told {
        Reply::Done => true,
        _ => false,
    }
}

/// The reply, with the link that is handed back.
#[tactic(auto, using(crate::proofs::Returns::same_number))]
fn back_with<E: ServerEnd>(told: Reply, link: CleanLink<E>) -> BookReply<E>
    requires { may_hand_back link.number told ≡ true }
    ensures reply { reply_of result ≡ told }
    ensures link { handed result ≡ Some link }
{
    match told {
        Reply::Close(_) => BookReply::Close(link),
        Reply::Refuse(refusal) => BookReply::Refuse(refusal, Some(link)),
        Reply::Stranger => BookReply::Stranger(Some(link)),
        _ => unreachable!(),
    }
}

/// The lease book: the lists, the decisions that led to them, and the idle links.
pub struct Book<E: ServerEnd> {
    lists: BookState,
    history: History,
    idle: IdleLinks<E>,
}

impl<E: ServerEnd> Drop for Book<E> {
    fn drop(self) {
        let Book {
            lists: _,
            history: _,
            idle: _,
        } = self;
    }
}

impl<E: ServerEnd> Model for Book<E> {
    ghost use Rattle.lease_book.specs.Histories.{LeadsTo};
    ghost use Rattle.lease_book.specs.Links.{BookOf, HoldsLinks};

    ghost Value = { BookOf };

    ghost view = { λ b. record { lists = b.lists; history = b.history; idle = b.idle } };

    ghost invariant = { λ b. HoldsLinks b.idle b.lists × LeadsTo b.history b.lists };
}

impl<E: ServerEnd> Book<E> {
    /// An empty book, with room for all that it may hold.
    ///
    /// `AllocError` where memory is refused.
    pub fn new(alloc: Global, limits: Arc<Limits>) -> Result<Book<E>, AllocError>
        ensures kept { IfOk result (λ b. Kept b.lists) }
        ensures lists { IfOk result (λ b. b.lists ≡ empty_book (arc_value limits)) }
        ensures history { IfOk result (λ b. b.history ≡ record { base = empty_book (arc_value limits); kept = [] }) }
        ensures idle { IfOk result (λ b. b.idle ≡ []) }
    {
        let lists = BookState::new(alloc, limits)?;
        let history = History::new(alloc, &lists)?;
        let idle = IdleLinks::new(alloc)?;
        Ok(Book {
            lists,
            history,
            idle,
        })
    }

    /// The same, after so many decisions.
    pub fn from_count(
        alloc: Global,
        limits: Arc<Limits>,
        decisions: u64,
    ) -> Result<Book<E>, AllocError>
        ensures lists { IfOk result (λ b. b.lists ≡ counted_book (arc_value limits) decisions) }
        ensures history { IfOk result (λ b. b.history ≡ record { base = counted_book (arc_value limits) decisions; kept = [] }) }
        ensures idle { IfOk result (λ b. b.idle ≡ []) }
    {
        let lists = BookState::from_count(alloc, limits, decisions)?;
        let history = History::new(alloc, &lists)?;
        let idle = IdleLinks::new(alloc)?;
        Ok(Book {
            lists,
            history,
            idle,
        })
    }

    /// The lists.
    pub fn lists(&self) -> &BookState
        ensures lists { result.now ≡ self.now.lists }
        ensures kept { Kept result.now }
    {
        &self.lists
    }

    /// The book as it is now, in rows of the caller's own.
    ///
    /// `AllocError` where memory is refused.
    pub fn view(&self, alloc: Global) -> Result<BookView, AllocError>
        ensures { IfOk result (λ v. v ≡ view_of self.now.lists) }
    {
        self.lists.view(alloc)
    }

    /// How many decisions stand in the base, and how many are kept.
    #[tactic(auto, using(crate::proofs::Kept::all_counted))]
    pub fn kept(&self) -> (u64, usize)
        ensures base { result.0 ≡ self.now.history.base.decisions }
        ensures kept { result.1 ≡ length self.now.history.kept }
        ensures all { result.0 + result.1 ≡ self.now.lists.decisions }
    {
        let kept = self.history.len();
        (self.lists.decisions() - kept as u64, kept)
    }

    /// What is shown of the kept decisions, from the oldest on: of a key its process id alone.
    ///
    /// `AllocError` where memory is refused.
    #[tactic(auto, using(crate::proofs::Kept::all_counted))]
    pub fn shown(&self, alloc: Global) -> Result<Vec<DecisionSeen>, AllocError>
        ensures lists { Kept self.now.lists }
        ensures leads { LeadsTo self.now.history self.now.lists }
        ensures shown { IfOk result (λ v. map as_shown v.items ≡ decisions_shown self.now.history) }
    {
        let before = self.lists.decisions() - self.history.len() as u64;
        self.history.shown(alloc, before)
    }

    /// Whether a link of this key is idle.
    pub fn has_idle_of(&self, key: &StartKey) -> bool
        ensures { result ≡ list_any (λ l. same_key l.key key.now) self.now.idle }
    {
        self.idle.has_key(key)
    }

    /// A link comes back.
    #[tactic(auto, using(crate::proofs::Returns::done_kept, crate::proofs::Striking::back_in_place))]
    fn give_back(&mut self, pass: u64, link: CleanLink<E>) -> BookReply<E>
        ensures kept { Kept self.new.lists }
        ensures lists { self.new.lists ≡ (apply_return self.old.lists link.number link.key link.started_at).book }
        ensures history { self.new.history ≡ cond (is_started_as link.key link.started_at (find (is_link link.number) self.old.lists.lent)) (noted_of self.old.lists pass (GiveBack link.number) self.old.history) self.old.history }
        ensures reply { reply_of result ≡ (apply_return self.old.lists link.number link.key link.started_at).reply }
        ensures place { StrikesInPlace self.old.lists result }
        ensures idle { self.new.idle ≡ idle_with link (apply_return self.old.lists link.number link.key link.started_at).reply self.old.idle }
        ensures handed { handed result ≡ handed_back link (apply_return self.old.lists link.number link.key link.started_at).reply }
    {
        let number = link.number();
        let before = self.lists.decisions();
        let reply = self
            .lists
            .apply_return(number, link.key(), link.started_at());
        let is_decision = self.lists.decisions() > before;
        let event = KeptEvent::returned(number);
        self.history
            .note(is_decision, Decision { pass, event, reply });
        if is_done(reply) {
            self.idle.push(link);
            return BookReply::Done;
        }
        back_with(reply, link)
    }

    /// What an event makes of the book, and its reply. A decision is kept. It needs no memory.
    pub fn apply(&mut self, pass: u64, event: BookEvent<E>) -> BookReply<E>
        ensures kept { Kept self.new.lists }
        ensures lists { self.new.lists ≡ (answered self.old.lists event).book }
        ensures history { self.new.history ≡ history_after self.old.lists pass event self.old.history }
        ensures reply { reply_of result ≡ (answered self.old.lists event).reply }
        ensures place { StrikesInPlace self.old.lists result }
        ensures idle { self.new.idle ≡ idle_after event (answered self.old.lists event).reply self.old.idle }
        ensures handed { handed result ≡ handed_after event (answered self.old.lists event).reply self.old.idle }
    {
        match event {
            BookEvent::GiveBack(link) => self.give_back(pass, link),
            BookEvent::Plain(plain) => {
                let event = KeptEvent::of(&plain);
                let before = self.lists.decisions();
                let reply = self.lists.apply(plain);
                let is_decision = self.lists.decisions() > before;
                let decision = Decision { pass, event, reply };
                self.history.note(is_decision, decision);
                let link = self.idle.take(goes_out(reply));
                reply_with(&self.lists, reply, link)
            }
        }
    }
}
