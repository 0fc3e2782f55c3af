//! What lies behind the desk's lock. What it adds to the book: counters of its decisions by class, of which each pass has its share, and
//! who holds a pass.
ghost use Rattle.std.specs.Prelude.{◌≡◌, ◌<◌, ◌≤◌, ◌^◌, ◌||◌, [], IfOk, IfErr, IfSome, IfNone, Some, map, vec_len, suc, ◌≢◌};
ghost use Rattle.std.specs.Arc.{arc_value};
ghost use Rattle.book_model.specs.Book.{empty_book};
ghost use Rattle.book_model.specs.Kept.{Kept, total};
ghost use Rattle.book_model.specs.Outcomes.{apply};
ghost use Rattle.book_model.specs.Outcomes.Event.{Take};
ghost use Rattle.book_model.specs.Replay.{noted_of};
ghost use Rattle.book_register.specs.Views.{view_of};
ghost use Rattle.lease_book.specs.Histories.{LeadsTo};
ghost use Rattle.lease_book.specs.Shown.{as_shown, decisions_shown};
ghost use Rattle.lease_book.specs.Links.{StrikesInPlace, answered, found, goes_out, handed, handed_after, history_after, idle_after, left, plain, reply_of};
ghost use Rattle.desk_tallies.specs.Grants.{IsAnswerToTake, link_in};
ghost use Rattle.desk_tallies.specs.Homes.{IsAtHome, IsGrantAtHome};
ghost use Rattle.desk_tallies.specs.Passes.{after_grant, new_holder, new_pass, taken};
ghost use Rattle.desk_tallies.specs.Refusing.{MayTake};
ghost use Rattle.desk_tallies.specs.declared.passes.TheConstants.{ALL_PARTS};
ghost use Rattle.desk_tallies.specs.Shares.{AtMost, made_of, names_of, of_each, parts_of, sum_over};
ghost use Rattle.pool_desk.specs.Classes.{class_counts};
ghost use Rattle.pool_desk.specs.Hears.{call_of, heard};
ghost use Rattle.pool_desk.specs.Joined.{brought};
ghost use Rattle.pool_desk.specs.Tells.{Tells, breaks};

use crate::hearing::{call_of, heard};
use crate::outside::Outside;
use crate::wants::Wants;
use book_model::counts::Counts;
use book_model::events::Event;
use book_model::limits::Limits;
use book_register::view::BookView;
use book_rows::pools::PoolKey;
use desk_tallies::answers::{Grant, Place};
use desk_tallies::ledgers::Ledgers;
use desk_tallies::passes::{ALL_PARTS, Pass, Shares, Totals};
use desk_tallies::tallies::{Blanks, Tallies};
use lease_book::book::Book;
use lease_book::events::{BookEvent, BookReply};
use message_view::Refusal;
use pool_figures::decisions::DecisionSeen;
use server_end::ServerEnd;
use start_keys::StartKey;
use std::alloc::{AllocError, Global};
use std::marker::{Model, PhantomData};
use std::sync::Arc;

/// The book's decisions by class.
fn totals_of(decisions: u64, counts: Counts) -> Totals
    requires { total counts ≡ decisions }
    ensures { made_of result ≡ class_counts counts }
{
    let lost = counts.lost + counts.starts_failed;
    let known = counts.arrived + counts.granted + counts.given_back + lost + counts.left;
    Totals {
        arrived: counts.arrived,
        granted: counts.granted,
        given_back: counts.given_back,
        lost,
        left: counts.left,
        others: decisions - known,
    }
}

/// Whether nothing more is promised of a pass after this reply.
fn breaks<E: ServerEnd>(reply: &BookReply<E>) -> bool
    ensures { result ≡ breaks (reply_of reply.now) }
{
    match reply {
        BookReply::Refuse(Refusal::LastDecision, _) => true,
        BookReply::Stranger(_) => true,
        _ => false,
    }
}

/// The book, the counters of its decisions by class, and the shares that no pass has.
#[derive(Drop)]
pub struct Core<S: Outside, K: Ledgers> {
    pub(crate) book: Book<S::End>,
    tallies: Tallies<K>,
    uncut: Shares<K>,
    /// So many passes were cut off.
    given: u64,
    wants: Wants,
    outside: PhantomData<S>,
}

impl<S: Outside, K: Ledgers> Model for Core<S, K> {
    ghost use Rattle.pool_desk.specs.Joined.{CoreOf, IsJoined};

    ghost Value = { CoreOf };

    ghost view = { λ c. record { book = c.book; given = c.given } };

    ghost invariant = { λ c. IsJoined S.home c.book c.tallies c.uncut c.given };
}

impl<S: Outside, K: Ledgers> Core<S, K> {
    /// An empty book, of which nothing was counted.
    ///
    /// `AllocError` where memory is refused.
    pub fn new(alloc: Global, limits: Arc<Limits>, blanks: Blanks) -> Result<Core<S, K>, AllocError>
        requires names { names_of blanks ≡ K.names }
        requires parts { K.parts ≡ parts_of blanks }
        requires all { parts_of blanks ≡ of_each ALL_PARTS }
        ensures lists { IfOk result (λ c. c.book.lists ≡ empty_book (arc_value limits)) }
        ensures given { IfOk result (λ c. c.given ≡ 0) }
    {
        let book = Book::new(alloc, limits)?;
        let (tallies, uncut) = Tallies::open(blanks);
        Ok(Core {
            book,
            tallies,
            uncut,
            given: 0,
            wants: Wants::new(alloc),
            outside: PhantomData,
        })
    }

    /// Cuts a pass off; `None` where one part of each ledger is left.
    pub fn pass(&mut self) -> Option<Pass<K>>
        ensures pass { IfSome result (λ p. p ≡ record { number = self.old.given; counted = new_pass; holder = new_holder }) }
        ensures given { IfSome result (λ p. self.new.given ≡ suc self.old.given) }
        ensures none { IfNone result (suc self.old.given ≡ ALL_PARTS) }
        ensures book { self.new.book ≡ self.old.book }
    {
        if self.given + 1 == ALL_PARTS {
            return None;
        }
        let pass = self.uncut.cut(self.given);
        self.given += 1;
        Some(pass)
    }

    /// One event, made through this pass, which hears the reply.
    pub fn apply(&mut self, pass: &mut Pass<K>, event: BookEvent<S::End>) -> BookReply<S::End>
        requires home { IfSome (brought event) (λ l. IsAtHome S.home l) }
        ensures kept { Kept self.old.book.lists }
        ensures lists { self.new.book.lists ≡ (answered self.old.book.lists event).book }
        ensures history { self.new.book.history ≡ history_after self.old.book.lists pass.old.number event self.old.book.history }
        ensures reply { reply_of result ≡ (answered self.old.book.lists event).reply }
        ensures place { StrikesInPlace self.old.book.lists result }
        ensures idle { self.new.book.idle ≡ idle_after event (answered self.old.book.lists event).reply self.old.book.idle }
        ensures handed { handed result ≡ handed_after event (answered self.old.book.lists event).reply self.old.book.idle }
        ensures home { IfSome (handed result) (λ l. IsAtHome S.home l) }
        ensures number { pass.new.number ≡ pass.old.number }
        ensures counted { Tells (plain event) (reply_of result) pass.old.counted pass.new.counted }
        ensures holder { pass.new.holder ≡ heard pass.old.holder (call_of (plain event)) result }
        ensures given { self.new.given ≡ self.old.given }
    {
        let call = call_of(&event);
        let reply = self.book.apply(pass.number(), event);
        let lists = self.book.lists();
        let totals = totals_of(lists.decisions(), lists.counts());
        let holder = heard(pass.holder(), call, &reply);
        self.tallies.count(pass, totals, breaks(&reply), holder);
        reply
    }

    /// Whom this event calls to ask again, once it is decided: a link comes back or goes, or whoever was called leaves.
    pub fn calls(&mut self, event: &BookEvent<S::End>) -> Option<u64> {
        if self.wants.is_empty() {
            return None;
        }
        match event {
            BookEvent::GiveBack(link) => self.wants.call(link.key()),
            BookEvent::Plain(Event::Lost { link }) => {
                let key = self.book.lists().lent_key(*link)?;
                self.wants.call(key)
            }
            BookEvent::Plain(Event::Leave { client }) => self.wants.remove(*client),
            BookEvent::Plain(_) => None,
        }
    }

    /// Whether this client may ask again for a link of this key, or waits for that. It may at once where one is idle, which came back within
    /// its start; and it waits only as long as a link of its pool is lent.
    pub fn place_for(&mut self, client: u64, key: &Arc<StartKey>) -> Place {
        let waits = self.wants.has(client);
        if self.wants.answers_call(client) || (!waits && self.book.has_idle_of(key)) {
            return Place::Free;
        }
        let Ok(pool) = Arc::try_clone(key) else {
            return Place::Nowhere;
        };
        let lists = self.book.lists();
        if lists.is_shut() || lists.lent_in_pool(&PoolKey::new(pool)) == 0 {
            return Place::Nowhere;
        }
        if !waits && self.wants.push(client, key).is_err() {
            return Place::Nowhere;
        }
        Place::Waits
    }

    /// What the pass's client, of this number, is granted.
    pub fn take(&mut self, pass: &mut Pass<K>, client: u64) -> Grant<S::End>
        requires own { pass.old.holder.client ≡ Some client }
        ensures kept { Kept self.old.book.lists }
        ensures lists { self.new.book.lists ≡ (apply self.old.book.lists (Take client)).book }
        ensures history { self.new.book.history ≡ noted_of self.old.book.lists pass.old.number (Take client) self.old.book.history }
        ensures idle { self.new.book.idle ≡ left (goes_out (apply self.old.book.lists (Take client)).reply) self.old.book.idle }
        ensures answer { IsAnswerToTake (apply self.old.book.lists (Take client)).reply result }
        ensures link { link_in result ≡ found (goes_out (apply self.old.book.lists (Take client)).reply) self.old.book.idle }
        ensures given { self.new.given ≡ self.old.given }
        ensures number { pass.new.number ≡ pass.old.number }
        ensures counted { pass.new.counted ≡ after_grant pass.old.counted result }
        ensures holder { pass.new.holder ≡ taken pass.old.holder result }
        ensures refused { MayTake result }
        ensures home { IsGrantAtHome S.home result }
    {
        match self.apply(pass, BookEvent::Plain(Event::Take { client })) {
            BookReply::Queued(_before) => Grant::Queued,
            BookReply::Lend(link) => Grant::Lend(link),
            BookReply::Start {
                number,
                started_at,
                evicted,
            } => Grant::Start {
                number,
                started_at,
                evicted,
            },
            BookReply::Refuse(refusal, _back) => Grant::Refused(refusal),
            _ => Grant::Stranger,
        }
    }

    /// The book as it is now, in rows of the caller's own; what was made through the pass is among its decisions.
    ///
    /// `AllocError` where memory is refused.
    pub fn view(&mut self, alloc: Global, pass: &mut Pass<K>) -> Result<BookView, AllocError>
        ensures view { IfOk result (λ v. v ≡ view_of self.old.book.lists) }
        ensures kept { Kept self.old.book.lists }
        ensures at_least { IfOk result (λ v. AtMost pass.old.counted.made (class_counts v.counts)) }
        ensures pass { pass.new ≡ pass.old }
        ensures same { self.new ≡ self.old }
    {
        self.tallies.compare(pass);
        self.book.view(alloc)
    }

    /// What is shown of the decisions that the book keeps.
    ///
    /// `AllocError` where memory is refused.
    pub fn shown(&self, alloc: Global) -> Result<Vec<DecisionSeen>, AllocError>
        ensures kept { Kept self.now.book.lists }
        ensures leads { LeadsTo self.now.book.history self.now.book.lists }
        ensures shown { IfOk result (λ v. map as_shown v.items ≡ decisions_shown self.now.book.history) }
    {
        self.book.shown(alloc)
    }

    /// How many decisions there were.
    pub fn decisions(&self) -> u64 {
        self.book.lists().decisions()
    }

    /// Whether no client is let in any more.
    pub fn is_shut(&self) -> bool
        ensures { result ≡ self.now.book.lists.is_shut }
    {
        self.book.lists().is_shut()
    }

    /// The book's decisions by class, which are those made through all passes together. `Err`: these are not as many passes as
    /// were cut off.
    pub fn gather(self, passes: Vec<Pass<K>>) -> Result<Totals, (Core<S, K>, Vec<Pass<K>>)>
        ensures counts { IfOk result (λ t. made_of t ≡ class_counts self.book.lists.counts) }
        ensures sums { IfOk result (λ t. made_of t ≡ sum_over passes.items) }
        ensures all { IfOk result (λ t. vec_len passes ≡ self.given) }
        ensures back { IfErr result (λ e. (e.0 ≡ self) × (e.1 ≡ passes) × (vec_len passes ≢ self.given)) }
    {
        if passes.len() as u64 != self.given {
            return Err((self, passes));
        }
        let Core {
            book,
            tallies,
            uncut,
            ..
        } = self;
        tallies.settle(uncut, passes);
        let lists = book.lists();
        Ok(totals_of(lists.decisions(), lists.counts()))
    }
}
