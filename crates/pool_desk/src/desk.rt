//! The desk: the lease book behind one lock.
ghost use Rattle.std.specs.Prelude.{◌≡◌, IfOk, IfErr, IfSome, IsSome, OnErr, map, true};
ghost use Rattle.std.specs.Arc.{arc_value};
ghost use Rattle.book_model.specs.Book.{Book};
ghost use Rattle.book_model.specs.Kept.{Kept};
ghost use Rattle.book_register.specs.Views.{view_of};
ghost use Rattle.lease_book.specs.Histories.{LeadsTo};
ghost use Rattle.lease_book.specs.Shown.{as_shown, decisions_shown};
ghost use Rattle.lease_book.specs.Links.{BookOf, StrikesInPlace, answered, handed, handed_back, plain, reply_of};
ghost use Rattle.link_desk.specs.declared.calls.Call.TheVariants as call;
ghost use Rattle.desk_tallies.specs.Homes.{IsAtHome};
ghost use Rattle.desk_tallies.specs.Passes.{new_holder, new_pass};
ghost use Rattle.desk_tallies.specs.declared.passes.TheConstants.{ALL_PARTS};
ghost use Rattle.desk_tallies.specs.Shares.{AtMost, made_of, names_of, of_each, parts_of, sum_over};
ghost use Rattle.pool_desk.specs.Changes.{AfterHangUp, AfterTick, IsHangUpAtHome, IsHangUpOf, IsTickAtHome, changed_by};
ghost use Rattle.pool_desk.specs.Classes.{class_counts};
ghost use Rattle.pool_desk.specs.Hears.{call_of, heard};
ghost use Rattle.pool_desk.specs.Joined.{brought};
ghost use Rattle.pool_desk.specs.Tells.{Tells};

use crate::answers::{HungUp, Ticked};
use crate::bells::Bells;
use crate::helping::Helps;
use crate::inner::Core;
use crate::minding::{granted, heeded};
use crate::outside::Outside;
use book_model::events::{Beyond, Change, Event};
use book_model::limits::Limits;
use book_register::view::BookView;
use credentials::Credential;
use desk_tallies::answers::{
    Arrival, Asked, Back, Cancelled, Changed, Gone, Grant, Keying, Place, Release, Strike,
};
use desk_tallies::desk::LinkDesk;
use desk_tallies::ledgers::Ledgers;
use desk_tallies::passes::{Pass, Totals};
use desk_tallies::tallies::Blanks;
use lease_book::events::BookEvent::{GiveBack, Plain};
use lease_book::events::{BookEvent, BookReply};
use link_run::links::CleanLink;
use log_lines::notes::{Client, Note};
use message_view::KeyView;
use pool_figures::decisions::DecisionSeen;
use pool_figures::seen::Seen;
use server_end::ServerEnd;
use start_keys::StartKey;
use std::alloc::{AllocError, Global};
use std::rt::Clock;
use std::sync::{Arc, Mutex, MutexGuard, Wait};
use std::time::{Duration, Instant};
use time_limits::WAITING_LOOK;

/// The lease book behind one lock, the bells of the clients that wait, and what is reached outside. Each event is one hold of the lock,
/// in which no byte moves.
pub struct Desk<R: Wait, S: Outside, K: Ledgers> {
    rt: R,
    outside: S,
    core: Mutex<Core<S, K>>,
    bells: Bells,
}

impl<R: Wait + Drop, S: Outside + Drop, K: Ledgers> Drop for Desk<R, S, K> {
    fn drop(self) {
        let Desk {
            rt: _,
            outside: _,
            core: _,
            bells: _,
        } = self;
    }
}

impl<R: Wait + Drop, S: Outside + Drop, K: Ledgers> Desk<R, S, K> {
    /// A desk with an empty book.
    ///
    /// `AllocError` where memory is refused.
    pub fn new(
        rt: R,
        alloc: Global,
        outside: S,
        limits: Arc<Limits>,
        blanks: Blanks,
    ) -> Result<Desk<R, S, K>, AllocError>
        requires names { names_of blanks ≡ K.names }
        requires parts { K.parts ≡ parts_of blanks }
        requires all { parts_of blanks ≡ of_each ALL_PARTS }
    {
        let bells = Bells::new(alloc)?;
        let core = Core::new(alloc, limits, blanks)?;
        Ok(Desk {
            rt,
            outside,
            core: Mutex::new(core),
            bells,
        })
    }

    /// The book's decisions by class, which are those made through all passes together. `Err`, with both handed back: these are not
    /// as many passes as were cut off.
    pub fn gather(self, passes: Vec<Pass<K>>) -> Result<Totals, (Desk<R, S, K>, Vec<Pass<K>>)>
        ensures sums { IfOk result (λ t. made_of t ≡ sum_over passes.items) }
        ensures back { IfErr result (λ e. e.1 ≡ passes) }
    {
        let Desk {
            rt,
            outside,
            core,
            bells,
        } = self;
        match core.into_inner().gather(passes) {
            Ok(totals) => Ok(totals),
            Err((core, passes)) => {
                let core = Mutex::new(core);
                let desk = Desk {
                    rt,
                    outside,
                    core,
                    bells,
                };
                Err((desk, passes))
            }
        }
    }
}

impl<R: Wait + Clock, S: Outside, K: Ledgers> Desk<R, S, K> {
    /// A pass that nobody holds; `None` where 4,294,967,295 were cut off.
    pub fn pass(&self) -> Option<Pass<K>>
        ensures counted { IfSome result (λ p. p.counted ≡ new_pass) }
        ensures holder { IfSome result (λ p. p.holder ≡ new_holder) }
    {
        self.core.lock(&self.rt).pass()
    }

    /// Lets the lock go, and wakes those that a decision may help.
    fn ring(&self, core: MutexGuard<'_, Core<S, K>>, helps: Helps) {
        match helps {
            Helps::Nobody => {}
            Helps::One(client) => {
                drop(core);
                self.bells.of(client).notify_all();
            }
            Helps::FirstOfEach => self.ring_first_of_each(core),
            Helps::All => {
                drop(core);
                self.bells.ring_all();
            }
        }
    }

    /// Lets the lock go, and wakes the first of each pool. Apart, so that other decisions clear no table of bells.
    #[inline(never)]
    fn ring_first_of_each(&self, core: MutexGuard<'_, Core<S, K>>) {
        let chosen = core.first_of_each();
        drop(core);
        self.bells.ring(&chosen);
    }

    /// Wakes this client, if any.
    fn wake(&self, client: Option<u64>) {
        if let Some(client) = client {
            self.bells.of(client).notify_all();
        }
    }

    /// Lets the lock go until this client is woken, or for as long as [`WAITING_LOOK`] says.
    fn wait(&self, client: u64, core: MutexGuard<'_, Core<S, K>>) {
        let _ = self
            .bells
            .of(client)
            .wait_timeout(&self.rt, core, WAITING_LOOK.duration());
    }

    /// Whether so many seconds have gone since then; 0 are without a limit.
    fn is_over(&self, since: Option<Instant>, seconds: u32) -> bool {
        match since {
            Some(since) if seconds != 0 => match since.elapsed(&self.rt) {
                Ok(passed) => passed >= Duration::from_secs(u64::from(seconds)),
                Err(_) => true,
            },
            _ => false,
        }
    }

    /// One event, in one hold of the lock. The end of a link that comes back is minded before the book has it, under the lock: what is heard
    /// of it at once is told to the book behind its return.
    fn hold(&self, pass: &mut Pass<K>, event: BookEvent<S::End>) -> BookReply<S::End>
        requires home { IfSome (brought event) (λ l. IsAtHome S.home l) }
        ensures book { (b : Book) × (Kept b × ((reply_of result ≡ (answered b event).reply) × StrikesInPlace b result)) }
        ensures number { pass.new.number ≡ pass.old.number }
        ensures counted { Tells (plain event) (reply_of result) pass.old.counted pass.new.counted }
        ensures holder { pass.new.holder ≡ heard pass.old.holder (call_of (plain event)) result }
        ensures home { IfSome (handed result) (λ l. IsAtHome S.home l) }
        ensures back { IfSome (brought event) (λ l. handed result ≡ handed_back l (reply_of result)) }
    {
        let mut core = self.core.lock(&self.rt);
        let event = heeded(&self.outside, event);
        let helps = core.helped_by(&event);
        let called = core.calls(&event);
        let before = core.decisions();
        let reply = core.apply(pass, event);
        if core.decisions() != before {
            self.ring(core, helps);
        }
        self.wake(called);
        reply
    }

    /// Whether no client is let in any more.
    pub fn is_shut(&self) -> bool {
        self.core.lock(&self.rt).is_shut()
    }

    /// What is shown of the decisions that the book keeps, from the oldest on: of a key its process id alone.
    ///
    /// `AllocError` where memory is refused.
    pub fn decisions_seen(&self, alloc: Global) -> Result<Vec<DecisionSeen>, AllocError>
        ensures { IfOk result (λ v. (b : BookOf) × (Kept b.lists × (LeadsTo b.history b.lists × (map as_shown v.items ≡ decisions_shown b.history)))) }
    {
        self.core.lock(&self.rt).shown(alloc)
    }

    /// The clock has reached this second.
    pub fn tick(&self, pass: &mut Pass<K>, now: u64) -> Ticked<S::End>
        ensures counted { AfterTick result pass.old.counted pass.new.counted }
        ensures holder { pass.new.holder ≡ record pass.old.holder { last = Some (call.Tick now) } }
        ensures home { IsTickAtHome S.home result }
    {
        match self.hold(pass, Plain(Event::Tick { now })) {
            BookReply::Done => Ticked::Done,
            BookReply::Close(link) => Ticked::Close(link),
            _ => Ticked::Last,
        }
    }

    /// The server of the link of this number has hung up, or has said something that nobody asked for. One that isn't idle any more stays
    /// as it is.
    #[tactic(auto, using(crate::proofs::Answering::is_named))]
    pub fn hung_up(&self, pass: &mut Pass<K>, number: u64) -> HungUp<S::End>
        ensures counted { AfterHangUp result pass.old.counted pass.new.counted }
        ensures holder { pass.new.holder ≡ record pass.old.holder { last = Some (call.HungUp number) } }
        ensures named { IsHangUpOf number result }
        ensures home { IsHangUpAtHome S.home result }
    {
        match self.hold(pass, Plain(Event::HungUp { link: number })) {
            BookReply::Close(link) => HungUp::Close(link),
            BookReply::Nobody => HungUp::NotIdle,
            _ => HungUp::Last,
        }
    }
}

/// What is answered to a change, by the book's reply.
fn changed<E: ServerEnd>(reply: BookReply<E>) -> Changed
    ensures { result ≡ changed_by (reply_of reply) }
{
    match reply {
        BookReply::Done => Changed::Done,
        _ => Changed::Last,
    }
}

impl<R: Wait + Clock, S: Outside, K: Ledgers> LinkDesk for Desk<R, S, K> {
    type End = S::End;

    type Pass = Pass<K>;

    ghost home = { S.home };

    ghost counted = { λ p. p.counted };

    ghost holder = { λ p. p.holder };

    fn arrive(&self, pass: &mut Pass<K>, beyond: Beyond) -> Arrival {
        match self.hold(pass, Plain(Event::Arrive { beyond })) {
            BookReply::Client(client) => Arrival::Client(client),
            BookReply::Refuse(refusal, _) => Arrival::Refused(refusal),
            _ => unreachable!(),
        }
    }

    fn ask(&self, pass: &mut Pass<K>, key: &Arc<StartKey>) -> Asked {
        let client = pass.client();
        let Ok(key) = Arc::try_clone(key) else {
            return Asked::Memory;
        };
        match self.hold(pass, Plain(Event::Ask { client, key })) {
            BookReply::Queued(before) => Asked::Queued(before),
            BookReply::Refuse(refusal, _) => Asked::Refused(refusal),
            _ => Asked::Stranger,
        }
    }

    fn take(&self, pass: &mut Pass<K>) -> Grant<S::End> {
        let client = pass.client();
        let mut core = self.core.lock(&self.rt);
        let helps = core.helped_behind(client);
        match core.take(pass, client) {
            Grant::Queued => {
                self.wait(client, core);
                Grant::Queued
            }
            grant => {
                self.ring(core, helps);
                granted(&self.outside, grant)
            }
        }
    }

    fn keyed(&self, pass: &mut Pass<K>, client: KeyView, server: KeyView) -> Keying {
        let event = Event::Keyed {
            link: pass.lease().number,
            client,
            server,
        };
        match self.hold(pass, Plain(event)) {
            BookReply::Done => Keying::Done,
            BookReply::Refuse(..) => Keying::Last,
            _ => Keying::Stranger,
        }
    }

    fn end_lease(&self, pass: &mut Pass<K>) -> Release {
        let link = pass.lease().number;
        match self.hold(pass, Plain(Event::EndLease { link })) {
            BookReply::Reset => Release::Reset,
            BookReply::Dispose => Release::Dispose,
            BookReply::Refuse(..) => Release::Last,
            _ => Release::Stranger,
        }
    }

    #[tactic(auto, using(crate::proofs::Answering::is_struck, crate::proofs::Answering::is_nobody, crate::proofs::Answering::is_last))]
    fn cancel(&self, pass: &mut Pass<K>, client: KeyView) -> Cancelled {
        match self.hold(pass, Plain(Event::Cancel { client })) {
            BookReply::Strike {
                number,
                server,
                host,
                port,
            } => Cancelled::Strike(Strike {
                link: number,
                server,
                host,
                port,
            }),
            BookReply::Nobody => Cancelled::Nobody,
            _ => Cancelled::Last,
        }
    }

    fn strike(&self, pass: &mut Pass<K>, strike: &Strike) {
        self.outside.strike(strike);
        pass.strikes();
    }

    fn give_back(&self, pass: &mut Pass<K>, link: &mut Option<CleanLink<S::End>>) -> Back {
        let Some(clean) = link.take() else {
            unreachable!()
        };
        match self.hold(pass, GiveBack(clean)) {
            BookReply::Done => Back::Done,
            BookReply::Close(clean) => {
                *link = Some(clean);
                Back::Close
            }
            BookReply::Refuse(_, back) => {
                *link = back;
                Back::Last
            }
            BookReply::Stranger(back) => {
                *link = back;
                Back::Stranger
            }
            _ => unreachable!(),
        }
    }

    fn lost(&self, pass: &mut Pass<K>) -> Gone {
        let link = pass.lease().number;
        match self.hold(pass, Plain(Event::Lost { link })) {
            BookReply::Done => Gone::Done,
            BookReply::Refuse(..) => Gone::Last,
            _ => Gone::Stranger,
        }
    }

    fn start_failed(&self, pass: &mut Pass<K>) -> Gone {
        let link = pass.lease().number;
        match self.hold(pass, Plain(Event::StartFailed { link })) {
            BookReply::Done => Gone::Done,
            BookReply::Refuse(..) => Gone::Last,
            _ => Gone::Stranger,
        }
    }

    fn await_place(
        &self,
        pass: &mut Pass<K>,
        key: &Arc<StartKey>,
        since: Option<Instant>,
        seconds: u32,
    ) -> Place {
        let client = pass.client();
        if self.is_over(since, seconds) {
            return Place::Nowhere;
        }
        let mut core = self.core.lock(&self.rt);
        let place = core.place_for(client, key);
        if let Place::Waits = place {
            self.wait(client, core);
        }
        place
    }

    fn leave(&self, pass: &mut Pass<K>) -> Gone {
        let client = pass.client();
        match self.hold(pass, Plain(Event::Leave { client })) {
            BookReply::Done => Gone::Done,
            BookReply::Refuse(..) => Gone::Last,
            _ => Gone::Stranger,
        }
    }

    fn dial(
        &self,
        number: u64,
        key: &StartKey,
        credential: &Credential<'_>,
        seconds: u32,
    ) -> Option<S::End> {
        self.outside.dial(number, key, credential, seconds)
    }

    fn view(&self, alloc: Global, pass: &mut Pass<K>) -> Result<BookView, AllocError> {
        self.core.lock(&self.rt).view(alloc, pass)
    }

    fn seen(&self, alloc: Global) -> Result<Seen, AllocError> {
        Ok(Seen::nothing(alloc))
    }

    fn decisions(&self, alloc: Global) -> Result<Vec<DecisionSeen>, AllocError> {
        self.decisions_seen(alloc)
    }

    #[tactic(auto, using(crate::proofs::Answering::change_told))]
    fn pause(&self, pass: &mut Pass<K>) -> Changed {
        changed(self.hold(pass, Plain(Event::Change(Change::Pause))))
    }

    #[tactic(auto, using(crate::proofs::Answering::change_told))]
    fn resume(&self, pass: &mut Pass<K>) -> Changed {
        changed(self.hold(pass, Plain(Event::Change(Change::Resume))))
    }

    #[tactic(auto, using(crate::proofs::Answering::change_told))]
    fn shutdown(&self, pass: &mut Pass<K>) -> Changed {
        changed(self.hold(pass, Plain(Event::Change(Change::Shutdown))))
    }

    #[tactic(auto, using(crate::proofs::Answering::change_told))]
    fn reconnect(&self, pass: &mut Pass<K>) -> Changed {
        changed(self.hold(pass, Plain(Event::Change(Change::Reconnect))))
    }

    #[tactic(auto, using(crate::proofs::Answering::change_told))]
    fn limits(&self, pass: &mut Pass<K>, limits: Arc<Limits>) -> Changed {
        changed(self.hold(pass, Plain(Event::Change(Change::Limits(limits)))))
    }

    fn reload(&self) -> Option<Arc<Limits>> {
        self.outside.reload()
    }

    fn settle(&self, _pass: &Pass<K>, changed: Changed) {
        self.outside.settle(changed);
    }

    fn note(&self, client: &Client<'_>, note: &Note<'_>) {
        self.outside.note(client, note);
    }
}
