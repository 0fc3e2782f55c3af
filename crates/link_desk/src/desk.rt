//! A desk that lends links.
ghost use Rattle.std.specs.Prelude.{◌≡◌, IfOk, IfSome, IsSome, MatchOption, None, Some, false, true};
ghost use Rattle.session_values.specs.State.{address_of};
ghost use Rattle.book_model.specs.Book.{Book};
ghost use Rattle.book_model.specs.Kept.{Kept};
ghost use Rattle.book_model.specs.Outcomes.{apply};
ghost use Rattle.book_model.specs.Outcomes.Event.{Take};
ghost use Rattle.book_register.specs.Views.{view_of};
ghost use Rattle.link_desk.specs.Cancels.{IsAnswerToCancel, target_of};
ghost use Rattle.link_desk.specs.Counts.{AtMost, class_counts};
ghost use Rattle.link_desk.specs.Grants.{IsAnswerToTake};
ghost use Rattle.link_desk.specs.Homes.{IsAtHome, IsDialled, IsGrantAtHome};
ghost use Rattle.link_desk.specs.declared.calls.Call.TheVariants.{GiveBack, Lost, StartFailed};
ghost use Rattle.link_desk.specs.declared.calls.Call.TheVariants as call;
ghost use Rattle.link_desk.specs.declared.calls.Stage.TheVariants.{Granted};
ghost use Rattle.link_desk.specs.Passes.{IsAfterChange, after_arrival, after_asking, after_back, after_cancel, after_change, after_grant, after_keying, after_leaving, after_loss, after_release, arrived, asked_by, cancelling, ended_lease, is_open, keeps, keyed_lease, left, released, stage_of, striking, taken, without_lease};
ghost use Rattle.link_desk.specs.Refusing.{MayArrive, MayAsk, MayTake};

use crate::answers::{
    Arrival, Asked, Back, Cancelled, Changed, Gone, Grant, Keying, Place, Release, Strike,
};
use book_model::events::Beyond;
use book_model::limits::Limits;
use book_register::view::BookView;
use credentials::Credential;
use link_start::links::CleanLink;
use log_lines::notes::{Client, Note};
use message_view::KeyView;
use pool_figures::decisions::DecisionSeen;
use pool_figures::seen::Seen;
use server_end::ServerEnd;
use start_keys::StartKey;
use std::alloc::{AllocError, Global};
use std::sync::Arc;
use std::time::Instant;

/// A desk that lends links. Its calls are those of the lease book, each made through a pass, on which it is counted how many decisions
/// of each class were made through it, and which tells who holds it: a client that came through it, and its link. So no call is given
/// a number that its pass knows: a client asks, takes and leaves by the number that it was given at its arrival, and it is its own
/// link that comes back or is lost.
pub trait LinkDesk {
    ghost use Rattle.link_desk.specs.Homes.{HomeOf};
    ghost use Rattle.link_desk.specs.Passes.{PassOf};
    ghost use Rattle.link_desk.specs.declared.calls.Holder.{Holder};

    type End: ServerEnd;

    type Pass;

    /// Where its links lead.
    ghost home: { HomeOf };

    /// The decisions that were made through a pass.
    ghost counted: { Self.Pass → PassOf };

    ghost holder: { Self.Pass → Holder };

    /// A client has come, which may use so many places beyond the limit.
    fn arrive(&self, pass: &mut Self::Pass, beyond: Beyond) -> Arrival
        requires free { (holder pass.old).client ≡ None }
        ensures counted { counted pass.new ≡ after_arrival (counted pass.old) result }
        ensures holder { holder pass.new ≡ arrived beyond (holder pass.old) result }
        ensures refused { MayArrive result };

    /// The client is through its login, and asks for a link of this key.
    fn ask(&self, pass: &mut Self::Pass, key: &Arc<StartKey>) -> Asked
        requires here { IsSome (holder pass.old).client }
        ensures counted { counted pass.new ≡ after_asking (counted pass.old) result }
        ensures holder { holder pass.new ≡ asked_by (holder pass.old) result }
        ensures refused { MayAsk result };

    /// The client's link, or why there is none; where it waits on, only after a while, in which the desk may have changed.
    fn take(&self, pass: &mut Self::Pass) -> Grant<Self::End>
        requires here { IsSome (holder pass.old).client }
        requires none { (holder pass.old).lease ≡ None }
        ensures book { IfSome (holder pass.old).client (λ client. (b : Book) × (Kept b × IsAnswerToTake (apply b (Take client)).reply result)) }
        ensures counted { counted pass.new ≡ after_grant (counted pass.old) result }
        ensures holder { holder pass.new ≡ taken (holder pass.old) result }
        ensures refused { MayTake result }
        ensures home { IsGrantAtHome home result };

    /// From now on a cancel with the client's key word finds the client's lease, whose server told that other key word.
    fn keyed(&self, pass: &mut Self::Pass, client: KeyView, server: KeyView) -> Keying
        requires granted { stage_of (holder pass.old) ≡ Some Granted }
        ensures counted { counted pass.new ≡ after_keying (counted pass.old) result }
        ensures holder { holder pass.new ≡ keyed_lease client server (holder pass.old) result };

    /// The client's lease has ended: no cancel finds it any more. Only where none found it before may its link go to another client.
    fn end_lease(&self, pass: &mut Self::Pass) -> Release
        requires open { is_open (holder pass.old) ≡ true }
        ensures counted { counted pass.new ≡ after_release (counted pass.old) result }
        ensures holder { holder pass.new ≡ released (holder pass.old) result };

    /// Finds the lease of the client of this key word, whatever client that is, for which somebody asks to have its statement cancelled.
    fn cancel(&self, pass: &mut Self::Pass, client: KeyView) -> Cancelled
        ensures book { (b : Book) × (Kept b × IsAnswerToCancel b client result) }
        ensures counted { counted pass.new ≡ after_cancel (counted pass.old) result }
        ensures holder { holder pass.new ≡ cancelling client (holder pass.old) result };

    /// Sends the cancel that was found on its way to the link's server, and waits until that has closed the connection on which it came,
    /// or for some seconds.
    fn strike(&self, pass: &mut Self::Pass, strike: &Strike)
        requires found { (holder pass.old).found ≡ Some (target_of strike.now) }
        ensures counted { counted pass.new ≡ counted pass.old }
        ensures holder { holder pass.new ≡ striking (holder pass.old) };

    /// Takes the client's link back, clean, after its lease has ended without a cancel; or leaves it there to be closed.
    fn give_back(&self, pass: &mut Self::Pass, link: &mut Option<CleanLink<Self::End>>) -> Back
        requires here { IsSome link.old }
        requires own { IfSome link.old (λ l. (holder pass.old).lease ≡ Some (ended_lease l)) }
        requires home { IfSome link.old (λ l. IsAtHome home l) }
        ensures counted { counted pass.new ≡ after_back (counted pass.old) result }
        ensures holder { holder pass.new ≡ without_lease GiveBack (holder pass.old) }
        ensures link { link.new ≡ keeps result link.old };

    /// The client's link has been closed.
    fn lost(&self, pass: &mut Self::Pass) -> Gone
        requires here { IsSome (holder pass.old).lease }
        ensures counted { counted pass.new ≡ after_loss (counted pass.old) result }
        ensures holder { holder pass.new ≡ without_lease Lost (holder pass.old) };

    /// The client's link, which was to be started, could not be.
    fn start_failed(&self, pass: &mut Self::Pass) -> Gone
        requires here { IsSome (holder pass.old).lease }
        ensures counted { counted pass.new ≡ after_loss (counted pass.old) result }
        ensures holder { holder pass.new ≡ without_lease StartFailed (holder pass.old) };

    /// Waits for a while, behind those who wait for the same, until a link of this key's pool comes back or goes: the client's server had no
    /// place for one more. Nobody waits for longer than so many seconds (0: without a limit) since then. Nothing is claimed of it.
    fn await_place(
        &self,
        _pass: &mut Self::Pass,
        _key: &Arc<StartKey>,
        _since: Option<Instant>,
        _seconds: u32,
    ) -> Place
        requires here { IsSome (holder _pass.old).client }
        ensures counted { counted _pass.new ≡ counted _pass.old }
        ensures holder { holder _pass.new ≡ holder _pass.old }
    {
        Place::Nowhere
    }

    /// The client has gone; its link went before.
    fn leave(&self, pass: &mut Self::Pass) -> Gone
        requires here { IsSome (holder pass.old).client }
        requires none { (holder pass.old).lease ≡ None }
        ensures counted { counted pass.new ≡ after_leaving (counted pass.old) result }
        ensures holder { holder pass.new ≡ left (holder pass.old) };

    /// A new end of this key's server for the link of this number, which waits for its StartupMessage, by this credential; `None` where it
    /// can't be reached in so many seconds (0: as the desk likes), or the key has no server.
    fn dial(
        &self,
        number: u64,
        key: &StartKey,
        credential: &Credential<'_>,
        seconds: u32,
    ) -> Option<Self::End>
        ensures { MatchOption result (home.reaches (address_of key.now) ≡ false) (λ e. IsDialled home key.now credential.now (Self.End.standing e)) };

    /// The book as it is now, in rows of the caller's own; what was made through the pass is among its decisions.
    ///
    /// `AllocError` where memory is refused.
    fn view(&self, alloc: Global, pass: &mut Self::Pass) -> Result<BookView, AllocError>
        ensures view { IfOk result (λ v. (b : Book) × (Kept b × (v ≡ view_of b))) }
        ensures at_least { IfOk result (λ v. AtMost (counted pass.old).made (class_counts v.counts)) }
        ensures counted { counted pass.new ≡ counted pass.old }
        ensures holder { holder pass.new ≡ holder pass.old };

    /// What is known beside the book. Nothing is claimed of it.
    ///
    /// `AllocError` where memory is refused.
    fn seen(&self, alloc: Global) -> Result<Seen, AllocError>;

    /// The decisions that the book keeps, from the oldest on. Nothing is claimed of them.
    ///
    /// `AllocError` where memory is refused.
    fn decisions(&self, alloc: Global) -> Result<Vec<DecisionSeen>, AllocError>;

    /// No link is lent until [`LinkDesk::resume`].
    fn pause(&self, pass: &mut Self::Pass) -> Changed
        ensures counted { counted pass.new ≡ after_change (counted pass.old) result }
        ensures holder { holder pass.new ≡ record (holder pass.old) { last = Some call.Pause } };

    /// Links are lent again.
    fn resume(&self, pass: &mut Self::Pass) -> Changed
        ensures counted { counted pass.new ≡ after_change (counted pass.old) result }
        ensures holder { holder pass.new ≡ record (holder pass.old) { last = Some call.Resume } };

    /// No client is let in and no link lent any more.
    fn shutdown(&self, pass: &mut Self::Pass) -> Changed
        ensures counted { counted pass.new ≡ after_change (counted pass.old) result }
        ensures holder { holder pass.new ≡ record (holder pass.old) { last = Some call.Shutdown } };

    /// No link that is there now is lent again: those that are idle are closed by the next ticks, those that are lent at their return.
    fn reconnect(&self, pass: &mut Self::Pass) -> Changed
        ensures counted { counted pass.new ≡ after_change (counted pass.old) result }
        ensures holder { holder pass.new ≡ record (holder pass.old) { last = Some call.Reconnect } };

    /// These limits hold from now on.
    fn limits(&self, pass: &mut Self::Pass, limits: Arc<Limits>) -> Changed
        ensures counted { counted pass.new ≡ after_change (counted pass.old) result }
        ensures holder { holder pass.new ≡ record (holder pass.old) { last = Some call.Limits } };

    /// Reads the files of settings and users again, once no earlier reading of them is unsettled: the limits of the settings. Nothing of
    /// what was read holds before [`LinkDesk::settle`], which is to follow. `None` where a file has a fault or memory is refused, and then
    /// nothing is unsettled.
    fn reload(&self) -> Option<Arc<Limits>>;

    /// The limits that were read were answered so, by the pass's last call. Where the book keeps them, all that was read holds for later
    /// clients from now on, and the log says so; else it is forgotten.
    fn settle(&self, pass: &Self::Pass, changed: Changed)
        requires limits { (holder pass.now).last ≡ Some call.Limits }
        requires answered { IsAfterChange changed (counted pass.now) };

    /// Logs a note. It waits for no reader of the log.
    fn note(&self, client: &Client<'_>, note: &Note<'_>);
}
