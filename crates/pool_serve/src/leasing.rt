//! A link for a client, and its lease.
ghost use Rattle.std.specs.Prelude.{◌≡◌, [], IfErr, IfOk, IsSome, None, Some, true};
ghost use Rattle.std.specs.Arc.{arc_value};
ghost use Rattle.start_keys.specs.Keys.{same_key};
ghost use Rattle.link_desk.specs.Homes.{IsAtHome, IsGrantAtHome};
ghost use Rattle.link_desk.specs.Passes.{after_grant, after_loss, granted_lease, one_granted, one_other, taken, without_lease};
ghost use Rattle.link_desk.specs.declared.answers.Gone.{Gone};
ghost use Rattle.link_desk.specs.declared.calls.Call.TheVariants.{Lost, StartFailed};
ghost use Rattle.link_desk.specs.declared.calls.Stage.TheVariants.{Granted};
ghost use Rattle.link_desk.specs.Refusing.{MayTake};
ghost use Rattle.pool_serve.specs.Again.{HasEndedAtLast, IsEndedFor, IsGrantedAtLast, IsHeldBy, IsLinked, IsNotStarted, IsUnlinkedAtLast, lacks_place};
ghost use Rattle.pool_serve.specs.Causes.{AtAsking, AtLease, AtWait, HadLink, HasLost};
ghost use Rattle.pool_serve.specs.Cancels.{key_of};
ghost use Rattle.pool_serve.specs.Endings.{Frees, HasEnded, HasLeased, IsUnopened};
ghost use Rattle.pool_serve.specs.Serving.{IsLoggedIn, LetsIn, MayEnd, owed};
ghost use Rattle.pool_serve.specs.Shares.{Ends, Evens};
ghost use Rattle.pool_serve.specs.FinalMessages.{final_message_of};
ghost use Rattle.pool_serve.specs.declared.ending.Ending.TheVariants as ending;

use crate::ending::Ending;
use crate::logged_in::LoggedIn;
use crate::noting::asking_note;
use crate::opening::open_link;
use crate::worker::Worker;
use link_desk::answers::{Asked, Grant, Keying, Place};
use link_desk::desk::LinkDesk;
use link_run::links::CleanLink;
use link_start::close::close_link;
use link_start::start::StartCause;
use log_lines::lines::sqlstate;
use message_view::{KeyView, KeyWord};
use server_end::gate::Gate;
use server_end::{ClientEnd, ServerEnd};
use time_limits::MAX_TURNS;

/// The words by which a cancel names a client: those of the BackendKeyData that it is given.
fn key_of(word: KeyWord) -> KeyView
    ensures { result ≡ key_of word }
{
    KeyView {
        pid: word.pid,
        secret: word.secret,
    }
}

/// Whether a link's session is of a client's key.
fn is_for<E: ServerEnd>(link: &CleanLink<E>, logged_in: &LoggedIn) -> bool
    ensures { result ≡ same_key link.now.key (arc_value logged_in.now.key) }
{
    **link.key() == *logged_in.key
}

/// Whether a link wasn't started since its server has no place for it, or is just starting (SQLSTATE 53300, 57P03).
fn lacks_place(ending: &Ending) -> bool
    ensures { result ≡ lacks_place ending.now }
{
    match ending {
        Ending::Unstarted(StartCause::Refused(error)) => {
            let state = sqlstate(error.as_bytes());
            state == b"53300".as_slice() || state == b"57P03".as_slice()
        }
        _ => false,
    }
}

impl<'a, D: LinkDesk, G: Gate<D::End>> Worker<'a, D, G> {
    /// Closes the client's link, over which nothing went, and reports it lost.
    fn drop_link(&mut self, link: CleanLink<D::End>)
        requires here { IsSome (D.holder self.old.pass).lease }
        ensures lost { HadLink AtLease (D.counted self.old.pass) (D.counted self.new.pass) × HasLost (D.counted self.old.pass) (D.counted self.new.pass) }
        ensures share { Ends (D.counted self.old.pass) (D.counted self.new.pass) }
        ensures holder { D.holder self.new.pass ≡ without_lease Lost (D.holder self.old.pass) }
    {
        close_link(link);
        self.desk.lost(&mut self.pass);
    }

    /// Serves a client over its link, whose lease a cancel finds from here on by the client's key word. A link whose server told no key
    /// word serves all the same: no cancel is for it.
    fn over_link<C: ClientEnd>(
        &mut self,
        client: C,
        logged_in: &LoggedIn,
        link: CleanLink<D::End>,
    ) -> (C, Ending)
        requires home { IsAtHome D.home link }
        requires key { link.key ≡ arc_value logged_in.now.key }
        requires own { (D.holder self.old.pass).lease ≡ Some (granted_lease link) }
        requires logged_in { IsLoggedIn logged_in.now }
        ensures share { Ends (D.counted self.old.pass) (D.counted self.new.pass) }
        ensures frees { Frees (D.holder self.old.pass) (D.holder self.new.pass) result.1 }
        ensures ended { HasEnded D.home logged_in.now AtLease (D.counted self.old.pass) (D.counted self.new.pass) (C.facts client) (C.facts result.0) result.1 }
    {
        let Some(server) = link.server_key() else {
            return self.relay(client, logged_in, link);
        };
        match self
            .desk
            .keyed(&mut self.pass, key_of(logged_in.word), server)
        {
            Keying::Done => self.relay(client, logged_in, link),
            Keying::Last => {
                self.drop_link(link);
                (client, Ending::Last)
            }
            Keying::Stranger => {
                self.drop_link(link);
                (client, Ending::Strange)
            }
        }
    }

    /// A link that was idle, for the client; one with another key than the client's is closed.
    fn lent_link(
        &mut self,
        logged_in: &LoggedIn,
        link: CleanLink<D::End>,
    ) -> Result<CleanLink<D::End>, Ending>
        requires home { IsAtHome D.home link }
        requires own { (D.holder self.old.pass).lease ≡ Some (granted_lease link) }
        ensures linked { IfOk result (λ l. IsLinked D.home logged_in.now (D.holder self.new.pass) l) }
        ensures counted { IfOk result (λ l. D.counted self.new.pass ≡ D.counted self.old.pass) }
        ensures holder { IfOk result (λ l. D.holder self.new.pass ≡ D.holder self.old.pass) }
        ensures strange { IfErr result (λ e. e ≡ ending.Strange) }
        ensures lost { IfErr result (λ e. HadLink AtLease (D.counted self.old.pass) (D.counted self.new.pass) × HasLost (D.counted self.old.pass) (D.counted self.new.pass)) }
        ensures share { IfErr result (λ e. Ends (D.counted self.old.pass) (D.counted self.new.pass)) }
        ensures freed { IfErr result (λ e. D.holder self.new.pass ≡ without_lease Lost (D.holder self.old.pass)) }
    {
        let mut link = link;
        if !is_for(&link, logged_in) {
            self.drop_link(link);
            return Err(Ending::Strange);
        }
        link.watch(&mut self.gate);
        Ok(link)
    }

    /// A new link for the client, which was granted it; where it can't be started, the desk is told.
    fn new_link(
        &mut self,
        logged_in: &LoggedIn,
        number: u64,
        started_at: u64,
    ) -> Result<CleanLink<D::End>, Ending>
        requires own { (D.holder self.old.pass).lease ≡ Some (record { number = number; started_at = started_at; stage = Granted }) }
        requires logged_in { IsLoggedIn logged_in.now }
        ensures linked { IfOk result (λ l. IsLinked D.home logged_in.now (D.holder self.new.pass) l) }
        ensures counted { IfOk result (λ l. D.counted self.new.pass ≡ D.counted self.old.pass) }
        ensures holder { IfOk result (λ l. D.holder self.new.pass ≡ D.holder self.old.pass) }
        ensures why { IfErr result (λ e. IsUnopened D.home logged_in.now e) }
        ensures word { LetsIn D.home logged_in.now.login → IfErr result (λ e. MayEnd [] (owed D.home.catalogue logged_in.now [] []) (final_message_of e)) }
        ensures failed { IfErr result (λ e. (gone : Gone) × (D.counted self.new.pass ≡ after_loss (D.counted self.old.pass) gone)) }
        ensures freed { IfErr result (λ e. D.holder self.new.pass ≡ without_lease StartFailed (D.holder self.old.pass)) }
    {
        let opened = open_link(
            self.alloc,
            self.desk,
            logged_in,
            number,
            started_at,
            &mut self.gate,
        );
        if opened.is_err() {
            self.desk.start_failed(&mut self.pass);
        }
        opened
    }

    /// Takes the client's link once it needn't wait any longer; `Queued` where the client has gone meanwhile.
    fn take_in_turn(&mut self) -> Grant<D::End>
        requires here { IsSome (D.holder self.old.pass).client }
        requires none { (D.holder self.old.pass).lease ≡ None }
        ensures counted { D.counted self.new.pass ≡ after_grant (D.counted self.old.pass) result }
        ensures holder { D.holder self.new.pass ≡ taken (D.holder self.old.pass) result }
        ensures refused { MayTake result }
        ensures home { IsGrantAtHome D.home result }
    {
        for _ in 0..MAX_TURNS {
            match self.desk.take(&mut self.pass) {
                Grant::Queued => {
                    if self.gate.client_has_left() {
                        return Grant::Queued;
                    }
                }
                grant => return grant,
            }
        }
        Grant::Queued
    }

    /// A link for a client that has its ticket: it waits for that.
    fn take_link(&mut self, logged_in: &LoggedIn) -> Result<CleanLink<D::End>, Ending>
        requires logged_in { IsLoggedIn logged_in.now }
        requires here { IsSome (D.holder self.old.pass).client }
        requires none { (D.holder self.old.pass).lease ≡ None }
        requires unrefused { (D.holder self.old.pass).refused ≡ None }
        ensures linked { IfOk result (λ l. IsLinked D.home logged_in.now (D.holder self.new.pass) l) }
        ensures counted { IfOk result (λ l. D.counted self.new.pass ≡ one_granted (D.counted self.old.pass)) }
        ensures held { IfOk result (λ l. IsHeldBy (D.holder self.old.pass) (D.holder self.new.pass)) }
        ensures leased { IfErr result (λ e. HasLeased (D.holder self.old.pass) (D.holder self.new.pass) e) }
        ensures share { IfErr result (λ e. Evens (D.counted self.old.pass) (D.counted self.new.pass)) }
        ensures ended { IfErr result (λ e. IsEndedFor D.home logged_in.now AtWait (D.counted self.old.pass) (D.counted self.new.pass) e) }
        ensures failed { IfErr result (λ e. lacks_place e ≡ true → IsNotStarted D.home logged_in.now AtWait (D.counted self.old.pass) (D.counted self.new.pass) e) }
    {
        match self.take_in_turn() {
            Grant::Queued => Err(Ending::Left),
            Grant::Lend(link) => self.lent_link(logged_in, link),
            Grant::Start {
                number,
                started_at,
                evicted,
            } => {
                if let Some(link) = evicted {
                    close_link(link);
                }
                self.new_link(logged_in, number, started_at)
            }
            Grant::Refused(refusal) => Err(Ending::Refused(refusal)),
            Grant::Stranger => Err(Ending::Strange),
        }
    }

    /// A link for the client: asks for it.
    fn ask_link(&mut self, logged_in: &LoggedIn) -> Result<CleanLink<D::End>, Ending>
        requires logged_in { IsLoggedIn logged_in.now }
        requires here { IsSome (D.holder self.old.pass).client }
        requires none { (D.holder self.old.pass).lease ≡ None }
        requires unrefused { (D.holder self.old.pass).refused ≡ None }
        ensures linked { IfOk result (λ l. IsLinked D.home logged_in.now (D.holder self.new.pass) l) }
        ensures counted { IfOk result (λ l. D.counted self.new.pass ≡ one_granted (one_other (D.counted self.old.pass))) }
        ensures held { IfOk result (λ l. IsHeldBy (D.holder self.old.pass) (D.holder self.new.pass)) }
        ensures leased { IfErr result (λ e. HasLeased (D.holder self.old.pass) (D.holder self.new.pass) e) }
        ensures share { IfErr result (λ e. Evens (D.counted self.old.pass) (D.counted self.new.pass)) }
        ensures ended { IfErr result (λ e. IsEndedFor D.home logged_in.now AtAsking (D.counted self.old.pass) (D.counted self.new.pass) e) }
        ensures failed { IfErr result (λ e. lacks_place e ≡ true → IsNotStarted D.home logged_in.now AtAsking (D.counted self.old.pass) (D.counted self.new.pass) e) }
    {
        match self.desk.ask(&mut self.pass, &logged_in.key) {
            Asked::Queued(_) => self.take_link(logged_in),
            Asked::Refused(refusal) => Err(Ending::Refused(refusal)),
            Asked::Memory => Err(Ending::Memory),
            Asked::Stranger => Err(Ending::Strange),
        }
    }

    /// Whether the client, whose link its server had no place for, may ask again: once a link of its pool has come back or gone. Until then
    /// it waits, for as long as a client may for its link, from its coming on.
    fn may_ask_again(&mut self, logged_in: &LoggedIn, ending: &Ending) -> bool
        requires here { IsSome (D.holder self.old.pass).client }
        ensures counted { D.counted self.new.pass ≡ D.counted self.old.pass }
        ensures holder { D.holder self.new.pass ≡ D.holder self.old.pass }
    {
        let seconds = logged_in.login.settings().query_wait_timeout();
        for _ in 0..MAX_TURNS {
            match self
                .desk
                .await_place(&mut self.pass, &logged_in.key, self.visit.since, seconds)
            {
                Place::Free => {
                    if let Some(note) = asking_note(logged_in, ending) {
                        self.note(&note);
                    }
                    return true;
                }
                Place::Nowhere => return false,
                Place::Waits => {
                    if self.gate.client_has_left() {
                        return false;
                    }
                }
            }
        }
        false
    }

    /// A link for the client, which asks again as long as its server has no place for one and others of its pool are lent.
    fn link(&mut self, logged_in: &LoggedIn) -> Result<CleanLink<D::End>, Ending>
        requires logged_in { IsLoggedIn logged_in.now }
        requires here { IsSome (D.holder self.old.pass).client }
        requires none { (D.holder self.old.pass).lease ≡ None }
        requires unrefused { (D.holder self.old.pass).refused ≡ None }
        ensures linked { IfOk result (λ l. IsLinked D.home logged_in.now (D.holder self.new.pass) l) }
        ensures counted { IfOk result (λ l. IsGrantedAtLast D.home logged_in.now (D.counted self.old.pass) (D.counted self.new.pass)) }
        ensures held { IfOk result (λ l. IsHeldBy (D.holder self.old.pass) (D.holder self.new.pass)) }
        ensures leased { IfErr result (λ e. HasLeased (D.holder self.old.pass) (D.holder self.new.pass) e) }
        ensures share { IfErr result (λ e. Evens (D.counted self.old.pass) (D.counted self.new.pass)) }
        ensures ended { IfErr result (λ e. IsUnlinkedAtLast D.home logged_in.now (D.counted self.old.pass) (D.counted self.new.pass) e) }
    {
        for _ in 0..MAX_TURNS {
            match self.ask_link(logged_in) {
                Ok(link) => return Ok(link),
                Err(ending) => {
                    if !lacks_place(&ending) {
                        return Err(ending);
                    }
                    if !self.may_ask_again(logged_in, &ending) {
                        return Err(ending);
                    }
                }
            }
        }
        Err(Ending::Left)
    }

    /// Serves a client that is through its login over a link, if it is granted one.
    pub(crate) fn lease<C: ClientEnd>(&mut self, client: C, logged_in: &LoggedIn) -> (C, Ending)
        requires logged_in { IsLoggedIn logged_in.now }
        requires here { IsSome (D.holder self.old.pass).client }
        requires none { (D.holder self.old.pass).lease ≡ None }
        requires unrefused { (D.holder self.old.pass).refused ≡ None }
        ensures share { Evens (D.counted self.old.pass) (D.counted self.new.pass) }
        ensures leased { HasLeased (D.holder self.old.pass) (D.holder self.new.pass) result.1 }
        ensures ended { HasEndedAtLast D.home logged_in.now (D.counted self.old.pass) (D.counted self.new.pass) (C.facts client) (C.facts result.0) result.1 }
    {
        match self.link(logged_in) {
            Ok(link) => self.over_link(client, logged_in, link),
            Err(ending) => (client, ending),
        }
    }
}
