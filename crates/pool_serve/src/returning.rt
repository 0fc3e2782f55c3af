//! How a link goes back to its desk.
ghost use Rattle.std.specs.Prelude.{◌≡◌, ◌⊎◌, IsSome, Some, None};
ghost use Rattle.link_desk.specs.declared.calls.Call.TheVariants.{GiveBack, Lost};
ghost use Rattle.link_desk.specs.Homes.{IsAtHome};
ghost use Rattle.link_desk.specs.Passes.{ended_lease, without_lease};
ghost use Rattle.pool_serve.specs.Backs.{GoesBack, HasLease, IsBackByRelease, IsBackHome, IsFreed, IsOwnLease, IsResetBehindEnd, WaitsBehindEnd};
ghost use Rattle.pool_serve.specs.Shares.{Ends};

use crate::logged_in::LoggedIn;
use crate::noting::{loss_in_reset, loss_of};
use crate::worker::Worker;
use disposal::Verdict;
use link_desk::answers::Release;
use link_desk::desk::LinkDesk;
use link_run::links::{CleanLink, UsedLink};
use link_run::reset::{Disposed, ResetError, reset_link};
use link_start::close::{close_link, offer_terminate};
use log_lines::notes::{Loss, Note};
use relay_core::last_note::LastNote;
use relay_core::relay::{GoneCause, Returned};
use server_end::gate::Gate;
use server_end::{Moved, ServerEnd};
use time_limits::{ENDING_TURNS, LINK_TURNS};

/// As much as is read at once behind a server's answer to a reset.
const REST: usize = 512;

/// Whether whole messages went over the link, so that its server reads a Terminate as one.
fn is_at_border(cause: GoneCause) -> bool {
    matches!(
        cause,
        GoneCause::Left(Verdict::Unanswered) | GoneCause::Left(Verdict::InBlock)
    )
}

/// Whether the connection of a link that wasn't reset has ended. What ends a session is said to the reset first, so behind such an answer
/// the end is waited for, for a few turns.
fn has_ended<E: ServerEnd, G: Gate<E>>(disposed: Disposed<E>, gate: &mut G) -> bool {
    let Disposed { mut end, cause } = disposed;
    match cause {
        ResetError::Lost => return true,
        ResetError::Unexpected => {}
        ResetError::Changed | ResetError::Memory | ResetError::Turns => return false,
    }
    let mut rest = [0u8; REST];
    for _ in 0..ENDING_TURNS {
        gate.turn_of_link();
        if let Moved::Ended | Moved::Fault = end.read_some(&mut rest) {
            return true;
        }
    }
    false
}

impl<'a, D: LinkDesk, G: Gate<D::End>> Worker<'a, D, G> {
    /// Gives the client's link back, clean, after its lease has ended; where the desk doesn't keep it, it is closed.
    pub(crate) fn give_back(&mut self, link: CleanLink<D::End>)
        requires home { IsAtHome D.home link }
        requires own { (D.holder self.old.pass).lease ≡ Some (ended_lease link) }
        ensures share { Ends (D.counted self.old.pass) (D.counted self.new.pass) }
        ensures holder { D.holder self.new.pass ≡ without_lease GiveBack (D.holder self.old.pass) }
        ensures turns { G.turns self.new.gate ≡ G.turns self.old.gate }
    {
        let mut link = link;
        link.unwatch(&mut self.gate);
        let mut held = Some(link);
        self.desk.give_back(&mut self.pass, &mut held);
        if let Some(link) = held {
            close_link(link);
        }
    }

    /// Reports the client's link, of this number, lost.
    fn lose(&mut self, number: u64, why: Loss<'_>)
        requires some { IsSome (D.holder self.old.pass).lease }
        ensures share { Ends (D.counted self.old.pass) (D.counted self.new.pass) }
        ensures holder { D.holder self.new.pass ≡ without_lease Lost (D.holder self.old.pass) }
        ensures turns { G.turns self.new.gate ≡ G.turns self.old.gate }
    {
        self.note(&Note::LinkLost(number, why));
        self.desk.lost(&mut self.pass);
    }

    /// Ends the lease of the client's link, over which nothing went, and gives the link back; one that a cancel is for is closed.
    pub(crate) fn give_back_unused(&mut self, logged_in: &LoggedIn, link: CleanLink<D::End>)
        requires home { IsAtHome D.home link }
        requires own { HasLease (D.holder self.old.pass) link.number link.started_at }
        ensures share { Ends (D.counted self.old.pass) (D.counted self.new.pass) }
        ensures holder { IsBackByRelease (D.holder self.new.pass).release (D.holder self.old.pass) (D.holder self.new.pass) }
        ensures turns { G.turns self.new.gate ≡ G.turns self.old.gate }
    {
        let number = link.number();
        match self.desk.end_lease(&mut self.pass) {
            Release::Reset => self.give_back(link),
            Release::Dispose | Release::Last | Release::Stranger => {
                close_link(link);
                self.lose(number, Loss::Cancelled);
            }
        }
    }

    /// Ends the lease of the client's link, over which a lease is settled, and gives the link back once it is reset; one that a cancel
    /// is for is closed.
    fn give_back_used(
        &mut self,
        logged_in: &LoggedIn,
        number: u64,
        link: UsedLink<D::End>,
        last: &LastNote,
    )
        requires home { IsAtHome D.home link }
        requires own { HasLease (D.holder self.old.pass) link.number link.started_at }
        ensures share { Ends (D.counted self.old.pass) (D.counted self.new.pass) }
        ensures holder { IsBackByRelease (D.holder self.new.pass).release (D.holder self.old.pass) (D.holder self.new.pass) ⊎ IsFreed Lost (D.holder self.old.pass) (D.holder self.new.pass) }
        ensures turns { WaitsBehindEnd (D.holder self.new.pass).release (G.turns self.old.gate) (G.turns self.new.gate) }
    {
        match self.desk.end_lease(&mut self.pass) {
            Release::Reset => match reset_link(self.alloc, link, &mut self.gate, LINK_TURNS) {
                Ok(link) => self.give_back(link),
                Err(disposed) => {
                    let why = loss_in_reset(has_ended(disposed, &mut self.gate), last);
                    self.lose(number, why);
                }
            },
            Release::Dispose | Release::Last | Release::Stranger => {
                let mut parts = link.lend();
                offer_terminate(&mut parts.end);
                self.lose(number, Loss::Cancelled);
            }
        }
    }

    /// Gives the link of a client whose time has ended, of this number, back: clean as it was, or reset; or offers its server a
    /// Terminate and reports it lost. That its server's connection has ended is logged, and what that said last.
    pub(crate) fn hand_back(
        &mut self,
        logged_in: &LoggedIn,
        number: u64,
        link: Returned<D::End>,
        has_ended: bool,
        last: &LastNote,
    )
        requires home { IsBackHome D.home link }
        requires own { IsOwnLease (D.holder self.old.pass) link }
        ensures share { Ends (D.counted self.old.pass) (D.counted self.new.pass) }
        ensures holder { GoesBack link (D.holder self.old.pass) (D.holder self.new.pass) }
        ensures turns { IsResetBehindEnd link (D.holder self.new.pass) (G.turns self.old.gate) (G.turns self.new.gate) }
    {
        match link {
            Returned::Unused(link) => self.give_back_unused(logged_in, link),
            Returned::Used(link) => self.give_back_used(logged_in, number, link, last),
            Returned::Gone(link, cause) => {
                let mut link = link;
                if is_at_border(cause) {
                    offer_terminate(&mut link.end);
                }
                self.lose(number, loss_of(cause, has_ended, last));
            }
        }
    }
}
