//! One lease: a client's end, a link, and the bytes between them.
ghost use Rattle.std.specs.Prelude.{◌≡◌, ◌≢◌, ◌≤◌, ◌<◌, ◌+◌, ◌&&◌, ◌⊎◌, drop, length, true, false, IfErr, IfOk, IsSome, None, Some};
ghost use Rattle.frame_view.specs.declared.frames.TheConstants.{MAX_FRAME};

use crate::answers::phase_after;
use crate::flags::none_moved;
use crate::last_note::LastNote;
use crate::verdict::{is_settled, verdict_by};
use bytes::BytesMut;
use disposal::laws::settled_exactly;
use disposal::{Traffic, Verdict};
use frame_view::Side;
use link_run::links::{CleanLink, LinkParts, UsedLink};
use link_run::welcome::welcome_over;
use message_view::KeyWord;
use relay_flow::buffers::Buffers;
use relay_flow::flow::Flow;
use relay_model::{Flags, Next, Phase};
use server_end::gate::{Counts, Ready};
use server_end::{ClientEnd, ServerEnd};
use std::alloc::Global;
use std::marker::Model;

/// Why a link can't be used again.
#[derive(Clone, Copy, PartialEq, Eq, Drop)]
pub enum GoneCause {
    /// Bytes went over it, and the verdict on them isn't Settled.
    Left(Verdict),
    /// Nothing went over it, and its end faulted or ended.
    Lost,
}

/// What becomes of a link when its lease ends.
#[derive(Drop)]
pub enum Returned<E: ServerEnd> {
    /// No byte went over it either way, and its end neither faulted nor ended: it is as clean as it was.
    Unused(CleanLink<E>),
    /// Bytes went over it, and the verdict on them is Settled: a reset makes it clean.
    Used(UsedLink<E>),
    /// Neither: the link taken apart, and why.
    Gone(LinkParts<E>, GoneCause),
}

/// A client's end, a link, and the bytes between them.
///
/// The client is given the welcome first, and then the server's frames; the link is given the client's frames, in their order
/// and unchanged. Client's Terminate stays here. Contracts see the ends' facts, the two buffers, the counts and the flags;
/// that some lease is under way (`IsLease`) is the type's invariant, and the laws of `relay_model` say what follows from it.
pub struct Relay<C: ClientEnd, E: ServerEnd> {
    pub(crate) client: C,
    pub(crate) link: LinkParts<E>,
    pub(crate) word: KeyWord,
    pub(crate) welcome: BytesMut,
    pub(crate) greeted: usize,
    pub(crate) to_link: Flow,
    pub(crate) to_client: Flow,
    pub(crate) traffic: Traffic,
    pub(crate) last_note: LastNote,
    pub(crate) flags: Flags,
    pub(crate) phase: Phase,
}

impl<C: ClientEnd, E: ServerEnd> Drop for Relay<C, E> {
    fn drop(self) {
        let Relay {
            client: _,
            link: _,
            word: _,
            welcome: _,
            greeted: _,
            to_link: _,
            to_client: _,
            traffic: _,
            last_note: _,
            flags: _,
            phase: _,
        } = self;
    }
}

impl<C: ClientEnd, E: ServerEnd> Model for Relay<C, E> {
    ghost use Rattle.std.specs.Prelude.{◌≤◌, drop, length};
    ghost use Rattle.std.specs.Arc.{arc_value};
    ghost use Rattle.relay_model.specs.Leases.{RelayView, relay_view, IsRelay};
    ghost use Rattle.relay_model.specs.Verdicts.{told_of};

    ghost Value = { RelayView };

    ghost view = { λ r. relay_view (C.facts r.client) (E.standing r.link.end) (arc_value r.link.key) r.link.number r.link.started_at r.link.server_key r.word (drop r.greeted r.welcome.items) r.to_link r.to_client (told_of r.traffic r.link.reported) r.flags r.phase };

    ghost invariant = { λ r. (r.greeted ≤ length r.welcome.items) × IsRelay (relay_view (C.facts r.client) (E.standing r.link.end) (arc_value r.link.key) r.link.number r.link.started_at r.link.server_key r.word (drop r.greeted r.welcome.items) r.to_link r.to_client (told_of r.traffic r.link.reported) r.flags r.phase) };
}

impl<C: ClientEnd, E: ServerEnd> Relay<C, E> {
    ghost use Rattle.std.specs.Prelude.{Bool};
    ghost use Rattle.relay_model.specs.Leases.{Place, place, IsLease, IsRelayExact, IsAllowed, Keeps, relay_verdict, at_border};
    ghost use Rattle.relay_model.specs.Answers.{EndsByClient, RefusedBy, AtBorder, IsCut, judged, phase_after};
    ghost use Rattle.relay_core.specs.Returns.{IsReturned, is_clear};
    ghost use Rattle.relay_model.specs.Steps.{bytes_moved, HoldsAll, IsOnce, LeavesSides, StopsLink, Waits};
    ghost use Rattle.relay_model.specs.declared.Next.TheVariants.{Again, Wait, ClientDone, Refuse, Closed};
    ghost use Rattle.relay_model.specs.declared.Phase.TheVariants.{Running, Done, Shut};
    ghost use Rattle.message_view.specs.declared.refusal.Refusal.{Refusal};

    /// The lease of a link to a client begins, with buffers of its own, as [`Relay::begin_over`] says. Memory for them is taken here too.
    pub fn begin(
        alloc: Global,
        client: C,
        link: CleanLink<E>,
        word: KeyWord,
        limit: u32,
    ) -> Result<Relay<C, E>, (C, CleanLink<E>)>
        requires low { 4 ≤ limit }
        requires high { limit ≤ MAX_FRAME }
        ensures begun { IfOk result (IsLease (place (C.facts client) link word limit)) }
        ensures client { IfOk result (λ r. r.client ≡ C.facts client) }
        ensures link { IfOk result (λ r. r.link ≡ link.stands) }
        ensures phase { IfOk result (λ r. r.phase ≡ Running) }
        ensures back { IfErr result (λ p. (p.0 ≡ client) × (p.1 ≡ link)) }
    {
        Relay::begin_over(alloc, client, link, word, limit, &mut None)
    }

    /// The lease of a link to a client begins, in the buffers that are kept, or in new ones where none are; none are kept any more. The
    /// client is to be given the link's welcome first, with the client's own key word ([`welcome_over`]). `limit` is the greatest length
    /// of a frame, both ways (at least 4).
    ///
    /// Memory for the welcome, and for buffers where none are kept, is taken here, and none later. Where there is none, or the link has
    /// no welcome, both ends are handed back as they were.
    pub fn begin_over(
        alloc: Global,
        client: C,
        link: CleanLink<E>,
        word: KeyWord,
        limit: u32,
        kept: &mut Option<Buffers>,
    ) -> Result<Relay<C, E>, (C, CleanLink<E>)>
        requires low { 4 ≤ limit }
        requires high { limit ≤ MAX_FRAME }
        ensures begun { IfOk result (IsLease (place (C.facts client) link word limit)) }
        ensures client { IfOk result (λ r. r.client ≡ C.facts client) }
        ensures link { IfOk result (λ r. r.link ≡ link.stands) }
        ensures phase { IfOk result (λ r. r.phase ≡ Running) }
        ensures kept { IfOk result (λ r. kept.new ≡ None) }
        ensures back { IfErr result (λ p. (p.0 ≡ client) × (p.1 ≡ link)) }
    {
        let Ok(welcome) = welcome_over(alloc, &link, word) else {
            return Err((client, link));
        };
        let Ok(Buffers { to_link, to_client }) = Buffers::take_or_new(alloc, kept) else {
            return Err((client, link));
        };
        Ok(Relay {
            client,
            link: link.lend(),
            word,
            welcome,
            greeted: 0,
            to_link: Flow::new(to_link, Side::Client, limit),
            to_client: Flow::new(to_client, Side::Server, limit),
            traffic: Traffic::new(),
            last_note: LastNote::none(),
            flags: Flags {
                touched: false,
                client_over: false,
                input_over: false,
                link_over: false,
            },
            phase: Phase::Running,
        })
    }

    /// Moves bytes: each end that is ready is read once and written once at most, and one that isn't is left as it is. It waits for
    /// nobody. Behind a fault of the client's bytes nothing more is written to the server's end, and once that faulted or ended it is
    /// left as it is.
    ///
    /// Again: a byte was read or written. Wait: none was, since each end that is ready answered NotNow, or may not be read, or
    /// has no room for what would be read, or nothing that may go on is held for it. ClientDone: the client sent Terminate or its
    /// input ended, and all that may go on is written to the link; or its end takes nothing more, or it faulted, which is answered
    /// at once. Refuse: at a border of the frames that the client was given, its next frame is malformed or too long, or the
    /// server's is malformed, or the server's end faulted or ended. Closed: the server's end faulted or ended inside a frame that
    /// was given in part.
    ///
    /// After ClientDone it answers ClientDone, after Refuse or Closed it answers Closed, and moves nothing.
    pub fn pump(&mut self, ready: Ready) -> Next
        ensures lease { Keeps self.old self.new }
        ensures exact { (p : Place) → IsLease p self.old → self.new.client.tells ≡ true → self.new.link.follows ≡ true → self.new.link.lives ≡ true → IsRelayExact p self.new }
        ensures allowed { (p : Place) → IsLease p self.old → self.new.client.tells ≡ true → self.new.link.follows ≡ true → IsAllowed p self.new }
        ensures judged { self.old.phase ≡ Running → (none : Bool) × (result ≡ judged none self.new) }
        ensures done { (p : Place) → IsLease p self.old → self.old.phase ≡ Running → result ≡ ClientDone → EndsByClient p self.new }
        ensures refused { (p : Place) (r : Refusal) → IsLease p self.old → result ≡ Refuse r → AtBorder p self.new × RefusedBy p self.new r }
        ensures closed { (p : Place) → IsLease p self.old → self.old.phase ≡ Running → result ≡ Closed → IsCut p self.new }
        ensures again { result ≡ Again → self.old.client.tells ≡ true → bytes_moved self.old < bytes_moved self.new }
        ensures none { result ≡ Wait → self.old.client.tells ≡ true → bytes_moved self.new ≡ bytes_moved self.old }
        ensures waits { result ≡ Wait → Waits ready.client ready.server self.old self.new }
        ensures sides { LeavesSides ready.client ready.server self.old self.new }
        ensures stops { StopsLink self.old self.new }
        ensures once { IsOnce self.old self.new }
        ensures client_fault { result ≢ ClientDone → self.new.client.faults ≡ self.old.client.faults }
        ensures holds_all { self.old.phase ≡ Running → HoldsAll self.new }
        ensures after_done { self.old.phase ≡ Done → (result ≡ ClientDone) × (self.new ≡ self.old) }
        ensures after_shut { self.old.phase ≡ Shut → (result ≡ Closed) × (self.new ≡ self.old) }
        ensures phase { self.old.phase ≡ Running → self.new.phase ≡ phase_after result }
    {
        match self.phase {
            Phase::Running => self.turn(ready),
            Phase::Done => Next::ClientDone,
            Phase::Shut => Next::Closed,
        }
    }

    /// Whether nothing is on its way, and no fault of the client keeps back what is left of its bytes.
    pub fn is_clear(&self) -> bool
        ensures { result ≡ is_clear self.now }
    {
        (self.is_quiet() && self.to_client.part_is_empty())
            && (self.to_link.held_is_empty() && !self.to_link.is_faulty())
    }

    /// What went over the link so far.
    pub fn counts(&self) -> Counts
        ensures asked { result.asked ≡ self.now.told.tally.asked }
        ensures answered { result.answered ≡ self.now.told.tally.answered }
        ensures ended { result.ended ≡ self.now.told.tally.ended }
        ensures status { result.status ≡ self.now.told.tally.status }
    {
        Counts {
            asked: self.traffic.asked(),
            answered: self.traffic.answered(),
            ended: self.traffic.ended(),
            status: self.traffic.status(),
        }
    }

    /// What the server said last, for the log: no contract tells which of its messages that is.
    pub fn last_note(&self) -> LastNote {
        LastNote::of(self.last_note.message())
    }

    /// The lease ends: the client's end, and the link for what it is worth.
    pub fn close(self) -> (C, Returned<E>)
        ensures client { C.facts result.0 ≡ self.client }
        ensures link { IsReturned E.standing self result.1 }
    {
        self.close_over(&mut None)
    }

    /// The same; its buffers are kept.
    pub fn close_over(self, kept: &mut Option<Buffers>) -> (C, Returned<E>)
        ensures client { C.facts result.0 ≡ self.client }
        ensures link { IsReturned E.standing self result.1 }
        ensures kept { IsSome kept.new }
    {
        settled_exactly();
        let verdict = self.verdict();
        let Relay {
            client,
            link,
            word: _,
            welcome: _,
            greeted: _,
            to_link,
            to_client,
            traffic: _,
            last_note: _,
            flags,
            phase: _,
        } = self;
        *kept = Some(Buffers {
            to_link: to_link.into_buffer(),
            to_client: to_client.into_buffer(),
        });
        if !flags.touched {
            if flags.link_over {
                return (client, Returned::Gone(link, GoneCause::Lost));
            }
            return (client, Returned::Unused(link.clean()));
        }
        if is_settled(verdict) {
            return (client, Returned::Used(link.used()));
        }
        (client, Returned::Gone(link, GoneCause::Left(verdict)))
    }

    /// The verdict on what went over the link.
    fn verdict(&self) -> Verdict
        ensures { result ≡ relay_verdict self.now }
    {
        verdict_by(
            self.traffic.verdict(),
            self.to_client.is_faulty(),
            self.at_border(),
        )
    }

    /// Whether all that went on is written, and both directions stand at a border of their frames.
    fn at_border(&self) -> bool
        ensures { result ≡ at_border self.now }
    {
        (self.to_link.held_is_empty() && self.to_link.rest() == 0)
            && (self.to_client.part_is_empty() && self.to_client.rest() == 0)
    }

    /// A pump of a relay that hasn't ended.
    fn turn(&mut self, ready: Ready) -> Next
        requires { self.old.phase ≡ Running }
        ensures lease { Keeps self.old self.new }
        ensures judged { (none : Bool) × (result ≡ judged none self.new) }
        ensures phase { self.new.phase ≡ phase_after result }
        ensures again { result ≡ Again → self.old.client.tells ≡ true → bytes_moved self.old < bytes_moved self.new }
        ensures none { result ≡ Wait → self.old.client.tells ≡ true → bytes_moved self.new ≡ bytes_moved self.old }
        ensures waits { result ≡ Wait → Waits ready.client ready.server self.old self.new }
        ensures sides { LeavesSides ready.client ready.server self.old self.new }
        ensures stops { StopsLink self.old self.new }
        ensures once { IsOnce self.old self.new }
        ensures client_fault { result ≢ ClientDone → self.new.client.faults ≡ self.old.client.faults }
        ensures holds_all { HoldsAll self.new }
    {
        let next = self.run(ready);
        self.phase = phase_after(next);
        next
    }

    /// The four moves, and what they come to.
    fn run(&mut self, ready: Ready) -> Next
        ensures lease { Keeps self.old self.new }
        ensures judged { (none : Bool) × (result ≡ judged none self.new) }
        ensures again { result ≡ Again → self.old.client.tells ≡ true → bytes_moved self.old < bytes_moved self.new }
        ensures none { result ≡ Wait → self.old.client.tells ≡ true → bytes_moved self.new ≡ bytes_moved self.old }
        ensures waits { result ≡ Wait → Waits ready.client ready.server self.old self.new }
        ensures sides { LeavesSides ready.client ready.server self.old self.new }
        ensures stops { StopsLink self.old self.new }
        ensures once { IsOnce self.old self.new }
        ensures client_fault { result ≢ ClientDone → self.new.client.faults ≡ self.old.client.faults }
        ensures holds_all { HoldsAll self.new }
    {
        let read = self.from_client(ready.client);
        let written = self.for_link(ready.server);
        let served = self.from_link(ready.server);
        let given = self.for_client(ready.client);
        self.judge(none_moved(read, written, served, given))
    }
}
