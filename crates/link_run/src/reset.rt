//! The reset of a used link by `DISCARD ALL`.
ghost use Rattle.std.specs.Prelude.{◌≡◌, ◌≢◌, ◌+◌, ◌<◌, ◌≤◌, ◌⊎◌, false, true, IfErr, IfOk};
ghost use Rattle.param_track.specs.KeptReports.{is_at_start};
ghost use Rattle.link_run.specs.Dialogues.{IsResetDialogue};
ghost use Rattle.link_run.specs.Resets.{EndsDialogue, FailsAtEnd, FailsBy, IsAnsweredReset, IsDisturbedReset, IsOther, IsPaced, IsPacedToEnd, IsResetFrom, IsUnfinished, KeepsReset, MoveFailsBy, ReadsOnce, is_over, read_so_far};
ghost use Rattle.link_run.specs.declared.reset.ResetError.TheVariants.{Lost};
ghost use Rattle.link_run.specs.declared.reply.Answered.TheVariants.{All, Nothing, Other, Tag};

use crate::links::{CleanLink, LinkParts, UsedLink};
use crate::reply::{Answered, read_reply, tell_reports};
use bytes::BytesMut;
use server_end::gate::Gate;
use server_end::{Moved, ServerEnd};
use std::alloc::Global;
use std::marker::Model;

/// The bytes that a turn reads at most.
const CHUNK: usize = 256;

/// The Query `DISCARD ALL`.
static DISCARD_ALL: [u8; 17] = *b"Q\0\0\0\x10DISCARD ALL\0";

/// Why a link wasn't reset.
#[derive(Clone, Copy, PartialEq, Eq, Drop)]
pub enum ResetError {
    /// The end faulted or ended.
    Lost,
    /// Something else was answered, a report can't be read or is of a name that the start didn't report, or a frame is longer
    /// than [`crate::reply::MAX_REPLY`].
    Unexpected,
    /// After the reset the reported values aren't those of the start.
    Changed,
    /// An allocation failed.
    Memory,
    /// The turns are used up.
    Turns,
}

/// A link whose reset failed.
#[derive(Drop)]
pub struct Disposed<E: ServerEnd> {
    pub end: E,
    pub cause: ResetError,
}

/// A link that is being reset: how much of the Query was sent, and all that was answered.
struct Reset<E: ServerEnd> {
    link: LinkParts<E>,
    sent: usize,
    reply: BytesMut,
}

impl<E: ServerEnd> Drop for Reset<E> {
    fn drop(self) {
        let Reset {
            link: _,
            sent: _,
            reply: _,
        } = self;
    }
}

impl<E: ServerEnd> Model for Reset<E> {
    ghost use Rattle.std.specs.Prelude.{◌≤◌, drop};
    ghost use Rattle.std.specs.Arc.{arc_value};
    ghost use Rattle.frame_view.specs.Frames.{spelling};
    ghost use Rattle.session_run_laws.specs.Laws.{discard_all};
    ghost use Rattle.link_run.specs.Resets.{ResetView, reset_view, IsReset};

    ghost Value = { ResetView };

    ghost view = { λ r. reset_view (E.standing r.link.end) (arc_value r.link.key) r.link.number r.link.started_at r.link.server_key r.link.reported (drop r.sent (spelling discard_all)) r.reply.items };

    ghost invariant = { λ r. (r.sent ≤ 17) × IsReset (reset_view (E.standing r.link.end) (arc_value r.link.key) r.link.number r.link.started_at r.link.server_key r.link.reported (drop r.sent (spelling discard_all)) r.reply.items) };
}

/// The fault of a read or a write.
fn moved_on(moved: Moved) -> Result<(), ResetError>
    ensures ok { IfOk result (λ _. is_over moved ≡ false) }
    ensures err { IfErr result (λ cause. (cause ≡ Lost) × (is_over moved ≡ true)) }
{
    match moved {
        Moved::Count(_) | Moved::NotNow => Ok(()),
        Moved::Ended | Moved::Fault => Err(ResetError::Lost),
    }
}

impl<E: ServerEnd> Reset<E> {
    fn begin(alloc: Global, used: UsedLink<E>) -> Reset<E>
        ensures key { result.key ≡ used.key }
        ensures number { result.number ≡ used.number }
        ensures started_at { result.started_at ≡ used.started_at }
        ensures server_key { result.server_key ≡ used.server_key }
        ensures reports { result.reports ≡ used.reports }
        ensures from { IsResetFrom used.stands result }
        ensures reads { read_so_far result ≡ used.stands.read_waits }
        ensures stands { result.link ≡ used.stands }
        ensures none { IsUnfinished result.received }
    {
        Reset {
            link: used.lend(),
            sent: 0,
            reply: BytesMut::new(alloc),
        }
    }

    /// Writes once, if something is left to be sent.
    fn send(&mut self) -> Result<(), ResetError>
        ensures key { self.new.key ≡ self.old.key }
        ensures number { self.new.number ≡ self.old.number }
        ensures started_at { self.new.started_at ≡ self.old.started_at }
        ensures server_key { self.new.server_key ≡ self.old.server_key }
        ensures reports { self.new.reports ≡ self.old.reports }
        ensures received { self.new.received ≡ self.old.received }
        ensures keeps { KeepsReset self.old self.new }
        ensures reads { self.new.link.read_waits ≡ self.old.link.read_waits }
        ensures once { self.new.link.write_waits ≤ self.old.link.write_waits + 1 }
        ensures faults { IfErr result (MoveFailsBy self.old.link self.new.link) }
    {
        if self.sent == DISCARD_ALL.len() {
            return Ok(());
        }
        let unsent = &DISCARD_ALL[self.sent..];
        let moved = self.link.end.write_some(unsent);
        if let Moved::Count(count) = moved {
            self.sent += count;
        }
        moved_on(moved)
    }

    /// Reads once. The room comes first: a refused growth after the read would lose bytes.
    fn receive(&mut self) -> Result<(), ResetError>
        ensures key { self.new.key ≡ self.old.key }
        ensures number { self.new.number ≡ self.old.number }
        ensures started_at { self.new.started_at ≡ self.old.started_at }
        ensures server_key { self.new.server_key ≡ self.old.server_key }
        ensures reports { self.new.reports ≡ self.old.reports }
        ensures keeps { KeepsReset self.old self.new }
        ensures reads { IfOk result (λ _. read_so_far self.old < read_so_far self.new) }
        ensures writes { self.new.link.write_waits ≡ self.old.link.write_waits }
        ensures once { ReadsOnce self.old self.new }
        ensures faults { IfErr result (MoveFailsBy self.old.link self.new.link) }
    {
        let mut chunk = [0u8; CHUNK];
        if self.reply.reserve(CHUNK).is_err() {
            return Err(ResetError::Memory);
        }
        let moved = self.link.end.read_some(&mut chunk);
        if let Moved::Count(count) = moved {
            self.reply.extend_reserved(&chunk[..count]);
        }
        moved_on(moved)
    }

    /// How far the answer has come. It is whole only once all was sent and nothing stands behind it.
    fn read(&self) -> Answered
        ensures all { result ≡ All → IsAnsweredReset self.now }
        ensures other { result ≡ Other → IsOther self.now.unsent self.now.received }
        ensures disturbed { result ≡ Other → IsDisturbedReset self.now }
        ensures waits { (result ≡ Nothing) ⊎ (result ≡ Tag) → IsUnfinished self.now.received }
    {
        let (answered, is_all) = read_reply(self.reply.as_slice());
        if !is_all || self.sent < DISCARD_ALL.len() {
            return answered.before_end();
        }
        answered
    }

    /// The link, clean again, once the whole answer came. Where its end follows this doesn't fail.
    fn finish(self) -> Result<CleanLink<E>, Disposed<E>>
        requires { IsAnsweredReset self }
        ensures key { IfOk result (λ l. l.key ≡ self.key) }
        ensures number { IfOk result (λ l. l.number ≡ self.number) }
        ensures started_at { IfOk result (λ l. l.started_at ≡ self.started_at) }
        ensures server_key { IfOk result (λ l. l.server_key ≡ self.server_key) }
        ensures reports { IfOk result (λ l. is_at_start l.reports ≡ true) }
        ensures whole { IfOk result (λ l. EndsDialogue self l) }
        ensures stands { IfOk result (λ l. l.stands ≡ self.link) }
        ensures faults { IfErr result (λ d. FailsAtEnd self (E.standing d.end) d.cause) }
    {
        let Reset {
            mut link,
            sent: _,
            reply,
        } = self;
        if !tell_reports(reply.as_slice(), &mut link.reported) {
            return Err(dispose(link, ResetError::Unexpected));
        }
        if !link.reported.at_start() {
            return Err(dispose(link, ResetError::Changed));
        }
        Ok(link.clean())
    }

    fn fail(self, cause: ResetError) -> Disposed<E>
        ensures cause { result.cause ≡ cause }
        ensures stands { E.standing result.end ≡ self.link }
    {
        let Reset {
            link,
            sent: _,
            reply: _,
        } = self;
        dispose(link, cause)
    }
}

fn dispose<E: ServerEnd>(link: LinkParts<E>, cause: ResetError) -> Disposed<E>
    ensures cause { result.cause ≡ cause }
    ensures stands { E.standing result.end ≡ E.standing link.end }
{
    let LinkParts {
        end,
        key: _,
        number: _,
        started_at: _,
        server_key: _,
        reported: _,
    } = link;
    Disposed { end, cause }
}

/// Brings a used link back to its login: sends the Query `DISCARD ALL`, and reads CommandComplete `DISCARD ALL` and ReadyForQuery
/// `I`, each with notices and reports in any number before it, and nothing behind it (PostgreSQL manual, "DISCARD"). Each turn of
/// the gate allows at most one write and then one read; nothing is read after the ReadyForQuery. Each turn counts, also one in which
/// bytes came: the answer is short, those two messages and a report of each parameter that changes.
///
/// Where it fails the end comes back with the cause, which what came says: Unexpected and Changed are those of its bytes, and Turns comes
/// only after so many reads of an answer that isn't whole, nor another one. An end that follows the stand-in server gives Unexpected only
/// where a cancel struck the reset, and never Changed.
pub fn reset_link<E: ServerEnd, G: Gate<E>>(
    alloc: Global,
    used: UsedLink<E>,
    gate: &mut G,
    turns: u32,
) -> Result<CleanLink<E>, Disposed<E>>
    ensures key { IfOk result (λ l. l.key ≡ used.key) }
    ensures number { IfOk result (λ l. l.number ≡ used.number) }
    ensures started_at { IfOk result (λ l. l.started_at ≡ used.started_at) }
    ensures server_key { IfOk result (λ l. l.server_key ≡ used.server_key) }
    ensures reports { IfOk result (λ l. is_at_start l.reports ≡ true) }
    ensures whole { IfOk result (λ l. IsResetDialogue used.stands used.reports l.stands l.reports) }
    ensures faults { IfErr result (λ d. FailsBy used.reports used.stands (E.standing d.end) turns d.cause) }
    ensures turns { G.turns gate.new ≤ G.turns gate.old + turns }
    ensures paced { IfErr result (λ d. IsPaced used.stands (E.standing d.end) (G.turns gate.old) (G.turns gate.new)) }
    ensures last { IfOk result (λ l. IsPacedToEnd used.stands l.stands (G.turns gate.old) (G.turns gate.new)) }
{
    let mut reset = Reset::begin(alloc, used);
    for _ in 0..turns {
        gate.turn_of_link();
        if let Err(cause) = reset.send() {
            return Err(reset.fail(cause));
        }
        if let Err(cause) = reset.receive() {
            return Err(reset.fail(cause));
        }
        match reset.read() {
            Answered::All => return reset.finish(),
            Answered::Nothing | Answered::Tag => {}
            Answered::Other => return Err(reset.fail(ResetError::Unexpected)),
        }
    }
    Err(reset.fail(ResetError::Turns))
}
