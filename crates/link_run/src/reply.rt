//! What a server answers to a reset, frame by frame.
ghost use Rattle.std.specs.Prelude.{◌≡◌, ◌≢◌, ◌⊎◌, [], ◌∷◌, false, true, IfSome};
ghost use Rattle.std.specs.Option.{IfNone};
ghost use Rattle.link_run.specs.declared.reply.TheConstants.{MAX_REPLY};
ghost use Rattle.link_run.specs.declared.reply.Answered.TheVariants.{All, Other};
ghost use Rattle.frame_view.specs.Frames.{AreBytes, front, frames, spelling};
ghost use Rattle.frame_view.specs.declared.Side.TheVariants.{Server};
ghost use Rattle.session_values.specs.Answers.{frame_of};
ghost use Rattle.link_run.specs.Links.{after_frame, after_frames};
ghost use Rattle.link_run.specs.Dialogues.{answered_by, are_known, is_aside, is_idle, is_known, is_tag};
ghost use Rattle.link_run.specs.Replies.{frames_left, rest_left};
ghost use Rattle.link_run.specs.Resets.{at_rest, reads};

use frame_view::laws::are_bytes;
use frame_view::server::{COMMAND_COMPLETE, NOTICE_RESPONSE, PARAMETER_STATUS, READY_FOR_QUERY};
use frame_view::{Frame, Side, Step, next_frame};
use message_view::StatusView;
use param_track::Reported;

/// The greatest length of a frame in a start or a reset.
pub const MAX_REPLY: u32 = 65_536;

/// The whole frames at the front of an answer, one after the other.
#[derive(Clone, Copy, Drop)]
pub struct ReplyFrames<'a> {
    rest: &'a [u8],
}

impl<'a> ReplyFrames<'a> {
    /// All of them.
    pub fn of(reply: &'a [u8]) -> ReplyFrames<'a>
        ensures { result.rest.now ≡ reply.now }
    {
        ReplyFrames { rest: reply }
    }

    /// The bytes that aren't cut yet.
    pub fn rest(&self) -> &'a [u8]
        ensures { result.now ≡ self.now.rest.now }
    {
        self.rest
    }

    /// Cuts the next of them; where there is none, no whole frame stands at the front of the rest.
    #[tactic(auto, using(crate::proofs::Cutting::frame_is_first, crate::proofs::Cutting::rest_is_last, crate::proofs::Cutting::no_frame, crate::proofs::Cutting::all_is_rest, crate::proofs::Cutting::whole_is_spelling, crate::proofs::Cutting::rest_are_bytes))]
    pub fn cut(&mut self) -> Option<Frame<'a>>
        ensures first { IfSome result (λ f. frames_left self.old ≡ frame_of f ∷ frames_left self.new) }
        ensures none { IfNone result ((frames_left self.old ≡ []) × (frames_left self.new ≡ [])) }
        ensures rest { rest_left self.new ≡ rest_left self.old }
        ensures last { IfNone result (rest_left self.new ≡ self.new.rest.now) }
        ensures whole { IfSome result (λ f. AreBytes self.old.rest.now → f.whole.now ≡ spelling (frame_of f)) }
        ensures bytes { AreBytes self.old.rest.now → AreBytes self.new.rest.now }
    {
        match next_frame(self.rest, 0, MAX_REPLY, Side::Server) {
            Step::Whole(frame) => {
                self.rest = &self.rest[frame.whole.len()..];
                Some(frame)
            }
            Step::Need(_) | Step::Bad(_) => None,
        }
    }
}

impl<'a> Iterator for ReplyFrames<'a> {
    ghost use Rattle.std.specs.Iterator.{YieldsFirstBy, item_count};
    ghost use Rattle.session_values.specs.Answers.{frame_of};
    ghost use Rattle.link_run.specs.Replies.{frames_left};

    type Item = Frame<'a>;

    ghost next_gives = { YieldsFirstBy frame_of frames_left };

    ghost remaining = { item_count frames_left };

    fn next(&mut self) -> Option<Frame<'a>> {
        self.cut()
    }
}

/// How far a reset's answer has come.
#[derive(Clone, Copy, Drop)]
pub enum Answered {
    /// CommandComplete is waited for.
    Nothing,
    /// ReadyForQuery is waited for.
    Tag,
    /// ReadyForQuery came: nothing may follow.
    All,
    /// Something else came.
    Other,
}

fn is_aside(kind: u8) -> bool
    ensures { result ≡ is_aside kind }
{
    kind == NOTICE_RESPONSE || kind == PARAMETER_STATUS
}

fn is_tag(frame: Frame<'_>) -> bool
    ensures { result ≡ is_tag (frame_of frame.entry) }
{
    frame.kind == COMMAND_COMPLETE && frame.body == b"DISCARD ALL\0".as_slice()
}

fn is_idle(frame: Frame<'_>) -> bool
    ensures { result ≡ is_idle (frame_of frame.entry) }
{
    frame.kind == READY_FOR_QUERY && frame.body == b"I".as_slice()
}

impl Answered {
    /// The same, where bytes are to come still: an end comes too early.
    pub(crate) fn before_end(self) -> Answered
        ensures early { result ≢ All }
        ensures other { result ≡ Other → (self ≡ All) ⊎ (self ≡ Other) }
        ensures same { result ≢ Other → self ≡ result }
    {
        match self {
            Answered::Nothing => Answered::Nothing,
            Answered::Tag => Answered::Tag,
            Answered::All | Answered::Other => Answered::Other,
        }
    }

    fn by(self, frame: Frame<'_>) -> Answered
        ensures { result ≡ answered_by self (frame_of frame.entry) }
    {
        match self {
            Answered::Nothing => {
                if is_aside(frame.kind) {
                    return Answered::Nothing;
                }
                if is_tag(frame) {
                    Answered::Tag
                } else {
                    Answered::Other
                }
            }
            Answered::Tag => {
                if is_aside(frame.kind) {
                    return Answered::Tag;
                }
                if is_idle(frame) {
                    Answered::All
                } else {
                    Answered::Other
                }
            }
            Answered::All => Answered::Other,
            Answered::Other => Answered::Other,
        }
    }

    /// The same, by what stands behind the whole frames: a head that isn't lawful is no part of an answer.
    fn at_rest(self, rest: &[u8]) -> Answered
        ensures { result ≡ at_rest self (front Server MAX_REPLY rest.now) }
    {
        match next_frame(rest, 0, MAX_REPLY, Side::Server) {
            Step::Whole(_) | Step::Need(_) => self,
            Step::Bad(_) => Answered::Other,
        }
    }
}

/// What the whole frames of these bytes and the head behind them come to, and whether nothing stands behind the frames.
pub(crate) fn read_reply(reply: &[u8]) -> (Answered, bool)
    ensures answered { result.0 ≡ reads (frames Server MAX_REPLY reply.now) }
    ensures bytes { AreBytes reply.now }
    ensures rest { result.1 ≡ true → (frames Server MAX_REPLY reply.now).rest ≡ [] }
    ensures behind { result.1 ≡ false → (frames Server MAX_REPLY reply.now).rest ≢ [] }
{
    are_bytes(reply);
    let mut answered = Answered::Nothing;
    let mut frames = ReplyFrames::of(reply);
    while let Some(frame) = frames.cut() {
        answered = answered.by(frame);
    }
    (answered.at_rest(frames.rest()), frames.rest().is_empty())
}

/// Keeps the report of a ParameterStatus; `false`: it can't be read, or the start didn't report its name.
fn tell_report(frame: Frame<'_>, reported: &mut Reported) -> bool
    ensures known { result ≡ is_known reported.old (frame_of frame.entry) }
    ensures told { reported.new ≡ after_frame reported.old (frame_of frame.entry) }
{
    if frame.kind != PARAMETER_STATUS {
        return true;
    }
    match StatusView::read(frame.body) {
        Ok(report) => reported.apply(&report),
        Err(_) => false,
    }
}

/// Keeps the reports among the whole frames of these bytes; `false`: one of them can't be read, or the start didn't report its
/// name.
pub(crate) fn tell_reports(reply: &[u8], reported: &mut Reported) -> bool
    ensures known { result ≡ are_known reported.old (frames Server MAX_REPLY reply.now).frames }
    ensures told { reported.new ≡ after_frames reported.old (frames Server MAX_REPLY reply.now).frames }
{
    let mut known = true;
    for frame in ReplyFrames::of(reply) {
        known &= tell_report(frame, reported);
    }
    known
}
