//! The start of a link over a server's end.
ghost use Rattle.std.specs.Prelude.{◌≡◌, ◌≢◌, ◌+◌, ◌<◌, ◌≤◌, [], false, if◌then◌else◌, IfErr, IfOk, MatchResult, OnOk, length, true};
ghost use Rattle.frame_view.specs.Frames.{AreBytes, frames};
ghost use Rattle.frame_view.specs.declared.Side.TheVariants.{Server};
ghost use Rattle.link_run.specs.declared.reply.TheConstants.{MAX_REPLY};
ghost use Rattle.std.specs.Arc.{arc_value};
ghost use Rattle.link_model.specs.Standing.{Standing};
ghost use Rattle.link_start.specs.StartReply.{error_in, heard};
ghost use Rattle.link_start.specs.declared.start_reply.StartProgress.TheVariants as came;
ghost use Rattle.link_start.specs.declared.start.Progress.TheVariants as progress;
ghost use Rattle.credentials.specs.Credentials.{CredentialOf};
ghost use Rattle.link_start.specs.Questions.{answers_wanted};
ghost use Rattle.link_start.specs.declared.start.StartCause.TheVariants as causes;
ghost use Rattle.link_start.specs.Refusing.{refusal_of};
ghost use Rattle.link_start.specs.Starts.{CanStart, CountsOn, HasTried, IsBounded, IsStartCause, IsDone, IsDoneFrom, IsEndCause, IsLinkKey, IsOwnKey, IsSameStart, IsStartPaced, IsStartPacedToEnd, IsStarted, IsStartUnderWay, IsWaitingStart, IsWelcomed, ReadsOnce, TakesTurns, WritesOnce, bytes_left, moved_of, waits_of};

use crate::messages::{put_answer, startup_message};
use crate::start_reply::{
    ServerQuestion, StartProgress, TakeReportError, error_in, key_told, read_start_reply,
    take_reports,
};
use bytes::BytesMut;
use credentials::Credential;
use link_run::gate::Gate;
use link_run::links::{CleanLink, LinkParts};
use link_run::{Moved, ServerEnd};
use message_view::Refusal;
use param_track::Reported;
use start_keys::StartKey;
use std::alloc::{AllocError, Global};
use std::marker::Model;
use std::sync::Arc;

/// The bytes that a turn reads at most.
const CHUNK: usize = 256;

/// The bytes of a server's answer to a start after which no more is waited for. A welcome has at most some hundred thousand: a question,
/// AuthenticationOk, a report of each parameter and the key are a frame each, of at most [`link_run::reply::MAX_REPLY`].
pub const MAX_WELCOME: usize = 1_048_576;

/// The ErrorResponse by which a server refused a start.
pub struct StartError {
    reply: BytesMut,
}

impl Drop for StartError {
    fn drop(self) {
        let StartError { reply: _ } = self;
    }
}

impl Model for StartError {
    ghost use Rattle.std.specs.Prelude.{ℕ, List};
    ghost use Rattle.frame_view.specs.Frames.{frames};
    ghost use Rattle.frame_view.specs.declared.Side.TheVariants.{Server};
    ghost use Rattle.link_run.specs.declared.reply.TheConstants.{MAX_REPLY};
    ghost use Rattle.link_start.specs.StartReply.{error_in};

    ghost Value = { List ℕ };

    ghost view = { λ e. error_in (frames Server MAX_REPLY e.reply.items).frames };
}

impl StartError {
    /// The whole message, as the server sent it.
    pub fn as_bytes(&self) -> &[u8]
        ensures { result.now ≡ self.now }
    {
        error_in(self.reply.as_slice())
    }
}

/// Why a link wasn't started.
#[derive(Drop)]
pub enum StartCause {
    /// The server refused the start, by this ErrorResponse.
    Refused(StartError),
    /// The end faulted or ended.
    Lost,
    /// The server asks this, which is neither for a password, nor for its MD5 digest, nor for SCRAM-SHA-256; or for a password or for SCRAM
    /// where the secret keeps only its digest; or for a password or its digest where it is a verifier, and for SCRAM where its client key
    /// isn't known; or for any of them where it is no secret; or for a password with a zero byte in it. What stands behind it isn't looked
    /// at.
    Unanswerable(ServerQuestion),
    /// Something else was answered, so a challenge that doesn't continue the client's nonce or is salted otherwise than the user's verifier,
    /// another proof than the server's own, or AuthenticationOk before that; a report or the server's key can't be read, more than 64 names
    /// were reported, a frame is longer than [`link_run::reply::MAX_REPLY`], or more than [`MAX_WELCOME`] bytes came and the answer isn't
    /// whole.
    Unexpected,
    /// An allocation failed, or the key has no StartupMessage of the greatest length.
    Memory,
    /// The turns are used up: in so many of them nothing moved.
    Turns,
    /// The gate's time is over, and the answer isn't whole.
    Late,
}

/// What a client is told whose link wasn't started.
#[derive(Drop)]
pub enum StartRefusal {
    /// The server's own words.
    Error(StartError),
    Refusal(Refusal),
}

impl StartCause {
    /// What the client is told: the server's own ErrorResponse, that memory was refused, or that the server could not be reached.
    pub fn into_refusal(self) -> StartRefusal
        ensures { result ≡ refusal_of self }
    {
        match self {
            StartCause::Refused(error) => StartRefusal::Error(error),
            StartCause::Memory => StartRefusal::Refusal(Refusal::OutOfMemory),
            StartCause::Lost
            | StartCause::Unanswerable(_)
            | StartCause::Unexpected
            | StartCause::Turns
            | StartCause::Late => StartRefusal::Refusal(Refusal::ServerNotReached),
        }
    }
}

impl From<AllocError> for StartCause {
    ghost from_gives = { λ _ cause. cause ≡ causes.Memory };

    fn from(_error: AllocError) -> StartCause {
        StartCause::Memory
    }
}

/// An end whose start failed.
#[derive(Drop)]
pub struct StartLinkError<E: ServerEnd> {
    pub end: E,
    pub cause: StartCause,
}

/// A link that is being started: what is to be sent, and how much of it was; and all that was answered.
struct Start<E: ServerEnd> {
    end: E,
    key: Arc<StartKey>,
    number: u64,
    started_at: u64,
    answered: usize,
    messages: BytesMut,
    sent: usize,
    reply: BytesMut,
}

impl<E: ServerEnd> Drop for Start<E> {
    fn drop(self) {
        let Start {
            end: _,
            key: _,
            number: _,
            started_at: _,
            answered: _,
            messages: _,
            sent: _,
            reply: _,
        } = self;
    }
}

impl<E: ServerEnd> Model for Start<E> {
    ghost use Rattle.std.specs.Prelude.{◌≤◌, drop, length};
    ghost use Rattle.std.specs.Arc.{arc_value};
    ghost use Rattle.link_start.specs.Starts.{StartView, start_view};

    ghost Value = { StartView };

    ghost view = { λ s. start_view (E.standing s.end) (arc_value s.key) s.number s.started_at s.answered (drop s.sent s.messages.items) s.reply.items };

    ghost invariant = { λ s. s.sent ≤ length s.messages.items };
}

/// What a turn came to.
#[derive(Clone, Copy)]
enum Progress {
    /// Nothing moved.
    Idle,
    /// Bytes moved, and more are to come.
    Moved,
    /// The welcome is whole.
    Ready,
}

impl Progress {
    fn by(moved: bool) -> Progress
        ensures { result ≡ (if moved then progress.Moved else progress.Idle) }
    {
        if moved {
            Progress::Moved
        } else {
            Progress::Idle
        }
    }
}

impl<E: ServerEnd> Start<E> {
    fn begin(
        alloc: Global,
        end: E,
        key: Arc<StartKey>,
        number: u64,
        started_at: u64,
    ) -> Result<Start<E>, StartLinkError<E>>
        ensures under_way { IfOk result (λ s. (c : CredentialOf) → IsStartUnderWay (E.standing end) c s) }
        ensures same { IfOk result (λ s. (s.key ≡ arc_value key) × (s.number ≡ number) × (s.started_at ≡ started_at)) }
        ensures stands { IfOk result (λ s. s.end ≡ E.standing end) }
        ensures none { IfOk result (λ s. length s.received ≡ 0) }
        ensures waits { IfOk result (λ s. (c : CredentialOf) → IsWaitingStart c s) }
        ensures memory { IfErr result (λ f. f.cause ≡ causes.Memory) }
        ensures back { IfErr result (λ f. E.standing f.end ≡ E.standing end) }
    {
        let Ok(messages) = startup_message(alloc, &key) else {
            return Err(StartLinkError {
                end,
                cause: StartCause::Memory,
            });
        };
        Ok(Start {
            end,
            key,
            number,
            started_at,
            answered: 0,
            messages,
            sent: 0,
            reply: BytesMut::new(alloc),
        })
    }

    /// Writes once, if something is left to be sent; whether bytes went.
    fn send(&mut self) -> Result<bool, StartCause>
        ensures under_way { (b : Standing) (c : CredentialOf) → IsStartUnderWay b c self.old → OnOk result (IsStartUnderWay b c self.new) }
        ensures same { IsSameStart self.old self.new }
        ensures received { self.new.received ≡ self.old.received }
        ensures answered { self.new.answered ≡ self.old.answered }
        ensures once { WritesOnce self.old self.new }
        ensures counts { CountsOn self.old self.new }
        ensures given { self.new.end.given ≡ self.old.end.given }
        ensures left { bytes_left self.new ≤ bytes_left self.old }
        ensures moved { IfOk result (λ m. m ≡ true → moved_of self.old.end < moved_of self.new.end) }
        ensures fewer { IfOk result (λ m. m ≡ true → bytes_left self.new < bytes_left self.old) }
        ensures idle { IfOk result (λ m. m ≡ false → 0 < length self.new.unsent → waits_of self.old.end < waits_of self.new.end) }
        ensures cause { IfErr result (λ c. IsEndCause self.old.end self.new.end c) }
    {
        if self.sent == self.messages.len() {
            return Ok(false);
        }
        match self.end.write_some(&self.messages.as_slice()[self.sent..]) {
            Moved::Count(count) => {
                self.sent += count;
                Ok(true)
            }
            Moved::NotNow => Ok(false),
            Moved::Ended | Moved::Fault => Err(StartCause::Lost),
        }
    }

    /// Reads once; whether bytes came. The room comes first: a refused growth after the read would lose bytes.
    fn receive(&mut self) -> Result<bool, StartCause>
        ensures under_way { (b : Standing) (c : CredentialOf) → IsStartUnderWay b c self.old → OnOk result (IsStartUnderWay b c self.new) }
        ensures same { IsSameStart self.old self.new }
        ensures unsent { self.new.unsent ≡ self.old.unsent }
        ensures answered { self.new.answered ≡ self.old.answered }
        ensures once { ReadsOnce self.old self.new }
        ensures counts { CountsOn self.old self.new }
        ensures given { length self.new.end.given ≤ length self.old.end.given + CHUNK }
        ensures left { bytes_left self.new ≤ bytes_left self.old }
        ensures moved { IfOk result (λ m. m ≡ true → moved_of self.old.end < moved_of self.new.end) }
        ensures fewer { IfOk result (λ m. m ≡ true → length self.new.received ≤ MAX_WELCOME → bytes_left self.new < bytes_left self.old) }
        ensures idle { IfOk result (λ m. m ≡ false → waits_of self.old.end < waits_of self.new.end) }
        ensures cause { IfErr result (λ c. IsEndCause self.old.end self.new.end c) }
    {
        let mut chunk = [0u8; CHUNK];
        self.reply.reserve(CHUNK)?;
        match self.end.read_some(&mut chunk) {
            Moved::Count(count) => {
                self.reply.extend_reserved(&chunk[..count]);
                Ok(true)
            }
            Moved::NotNow => Ok(false),
            Moved::Ended | Moved::Fault => Err(StartCause::Lost),
        }
    }

    fn is_sent(&self) -> bool
        ensures all { result ≡ true → self.now.unsent ≡ [] }
        ensures some { result ≡ false → 0 < length self.now.unsent }
    {
        self.sent == self.messages.len()
    }

    /// More came than a welcome has.
    fn is_too_long(&self) -> bool
        ensures long { result ≡ true → MAX_WELCOME < length self.now.received }
        ensures short { result ≡ false → length self.now.received ≤ MAX_WELCOME }
    {
        self.reply.len() > MAX_WELCOME
    }

    /// How far the server's answer has come, for a user with this credential.
    fn read_start_reply(
        &self,
        alloc: Global,
        credential: &Credential<'_>,
    ) -> Result<StartProgress, AllocError>
        ensures heard { IfOk result (λ p. p ≡ heard credential.now self.now.received) }
        ensures bytes { AreBytes self.now.received }
    {
        read_start_reply(alloc, self.reply.as_slice(), credential)
    }

    /// Puts the answer to the question before this one, which had none yet: that which names the mechanism, before a challenge.
    fn answer_before(
        &mut self,
        question: &ServerQuestion,
        credential: &Credential<'_>,
    ) -> Result<(), StartCause>
        requires asked { heard credential.now self.old.received ≡ came.Asked question.now }
        requires bytes { AreBytes self.old.received }
        requires fewer { self.old.answered < answers_wanted question.now }
        ensures under_way { (b : Standing) → CanStart credential.now self.old.key.user b → IsLinkKey self.old.key → IsStartUnderWay b credential.now self.old → OnOk result (IsStartUnderWay b credential.now self.new) }
        ensures same { IsSameStart self.old self.new }
        ensures end { self.new.end ≡ self.old.end }
        ensures received { self.new.received ≡ self.old.received }
        ensures one { OnOk result (self.new.answered + 1 ≡ answers_wanted question.now) }
        ensures left { OnOk result (bytes_left self.new ≤ bytes_left self.old) }
        ensures memory { IfErr result (λ c. c ≡ causes.Memory) }
    {
        if self.answered + 1 < question.answers_wanted() {
            credential.put_first(&mut self.messages)?;
            self.answered += 1;
        }
        Ok(())
    }

    /// Puts the answer to the server's question behind what is sent, once.
    fn answer(
        &mut self,
        question: ServerQuestion,
        credential: &Credential<'_>,
    ) -> Result<(), StartCause>
        requires asked { heard credential.now self.old.received ≡ came.Asked question }
        requires bytes { AreBytes self.old.received }
        ensures under_way { (b : Standing) → CanStart credential.now self.old.key.user b → IsLinkKey self.old.key → IsStartUnderWay b credential.now self.old → OnOk result (IsStartUnderWay b credential.now self.new) }
        ensures same { IsSameStart self.old self.new }
        ensures end { self.new.end ≡ self.old.end }
        ensures received { self.new.received ≡ self.old.received }
        ensures answered { OnOk result (answers_wanted question ≤ self.new.answered) }
        ensures left { OnOk result (bytes_left self.new ≤ bytes_left self.old) }
        ensures no_turns { IfErr result (λ c. c ≢ causes.Turns) }
        ensures in_time { IfErr result (λ c. c ≢ causes.Late) }
        ensures cause { (b : Standing) → CanStart credential.now self.old.key.user b → IsLinkKey self.old.key → IsStartUnderWay b credential.now self.old → IfErr result (λ c. IsStartCause b self.new.end credential.now self.old.key c) }
    {
        if self.answered >= question.answers_wanted() {
            return Ok(());
        }
        self.answer_before(&question, credential)?;
        let user = self.key.user.as_slice();
        if !put_answer(&mut self.messages, &question, credential, user)? {
            return Err(StartCause::Unanswerable(question));
        }
        self.answered += 1;
        Ok(())
    }

    /// What came so far: whether it is the whole welcome. A question is answered, once.
    fn hear(&mut self, alloc: Global, credential: &Credential<'_>) -> Result<bool, StartCause>
        ensures under_way { (b : Standing) → CanStart credential.now self.old.key.user b → IsLinkKey self.old.key → IsStartUnderWay b credential.now self.old → OnOk result (IsStartUnderWay b credential.now self.new) }
        ensures same { IsSameStart self.old self.new }
        ensures end { self.new.end ≡ self.old.end }
        ensures received { OnOk result (self.new.received ≡ self.old.received) }
        ensures bytes { AreBytes self.old.received }
        ensures left { OnOk result (bytes_left self.new ≤ bytes_left self.old) }
        ensures waits { IfOk result (λ r. r ≡ false → IsWaitingStart credential.now self.new) }
        ensures ready { IfOk result (λ r. r ≡ true → heard credential.now self.old.received ≡ came.Ready) }
        ensures unsent { IfOk result (λ r. r ≡ true → self.new.unsent ≡ self.old.unsent) }
        ensures no_turns { IfErr result (λ c. c ≢ causes.Turns) }
        ensures in_time { IfErr result (λ c. c ≢ causes.Late) }
        ensures cause { (b : Standing) → CanStart credential.now self.old.key.user b → IsLinkKey self.old.key → IsStartUnderWay b credential.now self.old → IfErr result (λ c. IsStartCause b self.new.end credential.now self.old.key c) }
    {
        match self.read_start_reply(alloc, credential)? {
            StartProgress::Ready => Ok(true),
            StartProgress::Asked(question) => {
                self.answer(question, credential)?;
                Ok(false)
            }
            StartProgress::Refused => Err(StartCause::Refused(self.take_error(alloc))),
            StartProgress::Other => Err(StartCause::Unexpected),
            StartProgress::Nothing | StartProgress::Proved | StartProgress::LetIn => Ok(false),
        }
    }

    /// Writes at most once and, where all is sent, reads at most once.
    fn turn(&mut self, alloc: Global, credential: &Credential<'_>) -> Result<Progress, StartCause>
        requires { IsWaitingStart credential.now self.old }
        ensures under_way { (b : Standing) → CanStart credential.now self.old.key.user b → IsLinkKey self.old.key → IsStartUnderWay b credential.now self.old → OnOk result (IsStartUnderWay b credential.now self.new) }
        ensures same { IsSameStart self.old self.new }
        ensures waits { IfOk result (λ p. p ≢ progress.Ready → IsWaitingStart credential.now self.new) }
        ensures welcomed { IfOk result (λ p. p ≡ progress.Ready → IsWelcomed credential.now self.new) }
        ensures counts { CountsOn self.old self.new }
        ensures given { length self.new.end.given ≤ length self.old.end.given + CHUNK }
        ensures short { IfOk result (λ p. p ≢ progress.Ready → length self.old.received ≤ MAX_WELCOME → length self.new.received ≤ MAX_WELCOME) }
        ensures left { OnOk result (bytes_left self.new ≤ bytes_left self.old) }
        ensures moved { IfOk result (λ p. p ≡ progress.Moved → moved_of self.old.end < moved_of self.new.end) }
        ensures fewer { IfOk result (λ p. p ≡ progress.Moved → bytes_left self.new < bytes_left self.old) }
        ensures idle { IfOk result (λ p. p ≡ progress.Idle → waits_of self.old.end < waits_of self.new.end) }
        ensures once { waits_of self.new.end ≤ waits_of self.old.end + 1 }
        ensures last { IfOk result (λ p. p ≡ progress.Ready → waits_of self.new.end ≡ waits_of self.old.end) }
        ensures no_turns { IfErr result (λ c. c ≢ causes.Turns) }
        ensures in_time { IfErr result (λ c. c ≢ causes.Late) }
        ensures cause { (b : Standing) → CanStart credential.now self.old.key.user b → IsLinkKey self.old.key → IsStartUnderWay b credential.now self.old → IfErr result (λ c. IsStartCause b self.new.end credential.now self.old.key c) }
    {
        let wrote = self.send()?;
        if !self.is_sent() {
            return Ok(Progress::by(wrote));
        }
        let read = self.receive()?;
        if self.hear(alloc, credential)? {
            return Ok(Progress::Ready);
        }
        if self.is_too_long() {
            return Err(StartCause::Unexpected);
        }
        Ok(Progress::by(wrote || read))
    }

    fn take_error(&mut self, alloc: Global) -> StartError
        ensures error { result ≡ error_in (frames Server MAX_REPLY self.old.received).frames }
        ensures end { self.new.end ≡ self.old.end }
        ensures same { IsSameStart self.old self.new }
    {
        StartError {
            reply: std::mem::replace(&mut self.reply, BytesMut::new(alloc)),
        }
    }

    /// The link, once its server's welcome came.
    fn finish(self, alloc: Global) -> Result<CleanLink<E>, StartLinkError<E>>
        requires { IsDone self }
        ensures started { (b : Standing) (c : CredentialOf) → IsDoneFrom b c self → IfOk result (λ l. IsStarted b c l) }
        ensures own_key { (b : Standing) (c : CredentialOf) → IsDoneFrom b c self → b.follows ≡ true → IfOk result (λ l. IsOwnKey b.server l.server_key) }
        ensures key { IfOk result (λ l. l.key ≡ self.key) }
        ensures number { IfOk result (λ l. l.number ≡ self.number) }
        ensures started_at { IfOk result (λ l. l.started_at ≡ self.started_at) }
        ensures stands { IfOk result (λ l. l.stands ≡ self.end) }
        ensures back { IfErr result (λ f. E.standing f.end ≡ self.end) }
        ensures no_turns { IfErr result (λ f. f.cause ≢ causes.Turns) }
        ensures in_time { IfErr result (λ f. f.cause ≢ causes.Late) }
        ensures cause { (b : Standing) (c : CredentialOf) → IsDoneFrom b c self → IfErr result (λ f. IsStartCause b (E.standing f.end) c self.key f.cause) }
    {
        let Start {
            end,
            key,
            number,
            started_at,
            answered: _,
            messages: _,
            sent: _,
            reply,
        } = self;
        let Ok(server_key) = key_told(reply.as_slice()) else {
            return Err(StartLinkError {
                end,
                cause: StartCause::Unexpected,
            });
        };
        let mut reported = Reported::new(alloc);
        match take_reports(alloc, reply.as_slice(), &mut reported) {
            Ok(()) => Ok(LinkParts {
                end,
                key,
                number,
                started_at,
                server_key,
                reported,
            }
            .clean()),
            Err(TakeReportError::Unexpected) => Err(StartLinkError {
                end,
                cause: StartCause::Unexpected,
            }),
            Err(TakeReportError::Memory) => Err(StartLinkError {
                end,
                cause: StartCause::Memory,
            }),
        }
    }

    fn fail(self, cause: StartCause) -> StartLinkError<E>
        ensures end { E.standing result.end ≡ self.end }
        ensures cause { result.cause ≡ cause }
    {
        let Start {
            end,
            key: _,
            number: _,
            started_at: _,
            answered: _,
            messages: _,
            sent: _,
            reply: _,
        } = self;
        StartLinkError { end, cause }
    }
}

/// Starts a link over a server's end: sends the StartupMessage of the key (user, database, and the key's parameters in their order),
/// answers the server's question by the user's secret, and reads up to ReadyForQuery, each with notices in any number between
/// (PostgreSQL manual, "Message Flow", "Start-up"). Each turn of the gate allows at most one write and then one read; nothing is
/// read before all was sent, nor after the ReadyForQuery.
///
/// Turns are for waiting: only one in which no byte was sent and none came counts against `turns`, so an answer that comes byte by byte
/// uses up none. The answer has its own bound: once more than [`MAX_WELCOME`] bytes came and it isn't whole, the start fails by
/// Unexpected. And the gate has its time, if it was set a limit: before each turn it is asked whether that is over, whatever came in the
/// turns before, and then the start fails by Late.
///
/// `number` and `started_at` are kept in the link: its number, and the second in which it was begun. So is the server's key, that of the
/// last BackendKeyData of the dialogue; where the end follows, those are the server's own words. Where it fails the end comes back
/// with the cause, which stands in the bytes that came: an ErrorResponse, a question that this user can't answer, or something else
/// ends the start at once, and a cause that came stays one, whatever comes behind it, wherever the bytes are cut. It is Turns only after
/// so many turns in which nothing moved, and Late only where the gate is; and none of these came.
pub fn start_link<E: ServerEnd, G: Gate<E>>(
    alloc: Global,
    end: E,
    key: Arc<StartKey>,
    credential: &Credential<'_>,
    number: u64,
    started_at: u64,
    gate: &mut G,
    turns: u32,
) -> Result<CleanLink<E>, StartLinkError<E>>
    requires can_start { CanStart credential.now (arc_value key).user (E.standing end) }
    requires key { IsLinkKey (arc_value key) }
    ensures started { IfOk result (λ l. IsStarted (E.standing end) credential.now l) }
    ensures own_key { (E.standing end).follows ≡ true → IfOk result (λ l. IsOwnKey (E.standing end).server l.server_key) }
    ensures key { IfOk result (λ l. l.key ≡ arc_value key) }
    ensures number { IfOk result (λ l. l.number ≡ number) }
    ensures started_at { IfOk result (λ l. l.started_at ≡ started_at) }
    ensures cause { IfErr result (λ f. IsStartCause (E.standing end) (E.standing f.end) credential.now (arc_value key) f.cause) }
    ensures turns { IfErr result (λ f. f.cause ≡ causes.Turns → HasTried (E.standing end) credential.now (arc_value key) (E.standing f.end) turns) }
    ensures late { IfErr result (λ f. f.cause ≡ causes.Late → G.late gate.new ≡ true) }
    ensures unanswered { IfErr result (λ f. f.cause ≡ causes.Late → HasTried (E.standing end) credential.now (arc_value key) (E.standing f.end) 0) }
    ensures taken { MatchResult result (λ l. TakesTurns (E.standing end) l.stands (G.turns gate.old) (G.turns gate.new) turns) (λ f. TakesTurns (E.standing end) (E.standing f.end) (G.turns gate.old) (G.turns gate.new) turns) }
    ensures bounded { MatchResult result (λ l. IsBounded (E.standing end) l.stands) (λ f. IsBounded (E.standing end) (E.standing f.end)) }
    ensures paced { IfErr result (λ f. IsStartPaced (E.standing end) (E.standing f.end) (G.turns gate.old) (G.turns gate.new)) }
    ensures last { IfOk result (λ l. IsStartPacedToEnd (E.standing end) l.stands (G.turns gate.old) (G.turns gate.new)) }
{
    let mut start = Start::begin(alloc, end, key, number, started_at)?;
    let mut left = turns;
    while left > 0 {
        if gate.is_late() {
            return Err(start.fail(StartCause::Late));
        }
        gate.turn_of_link();
        match start.turn(alloc, credential) {
            Ok(Progress::Idle) => left -= 1,
            Ok(Progress::Moved) => {}
            Ok(Progress::Ready) => return start.finish(alloc),
            Err(cause) => return Err(start.fail(cause)),
        }
    }
    Err(start.fail(StartCause::Turns))
}
