//! What a server answers to a start, frame by frame.
ghost use Rattle.std.specs.Prelude.{◌≡◌, [], ℕ, List, Ok, Err, None, IfOk};
ghost use Rattle.frame_view.specs.Frames.{AreBytes, front, frames};
ghost use Rattle.frame_view.specs.declared.Side.TheVariants.{Server};
ghost use Rattle.link_run.specs.declared.reply.TheConstants.{MAX_REPLY};
ghost use Rattle.session_values.specs.Answers.{frame_of};
ghost use Rattle.link_run.specs.Dialogues.{keyed_all, keyed_by, offers_scram};
ghost use Rattle.link_start.specs.Questions.{answers_wanted, can_answer, number_of};
ghost use Rattle.link_start.specs.StartReply as spec;
ghost use Rattle.link_start.specs.StartReply.{TakesReport, TakesReports, error_in, heard, heard_all, heard_by};

use crate::messages::password_of;
use bstr::ByteSlice;
use credentials::{Credential, Exchange};
use frame_view::laws::are_bytes;
use frame_view::server::{
    AUTHENTICATION, BACKEND_KEY_DATA, ERROR_RESPONSE, NOTICE_RESPONSE, PARAMETER_STATUS,
    READY_FOR_QUERY,
};
use frame_view::{Frame, Side, Step, next_frame};
use link_run::reply::{MAX_REPLY, ReplyFrames};
use link_run::sasl::{ASKS_SASL, SASL_CONTINUES, SASL_ENDS};
use message_view::kinds::{ASKS_CLEARTEXT, ASKS_MD5, ASKS_NOTHING};
use message_view::{AuthView, KeyView, StatusView, ViewError};
use param_track::{ReportError, Reported};
use std::alloc::{AllocError, Global};

/// What a server asks of the user that starts a link.
#[derive(Drop)]
pub enum ServerQuestion {
    /// The password, as it is.
    Cleartext,
    /// The digest of the password with this salt.
    Md5([u8; 4]),
    /// A mechanism of SASL, with SCRAM-SHA-256 among those that it names.
    Scram,
    /// SCRAM's challenge, by the exchange that it makes with the user's password.
    Challenge(Exchange),
    /// Another one, of this number, which no user can answer: 10 where SASL has other mechanisms alone.
    Unknown(u32),
}

impl ServerQuestion {
    /// How many answers it takes: a challenge comes behind the one that named the mechanism.
    pub(crate) fn answers_wanted(&self) -> usize
        ensures { result ≡ answers_wanted self.now }
    {
        match self {
            ServerQuestion::Challenge(_) => 2,
            ServerQuestion::Cleartext
            | ServerQuestion::Md5(_)
            | ServerQuestion::Scram
            | ServerQuestion::Unknown(_) => 1,
        }
    }

    /// The number of the Authentication message that asks it.
    pub fn number(&self) -> u32
        ensures { result ≡ number_of self.now }
    {
        match self {
            ServerQuestion::Cleartext => ASKS_CLEARTEXT,
            ServerQuestion::Md5(_) => ASKS_MD5,
            ServerQuestion::Scram => ASKS_SASL,
            ServerQuestion::Challenge(_) => SASL_CONTINUES,
            ServerQuestion::Unknown(number) => *number,
        }
    }
}

/// How far a start's answer has come.
#[derive(Drop)]
pub enum StartProgress {
    /// Nothing of it.
    Nothing,
    /// A question.
    Asked(ServerQuestion),
    /// The server's own proof, by SCRAM: AuthenticationOk is waited for.
    Proved,
    /// AuthenticationOk: ReadyForQuery is waited for.
    LetIn,
    /// ReadyForQuery: nothing may follow.
    Ready,
    /// An ErrorResponse.
    Refused,
    /// Something else.
    Other,
}

/// The same, where nothing may follow the number.
fn bare(heard: StartProgress, more: &[u8]) -> StartProgress
    ensures { result ≡ spec.bare heard more.now }
{
    if more.is_empty() {
        heard
    } else {
        StartProgress::Other
    }
}

fn salted(more: &[u8]) -> StartProgress
    ensures { result ≡ spec.salted more.now }
{
    match more {
        [a, b, c, d] => StartProgress::Asked(ServerQuestion::Md5([*a, *b, *c, *d])),
        _ => StartProgress::Other,
    }
}

/// Whether SCRAM-SHA-256 is among these names of mechanisms, each of which has a zero byte behind it.
#[tactic(auto, unfolding(link_run::specs::Dialogues::offers_scram))]
fn offers_scram(names: &[u8]) -> bool
    ensures { result ≡ offers_scram names.now }
{
    names
        .split_str(b"\0")
        .any(|name| name == b"SCRAM-SHA-256".as_slice())
}

fn offered(names: &[u8]) -> StartProgress
    ensures { result ≡ spec.offered (offers_scram names.now) }
{
    if offers_scram(names) {
        StartProgress::Asked(ServerQuestion::Scram)
    } else {
        StartProgress::Asked(ServerQuestion::Unknown(ASKS_SASL))
    }
}

fn asked_by(kind: u32, more: &[u8]) -> StartProgress
    ensures { result ≡ spec.asked_by kind more.now }
{
    match kind {
        ASKS_NOTHING => bare(StartProgress::LetIn, more),
        ASKS_CLEARTEXT => bare(StartProgress::Asked(ServerQuestion::Cleartext), more),
        ASKS_MD5 => salted(more),
        ASKS_SASL => offered(more),
        kind => StartProgress::Asked(ServerQuestion::Unknown(kind)),
    }
}

/// What the body of an Authentication message says.
fn asked(body: &[u8]) -> StartProgress
    ensures { result ≡ spec.asked body.now }
{
    match AuthView::read(body) {
        Ok(question) => asked_by(question.kind, question.rest),
        Err(_) => StartProgress::Other,
    }
}

/// AuthenticationOk alone goes on.
fn only_let_in(asked: StartProgress) -> StartProgress
    ensures { result ≡ spec.only_let_in asked }
{
    match asked {
        StartProgress::LetIn => StartProgress::LetIn,
        _ => StartProgress::Other,
    }
}

/// A challenge that continues the client's nonce. The only error is out of memory.
fn challenged(
    alloc: Global,
    credential: &Credential<'_>,
    question: AuthView<'_>,
) -> Result<StartProgress, AllocError>
    ensures { IfOk result (λ p. p ≡ spec.challenged_by credential.now question.entry.kind question.entry.rest.now) }
{
    if question.kind != SASL_CONTINUES {
        return Ok(StartProgress::Other);
    }
    match credential.exchange(alloc, question.rest)? {
        Some(exchange) => Ok(StartProgress::Asked(ServerQuestion::Challenge(exchange))),
        None => Ok(StartProgress::Other),
    }
}

/// The server's own proof.
fn proved(exchange: &Exchange, question: AuthView<'_>) -> StartProgress
    ensures { result ≡ spec.proved_by exchange.now question.entry.kind question.entry.rest.now }
{
    if question.kind == SASL_ENDS && exchange.is_proved_by(question.rest) {
        StartProgress::Proved
    } else {
        StartProgress::Other
    }
}

fn refused(kind: u8) -> StartProgress
    ensures { result ≡ spec.refused kind }
{
    if kind == ERROR_RESPONSE {
        StartProgress::Refused
    } else {
        StartProgress::Other
    }
}

fn is_idle(frame: Frame<'_>) -> bool
    ensures { result ≡ spec.is_idle (frame_of frame.entry) }
{
    frame.kind == READY_FOR_QUERY && frame.body == b"I".as_slice()
}

/// Once the server let the link in.
fn welcomed(frame: Frame<'_>) -> StartProgress
    ensures { result ≡ spec.welcomed (frame_of frame.entry) }
{
    match frame.kind {
        NOTICE_RESPONSE | PARAMETER_STATUS | BACKEND_KEY_DATA => StartProgress::LetIn,
        kind => {
            if is_idle(frame) {
                StartProgress::Ready
            } else {
                refused(kind)
            }
        }
    }
}

/// What the body of an Authentication message says behind the answer to a question. The only error is out of memory.
fn followed(
    alloc: Global,
    question: &ServerQuestion,
    body: &[u8],
    credential: &Credential<'_>,
) -> Result<StartProgress, AllocError>
    ensures { IfOk result (λ p. p ≡ spec.followed credential.now question.now body.now) }
{
    let Ok(told) = AuthView::read(body) else {
        return Ok(StartProgress::Other);
    };
    match question {
        ServerQuestion::Cleartext | ServerQuestion::Md5(_) => {
            Ok(only_let_in(asked_by(told.kind, told.rest)))
        }
        ServerQuestion::Scram => challenged(alloc, credential, told),
        ServerQuestion::Challenge(exchange) => Ok(proved(exchange, told)),
        ServerQuestion::Unknown(_) => Ok(StartProgress::Other),
    }
}

/// Behind a question that this user can answer.
fn after_question(
    alloc: Global,
    question: ServerQuestion,
    frame: Frame<'_>,
    credential: &Credential<'_>,
) -> Result<StartProgress, AllocError>
    ensures { IfOk result (λ p. p ≡ spec.after_question credential.now question (frame_of frame.entry)) }
{
    match frame.kind {
        NOTICE_RESPONSE => Ok(StartProgress::Asked(question)),
        AUTHENTICATION => followed(alloc, &question, frame.body, credential),
        kind => Ok(refused(kind)),
    }
}

fn can_answer(credential: &Credential<'_>, question: &ServerQuestion) -> bool
    ensures { result ≡ can_answer credential.now question.now }
{
    match question {
        ServerQuestion::Cleartext => password_of(credential.secret()).is_some(),
        ServerQuestion::Md5(_) => credential.secret().answers_md5(),
        ServerQuestion::Scram => credential.answers_scram(),
        ServerQuestion::Challenge(_) => true,
        ServerQuestion::Unknown(_) => false,
    }
}

impl StartProgress {
    /// The only error is out of memory.
    fn by(
        self,
        alloc: Global,
        frame: Frame<'_>,
        credential: &Credential<'_>,
    ) -> Result<StartProgress, AllocError>
        ensures { IfOk result (λ p. p ≡ heard_by credential.now self (frame_of frame.entry)) }
    {
        match self {
            StartProgress::Nothing => match frame.kind {
                NOTICE_RESPONSE => Ok(StartProgress::Nothing),
                AUTHENTICATION => Ok(asked(frame.body)),
                kind => Ok(refused(kind)),
            },
            StartProgress::Asked(question) => {
                if can_answer(credential, &question) {
                    after_question(alloc, question, frame, credential)
                } else {
                    Ok(StartProgress::Asked(question))
                }
            }
            StartProgress::Proved => match frame.kind {
                NOTICE_RESPONSE => Ok(StartProgress::Proved),
                AUTHENTICATION => Ok(only_let_in(asked(frame.body))),
                kind => Ok(refused(kind)),
            },
            StartProgress::LetIn => Ok(welcomed(frame)),
            StartProgress::Refused => Ok(StartProgress::Refused),
            StartProgress::Ready | StartProgress::Other => Ok(StartProgress::Other),
        }
    }

    /// The same, where these bytes may be a beginning of the next frame.
    fn if_lawful(self, rest: &[u8]) -> StartProgress
        ensures { result ≡ spec.if_lawful self (front Server MAX_REPLY rest.now) }
    {
        match next_frame(rest, 0, MAX_REPLY, Side::Server) {
            Step::Bad(_) => StartProgress::Other,
            _ => self,
        }
    }

    /// The same, with these bytes behind it, which are no whole frame.
    fn before(self, rest: &[u8], credential: &Credential<'_>) -> StartProgress
        ensures { result ≡ spec.before credential.now self rest.now }
    {
        match self {
            StartProgress::Nothing => StartProgress::Nothing.if_lawful(rest),
            StartProgress::Asked(question) => {
                let answers = can_answer(credential, &question);
                let asked = StartProgress::Asked(question);
                if answers {
                    asked.if_lawful(rest)
                } else {
                    asked
                }
            }
            StartProgress::Proved => StartProgress::Proved.if_lawful(rest),
            StartProgress::LetIn => StartProgress::LetIn.if_lawful(rest),
            StartProgress::Ready => bare(StartProgress::Ready, rest),
            StartProgress::Refused => StartProgress::Refused,
            StartProgress::Other => StartProgress::Other,
        }
    }
}

/// How far these bytes have come, for a user with this credential. The only error is out of memory.
pub(crate) fn read_start_reply(
    alloc: Global,
    reply: &[u8],
    credential: &Credential<'_>,
) -> Result<StartProgress, AllocError>
    ensures heard { IfOk result (λ p. p ≡ heard credential.now reply.now) }
    ensures bytes { AreBytes reply.now }
{
    are_bytes(reply);
    let mut heard = StartProgress::Nothing;
    let mut frames = ReplyFrames::of(reply);
    while let Some(frame) = frames.cut() {
        heard = heard.by(alloc, frame, credential)?;
    }
    Ok(heard.before(frames.rest(), credential))
}

/// The first ErrorResponse among the whole frames of these bytes; empty where there is none.
pub(crate) fn error_in(reply: &[u8]) -> &[u8]
    ensures { result.now ≡ error_in (frames Server MAX_REPLY reply.now).frames }
{
    are_bytes(reply);
    let mut frames = ReplyFrames::of(reply);
    while let Some(frame) = frames.cut() {
        if frame.kind == ERROR_RESPONSE {
            return frame.whole;
        }
    }
    b""
}

/// Why a start's reports weren't taken.
#[derive(Clone, Copy, Drop)]
pub(crate) enum TakeReportError {
    /// One can't be read, or there are more than [`param_track::MAX_NAMES`] names.
    Unexpected,
    /// An allocation failed.
    Memory,
}

/// Takes the report of a ParameterStatus; another frame reports nothing.
fn take_report(
    alloc: Global,
    frame: Frame<'_>,
    reported: &mut Reported,
) -> Result<(), TakeReportError>
    ensures { TakesReport reported.old (frame_of frame.entry) reported.new result }
{
    if frame.kind != PARAMETER_STATUS {
        return Ok(());
    }
    let Ok(report) = StatusView::read(frame.body) else {
        return Err(TakeReportError::Unexpected);
    };
    match reported.add(alloc, &report) {
        Ok(()) => Ok(()),
        Err(ReportError::TooMany) => Err(TakeReportError::Unexpected),
        Err(ReportError::OutOfMemory) => Err(TakeReportError::Memory),
    }
}

/// Takes the reports among the whole frames of these bytes.
pub(crate) fn take_reports(
    alloc: Global,
    reply: &[u8],
    reported: &mut Reported,
) -> Result<(), TakeReportError>
    ensures taken { TakesReports reported.old (frames Server MAX_REPLY reply.now).frames reported.new result }
    ensures bytes { AreBytes reply.now }
{
    are_bytes(reply);
    for frame in ReplyFrames::of(reply) {
        take_report(alloc, frame, reported)?;
    }
    Ok(())
}

/// The server's key, where this one was told before, as one more frame tells it.
fn keyed_by(key: Option<KeyView>, frame: Frame<'_>) -> Result<Option<KeyView>, ViewError>
    ensures { result ≡ keyed_by key (frame_of frame.entry) }
{
    if frame.kind != BACKEND_KEY_DATA {
        return Ok(key);
    }
    match KeyView::read(frame.body) {
        Ok(told) => Ok(Some(told)),
        Err(fault) => Err(fault),
    }
}

/// The server's key, as the whole frames of these bytes tell it: that of the last BackendKeyData among them.
pub(crate) fn key_told(reply: &[u8]) -> Result<Option<KeyView>, ViewError>
    ensures key { result ≡ keyed_all None (frames Server MAX_REPLY reply.now).frames }
    ensures bytes { AreBytes reply.now }
{
    are_bytes(reply);
    let mut key = None;
    for frame in ReplyFrames::of(reply) {
        key = keyed_by(key, frame)?;
    }
    Ok(key)
}
