//! One step of the dialogue, from the bytes that are held.
ghost use Rattle.std.specs.Prelude.{◌≡◌, ◌≤◌, ◌+◌, ◌++◌, ℕ, IfErr, IfOk, List, None, [], length, option_map, true};
ghost use Rattle.std.specs.Arc.{arc_value};
ghost use Rattle.message_view.specs.Reading.{startup_of};
ghost use Rattle.user_file.specs.Secrets.{IsRevealedOf, accepts_plain, is_verifier};
ghost use Rattle.login_core.specs.Dialogue as login;
ghost use Rattle.login_core.specs.Dialogue.{AtFirst, Asked, ForFirst, ForPassword};
ghost use Rattle.ini_config.specs.declared.option_values.AuthType.TheVariants.{Trust};
ghost use Rattle.login_core.specs.declared.steps.LoginStep.TheVariants.{Ask, Failed, Left, Refused};
ghost use Rattle.login_core.specs.declared.steps.Question.TheVariants.{Scram};
ghost use Rattle.login_core.specs.Logins.{Answers, ArrivesOnce, Begun, Decides, Fits, AwaitsPacket, Arriving, IfToLink, IsBeforeArrival, IsRevealed, IsRevealedTo, Over, Reveals, StartMeans, StepIs, TakesMemory, asking_of, authenticated_bytes, awaiting_of, left_after, missing, named_key, names_user, proof_bytes, revealed_of, rows_under, verdict_of};

use crate::laws::packets_grow;
use crate::steps::{Authenticated, LoginRefusal, LoginStep, Question};
use frame_view::client::{PASSWORD_MESSAGE, TERMINATE};
use frame_view::{FirstStep, FrameError, MAX_FIRST_PACKET, Side, Step, first_packet, next_frame};
use ini_config::{AuthType, Settings};
use message_view::{AUTHENTICATION_OK, KeyWord, PasswordView, Refusal, StartupView};
use param_track::{StartKeyError, start_key, unsupported_name};
use scram::Message;
use start_keys::StartKey;
use start_keys::text::Text;
use std::alloc::{AllocError, Global};
use std::sync::Arc;
use user_file::{Secret, Users};

/// The greatest length of a message in the login.
pub(crate) const MAX_MESSAGE: u32 = 10_000;

/// The bytes of a first packet that tell its length and what it asks for.
pub(crate) const FIRST_HEAD: usize = 8;

/// The bytes of a message that tell its type and its length.
const HEAD: usize = 5;

/// What a client is told of a packet that can't be read, or isn't its turn to send.
pub(crate) const MALFORMED: Refusal = Refusal::MalformedClientMessage;

/// What decides about a client.
pub(crate) struct Rules {
    pub settings: Arc<Settings>,
    pub users: Arc<Users>,
    pub word: KeyWord,
}

impl Drop for Rules {
    fn drop(self) {
        let Rules {
            settings: _,
            users: _,
            word: _,
        } = self;
    }
}

/// What a client was asked for.
#[derive(Drop)]
pub(crate) enum Asking {
    /// Its password, or the digest of it.
    Password,
    /// The first message of SCRAM.
    First,
    /// The last message of SCRAM, where this was the first.
    Last(Text),
}

/// Where a login stands.
#[derive(Drop)]
pub(crate) enum Place {
    /// Before the client's start: whether its SSLRequest and its GSSENCRequest came.
    First { tls: bool, gss: bool },
    Arriving(Arc<StartKey>),
    /// The client was asked.
    Asked(Asking, Arc<StartKey>),
    /// With the client key that the client revealed of a verifier, if it was let in.
    Over(Option<[u8; 32]>),
}

/// What a password comes to.
#[derive(Drop)]
struct Judged {
    is_right: bool,
    /// The client key that it reveals of a verifier.
    revealed: Option<[u8; 32]>,
}

/// A password that reveals nothing.
fn unrevealing(is_right: bool) -> Judged
    ensures right { result.is_right ≡ is_right }
    ensures revealed { result.revealed ≡ None }
{
    Judged {
        is_right,
        revealed: None,
    }
}

/// What a password that came as it is comes to, of who has this secret. The only error is out of memory.
fn judge_plain(
    alloc: Global,
    secret: &Secret,
    user: &[u8],
    given: &[u8],
) -> Result<Judged, AllocError>
    ensures value { IfOk result (λ j. j.is_right ≡ accepts_plain secret.now user.now given.now) }
    ensures reveals { IfOk result (λ j. j.is_right ≡ true → IsRevealedOf secret.now j.revealed) }
    ensures memory { IfErr result (λ e. is_verifier secret.now ≡ true) }
{
    if !secret.is_verifier() {
        return Ok(unrevealing(secret.accepts_plain(alloc, user, given)?));
    }
    let revealed = secret.revealed_by(alloc, given)?;
    Ok(Judged {
        is_right: revealed.is_some(),
        revealed,
    })
}

/// What a client is to whom nothing is left to ask.
#[derive(Clone, Copy, Drop)]
pub(crate) enum Verdict {
    ToLink,
    ToConsole,
    Wrong,
    Nowhere,
}

fn refusal_of(fault: FrameError) -> Refusal
    ensures { result ≡ login.refusal_of fault }
{
    match fault {
        FrameError::UnknownCode => Refusal::UnsupportedProtocol,
        FrameError::UnknownType | FrameError::TooShort | FrameError::TooLong =>
            Refusal::MalformedClientMessage,
    }
}

fn refusal_of_start(fault: StartKeyError) -> Refusal
    ensures { result ≡ login.start_refusal fault }
{
    match fault {
        StartKeyError::NoUser => Refusal::MalformedClientMessage,
        StartKeyError::UnsupportedParameter | StartKeyError::Replication =>
            Refusal::UnsupportedParameter,
        StartKeyError::Memory => Refusal::OutOfMemory,
    }
}

/// The parameter for which a packet is refused that is a StartupMessage, where there is memory for its name.
fn unsupported_in(alloc: Global, settings: &Settings, packet: &[u8]) -> Option<Text> {
    let FirstStep::Startup(text) = first_packet(packet) else {
        return None;
    };
    let Ok(start) = StartupView::read(text) else {
        return None;
    };
    let name = unsupported_name(settings, &start)?;
    Text::from_slice(alloc, name).ok()
}

/// Keeps the parameter for which this step, the answer to a packet, refuses the client.
pub(crate) fn note_unsupported(
    alloc: Global,
    settings: &Settings,
    packet: &[u8],
    step: &LoginStep,
    name: &mut Option<Text>,
) {
    if step.is_unsupported() {
        *name = unsupported_in(alloc, settings, packet);
    }
}

fn md5_question(salt: [u8; 4]) -> [u8; 13]
    ensures { result ≡ login.asks_md5 salt }
{
    let mut frame = *b"R\0\0\0\x0c\0\0\0\x05\0\0\0\0";
    frame[9..].copy_from_slice(&salt);
    frame
}

/// AuthenticationOk, behind the server's proof where there is one.
fn let_in(proof: Option<Box<Message>>) -> Authenticated
    requires { length (proof_bytes proof) ≤ 337 }
    ensures { authenticated_bytes result ≡ proof_bytes proof ++ login.ok }
{
    match proof {
        Some(mut frames) => {
            frames.push(&AUTHENTICATION_OK[..]);
            Authenticated::WithProof(frames)
        }
        None => Authenticated::Ok,
    }
}

/// The server's proof, where there is one.
fn proved(proof: Option<Box<Message>>) -> Authenticated
    ensures { authenticated_bytes result ≡ proof_bytes proof }
{
    match proof {
        Some(frame) => Authenticated::WithProof(frame),
        None => Authenticated::Nothing,
    }
}

/// What a call answers, where the login then stands, and how many bytes are then known to be missing.
type Turned = (LoginStep, Place, usize);

/// What an answer leads to.
pub(crate) type Answered = (LoginStep, Place);

pub(crate) fn refused(refusal: Refusal) -> Answered
    ensures step { result.0 ≡ Refused refusal }
    ensures over { awaiting_of result.1 ≡ Over }
    ensures revealed { revealed_of result.1 ≡ None }
{
    (LoginStep::Refused(refusal), Place::Over(None))
}

fn failed(failure: LoginRefusal) -> Answered
    ensures step { result.0 ≡ Failed failure }
    ensures over { awaiting_of result.1 ≡ Over }
{
    (LoginStep::Failed(failure), Place::Over(None))
}

/// The client of this key is asked for SCRAM.
fn scram_asked(key: Arc<StartKey>) -> Turned
    ensures step { result.0 ≡ Ask Scram }
    ensures place { awaiting_of result.1 ≡ AwaitsPacket (Asked ForFirst (arc_value key)) }
    ensures lacks { result.2 ≡ 5 }
{
    (
        LoginStep::Ask(Question::Scram),
        Place::Asked(Asking::First, key),
        HEAD,
    )
}

/// The bytes that are known to be missing where nothing of a message is held.
fn head_after(place: &Place) -> usize
    ensures { result ≡ missing (awaiting_of place.now) [] }
{
    match place {
        Place::Asked(_, _) => HEAD,
        Place::First { .. } => FIRST_HEAD,
        Place::Arriving(_) | Place::Over(_) => 0,
    }
}

impl Rules {
    /// The key of a StartupMessage, from what follows its code.
    fn begin(&self, alloc: Global, text: &[u8]) -> Result<Arc<StartKey>, Refusal>
        ensures { Begun result (login.key_of (rows_under self.now) (startup_of text.now)) }
    {
        let start = match StartupView::read(text) {
            Ok(start) => start,
            Err(_) => return Err(Refusal::MalformedClientMessage),
        };
        match start_key(alloc, &self.settings, &start) {
            Ok(key) => match Arc::new(alloc, key) {
                Ok(key) => Ok(key),
                Err(_) => Err(Refusal::OutOfMemory),
            },
            Err(fault) => Err(refusal_of_start(fault)),
        }
    }

    #[tactic(auto, unfolding(crate::specs::Dialogue::row_in))]
    fn auth_type(&self, key: &StartKey) -> AuthType
        ensures { result ≡ (rows_under self.now key.now.row key.now.user).auth }
    {
        self.settings.auth_type()
    }

    /// Whether the client knows its password, and what it reveals; an unknown user knows none. The only error is out of memory.
    #[tactic(auto, unfolding(crate::specs::Dialogue::row_in))]
    fn is_right(&self, alloc: Global, key: &StartKey, given: &[u8]) -> Result<Judged, AllocError>
        ensures value { IfOk result (λ j. j.is_right ≡ login.is_right (rows_under self.now key.now.row key.now.user) self.now.word key.now given.now) }
        ensures reveals { IfOk result (λ j. j.is_right ≡ true → IsRevealed (rows_under self.now key.now.row key.now.user) j.revealed) }
        ensures memory { IfErr result (λ e. TakesMemory (rows_under self.now key.now.row key.now.user) ForPassword) }
    {
        let user = key.user.as_slice();
        let Some(row) = self.users.row(user) else {
            return Ok(unrevealing(false));
        };
        match self.settings.auth_type() {
            AuthType::Trust => Ok(unrevealing(true)),
            AuthType::Plain => judge_plain(alloc, &row.secret, user, given),
            AuthType::Md5 => Ok(unrevealing(row.secret.accepts_md5(user, self.word.salt, given))),
            AuthType::ScramSha256 => Ok(unrevealing(false)),
        }
    }

    /// Whether the user of this key is one of the console's.
    #[tactic(auto, unfolding(crate::specs::Dialogue::row_in))]
    fn enters_console(&self, key: &StartKey) -> bool
        ensures { result ≡ login.enters_console (rows_under self.now key.now.row key.now.user) key.now.user }
    {
        let user = key.user.as_slice();
        self.settings.is_admin(user) | self.settings.may_look(user)
    }

    /// Whether the client of this key names the console, and a user of it.
    pub(crate) fn is_for_console(&self, key: &StartKey) -> bool
        ensures { result ≡ login.is_for_console (rows_under self.now key.now.row key.now.user) key.now }
    {
        key.row.is(b"pgbouncer") & self.enters_console(key)
    }

    /// Where a client goes that proved who it is.
    #[tactic(auto, unfolding(crate::specs::Dialogue::row_in))]
    pub(crate) fn admit(&self, key: &StartKey) -> Verdict
        ensures { (proof : List ℕ) → login.admitted proof (rows_under self.now key.now.row key.now.user) key.now ≡ verdict_of proof result (login.link_key (rows_under self.now key.now.row key.now.user).database key.now) }
    {
        if key.row.is(b"pgbouncer") {
            if self.enters_console(key) {
                return Verdict::ToConsole;
            }
            return Verdict::Wrong;
        }
        match self.settings.row(key.row.as_slice()) {
            Some(_) => Verdict::ToLink,
            None => Verdict::Nowhere,
        }
    }

    /// The key of a link to the user whom the database's row names, where it names one. The only error is out of memory.
    #[tactic(auto, unfolding(crate::specs::Dialogue::row_in))]
    fn named_key(&self, alloc: Global, key: &StartKey) -> Result<Option<Arc<StartKey>>, AllocError>
        ensures key { IfOk result (λ k. option_map arc_value k ≡ named_key (rows_under self.now key.now.row key.now.user).database key.now) }
        ensures memory { IfErr result (λ e. names_user (rows_under self.now key.now.row key.now.user).database ≡ true) }
    {
        let Some(row) = self.settings.row(key.row.as_slice()) else {
            return Ok(None);
        };
        match row.user {
            Some(user) => Ok(Some(Arc::new(alloc, key.of_user(alloc, user)?)?)),
            None => Ok(None),
        }
    }

    /// The key of this client's link, and what it reveals to that: to a user whom the database's row names nothing. The only error is out
    /// of memory.
    #[tactic(auto, unfolding(crate::specs::Dialogue::row_in))]
    fn link(
        &self,
        alloc: Global,
        key: Arc<StartKey>,
        revealed: Option<[u8; 32]>,
    ) -> Result<(Arc<StartKey>, Option<[u8; 32]>), AllocError>
        requires revealed { IsRevealed (rows_under self.now (arc_value key).row (arc_value key).user) revealed }
        ensures key { IfOk result (λ l. arc_value l.0 ≡ login.link_key (rows_under self.now (arc_value key).row (arc_value key).user).database (arc_value key)) }
        ensures revealed { IfOk result (λ l. IsRevealedTo (rows_under self.now (arc_value l.0).row (arc_value l.0).user) l.1) }
        ensures memory { IfErr result (λ e. names_user (rows_under self.now (arc_value key).row (arc_value key).user).database ≡ true) }
    {
        match self.named_key(alloc, &key)? {
            Some(link) => Ok((link, None)),
            None => Ok((key, revealed)),
        }
    }

    /// The last step of a client about which this was decided, and what it revealed of its secret; behind the server's proof, where there is
    /// one. The only error is out of memory.
    pub(crate) fn last_step(
        &self,
        alloc: Global,
        verdict: Verdict,
        key: Arc<StartKey>,
        proof: Option<Box<Message>>,
        revealed: Option<[u8; 32]>,
    ) -> Result<Answered, AllocError>
        requires proof { length (proof_bytes proof) ≤ 337 }
        requires revealed { IfToLink verdict (IsRevealed (rows_under self.now (arc_value key).row (arc_value key).user) revealed) }
        ensures step { IfOk result (λ a. Decides a.0 (verdict_of (proof_bytes proof) verdict (login.link_key (rows_under self.now (arc_value key).row (arc_value key).user).database (arc_value key)))) }
        ensures over { IfOk result (λ a. awaiting_of a.1 ≡ Over) }
        ensures reveals { IfOk result (λ a. Reveals (rows_under self.now) a.0 (revealed_of a.1)) }
        ensures memory { IfErr result (λ e. names_user (rows_under self.now (arc_value key).row (arc_value key).user).database ≡ true) }
    {
        match verdict {
            Verdict::ToLink => {
                let (key, revealed) = self.link(alloc, key, revealed)?;
                Ok((LoginStep::Passed(key, let_in(proof)), Place::Over(revealed)))
            }
            Verdict::ToConsole => Ok((LoginStep::Console(proved(proof)), Place::Over(None))),
            Verdict::Wrong => Ok(failed(LoginRefusal::WrongPassword)),
            Verdict::Nowhere => Ok(failed(LoginRefusal::NoDatabase)),
        }
    }

    /// Where a client goes that gave this password, and what it revealed.
    fn judge(
        &self,
        alloc: Global,
        key: &StartKey,
        given: &[u8],
    ) -> Result<(Verdict, Option<[u8; 32]>), AllocError>
        ensures value { IfOk result (λ v. login.judged (rows_under self.now key.now.row key.now.user) self.now.word key.now given.now ≡ verdict_of [] v.0 (login.link_key (rows_under self.now key.now.row key.now.user).database key.now)) }
        ensures reveals { IfOk result (λ v. IfToLink v.0 (IsRevealed (rows_under self.now key.now.row key.now.user) v.1)) }
        ensures memory { IfErr result (λ e. TakesMemory (rows_under self.now key.now.row key.now.user) ForPassword) }
    {
        let judged = self.is_right(alloc, key, given)?;
        if judged.is_right {
            return Ok((self.admit(key), judged.revealed));
        }
        Ok((Verdict::Wrong, None))
    }

    /// The last step of a client that gave this password.
    fn judged(
        &self,
        alloc: Global,
        key: Arc<StartKey>,
        given: &[u8],
    ) -> Result<Answered, AllocError>
        ensures value { IfOk result (λ a. Decides a.0 (login.judged (rows_under self.now (arc_value key).row (arc_value key).user) self.now.word (arc_value key) given.now)) }
        ensures over { IfOk result (λ a. awaiting_of a.1 ≡ Over) }
        ensures reveals { IfOk result (λ a. Reveals (rows_under self.now) a.0 (revealed_of a.1)) }
        ensures memory { IfErr result (λ e. TakesMemory (rows_under self.now (arc_value key).row (arc_value key).user) ForPassword) }
    {
        let (verdict, revealed) = self.judge(alloc, &key, given)?;
        self.last_step(alloc, verdict, key, None, revealed)
    }

    /// Where a client goes that isn't asked: an unknown user nowhere.
    #[tactic(auto, unfolding(crate::specs::Dialogue::row_in))]
    fn trusted(&self, key: &StartKey) -> Verdict
        ensures { (rows_under self.now key.now.row key.now.user).auth ≡ Trust → login.judged (rows_under self.now key.now.row key.now.user) self.now.word key.now [] ≡ verdict_of [] result (login.link_key (rows_under self.now key.now.row key.now.user).database key.now) }
    {
        if self.users.row(key.user.as_slice()).is_none() {
            return Verdict::Wrong;
        }
        self.admit(key)
    }

    /// Whether the user's secret is a verifier.
    #[tactic(auto, unfolding(crate::specs::Dialogue::row_in))]
    pub(crate) fn has_verifier(&self, key: &StartKey) -> bool
        ensures { result ≡ login.has_verifier (rows_under self.now key.now.row key.now.user).user }
    {
        match self.users.row(key.user.as_slice()) {
            Some(row) => row.secret.is_verifier(),
            None => false,
        }
    }

    /// A client's StartupMessage.
    fn on_startup_message(&self, alloc: Global, text: &[u8]) -> Turned
        ensures means { StartMeans (login.key_of (rows_under self.now) (startup_of text.now)) result.0 (awaiting_of result.1) }
        ensures once { IsBeforeArrival result.0 }
        ensures lacks { (held : List ℕ) → result.2 ≡ missing (awaiting_of result.1) (left_after result.0 held) }
        ensures reveals { Reveals (rows_under self.now) result.0 (revealed_of result.1) }
    {
        match self.begin(alloc, text) {
            Ok(key) => match Arc::try_clone(&key) {
                Ok(copy) => (LoginStep::Arrived(copy), Place::Arriving(key), 0),
                Err(_) => (
                    LoginStep::Refused(Refusal::OutOfMemory),
                    Place::Over(None),
                    0,
                ),
            },
            Err(refusal) => (LoginStep::Refused(refusal), Place::Over(None), 0),
        }
    }

    fn on_first_packet(&self, alloc: Global, held: &[u8], tls: bool, gss: bool) -> Turned
        requires { Fits (AwaitsPacket (AtFirst tls gss)) held.now }
        ensures step { StepIs (rows_under self.now) self.now.word (AwaitsPacket (AtFirst tls gss)) held.now result.0 (awaiting_of result.1) (left_after result.0 held.now) }
        ensures once { ArrivesOnce (AwaitsPacket (AtFirst tls gss)) result.0 }
        ensures lacks { result.2 ≡ missing (awaiting_of result.1) (left_after result.0 held.now) }
        ensures reveals { Reveals (rows_under self.now) result.0 (revealed_of result.1) }
    {
        packets_grow();
        match first_packet(held) {
            FirstStep::Startup(text) => self.on_startup_message(alloc, text),
            FirstStep::Cancel { pid, secret } => (
                LoginStep::Cancel { pid, secret },
                Place::Over(None),
                0,
            ),
            FirstStep::Tls => {
                if tls {
                    return (LoginStep::Refused(MALFORMED), Place::Over(None), 0);
                }
                (
                    LoginStep::Ask(Question::Encryption),
                    Place::First { tls: true, gss },
                    FIRST_HEAD,
                )
            }
            FirstStep::Gss => {
                if gss {
                    return (LoginStep::Refused(MALFORMED), Place::Over(None), 0);
                }
                (
                    LoginStep::Ask(Question::Encryption),
                    Place::First { tls, gss: true },
                    FIRST_HEAD,
                )
            }
            FirstStep::Need(count) => (LoginStep::More, Place::First { tls, gss }, count),
            FirstStep::Bad(fault) => (LoginStep::Refused(refusal_of(fault)), Place::Over(None), 0),
        }
    }

    /// The client has arrived, and is asked, or judged at once.
    fn go_on(&self, alloc: Global, key: Arc<StartKey>) -> Turned
        ensures once { ArrivesOnce (Arriving (arc_value key)) result.0 }
        ensures step { StepIs (rows_under self.now) self.now.word (Arriving (arc_value key)) [] result.0 (awaiting_of result.1) [] }
        ensures lacks { result.2 ≡ missing (awaiting_of result.1) [] }
        ensures reveals { Reveals (rows_under self.now) result.0 (revealed_of result.1) }
    {
        packets_grow();
        match self.auth_type(&key) {
            AuthType::Trust => {
                let verdict = self.trusted(&key);
                let (step, place) = match self.last_step(alloc, verdict, key, None, None) {
                    Ok(ended) => ended,
                    Err(_) => refused(Refusal::OutOfMemory),
                };
                (step, place, 0)
            }
            AuthType::Plain => (
                LoginStep::Ask(Question::Cleartext),
                Place::Asked(Asking::Password, key),
                HEAD,
            ),
            AuthType::Md5 => {
                if self.has_verifier(&key) {
                    return scram_asked(key);
                }
                (
                    LoginStep::Ask(Question::Md5(md5_question(self.word.salt))),
                    Place::Asked(Asking::Password, key),
                    HEAD,
                )
            }
            AuthType::ScramSha256 => scram_asked(key),
        }
    }

    /// A PasswordMessage.
    fn on_password(&self, alloc: Global, key: Arc<StartKey>, body: &[u8]) -> Answered
        ensures answers { Answers (rows_under self.now) self.now.word (arc_value key) ForPassword body.now result }
        ensures reveals { Reveals (rows_under self.now) result.0 (revealed_of result.1) }
    {
        let Ok(view) = PasswordView::read(body) else {
            return refused(MALFORMED);
        };
        match self.judged(alloc, key, view.password) {
            Ok(answered) => answered,
            Err(_) => refused(Refusal::OutOfMemory),
        }
    }

    fn on_answer(&self, alloc: Global, asking: Asking, key: Arc<StartKey>, body: &[u8]) -> Answered
        ensures answers { Answers (rows_under self.now) self.now.word (arc_value key) (asking_of asking) body.now result }
        ensures reveals { Reveals (rows_under self.now) result.0 (revealed_of result.1) }
    {
        match asking {
            Asking::Password => self.on_password(alloc, key, body),
            Asking::First => self.on_first(alloc, key, body),
            Asking::Last(first) => self.on_last(alloc, key, first.as_slice(), body),
        }
    }

    fn on_message(&self, alloc: Global, held: &[u8], asking: Asking, key: Arc<StartKey>) -> Turned
        requires { Fits (AwaitsPacket (Asked (asking_of asking) (arc_value key))) held.now }
        ensures step { StepIs (rows_under self.now) self.now.word (AwaitsPacket (Asked (asking_of asking) (arc_value key))) held.now result.0 (awaiting_of result.1) (left_after result.0 held.now) }
        ensures once { ArrivesOnce (AwaitsPacket (Asked (asking_of asking) (arc_value key))) result.0 }
        ensures lacks { result.2 ≡ missing (awaiting_of result.1) (left_after result.0 held.now) }
        ensures reveals { Reveals (rows_under self.now) result.0 (revealed_of result.1) }
    {
        packets_grow();
        let frame = match next_frame(held, 0, MAX_MESSAGE, Side::Client) {
            Step::Whole(frame) => frame,
            Step::Need(count) => return (LoginStep::More, Place::Asked(asking, key), count),
            Step::Bad(_) => return (LoginStep::Refused(MALFORMED), Place::Over(None), 0),
        };
        if frame.kind == TERMINATE {
            return (LoginStep::Left, Place::Over(None), 0);
        }
        if frame.kind != PASSWORD_MESSAGE {
            return (LoginStep::Refused(MALFORMED), Place::Over(None), 0);
        }
        let (step, place) = self.on_answer(alloc, asking, key, frame.body);
        let lacking = head_after(&place);
        (step, place, lacking)
    }

    /// One step from what is held, and what it leads to.
    pub(crate) fn turn(&self, alloc: Global, held: &[u8], place: Place) -> Turned
        requires { Fits (awaiting_of place) held.now }
        ensures step { StepIs (rows_under self.now) self.now.word (awaiting_of place) held.now result.0 (awaiting_of result.1) (left_after result.0 held.now) }
        ensures once { ArrivesOnce (awaiting_of place) result.0 }
        ensures over { awaiting_of place ≡ Over → result.0 ≡ Left }
        ensures lacks { result.2 ≡ missing (awaiting_of result.1) (left_after result.0 held.now) }
        ensures reveals { Reveals (rows_under self.now) result.0 (revealed_of result.1) }
    {
        match place {
            Place::First { tls, gss } => self.on_first_packet(alloc, held, tls, gss),
            Place::Arriving(key) => self.go_on(alloc, key),
            Place::Asked(asking, key) => self.on_message(alloc, held, asking, key),
            Place::Over(_) => (LoginStep::Left, Place::Over(None), 0),
        }
    }
}
