//! `pgsess replay`: one client's bytes in, its replies out.
ghost use Rattle.std.specs.Prelude.{◌≡◌, ◌≢◌, ◌⊎◌, ◌<◌, ◌≤◌, ◌++◌, ◌∷◌, [], length, drop, OnOk, OnErr, IfErr, IfOk, IfSome, false};
ghost use Rattle.std.specs.Arc.{arc_value};
ghost use Rattle.std.specs.Io.KnownBytes.{Appends};
ghost use Rattle.frame_view.specs.declared.frames.TheConstants.{MAX_FRAME};
ghost use Rattle.message_view.specs.Refusals.{refusal};
ghost use Rattle.message_view.specs.declared.refusal.Refusal.TheVariants as refused;
ghost use Rattle.link_start.specs.Starts.{IsLinkKey};
ghost use Rattle.login_core.specs.Dialogue.{AtFirst, ToLink};
ghost use Rattle.login_core.specs.Logins.{AwaitsPacket, after, authenticated_bytes, goes_on, login_view, missing};
ghost use Rattle.login_core.specs.Solo.{service_pieces};
ghost use Rattle.login_core.specs.Talk.End.{Passed};
ghost use Rattle.memory_lease.specs.Answers.{IsAnswer};
ghost use Rattle.pool_app.specs.declared.fault.AppError.TheVariants as told;
ghost use Rattle.replay_run.specs.Replay.{IsLeft, IsReply, WritesReply, standing_catalogue, standing_settings, standing_users, standing_word};
ghost use Rattle.replay_run.specs.Told.{Adds, IsKeyed, IsPastArrival, Says, WantsMemory, HasLinkKey, is_end, silence};

use crate::standing::{KEY_WORD, catalogue, settings, users};
use bytes::BytesMut;
use credentials::Credential;
use login_core::laws::login_is_of_its_row;
use login_core::{Authenticated, Login, LoginStep};
use login_laws::laws::{passed_keys_are_link_keys, settings_rows_are_lawful};
use memory_ends::memory_server::{MemoryServer, ServerAuth};
use memory_lease::alone::{ServeError, serve_alone};
use message_view::{KeyWord, Refusal, refusal_bytes};
use pool_app::fault::AppError;
use pool_app::files::{MAX_BYTES, ReadError, read_all};
use session_catalogue::Catalogue;
use session_machine::solo_bytes;
use start_keys::StartKey;
use std::alloc::{AllocError, Global};
use std::io::{ErrorKind, Read, Write};
use std::sync::Arc;
use user_file::Secret;

/// The words of a server's own BackendKeyData, which no client sees.
const SERVER_WORD: KeyWord = KeyWord {
    pid: 7,
    secret: 8,
    salt: [0; 4],
};

/// The bytes that a call of an end moves at most in `replay`.
const CUT: usize = 8_192;

/// What a client is answered who has no link though its server lives, or whose lease comes to no end ([`ServeError::Unstarted`],
/// [`ServeError::Unended`]). No test has met one, and that there is none isn't proved.
#[derive(Clone, Copy, Drop)]
pub enum Unended {
    /// All that a session of its own answers, without a link: it is owed nothing else.
    BySession,
    /// Nothing, as where an allocation failed: so a test sees it.
    Failed,
}

/// What clients are served over: the catalogue of their servers, the greatest length of a frame, the most bytes that a call of an
/// end moves, and how many are read from a server before it dies, if it does; and what they are answered where that comes to no end.
#[derive(Drop)]
struct Service {
    catalogue: Arc<Catalogue>,
    limit: u32,
    cut: usize,
    dies_after: Option<u64>,
    unended: Unended,
    ghost some: { 0 < cut },
    ghost all: { limit ≡ MAX_FRAME },
}

/// Puts this refusal; there is none where an allocation failed.
fn put_refusal(out: &mut BytesMut, cause: Refusal) -> Result<(), AllocError>
    ensures given { OnOk result (out.new.items ≡ out.old.items ++ refusal cause) }
    ensures memory { OnOk result (cause ≢ refused.OutOfMemory) }
{
    if let Refusal::OutOfMemory = cause {
        return Err(AllocError);
    }
    out.extend_from_slice(refusal_bytes(cause))
}

/// What a client is answered behind its login by a session of its own, without a link.
fn answered_by_session(
    alloc: Global,
    service: &Service,
    key: &StartKey,
    rest: &[u8],
) -> Result<BytesMut, AllocError>
    ensures { IfOk result (λ out. IsAnswer service.now.dies_after MAX_FRAME rest.now out.items (service_pieces (arc_value service.now.catalogue) key.now standing_word [] rest.now)) }
{
    let mut out = BytesMut::new(alloc);
    solo_bytes(alloc, &service.catalogue, key, KEY_WORD, rest, &mut out)?;
    Ok(out)
}

/// What a client is answered behind its login over a link of its own.
fn served(
    alloc: Global,
    service: &Service,
    key: &Arc<StartKey>,
    rest: &[u8],
) -> Result<BytesMut, AllocError>
    requires key { IsLinkKey (arc_value key.now) }
    ensures { IfOk result (λ out. IsAnswer service.now.dies_after MAX_FRAME rest.now out.items (service_pieces (arc_value service.now.catalogue) (arc_value key.now) standing_word [] rest.now)) }
{
    service.catalogue.is_lawful();
    let catalogue = Arc::try_clone(&service.catalogue)?;
    // the server asks for nothing
    let unasked = Secret::Md5([0; 32]);
    let credential = Credential::new(alloc, &unasked, None, &KEY_WORD, 0);
    let server = MemoryServer::spared(
        alloc,
        catalogue,
        ServerAuth::Trust,
        SERVER_WORD,
        service.cut,
        service.dies_after,
    )?;
    match serve_alone(
        alloc,
        server,
        Arc::try_clone(key)?,
        &credential,
        KEY_WORD,
        service.limit,
        service.cut,
        rest,
    ) {
        Ok(answer) => Ok(answer),
        Err(ServeError::Memory) => Err(AllocError),
        Err(ServeError::Unstarted(_) | ServeError::Unended(_)) => match service.unended {
            Unended::BySession => answered_by_session(alloc, service, key, rest),
            Unended::Failed => Err(AllocError),
        },
    }
}

/// What follows a login that has passed: what the client is told, and what it is answered over its link.
fn put_passed(
    alloc: Global,
    service: &Service,
    key: &Arc<StartKey>,
    told: &Authenticated,
    rest: &[u8],
    out: &mut BytesMut,
) -> Result<(), AllocError>
    requires key { IsLinkKey (arc_value key.now) }
    ensures { OnOk result (Adds service.now.dies_after (arc_value service.now.catalogue) (record { pieces = authenticated_bytes told.now ∷ []; ended = Passed (ToLink (arc_value key.now)) rest.now }) out.old.items out.new.items) }
{
    out.extend_from_slice(told.as_bytes())?;
    let answer = served(alloc, service, key, rest)?;
    out.extend_from_slice(answer.as_slice())?;
    Ok(())
}

/// What a step of the login gives the client; where it is the last, with all that follows. A client
/// of the console is closed without a byte, and so is one that asks to cancel. Want of memory gives nothing.
fn put_step(
    alloc: Global,
    service: &Service,
    step: &LoginStep,
    rest: &[u8],
    out: &mut BytesMut,
) -> Result<(), AllocError>
    requires { HasLinkKey step.now }
    ensures given { OnOk result (Adds service.now.dies_after (arc_value service.now.catalogue) (after step.now rest.now silence) out.old.items out.new.items) }
    ensures memory { OnOk result (WantsMemory step.now → ⊥) }
{
    match step {
        LoginStep::Ask(question) => out.extend_from_slice(question.as_bytes()),
        LoginStep::Passed(key, told) => put_passed(alloc, service, key, told, rest, out),
        LoginStep::Console(told) => out.extend_from_slice(told.as_bytes()),
        LoginStep::Refused(refusal) => put_refusal(out, *refusal),
        LoginStep::Failed(failure) => out.extend_from_slice(failure.as_bytes()),
        LoginStep::More | LoginStep::Arrived(_) | LoginStep::Cancel { .. } | LoginStep::Left => Ok(
            (),
        ),
    }
}

/// Gives the login bytes up to its next step that isn't an arrival.
fn advance(login: &mut Login, alloc: Global, bytes: &[u8]) -> (usize, LoginStep)
    requires missing { 0 < missing login.old.awaiting login.old.held }
    requires some { 0 < length bytes.now }
    ensures used { (0 < result.0) × (result.0 ≤ length bytes.now) }
    ensures says { Says login.old bytes.now result.1 login.new (drop result.0 bytes.now) }
    ensures past { IsPastArrival result.1 login.new }
{
    let (used, step) = login.on_bytes(alloc, bytes);
    match step {
        LoginStep::Arrived(_) => {
            let (_, next) = login.on_bytes(alloc, b"");
            (used, next)
        }
        step => (used, step),
    }
}

fn is_end(step: &LoginStep) -> bool
    ensures { result ≡ is_end step.now }
{
    !matches!(
        step,
        LoginStep::More | LoginStep::Ask(_) | LoginStep::Arrived(_)
    )
}

/// What a client is given from a login on that waits for these bytes.
fn put_login(
    alloc: Global,
    service: &Service,
    login: &mut Login,
    bytes: &[u8],
    out: &mut BytesMut,
) -> Result<(), AllocError>
    requires missing { 0 < missing login.old.awaiting login.old.held }
    requires keyed { IsKeyed (goes_on login.old bytes.now).ended }
    ensures { OnOk result (Adds service.now.dies_after (arc_value service.now.catalogue) (goes_on login.old bytes.now) out.old.items out.new.items) }
{
    if bytes.is_empty() {
        return Ok(());
    }
    let (used, step) = advance(login, alloc, bytes);
    let rest = &bytes[used..];
    put_step(alloc, service, &step, rest, out)?;
    if is_end(&step) {
        return Ok(());
    }
    put_login(alloc, service, login, rest, out)
}

/// A login under the standing settings and users.
fn standing_login(alloc: Global) -> Result<Login, AllocError>
    ensures { IfOk result (λ l. l ≡ login_view standing_settings standing_users standing_word (AwaitsPacket (AtFirst false false)) []) }
{
    let settings = Arc::new(alloc, settings(alloc)?)?;
    let users = Arc::new(alloc, users(alloc)?)?;
    Login::new(alloc, settings, users, KEY_WORD)
}

/// The service of the standing settings and catalogue.
#[tactic(auto, using(crate::proofs::Replaying::standing_limit))]
fn standing_service(
    alloc: Global,
    cut: usize,
    dies_after: Option<u64>,
    unended: Unended,
) -> Result<Service, AllocError>
    requires { 0 < cut }
    ensures catalogue { IfOk result (λ s. arc_value s.catalogue ≡ standing_catalogue) }
    ensures dies { IfOk result (λ s. s.dies_after ≡ dies_after) }
{
    let settings = settings(alloc)?;
    Ok(Service {
        catalogue: Arc::new(alloc, catalogue(alloc)?)?,
        limit: settings.max_packet_size(),
        cut,
        dies_after,
        unended,
    })
}

/// What a client of the standing settings is answered: its bytes in, its replies out. A call of an end of its lease moves at most
/// `cut` bytes, and its server dies once `dies_after` bytes were read from it; over one that doesn't, all is answered. `unended` says
/// what is answered where the lease comes to no end. The only error is that an allocation failed, or [`Unended::Failed`].
pub fn replies(
    alloc: Global,
    cut: usize,
    dies_after: Option<u64>,
    unended: Unended,
    bytes: &[u8],
) -> Result<BytesMut, AllocError>
    requires { 0 < cut }
    ensures { IfOk result (λ out. IsReply dies_after bytes.now out.items) }
{
    login_is_of_its_row();
    settings_rows_are_lawful();
    passed_keys_are_link_keys();
    let service = standing_service(alloc, cut, dies_after, unended)?;
    let mut login = standing_login(alloc)?;
    let mut out = BytesMut::new(alloc);
    put_login(alloc, &service, &mut login, bytes, &mut out)?;
    Ok(out)
}

/// The fault of standard input.
fn unread<'a>(fault: ReadError) -> AppError<'a>
    ensures { (result ≡ told.Stdin) ⊎ (result ≡ told.Memory) }
{
    match fault {
        ReadError::Io(error) if error.kind() == ErrorKind::OutOfMemory => AppError::Memory,
        _ => AppError::Stdin,
    }
}

/// Answers one client: reads all of its bytes, at most 16,777,216, and then writes what it is
/// answered. Where the input can't be read or is longer (`Stdin`), or memory is refused (`Memory`),
/// nothing is written; `Stdout` where the output can't be written.
#[tactic(auto, using(crate::proofs::Replaying::writes_reply))]
pub fn replay<'a, R: Read + Drop, W: Write>(
    alloc: Global,
    input: R,
    output: &mut W,
) -> Result<(), AppError<'a>>
    ensures replies { OnOk result (IfSome (R.remaining input) (λ xs. WritesReply (W.contents output.old) (W.contents output.new) xs)) }
    ensures bound { IfOk result (λ _. IfSome (R.remaining input) (λ xs. length xs ≤ 16777216)) }
    ensures left { IfErr result (λ fault. IsLeft output.old output.new fault) }
{
    let bytes = match read_all(alloc, input, MAX_BYTES) {
        Ok(bytes) => bytes,
        Err(fault) => return Err(unread(fault)),
    };
    let Ok(answer) = replies(alloc, CUT, None, Unended::BySession, bytes.as_slice()) else {
        return Err(AppError::Memory);
    };
    if output.write_all(answer.as_slice()).is_err() || output.flush().is_err() {
        return Err(AppError::Stdout);
    }
    Ok(())
}
