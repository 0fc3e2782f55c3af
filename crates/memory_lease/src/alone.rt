//! A client's whole service, over a link of its own.
ghost use Rattle.std.specs.Prelude.{◌≡◌, ◌<◌, ◌≤◌, ◌++◌, IfErr, IfOk, OnOk, false, true};
ghost use Rattle.std.specs.Arc.{arc_value};
ghost use Rattle.frame_view.specs.declared.frames.TheConstants.{MAX_FRAME};
ghost use Rattle.message_view.specs.declared.refusal.Refusal.{Refusal};
ghost use Rattle.link_start.specs.Starts.{IsLetIn, IsLinkKey, IsStartable};
ghost use Rattle.relay_core.specs.Returns.{IsReturned};
ghost use Rattle.relay_core.specs.Leases.{IsLease, Keeps, RelayView, place};
ghost use Rattle.relay_core.specs.declared.Phase.TheVariants.{Running};
ghost use Rattle.memory_lease.specs.Answers.{IsAnswer, own_pieces};
ghost use Rattle.memory_lease.specs.Held.{IsEnding, IsHandedBack, TellsCause, TellsEnding};
ghost use Rattle.memory_lease.specs.Unended.{IsUnserved, StillWaits};
ghost use Rattle.memory_lease.specs.declared.alone.ServeError.TheVariants as serve_error;

use crate::own_server::OwnServer;
use crate::patient_client::PatientClient;
use bytes::BytesMut;
use credentials::Credential;
use frame_view::laws::are_bytes;
use link_start::close::close_link;
use link_start::links::CleanLink;
use link_start::start::{StartLinkError, StartRefusal, start_link};
use memory_ends::memory_server::MemoryServer;
use message_view::{KeyWord, Refusal, refusal_bytes};
use relay_core::Next;
use relay_core::relay::{Relay, Returned};
use server_end::gate::{OpenGate, Ready};
use server_end::{ClientEnd, ServerEnd};
use start_keys::StartKey;
use std::alloc::{AllocError, Global};
use std::sync::Arc;

/// The turns that the start of a link may take.
const START_TURNS: u32 = 65_536;

/// So many pumps in a row that move nothing end a lease: the client takes one to wait, and the next one to go on.
const MAX_WAITS: u32 = 4;

/// Why a client isn't served to its end.
#[derive(Drop)]
pub enum ServeError {
    /// An allocation failed.
    Memory,
    /// No link was started while its server lives: it asks what this user can't answer, or the turns were waited in vain. Or the
    /// server is at the last count of its waits, 18,446,744,073,709,551,615. The server is handed back.
    Unstarted(MemoryServer),
    /// The lease came to no end while its server lives: it ended with something on its way, nothing moved any more, or its turns were
    /// used up. Or the server is at the last count of its waits, 18,446,744,073,709,551,615. The server is handed back.
    Unended(MemoryServer),
}

impl From<AllocError> for ServeError {
    ghost from_gives = { λ _ fault. fault ≡ serve_error.Memory };

    fn from(_error: AllocError) -> ServeError {
        ServeError::Memory
    }
}

/// What a client is told whose link wasn't started: the server's own words, or that a server which died could not be reached. One that
/// still waits is handed back.
fn put_unstarted(fault: StartLinkError<OwnServer>, out: &mut BytesMut) -> Result<(), ServeError>
    ensures told { OnOk result (TellsCause fault.cause fault.end out.old.items out.new.items) }
    ensures unstarted { IfErr result (IsHandedBack fault.cause fault.end) }
{
    let StartLinkError { end, cause } = fault;
    if end.is_faulty() {
        return Err(ServeError::Memory);
    }
    match cause.into_refusal() {
        StartRefusal::Error(error) => out.extend_from_slice(error.as_bytes())?,
        StartRefusal::Refusal(Refusal::OutOfMemory) => return Err(ServeError::Memory),
        StartRefusal::Refusal(refusal) if end.has_died() => {
            out.extend_from_slice(refusal_bytes(refusal))?;
        }
        StartRefusal::Refusal(_) => return Err(ServeError::Unstarted(end.into_server())),
    }
    Ok(())
}

/// The lease of a link to a client begins. The only error is that memory was refused.
fn begin_lease<'a>(
    alloc: Global,
    client: PatientClient<'a>,
    link: CleanLink<OwnServer>,
    word: KeyWord,
    limit: u32,
) -> Result<Relay<PatientClient<'a>, OwnServer>, AllocError>
    requires low { 4 ≤ limit }
    requires high { limit ≤ MAX_FRAME }
    ensures begun { IfOk result (IsLease (place client.entry.facts link word limit)) }
    ensures phase { IfOk result (λ r. r.phase ≡ Running) }
{
    match Relay::begin(alloc, client, link, word, limit) {
        Ok(relay) => Ok(relay),
        Err((_, link)) => {
            close_link(link);
            Err(AllocError)
        }
    }
}

/// How a lease ended.
#[derive(Clone, Copy, Drop)]
enum Ending {
    /// Its client was done.
    Done,
    /// The client is refused.
    Refused(Refusal),
    /// The server ended inside a frame, or nothing moved any more.
    Cut,
}

/// Pumps until the lease ends, or nothing moves any more: the server's side alone until nothing moves there, and then both.
fn pump_to_end<C: ClientEnd, E: ServerEnd>(relay: &mut Relay<C, E>) -> Ending
    requires { relay.old.phase ≡ Running }
    ensures keeps { Keeps relay.old relay.new }
    ensures ending { IsEnding relay.old relay.new result }
{
    let mut waits = 0;
    for _ in 0..u64::MAX {
        let client = waits > 0;
        match relay.pump(Ready {
            client,
            server: true,
        }) {
            Next::Again => waits = 0,
            Next::Wait if waits < MAX_WAITS => waits += 1,
            Next::Refuse(refusal) => return Ending::Refused(refusal),
            Next::ClientDone => return Ending::Done,
            Next::Wait | Next::Closed => return Ending::Cut,
        }
    }
    Ending::Cut
}

/// The end of a link whose lease has ended.
fn end_of<E: ServerEnd>(link: Returned<E>) -> E
    ensures { (v : RelayView) → IsReturned E.standing v link → E.standing result ≡ v.link }
{
    match link {
        Returned::Unused(link) => link.lend().end,
        Returned::Used(link) => link.lend().end,
        Returned::Gone(lent, _) => lent.end,
    }
}

/// What stands behind all that the client was given. Where its server lives and it isn't refused, nothing was on its way
/// (`clear`), and the server had nothing more to give. `false`: the lease came to no end.
fn put_ending(
    ending: Ending,
    clear: bool,
    server: &OwnServer,
    out: &mut BytesMut,
) -> Result<bool, AllocError>
    ensures told { IfOk result (λ ends. ends ≡ true → TellsEnding ending clear server.now out.old.items out.new.items) }
    ensures unended { IfOk result (λ ends. ends ≡ false → StillWaits server.now.standing) }
{
    if server.is_faulty() {
        return Err(AllocError);
    }
    if server.is_counted_out() {
        return Ok(false);
    }
    match ending {
        Ending::Refused(refusal) => out.extend_from_slice(refusal_bytes(refusal))?,
        Ending::Done if clear && server.rests() => {}
        Ending::Done | Ending::Cut => return Ok(!server.lives()),
    }
    Ok(true)
}

/// Serves one client from the first byte after its login (`bytes`) to its end, over a new link to this server, which no cancel
/// reaches, and answers what the client was given.
///
/// The client sends a frame only once it was given the answers to those before, and hangs up behind its last byte. A start that the
/// server refuses is answered by the server's error alone; one in which the server died by the refusal P7. Over its link the client is
/// refused by P3 or P10 for a faulty message of its own, by P11 where the server's next message is above the limit, and by P6 where
/// the server died. A client that isn't refused is answered all, unless its server may die. `word` is what the client's
/// BackendKeyData has, `limit` the greatest length of a frame both ways, and a call of the client moves at most `cut` bytes.
///
/// It fails only where memory is refused; where no link was started though the server lives; or where the lease comes to no end, and then
/// its server was started with this key and accepted a beginning of the client's bytes.
pub fn serve_alone(
    alloc: Global,
    server: MemoryServer,
    key: Arc<StartKey>,
    credential: &Credential<'_>,
    word: KeyWord,
    limit: u32,
    cut: usize,
    bytes: &[u8],
) -> Result<BytesMut, ServeError>
    requires startable { IsStartable credential.now (arc_value key).user server.standing }
    requires follows { server.standing.follows ≡ true }
    requires spared { server.standing.server.strikable ≡ false }
    requires let_in { IsLetIn server.standing (arc_value key) credential.now }
    requires key { IsLinkKey (arc_value key) }
    requires cut { 0 < cut }
    requires low { 4 ≤ limit }
    requires high { limit ≤ MAX_FRAME }
    ensures answer { IfOk result (λ out. IsAnswer server.left limit bytes.now out.items (own_pieces server.standing.server.catalogue (arc_value key) word bytes.now)) }
    ensures unserved { IfErr result (IsUnserved server.standing credential.now (arc_value key) bytes.now) }
{
    are_bytes(bytes);
    let server = OwnServer::new(server);
    let mut gate = OpenGate::new();
    let link = match start_link(alloc, server, key, credential, 0, 0, &mut gate, START_TURNS) {
        Ok(link) => link,
        Err(fault) => {
            let mut out = BytesMut::new(alloc);
            put_unstarted(fault, &mut out)?;
            return Ok(out);
        }
    };
    let client = PatientClient::new(alloc, bytes, cut);
    let mut relay = begin_lease(alloc, client, link, word, limit)?;
    let ending = pump_to_end(&mut relay);
    let clear = relay.is_clear();
    let (client, link) = relay.close();
    let mut out = client.into_given()?;
    let server = end_of(link);
    if put_ending(ending, clear, &server, &mut out)? {
        return Ok(out);
    }
    Err(ServeError::Unended(server.into_server()))
}
