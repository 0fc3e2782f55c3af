//! What a start takes, a key, a secret and a server over a small catalogue; and the start.
//!
//! What holds a server is let go in functions of any server alone: there the drop of its parts needs no proof.
ghost use Rattle.std.specs.Prelude.{◌≡◌, ◌<◌, IfOk};
ghost use Rattle.std.specs.Arc.{arc_value};
ghost use Rattle.session_values.specs.Lawful.{IsLawfulCatalogue};
ghost use Rattle.link_start.specs.Starts.{CanStartAll, IsLinkKey};
ghost use Rattle.memory_ends.specs.Failing.{failing_server};
ghost use Rattle.memory_start_laws.specs.Starts.{HasSalt};
ghost use Rattle.link_tests.specs.Keys.{ann_on};

use credentials::Credential;
use link_run::links::CleanLink;
use link_start::start::{StartCause, start_link};
use memory_ends::failing_end::FailingEnd;
use memory_ends::memory_server::{MemoryServer, ServerAuth};
use memory_start_laws::memory_servers_can_start;
use message_view::KeyWord;
use server_end::ServerEnd;
use server_end::gate::{Gate, OpenGate};
use session_catalogue::Catalogue;
use session_values::text::Text;
use start_keys::{Host, StartKey};
use std::alloc::{AllocError, Global};
use std::mem::forget;
use std::sync::Arc;
use std::test::Fail;
use user_file::Secret;

/// The words that a server under test gives.
const OWN: KeyWord = KeyWord {
    pid: 7,
    secret: 8,
    salt: [0; 4],
};

fn lines() -> &'static [u8] {
    b"version\t16.0\ndatabase\tshop\n"
}

fn key_of(alloc: Global, dbname: &'static [u8]) -> Result<StartKey, AllocError>
    ensures { IfOk result (λ k. k ≡ ann_on dbname.now) }
{
    Ok(StartKey {
        row: Text::from_slice(alloc, b"shop")?,
        host: Some(Host::local()),
        port: 5432,
        dbname: Text::from_slice(alloc, dbname)?,
        user: Text::from_slice(alloc, b"ann")?,
        parameters: Vec::new(alloc),
    })
}

#[tactic(auto, using(crate::proofs::Keys::is_link_key))]
/// The key of ann on shop, or on a database that isn't there.
pub fn key(alloc: Global, is_there: bool) -> Result<Arc<StartKey>, Fail>
    ensures { IfOk result (λ k. IsLinkKey (arc_value k)) }
{
    let dbname: &'static [u8] = if is_there { b"shop" } else { b"nowhere" };
    let Ok(key) = key_of(alloc, dbname) else {
        return Err("no memory")?;
    };
    match Arc::new(alloc, key) {
        Ok(key) => Ok(key),
        Err(failed) => {
            forget(failed);
            Err("no memory")?
        }
    }
}

/// The catalogue of the lines above.
fn catalogue(alloc: Global) -> Result<Arc<Catalogue>, Fail>
    ensures { IfOk result (λ c. IsLawfulCatalogue (arc_value c)) }
{
    let Ok(catalogue) = Catalogue::read(alloc, lines()) else {
        return Err("no catalogue")?;
    };
    catalogue.is_lawful();
    match Arc::new(alloc, catalogue) {
        Ok(shared) => Ok(shared),
        Err(failed) => {
            forget(failed);
            Err("no memory")?
        }
    }
}

/// A server that waits for a StartupMessage.
pub fn server(
    alloc: Global,
    auth: ServerAuth<'_>,
    cut: usize,
    dies_after: Option<u64>,
) -> Result<MemoryServer, Fail>
    requires cut { 0 < cut }
    requires salt { HasSalt auth }
    ensures { IfOk result (λ s. CanStartAll s.standing) }
{
    memory_servers_can_start();
    let catalogue = catalogue(alloc)?;
    match MemoryServer::new(alloc, catalogue, auth, OWN, cut, dies_after) {
        Ok(server) => Ok(server),
        Err(_) => Err("no memory")?,
    }
}

/// A server that asks for nothing, and whose end fails at this call.
pub fn failing_at(alloc: Global, cut: usize, call: u64) -> Result<FailingEnd<MemoryServer>, Fail>
    requires cut { 0 < cut }
    requires call { 0 < call }
    ensures { IfOk result (λ e. CanStartAll (failing_server e.calls e.inner.standing)) }
{
    let server = server(alloc, ServerAuth::Trust, cut, None)?;
    Ok(FailingEnd::new(server, call))
}

/// What is asked of a start: its password, whether its database is there, and how many turns it has.
#[derive(Clone, Copy)]
pub struct Start {
    pub password: &'static [u8],
    pub is_there: bool,
    pub turns: u32,
}

/// The start of a link to shop.
pub const SHOP: Start = Start {
    password: b"secret",
    is_there: true,
    turns: 400,
};

/// Starts a link of number 5 and birth 9 over this end by this gate, or tells why there is none.
pub fn begin_by<E: ServerEnd, G: Gate<E>>(
    alloc: Global,
    end: E,
    start: Start,
    gate: &mut G,
) -> Result<Result<CleanLink<E>, StartCause>, Fail>
    requires { CanStartAll (E.standing end) }
{
    let secret = Secret::read(alloc, start.password)?;
    let credential = Credential::new(alloc, &secret, None, &OWN, 5);
    let key = key(alloc, start.is_there)?;
    match start_link(alloc, end, key, &credential, 5, 9, gate, start.turns) {
        Ok(link) => Ok(Ok(link)),
        Err(fault) => Ok(Err(fault.cause)),
    }
}

/// The same by a gate that is never late.
pub fn begin<E: ServerEnd>(
    alloc: Global,
    end: E,
    start: Start,
) -> Result<Result<CleanLink<E>, StartCause>, Fail>
    requires { CanStartAll (E.standing end) }
{
    begin_by(alloc, end, start, &mut OpenGate::new())
}
