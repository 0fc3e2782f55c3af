//! Logins, limits and keys of workers that tests serve with, and how they serve.
//!
//! Public, all of it: for `pool_tests` and `serving_parts`. It tests nothing itself.
#![tactic(auto)]

ghost use Rattle.std.specs.Prelude.{◌≡◌, [], IfOk, false, true};
ghost use Rattle.std.specs.Arc.{arc_value};
ghost use Rattle.ini_config.specs.Bounds.{AreWithinBounds};
ghost use Rattle.login_core.specs.Dialogue.{AtFirst};
ghost use Rattle.login_core.specs.Logins.{AwaitsPacket};
ghost use Rattle.worker_parts.specs.Words.{key_word};

use arrayvec::ArrayString;
use book_model::limits::{Limits, MAX_CLIENTS};
use book_model::rows::{DatabaseRow, DatabaseRows};
use desk_tallies::ledgers::Ledgers;
use desk_tallies::passes::Pass;
use link_desk::calls::Holder;
use log_lines::notes::Visit;
use login_core::Login;
use message_view::KeyWord;
use play_tests::files::{SHOP, settings_of, users};
use pool_desk::desk::Desk;
use pool_desk::outside::Outside;
use pool_serve::serve::serve;
use relay_flow::buffers::Buffers;
use server_end::ClientEnd;
use server_end::gate::Gate;
use session_values::text::Text;
use start_keys::{Host, StartKey};
use std::alloc::{AllocError, Global};
use std::rt::Clock;
use std::sync::{Arc, Wait};
use std::thread::Threads;

/// What workers ask of their runtime here: threads that wait, each with a copy of it, and a clock.
pub trait TestRuntime: Threads + Wait + Clock + Copy + Send + Sync {}

impl<R: Threads + Wait + Clock + Copy + Send + Sync> TestRuntime for R {}

/// As many bytes as a call of a server or a client moves at most.
pub const CUT: usize = 8_192;

/// The bytes that a client is given before its first reply: AuthenticationOk, nine reports, its key word and ReadyForQuery.
pub const WELCOME: usize = 260;

/// A client's connection from this host, or over a Unix socket: `unix`.
pub fn visit(host: &str) -> Visit {
    Visit {
        host: match ArrayString::from(host) {
            Ok(host) => host,
            Err(_) => ArrayString::new(),
        },
        port: 40_112,
        since: None,
    }
}

/// The key word of the client with this number.
pub fn word(number: u32) -> KeyWord
    ensures { result ≡ key_word number }
{
    KeyWord {
        pid: number,
        secret: number,
        salt: [0; 4],
    }
}

/// A new login with this key word, by these settings.
pub fn login_as(alloc: Global, settings: &[u8], word: KeyWord) -> Result<Login, AllocError>
    ensures awaiting { IfOk result (λ l. l.awaiting ≡ AwaitsPacket (AtFirst false false)) }
    ensures held { IfOk result (λ l. l.held ≡ []) }
    ensures word { IfOk result (λ l. l.word ≡ word) }
    ensures settings { IfOk result (λ l. AreWithinBounds l.settings) }
{
    let settings = Arc::new(alloc, settings_of(alloc, settings)?)?;
    let users = users(alloc)?;
    Login::new(alloc, settings, users, word)
}

/// The same of the client with this number.
pub fn login_by(alloc: Global, settings: &[u8], number: u32) -> Result<Login, AllocError>
    ensures awaiting { IfOk result (λ l. l.awaiting ≡ AwaitsPacket (AtFirst false false)) }
    ensures held { IfOk result (λ l. l.held ≡ []) }
    ensures word { IfOk result (λ l. l.word ≡ key_word number) }
    ensures settings { IfOk result (λ l. AreWithinBounds l.settings) }
{
    login_as(alloc, settings, word(number))
}

/// The same, where no password is asked for.
pub fn login(alloc: Global, number: u32) -> Result<Login, AllocError>
    ensures awaiting { IfOk result (λ l. l.awaiting ≡ AwaitsPacket (AtFirst false false)) }
    ensures held { IfOk result (λ l. l.held ≡ []) }
    ensures word { IfOk result (λ l. l.word ≡ key_word number) }
    ensures settings { IfOk result (λ l. AreWithinBounds l.settings) }
{
    login_by(alloc, SHOP, number)
}

/// The database row of the settings, for pools of so many links.
fn rows(alloc: Global, size: u32) -> Result<DatabaseRows, AllocError> {
    let shop = DatabaseRow {
        name: Text::from_slice(alloc, b"shop")?,
        host: Host::local(),
        port: 5432,
        dbname: Text::from_slice(alloc, b"shop")?,
        size,
    };
    let mut rows = Vec::new(alloc);
    rows.push(shop)?;
    DatabaseRows::new(alloc, rows)
}

/// Limits of so many clients and pools of so many links, a wait of 5 seconds, a lifetime of 3,600 and an idle timeout of 600.
pub fn limits(alloc: Global, clients: u32, pool: u32) -> Result<Arc<Limits>, AllocError> {
    let mut limits = Limits::usual(rows(alloc, pool)?);
    limits.max_client_conn = clients.min(MAX_CLIENTS);
    limits.default_pool_size = pool;
    limits.query_wait_timeout = 5;
    Ok(Arc::new(alloc, limits)?)
}

/// Ann's key on the database shop.
pub fn key(alloc: Global) -> Result<Arc<StartKey>, AllocError> {
    let key = StartKey {
        row: Text::from_slice(alloc, b"shop")?,
        host: Some(Host::local()),
        port: 5432,
        dbname: Text::from_slice(alloc, b"shop")?,
        user: Text::from_slice(alloc, b"ann")?,
        parameters: Vec::new(alloc),
    };
    Ok(Arc::new(alloc, key)?)
}

/// Whether nobody holds a pass.
pub fn is_free<K: Ledgers>(pass: &Pass<K>) -> bool
    ensures client { result ≡ true → pass.now.holder.client ≡ None }
    ensures lease { result ≡ true → pass.now.holder.lease ≡ None }
{
    matches!(
        pass.holder(),
        Holder {
            client: None,
            lease: None,
            ..
        },
    )
}

/// Serves a client of this key word, which comes from this host, by this desk, in the buffers that are kept or in new ones, and hands back
/// its end and the pass; `None` where somebody holds the pass.
fn serve_at<C: ClientEnd, R: Wait + Clock, S: Outside, T: Gate<S::End> + Drop, K: Ledgers>(
    alloc: Global,
    desk: &Desk<R, S, K>,
    pass: Pass<K>,
    client: C,
    login: Login,
    word: KeyWord,
    gate: T,
    host: &str,
    kept: &mut Option<Buffers>,
) -> Option<(C, Pass<K>)>
    requires awaiting { login.awaiting ≡ AwaitsPacket (AtFirst false false) }
    requires held { login.held ≡ [] }
    requires word { login.word ≡ word }
    requires settings { AreWithinBounds login.settings }
    requires taken { (C.facts client).tells ≡ true → (C.facts client).taken ≡ [] }
    requires given { (C.facts client).tells ≡ true → (C.facts client).given ≡ [] }
{
    if !is_free(&pass) {
        return None;
    }
    let visit = visit(host);
    Some(serve(alloc, desk, pass, client, login, word, gate, visit, kept))
}

/// The same of a client that comes from 127.0.0.1.
pub fn serve_in<C: ClientEnd, R: Wait + Clock, S: Outside, T: Gate<S::End> + Drop, K: Ledgers>(
    alloc: Global,
    desk: &Desk<R, S, K>,
    pass: Pass<K>,
    client: C,
    login: Login,
    word: KeyWord,
    gate: T,
    kept: &mut Option<Buffers>,
) -> Option<(C, Pass<K>)>
    requires awaiting { login.awaiting ≡ AwaitsPacket (AtFirst false false) }
    requires held { login.held ≡ [] }
    requires word { login.word ≡ word }
    requires settings { AreWithinBounds login.settings }
    requires taken { (C.facts client).tells ≡ true → (C.facts client).taken ≡ [] }
    requires given { (C.facts client).tells ≡ true → (C.facts client).given ≡ [] }
{
    serve_at(
        alloc,
        desk,
        pass,
        client,
        login,
        word,
        gate,
        "127.0.0.1",
        kept,
    )
}

/// The same of the client with this number, which comes from this host.
pub fn serve_from<C: ClientEnd, R: Wait + Clock, S: Outside, T: Gate<S::End> + Drop, K: Ledgers>(
    alloc: Global,
    desk: &Desk<R, S, K>,
    pass: Pass<K>,
    client: C,
    login: Login,
    number: u32,
    gate: T,
    host: &str,
) -> Option<(C, Pass<K>)>
    requires awaiting { login.awaiting ≡ AwaitsPacket (AtFirst false false) }
    requires held { login.held ≡ [] }
    requires word { login.word ≡ key_word number }
    requires settings { AreWithinBounds login.settings }
    requires taken { (C.facts client).tells ≡ true → (C.facts client).taken ≡ [] }
    requires given { (C.facts client).tells ≡ true → (C.facts client).given ≡ [] }
{
    serve_at(
        alloc,
        desk,
        pass,
        client,
        login,
        word(number),
        gate,
        host,
        &mut None,
    )
}

/// The same of one that comes from 127.0.0.1.
pub fn serve_by<C: ClientEnd, R: Wait + Clock, S: Outside, T: Gate<S::End> + Drop, K: Ledgers>(
    alloc: Global,
    desk: &Desk<R, S, K>,
    pass: Pass<K>,
    client: C,
    login: Login,
    number: u32,
    gate: T,
) -> Option<(C, Pass<K>)>
    requires awaiting { login.awaiting ≡ AwaitsPacket (AtFirst false false) }
    requires held { login.held ≡ [] }
    requires word { login.word ≡ key_word number }
    requires settings { AreWithinBounds login.settings }
    requires taken { (C.facts client).tells ≡ true → (C.facts client).taken ≡ [] }
    requires given { (C.facts client).tells ≡ true → (C.facts client).given ≡ [] }
{
    serve_from(alloc, desk, pass, client, login, number, gate, "127.0.0.1")
}
