//! Ends that fail at each of their calls in turn, on either side of a worker: what their client is given, what the desk shows then, and
//! what the next client is given.
ghost use Rattle.std.specs.Prelude.{◌≡◌};
ghost use Rattle.std.specs.Arc.{arc_value};
ghost use Rattle.desk_tallies.specs.declared.passes.TheConstants.{ALL_PARTS};
ghost use Rattle.desk_tallies.specs.Shares.{names_of, of_each, parts_of};
ghost use Rattle.memory_dial.specs.Homes.{IsEverywhere};

use crate::failing_ends::{FailingDial, OwedClient};
use crate::turns::{FIRST, FIRST_ANSWERS, SECOND, SECOND_ANSWERS, wanted};
use desk_tallies::ledgers::Ledgers;
use desk_tallies::passes::Pass;
use desk_tallies::tallies::Blanks;
use link_desk::desk::LinkDesk;
use memory_dial::{MemoryDial, Naming};
use memory_ends::failing_end::FailingEnd;
use message_view::{Refusal, refusal_bytes};
use paced_client::PacedClient;
use play_tests::files::catalogue;
use pool_desk::desk::Desk;
use pool_desk::outside::Outside;
use server_end::ClientEnd;
use server_end::gate::OpenGate;
use session_catalogue::Catalogue;
use std::alloc::{AllocError, Global};
use std::marker::Brand;
use std::rt::Clock;
use std::sync::atomic::{AtomicBool, Ordering};
use std::sync::{Arc, Wait};
use std::test::Fail;
use worker_parts::{limits, login, serve_by, word};

/// As many bytes as a call of an end moves at most.
const CUT: usize = 16;

/// An end has fewer calls than this.
const MAX_CALLS: u64 = 400;

/// Whether these are whole messages of a server.
fn are_whole(bytes: &[u8]) -> bool {
    let mut rest = bytes;
    for _ in 0..bytes.len() {
        let [_, a, b, c, d, ..] = rest else {
            return rest.is_empty();
        };
        let length = u32::from_be_bytes([*a, *b, *c, *d]) as usize;
        if length >= rest.len() {
            return false;
        }
        rest = &rest[1 + length..];
    }
    rest.is_empty()
}

/// Whether these are some first whole messages of what is owed, with this refusal behind them.
fn is_refused(given: &[u8], owed: &[u8], refusal: Refusal) -> bool {
    match given.strip_suffix(refusal_bytes(refusal)) {
        Some(front) => owed.starts_with(front) && are_whole(front),
        None => false,
    }
}

/// Whether a client whose server failed is given this of what it is owed.
fn is_owed(given: &[u8], owed: &[u8]) -> bool {
    owed.starts_with(given)
        || is_refused(given, owed, Refusal::ServerNotReached)
        || is_refused(given, owed, Refusal::ServerFailed)
}

/// The first client comes: the pass, and whether it is given all that it is owed. It is given nothing else.
fn comes_first<S: Outside, K: Ledgers, R: Wait + Clock>(
    alloc: Global,
    desk: &Desk<R, S, K>,
    pass: Pass<K>,
) -> Result<(Pass<K>, bool), Fail> {
    let client = PacedClient::new(alloc, FIRST, CUT)?;
    let login = login(alloc, 1)?;
    let Some((client, pass)) = serve_by(alloc, desk, pass, client, login, 1, OpenGate::new()) else {
        return Err("held")?;
    };
    let owed = wanted(alloc, word(1), FIRST_ANSWERS)?;
    if !is_owed(client.given(), owed.as_slice()) {
        return Err("the client is given something else")?;
    }
    let is_all = client.given() == owed.as_slice();
    Ok((pass, is_all))
}

/// The same of a client whose own end fails at this call: the pass, and whether no call failed.
fn fails_first<S: Outside, K: Ledgers, R: Wait + Clock>(
    alloc: Global,
    desk: &Desk<R, S, K>,
    pass: Pass<K>,
    call: u64,
) -> Result<(Pass<K>, bool), Fail> {
    let owed = wanted(alloc, word(1), FIRST_ANSWERS)?;
    let strays = AtomicBool::new(false);
    let client = OwedClient {
        client: PacedClient::new(alloc, FIRST, CUT)?,
        owed: owed.as_slice(),
        strays: &strays,
    };
    let client = FailingEnd::new(client, call.max(1));
    let login = login(alloc, 1)?;
    let Some((client, pass)) = serve_by(alloc, desk, pass, client, login, 1, OpenGate::new()) else {
        return Err("held")?;
    };
    if strays.load(Ordering::SeqCst) {
        return Err("the client is given something else")?;
    }
    let has_failed = ClientEnd::faults(&client) > 0;
    Ok((pass, !has_failed))
}

/// How many links lie idle at the desk, which shows no client and no lent link.
fn idle<S: Outside, K: Ledgers, R: Wait + Clock>(
    alloc: Global,
    desk: &Desk<R, S, K>,
    pass: &mut Pass<K>,
) -> Result<usize, Fail> {
    let view = desk.view(alloc, pass)?;
    if !(view.clients.is_empty() && view.lent.is_empty()) {
        return Err("a client or a lent link is left")?;
    }
    Ok(view.idle.len())
}

/// The second client comes: the pass, and whether it is given all that it is owed and nothing else.
fn comes_next<S: Outside, K: Ledgers, R: Wait + Clock>(
    alloc: Global,
    desk: &Desk<R, S, K>,
    pass: Pass<K>,
) -> Result<(Pass<K>, bool), Fail> {
    let client = PacedClient::new(alloc, SECOND, CUT)?;
    let login = login(alloc, 2)?;
    let Some((client, pass)) = serve_by(alloc, desk, pass, client, login, 2, OpenGate::new()) else {
        return Err("held")?;
    };
    let owed = wanted(alloc, word(2), SECOND_ANSWERS)?;
    let is_all = client.given() == owed.as_slice();
    Ok((pass, is_all))
}

/// The next client is served, and its link is kept.
fn goes_on<S: Outside, K: Ledgers, R: Wait + Clock>(
    alloc: Global,
    desk: &Desk<R, S, K>,
    pass: Pass<K>,
) -> Result<(), Fail> {
    let (pass, is_all) = comes_next(alloc, desk, pass)?;
    if !is_all {
        return Err("the next client is given something else")?;
    }
    let mut pass = pass;
    if idle(alloc, desk, &mut pass)? != 1 {
        return Err("the next client's link isn't kept")?;
    }
    Ok(())
}

/// The first client comes to a desk, and its link is kept just where no call of its server failed; then the next one comes. Whether no
/// call failed.
fn over_failing_ends<S: Outside, K: Ledgers, R: Wait + Clock>(
    alloc: Global,
    desk: &Desk<R, S, K>,
    pass: Pass<K>,
    has_failed: &AtomicBool,
) -> Result<bool, Fail> {
    let (pass, is_all) = comes_first(alloc, desk, pass)?;
    let mut pass = pass;
    let idle = idle(alloc, desk, &mut pass)?;
    if has_failed.load(Ordering::SeqCst) {
        if idle != 0 {
            return Err("a link is kept whose end failed")?;
        }
        goes_on(alloc, desk, pass)?;
        return Ok(false);
    }
    if idle != 1 || !is_all {
        return Err("a client isn't served though no call failed")?;
    }
    Ok(true)
}

/// Two clients come, of whom the first one's server fails at this call: whether no call failed.
fn over_failing_server<N: Naming, K: Ledgers, R: Wait + Clock + Drop>(
    rt: R,
    alloc: Global,
    catalogue: Arc<Catalogue>,
    blanks: Blanks,
    call: u64,
) -> Result<bool, Fail>
    requires everywhere { IsEverywhere N.catalogue (arc_value catalogue) }
    requires names { names_of blanks ≡ K.names }
    requires parts { K.parts ≡ parts_of blanks }
    requires all { parts_of blanks ≡ of_each ALL_PARTS }
{
    let has_failed = AtomicBool::new(false);
    let dialer = FailingDial {
        dialer: MemoryDial::<N>::new(alloc, catalogue, word(7), CUT),
        call,
        has_dialled: AtomicBool::new(false),
        has_failed: &has_failed,
    };
    let limits = limits(alloc, 100, 2)?;
    let desk = Desk::<R, FailingDial<'_, N>, K>::new(rt, alloc, dialer, limits, blanks)?;
    let pass = desk.pass().ok_or("no pass")?;
    over_failing_ends(alloc, &desk, pass, &has_failed)
}

/// Two clients come, of whom the first one's own end fails at this call: whether no call failed.
fn with_failing_client<N: Naming, K: Ledgers, R: Wait + Clock + Drop>(
    rt: R,
    alloc: Global,
    catalogue: Arc<Catalogue>,
    blanks: Blanks,
    call: u64,
) -> Result<bool, Fail>
    requires everywhere { IsEverywhere N.catalogue (arc_value catalogue) }
    requires names { names_of blanks ≡ K.names }
    requires parts { K.parts ≡ parts_of blanks }
    requires all { parts_of blanks ≡ of_each ALL_PARTS }
{
    let dialer = MemoryDial::<N>::new(alloc, catalogue, word(7), CUT);
    let limits = limits(alloc, 100, 2)?;
    let desk = Desk::<R, MemoryDial<N>, K>::new(rt, alloc, dialer, limits, blanks)?;
    let pass = desk.pass().ok_or("no pass")?;
    let (pass, is_good) = fails_first(alloc, &desk, pass, call)?;
    let mut pass = pass;
    idle(alloc, &desk, &mut pass)?;
    goes_on(alloc, &desk, pass)?;
    Ok(is_good)
}

/// Either of the two over a new desk.
fn is_good<R: Wait + Clock + Drop>(
    rt: R,
    alloc: Global,
    is_server: bool,
    call: u64,
) -> Result<bool, Fail> {
    let catalogue = catalogue(alloc)?;
    if is_server {
        return over_failing_server::<Brand, Brand, R>(rt, alloc, catalogue, Blanks::new(), call);
    }
    with_failing_client::<Brand, Brand, R>(rt, alloc, catalogue, Blanks::new(), call)
}

/// How many runs met a fault, at call 1, 2, .., until one met none.
fn faults<R: Wait + Clock + Drop + Copy>(
    rt: R,
    alloc: Global,
    is_server: bool,
) -> Result<u64, Fail> {
    for call in 1..MAX_CALLS {
        if is_good(rt, alloc, is_server, call)? {
            return Ok(call - 1);
        }
    }
    Err("every run met a fault")?
}

#[test]
fn a_server_fails_at_each_of_its_calls(rt: HostRuntime) -> Result<(), Fail> {
    let count = faults(rt, rt.alloc(), true)?;
    assert!(rt; count > 40);
    Ok(())
}

#[test]
fn a_client_fails_at_each_of_its_calls(rt: HostRuntime) -> Result<(), Fail> {
    let count = faults(rt, rt.alloc(), false)?;
    assert!(rt; count > 25);
    Ok(())
}
