//! Cancels of what a client is at, and what becomes of its link.
ghost use Rattle.std.specs.Prelude.{◌≡◌};
ghost use Rattle.std.specs.Arc.{arc_value};
ghost use Rattle.desk_tallies.specs.declared.passes.TheConstants.{ALL_PARTS};
ghost use Rattle.desk_tallies.specs.Shares.{names_of, of_each, parts_of};
ghost use Rattle.memory_dial.specs.Homes.{IsEverywhere};

use crate::held_client::HeldClient;
use crate::noted_ends::{HoldingGate, Notes};
use crate::turns::wanted;
use desk_tallies::ledgers::Ledgers;
use desk_tallies::passes::{Pass, Totals};
use desk_tallies::tallies::Blanks;
use link_desk::desk::LinkDesk;
use memory_dial::Naming;
use memory_dial::strikable::StrikableDial;
use memory_ends::memory_client::MemoryClient;
use memory_ends::memory_server::MemoryServer;
use message_view::KeyWord;
use paced_client::PacedClient;
use play_tests::files::{SHOP, catalogue};
use pool_desk::desk::Desk;
use server_end::gate::{Gate, OpenGate, TurnCount};
use session_catalogue::Catalogue;
use std::alloc::{AllocError, Global};
use std::marker::Brand;
use std::rt::Clock;
use std::sync::atomic::Ordering;
use std::sync::{Arc, Wait};
use std::test::Fail;
use std::thread::join;
use worker_parts::{CUT, TestRuntime, is_free, limits, login_as, serve_in};

/// The Query `SHOW TimeZone`.
const QUERY: &[u8] = b"Q\0\0\0\x12SHOW TimeZone\0";

/// The same behind Ann's StartupMessage for the database shop.
const COMES_AND_ASKS: &[u8] =
    b"\0\0\0\x20\0\x03\0\0user\0ann\0database\0shop\0\0Q\0\0\0\x12SHOW TimeZone\0";

/// Its answers: the one row, and that of a statement which was cancelled.
const SERVED: &[u8] =
    b"T\0\0\0\x21\0\x01TimeZone\0\0\0\0\0\0\0\0\0\0\x19\xff\xff\xff\xff\xff\xff\0\0D\0\0\0\x0d\0\x01\0\0\0\x03UTCC\0\0\0\x09SHOW\0Z\0\0\0\x05I";

const STRUCK: &[u8] =
    b"E\0\0\0\x33SERROR\0VERROR\0C57014\0Mstatement was cancelled\0\0Z\0\0\0\x05I";

/// CancelRequests with pid 1, and secret 2 and 3.
const RIGHT: &[u8] = b"\0\0\0\x10\x04\xd2\x16\x2e\0\0\0\x01\0\0\0\x02";

const WRONG: &[u8] = b"\0\0\0\x10\x04\xd2\x16\x2e\0\0\0\x01\0\0\0\x03";

/// Who comes while a client has its link.
#[derive(Clone, Copy, Drop)]
enum Meanwhile {
    Nobody,
    /// Somebody who asks for a cancel, by this CancelRequest.
    Cancel(&'static [u8]),
    /// Another client, of this key word, which asks and goes.
    Client(KeyWord),
}

/// A pool of so many links. A client may come and go; the next one is welcomed, and asks once whoever comes meanwhile was served; then a
/// third asks. What the second is answered, the numbers of the links that are idle at the end, and how many links were started and lent
/// again.
#[derive(Clone, Copy, Drop)]
struct Row {
    pool: u32,
    first: Option<KeyWord>,
    second: KeyWord,
    meanwhile: Meanwhile,
    answer: &'static [u8],
    idle: &'static [u64],
    starts: u64,
    reuses: u64,
    totals: Totals,
}

/// Where the workers depart from a row.
#[derive(Clone, Copy, Drop)]
enum Departure {
    /// What the second client is given, and the third.
    Second,
    Third,
    /// Who asks for the cancel is given a byte, or holds the pass.
    Asking,
    Links,
    Totals(Totals),
}

fn word(pid: u32, secret: u32) -> KeyWord {
    KeyWord {
        pid,
        secret,
        salt: [0; 4],
    }
}

fn word_of_third() -> KeyWord {
    word(5, 6)
}

/// A client comes, asks and goes: the pass, and whether it was given its welcome and the answer.
fn is_served<N: Naming, K: Ledgers, R: Wait + Clock + Drop>(
    alloc: Global,
    desk: &Desk<R, StrikableDial<R, N>, K>,
    pass: Pass<K>,
    own: KeyWord,
) -> Result<(Pass<K>, bool), AllocError> {
    let client = PacedClient::new(alloc, COMES_AND_ASKS, CUT)?;
    let login = login_as(alloc, SHOP, own)?;
    let Some((client, pass)) = serve_in(
        alloc,
        desk,
        pass,
        client,
        login,
        own,
        OpenGate::new(),
        &mut None,
    ) else {
        return Err(AllocError);
    };
    let wanted = wanted(alloc, own, SERVED)?;
    Ok((pass, client.given() == wanted.as_slice()))
}

/// Whoever comes is served: the pass, and whether who asks for a cancel was given no byte, and doesn't hold the pass.
fn asks<N: Naming, K: Ledgers, R: Wait + Clock + Drop>(
    alloc: Global,
    desk: &Desk<R, StrikableDial<R, N>, K>,
    pass: Pass<K>,
    meanwhile: Meanwhile,
) -> Result<(Pass<K>, bool), AllocError> {
    let cancel = match meanwhile {
        Meanwhile::Nobody => return Ok((pass, true)),
        Meanwhile::Cancel(cancel) => cancel,
        Meanwhile::Client(own) => return is_served(alloc, desk, pass, own),
    };
    let own = word(9, 9);
    let client = MemoryClient::new(alloc, cancel, CUT)?;
    let login = login_as(alloc, SHOP, own)?;
    match serve_in(
        alloc,
        desk,
        pass,
        client,
        login,
        own,
        OpenGate::new(),
        &mut None,
    ) {
        Some((client, pass)) => {
            let is_free = is_free(&pass);
            Ok((pass, client.given().is_empty() && is_free))
        }
        None => Err(AllocError),
    }
}

/// The same, once the second client was welcomed; it is noted then.
fn asks_in_time<N: Naming, K: Ledgers, R: Wait + Clock + Drop>(
    rt: &R,
    alloc: Global,
    desk: &Desk<R, StrikableDial<R, N>, K>,
    pass: Pass<K>,
    meanwhile: Meanwhile,
    notes: &Notes,
) -> Result<(Pass<K>, bool), AllocError> {
    notes.wait_for_welcome(rt);
    let asked = asks(alloc, desk, pass, meanwhile);
    notes.answered.store(true, Ordering::SeqCst);
    asked
}

/// The second client is welcomed, and asks once it is noted that somebody was served: the pass, and whether it was given what
/// it is to be given.
fn asks_later<T: Gate<MemoryServer> + Drop, N: Naming, K: Ledgers, R: Wait + Clock + Drop>(
    alloc: Global,
    desk: &Desk<R, StrikableDial<R, N>, K>,
    pass: Pass<K>,
    row: &Row,
    notes: &Notes,
    gate: T,
) -> Result<(Pass<K>, bool), AllocError> {
    let own = row.second;
    let client = HeldClient::new(alloc, QUERY, notes)?;
    let login = login_as(alloc, SHOP, own)?;
    let Some((client, pass)) = serve_in(alloc, desk, pass, client, login, own, gate, &mut None)
    else {
        return Err(AllocError);
    };
    let wanted = wanted(alloc, own, row.answer)?;
    Ok((pass, client.given() == wanted.as_slice()))
}

/// The second client, and whoever comes meanwhile: both passes, and whether each was given what it is to be given.
fn is_cancelled<N: Naming + Send + Sync, K: Ledgers + Send + Sync, R: TestRuntime + Drop>(
    rt: R,
    alloc: Global,
    desk: &Desk<R, StrikableDial<R, N>, K>,
    own: Pass<K>,
    other: Pass<K>,
    row: &Row,
) -> Result<(Pass<K>, Pass<K>, bool, bool), AllocError> {
    let notes = Notes::new();
    let gate = HoldingGate {
        rt: &rt,
        notes: &notes,
        turns: TurnCount::new(),
    };
    let shared = &notes;
    let meanwhile = row.meanwhile;
    let (answered, asked) = join(
        &rt,
        || -> Result<(Pass<K>, bool), AllocError> {
            asks_later(alloc, desk, own, row, shared, gate)
        },
        || -> Result<(Pass<K>, bool), AllocError> {
            asks_in_time(&rt, alloc, desk, other, meanwhile, shared)
        },
    );
    let (own, is_answered) = answered?;
    let (other, is_asked) = asked?;
    Ok((own, other, is_asked, is_answered))
}

/// The row's clients come one after the other: both passes, and who wasn't given what it is to be given.
fn happens<N: Naming + Send + Sync, K: Ledgers + Send + Sync, R: TestRuntime + Drop>(
    rt: R,
    alloc: Global,
    desk: &Desk<R, StrikableDial<R, N>, K>,
    own: Pass<K>,
    other: Pass<K>,
    row: &Row,
) -> Result<(Pass<K>, Pass<K>, Option<Departure>), AllocError> {
    let own = match row.first {
        Some(first) => is_served(alloc, desk, own, first)?.0,
        None => own,
    };
    let (own, other, is_asked, is_answered) = is_cancelled(rt, alloc, desk, own, other, row)?;
    let (own, is_served) = is_served(alloc, desk, own, word_of_third())?;
    let departure = match (is_asked, is_answered, is_served) {
        (false, _, _) => Some(Departure::Asking),
        (_, false, _) => Some(Departure::Second),
        (_, _, false) => Some(Departure::Third),
        _ => None,
    };
    Ok((own, other, departure))
}

/// Where the workers depart from a row over new ledgers first.
fn departure_from<N: Naming + Send + Sync, K: Ledgers + Send + Sync, R: TestRuntime + Drop>(
    rt: R,
    alloc: Global,
    catalogue: Arc<Catalogue>,
    blanks: Blanks,
    row: &Row,
) -> Result<Option<Departure>, Fail>
    requires everywhere { IsEverywhere N.catalogue (arc_value catalogue) }
    requires names { names_of blanks ≡ K.names }
    requires parts { K.parts ≡ parts_of blanks }
    requires all { parts_of blanks ≡ of_each ALL_PARTS }
{
    let dialer = StrikableDial::<R, N>::new(rt, alloc, catalogue, CUT);
    let limits = limits(alloc, 100, row.pool)?;
    let desk = Desk::<R, StrikableDial<R, N>, K>::new(rt, alloc, dialer, limits, blanks)?;
    let own = desk.pass().ok_or("no pass")?;
    let other = desk.pass().ok_or("no pass")?;
    let (own, other, departure) = happens(rt, alloc, &desk, own, other, row)?;
    if departure.is_some() {
        return Ok(departure);
    }
    let mut own = own;
    if !has_links(&desk, alloc, &mut own, row)? {
        return Ok(Some(Departure::Links));
    }
    let passes = Vec::from_array(alloc, [own, other])?;
    let totals = desk.gather(passes).ok().ok_or("other passes")?;
    if totals != row.totals {
        return Ok(Some(Departure::Totals(totals)));
    }
    Ok(None)
}

/// Whether the links that are idle have the row's numbers, and as many were started and lent again.
fn has_links<N: Naming, K: Ledgers, R: Wait + Clock + Drop>(
    desk: &Desk<R, StrikableDial<R, N>, K>,
    alloc: Global,
    pass: &mut Pass<K>,
    row: &Row,
) -> Result<bool, AllocError> {
    let view = desk.view(alloc, pass)?;
    let mut are_idle = view.idle.len() == row.idle.len();
    for link in view.idle.iter() {
        are_idle &= row.idle.contains(&link.number);
    }
    Ok(are_idle && view.lent.is_empty() && (view.starts, view.reuses) == (row.starts, row.reuses))
}

/// The same, and whether they depart nowhere.
fn goes_as_told<R: TestRuntime + Drop>(rt: R, alloc: Global, row: &Row) -> Result<bool, Fail> {
    let catalogue = catalogue(alloc)?;
    let departure = departure_from::<Brand, Brand, R>(rt, alloc, catalogue, Blanks::new(), row)?;
    Ok(departure.is_none())
}

/// Two clients, the first of which has pid 1 and secret 2, and no cancel: the second has her link.
fn without_cancel() -> Row {
    Row {
        pool: 1,
        first: None,
        second: word(1, 2),
        meanwhile: Meanwhile::Nobody,
        answer: SERVED,
        idle: &[1],
        starts: 1,
        reuses: 1,
        totals: Totals {
            arrived: 2,
            granted: 2,
            given_back: 2,
            lost: 0,
            left: 2,
            // two questions, two leases that are keyed, two ends
            others: 6,
        },
    }
}

// The statement is cancelled, its link is closed, and the next client has another.
#[test]
fn a_statement_is_cancelled(rt: HostRuntime) -> Result<(), Fail> {
    let without = without_cancel();
    let row = Row {
        meanwhile: Meanwhile::Cancel(RIGHT),
        answer: STRUCK,
        idle: &[2],
        starts: 2,
        reuses: 0,
        totals: Totals {
            given_back: 1,
            lost: 1,
            others: 7,
            ..without.totals
        },
        ..without
    };
    assert!(rt; goes_as_told(rt, rt.alloc(), &row)?);
    Ok(())
}

#[test]
fn another_secret_cancels_nothing(rt: HostRuntime) -> Result<(), Fail> {
    let without = without_cancel();
    let row = Row {
        meanwhile: Meanwhile::Cancel(WRONG),
        ..without
    };
    assert!(rt; goes_as_told(rt, rt.alloc(), &without)?);
    assert!(rt; goes_as_told(rt, rt.alloc(), &row)?);
    Ok(())
}

// It comes while the next client has the link, whose statement it doesn't strike.
#[test]
fn a_late_cancel_strikes_nobody(rt: HostRuntime) -> Result<(), Fail> {
    let row = Row {
        pool: 1,
        first: Some(word(1, 2)),
        second: word(3, 4),
        meanwhile: Meanwhile::Cancel(RIGHT),
        answer: SERVED,
        idle: &[1],
        starts: 1,
        reuses: 2,
        totals: Totals {
            arrived: 3,
            granted: 3,
            given_back: 3,
            lost: 0,
            left: 3,
            others: 9,
        },
    };
    assert!(rt; goes_as_told(rt, rt.alloc(), &row)?);
    Ok(())
}

// A client with the next process id and the same secret comes and goes while the second has its link, and cancels nobody.
#[test]
fn a_login_cancels_nobody(rt: HostRuntime) -> Result<(), Fail> {
    let without = without_cancel();
    let row = Row {
        pool: 2,
        meanwhile: Meanwhile::Client(word(2, 2)),
        idle: &[1, 2],
        starts: 2,
        totals: Totals {
            arrived: 3,
            granted: 3,
            given_back: 3,
            left: 3,
            // three questions, three leases that are keyed, three ends
            others: 9,
            ..without.totals
        },
        ..without
    };
    assert!(rt; goes_as_told(rt, rt.alloc(), &row)?);
    Ok(())
}
