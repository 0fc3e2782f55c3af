//! Two clients at once.
ghost use Rattle.std.specs.Prelude.{◌≡◌};
ghost use Rattle.std.specs.Arc.{arc_value};
ghost use Rattle.desk_tallies.specs.declared.passes.TheConstants.{ALL_PARTS};
ghost use Rattle.desk_tallies.specs.Shares.{names_of, of_each, parts_of};
ghost use Rattle.memory_dial.specs.Homes.{IsEverywhere};

use crate::noted_ends::{HoldingGate, NotedClient, Notes};
use desk_tallies::ledgers::Ledgers;
use desk_tallies::passes::Pass;
use desk_tallies::tallies::Blanks;
use memory_dial::{MemoryDial, Naming};
use memory_ends::memory_server::MemoryServer;
use paced_client::PacedClient;
use play_tests::files::catalogue;
use pool_desk::desk::Desk;
use server_end::gate::{Gate, OpenGate, TurnCount};
use session_catalogue::Catalogue;
use std::alloc::{AllocError, Global};
use std::marker::Brand;
use std::rt::Clock;
use std::sync::atomic::AtomicBool;
use std::sync::{Arc, Wait};
use std::test::Fail;
use std::thread::join;
use worker_parts::{CUT, TestRuntime, WELCOME, limits, login, serve_by, word};

/// What each client sends: Ann's StartupMessage for the database shop, and `SHOW application_name`.
const INPUT: &[u8] =
    b"\0\0\0\x20\0\x03\0\0user\0ann\0database\0shop\0\0Q\0\0\0\x1aSHOW application_name\0";

/// One of the clients.
#[derive(Drop)]
struct One<'a> {
    alloc: Global,
    number: u32,
    /// It notes once it was given more bytes than these.
    bytes: usize,
    given: &'a AtomicBool,
}

/// Serves this client: how many bytes it was given at its end; none, where memory is refused.
fn served<'a, T: Gate<MemoryServer> + Drop, N: Naming, K: Ledgers, R: Wait + Clock>(
    desk: &Desk<R, MemoryDial<N>, K>,
    pass: Pass<K>,
    one: One<'a>,
    gate: T,
) -> Result<usize, AllocError> {
    let alloc = one.alloc;
    let client = NotedClient {
        client: PacedClient::new(alloc, INPUT, CUT)?,
        bytes: one.bytes,
        given: one.given,
    };
    let login = login(alloc, one.number)?;
    match serve_by(alloc, desk, pass, client, login, one.number, gate) {
        Some((client, _)) => Ok(client.client.given().len()),
        None => Ok(0),
    }
}

/// Whether the second client was answered while the first one's gate kept its turn, and how much the first was given.
fn at_once<N: Naming + Send + Sync, K: Ledgers + Send + Sync, R: TestRuntime>(
    rt: R,
    alloc: Global,
    catalogue: Arc<Catalogue>,
    blanks: Blanks,
) -> Result<(bool, usize), Fail>
    requires everywhere { IsEverywhere N.catalogue (arc_value catalogue) }
    requires names { names_of blanks ≡ K.names }
    requires parts { K.parts ≡ parts_of blanks }
    requires all { parts_of blanks ≡ of_each ALL_PARTS }
{
    let dialer = MemoryDial::<N>::new(alloc, catalogue, word(7), CUT);
    let limits = limits(alloc, 100, 2)?;
    let desk = Desk::<R, MemoryDial<N>, K>::new(rt, alloc, dialer, limits, blanks)?;
    let first_pass = desk.pass().ok_or("no pass")?;
    let second_pass = desk.pass().ok_or("no pass")?;
    let notes = Notes::new();
    let gate = HoldingGate {
        rt: &rt,
        notes: &notes,
        turns: TurnCount::new(),
    };
    let first = One {
        alloc,
        number: 1,
        bytes: WELCOME - 1,
        given: &notes.welcomed,
    };
    let second = One {
        alloc,
        number: 2,
        bytes: WELCOME,
        given: &notes.answered,
    };
    let shared = &desk;
    let (first, second) = join(
        &rt,
        || -> Result<usize, AllocError> { served(shared, first_pass, first, gate) },
        || -> Result<usize, AllocError> { served(shared, second_pass, second, OpenGate::new()) },
    );
    second?;
    Ok((notes.are_in_time(), first?))
}

#[test]
fn two_clients_at_once(rt: HostRuntime) -> Result<(), Fail> {
    let (in_time, given) = at_once::<Brand, Brand, HostRuntime>(
        rt,
        rt.alloc(),
        catalogue(rt.alloc())?,
        Blanks::new(),
    )?;
    assert!(rt; in_time);
    assert!(rt; given > WELCOME);
    Ok(())
}
