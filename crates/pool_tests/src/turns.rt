//! Two clients one after the other, over one link, in the same buffers.
ghost use Rattle.std.specs.Prelude.{◌≡◌};
ghost use Rattle.std.specs.Arc.{arc_value};
ghost use Rattle.desk_tallies.specs.declared.passes.TheConstants.{ALL_PARTS};
ghost use Rattle.desk_tallies.specs.Shares.{names_of, of_each, parts_of};
ghost use Rattle.memory_dial.specs.Homes.{IsEverywhere};

use desk_tallies::ledgers::Ledgers;
use desk_tallies::passes::Totals;
use desk_tallies::tallies::Blanks;
use link_desk::desk::LinkDesk;
use memory_dial::{MemoryDial, Naming};
use message_view::KeyWord;
use paced_client::PacedClient;
use play_tests::files::catalogue;
use pool_desk::desk::Desk;
use server_end::gate::OpenGate;
use session_catalogue::Catalogue;
use std::alloc::{AllocError, Global};
use std::marker::Brand;
use std::rt::Clock;
use std::sync::{Arc, Wait};
use std::test::Fail;
use worker_parts::{CUT, limits, login, serve_in, word};

/// Ann's StartupMessage for the database shop, `SET DateStyle TO 'SQL, DMY'`, `CREATE TEMP TABLE t (a text)`, Parse of `s`, Sync.
pub(crate) const FIRST: &[u8] =
    b"\0\0\0\x20\0\x03\0\0user\0ann\0database\0shop\0\0Q\0\0\0\x20SET DateStyle TO 'SQL, DMY'\0Q\0\0\0\x21CREATE TEMP TABLE t (a text)\0P\0\0\0\x16s\0SHOW TimeZone\0\0\0S\0\0\0\x04";

/// The same StartupMessage, `SHOW application_name`, `SELECT * FROM t`, Bind of `s`, Sync.
pub(crate) const SECOND: &[u8] =
    b"\0\0\0\x20\0\x03\0\0user\0ann\0database\0shop\0\0Q\0\0\0\x1aSHOW application_name\0Q\0\0\0\x14SELECT * FROM t\0B\0\0\0\x0d\0s\0\0\0\0\0\0\0S\0\0\0\x04";

/// AuthenticationOk and nine reports.
const REPORTS: &[u8] =
    b"R\0\0\0\x08\0\0\0\0S\0\0\0\x16application_name\0\0S\0\0\0\x19client_encoding\0UTF8\0S\0\0\0\x17DateStyle\0ISO, MDY\0S\0\0\0\x19integer_datetimes\0on\0S\0\0\0\x1bIntervalStyle\0postgres\0S\0\0\0\x19server_encoding\0UTF8\0S\0\0\0\x18server_version\x0016.0\0S\0\0\0\x23standard_conforming_strings\0on\0S\0\0\0\x11TimeZone\0UTC\0";

/// The head of a BackendKeyData, and ReadyForQuery outside a block.
const KEY: &[u8] = b"K\0\0\0\x0c";

const READY: &[u8] = b"Z\0\0\0\x05I";

/// `SET` with the report of DateStyle, `CREATE TABLE`, ParseComplete.
pub(crate) const FIRST_ANSWERS: &[u8] =
    b"C\0\0\0\x08SET\0S\0\0\0\x17DateStyle\0SQL, DMY\0Z\0\0\0\x05IC\0\0\0\x11CREATE TABLE\0Z\0\0\0\x05I1\0\0\0\x04Z\0\0\0\x05I";

/// The name is empty as at the beginning, and neither the table nor the statement is there.
pub(crate) const SECOND_ANSWERS: &[u8] =
    b"T\0\0\0\x29\0\x01application_name\0\0\0\0\0\0\0\0\0\0\x19\xff\xff\xff\xff\xff\xff\0\0D\0\0\0\x0a\0\x01\0\0\0\0C\0\0\0\x09SHOW\0Z\0\0\0\x05IE\0\0\0\x33SERROR\0VERROR\0C42P01\0Mrelation does not exist\0\0Z\0\0\0\x05IE\0\0\0\x3dSERROR\0VERROR\0C26000\0Mprepared statement does not exist\0\0Z\0\0\0\x05I";

/// All that the client with this key word is to be given: its welcome, and these answers.
pub(crate) fn wanted(alloc: Global, own: KeyWord, answers: &[u8]) -> Result<Vec<u8>, AllocError> {
    let (pid, secret) = (own.pid.to_be_bytes(), own.secret.to_be_bytes());
    let mut out = Vec::new(alloc);
    for part in [REPORTS, KEY, &pid, &secret, READY, answers] {
        out.extend_from_slice(part)?;
    }
    Ok(out)
}

/// What became of both clients and of their links.
#[derive(Drop)]
struct Story {
    first: PacedClient,
    second: PacedClient,
    starts: u64,
    reuses: u64,
    totals: Totals,
    /// The buffers of the last lease are kept.
    are_kept: bool,
}

/// Both clients, one after the other.
fn both<N: Naming, K: Ledgers, R: Wait + Clock + Drop>(
    rt: R,
    alloc: Global,
    catalogue: Arc<Catalogue>,
    blanks: Blanks,
) -> Result<Story, Fail>
    requires everywhere { IsEverywhere N.catalogue (arc_value catalogue) }
    requires names { names_of blanks ≡ K.names }
    requires parts { K.parts ≡ parts_of blanks }
    requires all { parts_of blanks ≡ of_each ALL_PARTS }
{
    let limits = limits(alloc, 100, 2)?;
    let first = PacedClient::new(alloc, FIRST, CUT)?;
    let second = PacedClient::new(alloc, SECOND, CUT)?;
    let (one, two) = (login(alloc, 1)?, login(alloc, 2)?);
    let dialer = MemoryDial::<N>::new(alloc, catalogue, word(7), CUT);
    let desk = Desk::<R, MemoryDial<N>, K>::new(rt, alloc, dialer, limits, blanks)?;
    let pass = desk.pass().ok_or("no pass")?;
    let mut kept = None;
    let gate = OpenGate::new();
    let (first, pass) = serve_in(alloc, &desk, pass, first, one, word(1), gate, &mut kept).ok_or(
        "held",
    )?;
    let gate = OpenGate::new();
    let (second, pass) = serve_in(alloc, &desk, pass, second, two, word(2), gate, &mut kept).ok_or(
        "held",
    )?;
    let mut pass = pass;
    let view = desk.view(alloc, &mut pass)?;
    let mut passes = Vec::new(alloc);
    passes.push(pass).ok().ok_or("no memory")?;
    let totals = desk.gather(passes).ok().ok_or("other passes")?;
    Ok(Story {
        first,
        second,
        starts: view.starts,
        reuses: view.reuses,
        totals,
        are_kept: kept.is_some(),
    })
}

#[test]
fn a_link_comes_back_as_it_was(rt: HostRuntime) -> Result<(), Fail> {
    let story = both::<Brand, Brand, HostRuntime>(
        rt,
        rt.alloc(),
        catalogue(rt.alloc())?,
        Blanks::new(),
    )?;
    let first = wanted(rt.alloc(), word(1), FIRST_ANSWERS)?;
    let second = wanted(rt.alloc(), word(2), SECOND_ANSWERS)?;
    let made = Totals {
        arrived: 2,
        granted: 2,
        given_back: 2,
        lost: 0,
        left: 2,
        // two questions, two leases that are keyed, two ends
        others: 6,
    };
    assert!(rt; story.first.given() == first.as_slice());
    assert!(rt; story.second.given() == second.as_slice());
    assert!(rt; (story.starts, story.reuses) == (1, 1));
    assert!(rt; story.totals == made);
    assert!(rt; story.are_kept);
    Ok(())
}
