//! Ends that fail at each of their calls in turn, on either side of a lease: what becomes of the link, and what the next client finds.
ghost use Rattle.std.specs.Prelude.{◌<◌};
ghost use Rattle.link_start.specs.Starts.{CanStartAll};

use crate::making::{SHOP, begin, failing_at, server};
use link_run::links::CleanLink;
use link_run::reset::{ResetError, reset_link};
use link_start::start::StartCause;
use memory_ends::failing_end::FailingEnd;
use memory_ends::memory_client::MemoryClient;
use memory_ends::memory_server::ServerAuth;
use message_view::{KeyWord, Refusal};
use relay_core::relay::{Relay, Returned};
use relay_model::Next;
use server_end::gate::{OpenGate, Ready};
use server_end::{ClientEnd, ServerEnd};
use std::alloc::Global;
use std::test::Fail;

/// So many bytes a call of an end moves at most.
const CUT: usize = 16;

/// A run has fewer calls than this.
const MAX_CALLS: u64 = 2_000;

/// A setting, a temporary table and a prepared statement.
const MARKS: &[u8] =
    b"Q\0\0\0\x20SET DateStyle TO 'SQL, DMY'\0Q\0\0\0\x21CREATE TEMP TABLE t (a text)\0P\0\0\0\x16s\0SHOW TimeZone\0\0\0S\0\0\0\x04";

const MARKED: &[u8] =
    b"C\0\0\0\x08SET\0S\0\0\0\x17DateStyle\0SQL, DMY\0Z\0\0\0\x05IC\0\0\0\x11CREATE TABLE\0Z\0\0\0\x05I1\0\0\0\x04Z\0\0\0\x05I";

/// A name is set and shown, and all is discarded.
const NAMES: &[u8] =
    b"Q\0\0\0\x20SET application_name TO 'x'\0Q\0\0\0\x1aSHOW application_name\0Q\0\0\0\x10DISCARD ALL\0";

const NAMED: &[u8] =
    b"C\0\0\0\x08SET\0S\0\0\0\x17application_name\0x\0Z\0\0\0\x05IT\0\0\0\x29\0\x01application_name\0\0\0\0\0\0\0\0\0\0\x19\xff\xff\xff\xff\xff\xff\0\0D\0\0\0\x0b\0\x01\0\0\0\x01xC\0\0\0\x09SHOW\0Z\0\0\0\x05IC\0\0\0\x10DISCARD ALL\0S\0\0\0\x16application_name\0\0Z\0\0\0\x05I";

/// Another client asks for the table and the statement.
const LOOKS: &[u8] = b"Q\0\0\0\x14SELECT * FROM t\0B\0\0\0\x0d\0s\0\0\0\0\0\0\0S\0\0\0\x04";

const FOUND: &[u8] =
    b"Z\0\0\0\x05IE\0\0\0\x33SERROR\0VERROR\0C42P01\0Mrelation does not exist\0\0Z\0\0\0\x05IE\0\0\0\x3dSERROR\0VERROR\0C26000\0Mprepared statement does not exist\0\0Z\0\0\0\x05I";

/// What a client sends and is answered behind its welcome.
#[derive(Clone, Copy)]
struct Talk {
    sent: &'static [u8],
    answered: &'static [u8],
}

const TALKS: [Talk; 2] = [
    Talk {
        sent: MARKS,
        answered: MARKED,
    },
    Talk {
        sent: NAMES,
        answered: NAMED,
    },
];

/// Where a run over an end that fails came to its end.
#[derive(Clone, Copy, PartialEq, Eq)]
enum Outcome {
    /// The link wasn't started, the lease lost its link, or the reset did.
    NotStarted,
    LostInLease,
    NotReset,
    /// No call failed.
    Clean,
    /// Something that a failing end may not come to.
    Wrong,
}

fn word(pid: u32) -> KeyWord {
    KeyWord {
        pid,
        secret: 2,
        salt: [0; 4],
    }
}

/// A client that sends these bytes.
fn client(alloc: Global, sent: &[u8]) -> Result<MemoryClient, Fail> {
    Ok(MemoryClient::new(alloc, sent, CUT)?)
}

/// A lease of the link to this client until nothing moves any more, or it ends.
fn leased<C: ClientEnd, E: ServerEnd>(
    alloc: Global,
    client: C,
    link: CleanLink<E>,
    pid: u32,
) -> Result<(Next, C, Returned<E>), Fail> {
    let both = Ready {
        client: true,
        server: true,
    };
    let Ok(mut relay) = Relay::begin(alloc, client, link, word(pid), 1_000) else {
        return Err("no lease")?;
    };
    for _ in 0..MAX_CALLS {
        let next = relay.pump(both);
        if next != Next::Again {
            let (client, link) = relay.close();
            return Ok((next, client, link));
        }
    }
    Err("bytes move on and on")?
}

/// A link is clean only where no call failed.
fn after_reset<E: ServerEnd>(next: Next, link: CleanLink<E>) -> Outcome {
    if next == Next::Wait && link.lend().end.faults() == 0 {
        Outcome::Clean
    } else {
        Outcome::Wrong
    }
}

/// What becomes of the link once its lease has ended so.
fn after_lease<E: ServerEnd>(alloc: Global, next: Next, link: Returned<E>) -> Outcome {
    match link {
        Returned::Used(link) => match reset_link(alloc, link, &mut OpenGate::new(), 200) {
            Ok(link) => after_reset(next, link),
            Err(disposed) if disposed.cause == ResetError::Lost => Outcome::NotReset,
            Err(_) => Outcome::Wrong,
        },
        Returned::Gone(_, _) if next == Next::Refuse(Refusal::ServerFailed) => Outcome::LostInLease,
        Returned::Gone(_, _) if next == Next::Closed => Outcome::LostInLease,
        Returned::Gone(_, _) | Returned::Unused(_) => Outcome::Wrong,
    }
}

/// A link is started over this end, leased to a client of this talk and reset. The client is given a beginning of what it is to be
/// given.
fn run<E: ServerEnd>(alloc: Global, end: E, talk: Talk, whole: &[u8]) -> Result<Outcome, Fail>
    requires { CanStartAll (E.standing end) }
{
    let link = match begin(alloc, end, SHOP)? {
        Ok(link) => link,
        Err(StartCause::Lost) => return Ok(Outcome::NotStarted),
        Err(_) => return Ok(Outcome::Wrong),
    };
    let (next, client, link) = leased(alloc, client(alloc, talk.sent)?, link, 1)?;
    if !whole.starts_with(client.given()) {
        return Ok(Outcome::Wrong);
    }
    Ok(after_lease(alloc, next, link))
}

/// What a client of this talk is given over a server that doesn't fail.
fn whole(alloc: Global, talk: Talk) -> Result<Vec<u8>, Fail> {
    let Ok(link) = begin(alloc, server(alloc, ServerAuth::Trust, CUT, None)?, SHOP)? else {
        return Err("not started")?;
    };
    let (_, client, _) = leased(alloc, client(alloc, talk.sent)?, link, 1)?;
    if !client.given().ends_with(talk.answered) {
        return Err("not answered")?;
    }
    Ok(Vec::from_slice(alloc, client.given())?)
}

/// How many runs over a server that fails at its call 1, 2, .. came to each of the first three outcomes, until one met no fault.
fn server_faults(alloc: Global, talk: Talk) -> Result<[u64; 3], Fail> {
    let whole = whole(alloc, talk)?;
    let mut counts = [0u64, 0, 0];
    for call in 1..MAX_CALLS {
        match run(alloc, failing_at(alloc, CUT, call)?, talk, whole.as_slice())? {
            Outcome::NotStarted => counts[0] = counts[0].saturating_add(1),
            Outcome::LostInLease => counts[1] = counts[1].saturating_add(1),
            Outcome::NotReset => counts[2] = counts[2].saturating_add(1),
            Outcome::Clean => return Ok(counts),
            Outcome::Wrong => return Err("a fault came to something else")?,
        }
    }
    Err("every run met a fault")?
}

#[test]
fn a_server_fails_at_each_of_its_calls(rt: HostRuntime) -> Result<(), Fail> {
    for talk in TALKS {
        let [starts, leases, resets] = server_faults(rt.alloc(), talk)?;
        assert!(rt; starts > 15 && leases > 10 && resets > 3);
    }
    Ok(())
}

/// Whether the next client of a link finds nothing of a client that failed at this call; whether it failed at all.
fn next_finds_nothing(alloc: Global, talk: Talk, call: u64) -> Result<(bool, bool), Fail>
    requires { 0 < call }
{
    let Ok(link) = begin(alloc, server(alloc, ServerAuth::Trust, CUT, None)?, SHOP)? else {
        return Err("not started")?;
    };
    let first = FailingEnd::new(client(alloc, talk.sent)?, call);
    let (next, _, link) = leased(alloc, first, link, 1)?;
    let fails = next == Next::ClientDone;
    let link = match link {
        Returned::Unused(link) => link,
        Returned::Used(link) => match reset_link(alloc, link, &mut OpenGate::new(), 200) {
            Ok(link) => link,
            Err(_) => return Err("not reset")?,
        },
        // it isn't lent again
        Returned::Gone(_, _) => return Ok((true, fails)),
    };
    let (_, second, _) = leased(alloc, client(alloc, LOOKS)?, link, 2)?;
    Ok((second.given().ends_with(FOUND), fails))
}

#[test]
fn a_client_fails_at_each_of_its_calls(rt: HostRuntime) -> Result<(), Fail> {
    let mut faults: u64 = 0;
    for talk in TALKS {
        for call in 1..MAX_CALLS {
            let (is_clean, fails) = next_finds_nothing(rt.alloc(), talk, call)?;
            assert!(rt; is_clean);
            if !fails {
                break;
            }
            faults = faults.saturating_add(1);
        }
    }
    assert!(rt; faults > 40 && faults < MAX_CALLS);
    Ok(())
}
