//! What becomes of a link by what went over it.
ghost use Rattle.std.specs.Prelude.{◌<◌};
ghost use Rattle.link_start.specs.Starts.{CanStartAll};

use crate::making::server;
use crate::resets::link;
use disposal::Verdict;
use link_run::links::CleanLink;
use memory_ends::memory_client::MemoryClient;
use memory_ends::memory_server::ServerAuth;
use message_view::KeyWord;
use relay_core::last_note::LastNote;
use relay_core::relay::{GoneCause, Relay, Returned};
use relay_model::Next;
use server_end::ServerEnd;
use server_end::gate::{Counts, Ready};
use std::alloc::Global;
use std::test::Fail;

/// A Parse of `SELEC`, which the server refuses: it skips what comes up to a Sync.
const REFUSED: &[u8] = b"P\0\0\0\x0d\0SELEC\0\0\0";

/// The Query `SHOW TimeZone`.
const SHOW: &[u8] = b"Q\0\0\0\x12SHOW TimeZone\0";

const SYNC: &[u8] = b"S\0\0\0\x04";

const BEGIN: &[u8] = b"Q\0\0\0\x0aBEGIN\0";

/// What the client of such a lease is given last: the ErrorResponse.
const ERROR: &[u8] = b"E\0\0\0\x28SERROR\0VERROR\0C42601\0Msyntax error\0\0";

/// What becomes of a link.
#[derive(Clone, Copy, PartialEq, Eq)]
enum Fate {
    Unused,
    Used,
    Gone(GoneCause),
}

/// A lease of the link to a client of this pid that sends these messages at once, over an end that moves so many bytes a call, once
/// nothing moves any more.
fn pumped<E: ServerEnd>(
    alloc: Global,
    link: CleanLink<E>,
    cut: usize,
    pid: u32,
    messages: &[&[u8]],
) -> Result<Relay<MemoryClient, E>, Fail>
    requires { 0 < cut }
{
    let word = KeyWord {
        pid,
        secret: 2,
        salt: [0; 4],
    };
    let both = Ready {
        client: true,
        server: true,
    };
    let mut client = MemoryClient::new(alloc, b"", cut)?;
    for message in messages {
        client.feed(message)?;
    }
    let Ok(mut relay) = Relay::begin(alloc, client, link, word, 1_000) else {
        return Err("no lease")?;
    };
    for _ in 0..2_000 {
        if relay.pump(both) == Next::Wait {
            return Ok(relay);
        }
    }
    Err("bytes move on and on")?
}

/// The same lease to its end: what the client was given begins with its welcome, and what becomes of the link.
pub fn lease<E: ServerEnd>(
    alloc: Global,
    link: CleanLink<E>,
    cut: usize,
    pid: u32,
    messages: &[&[u8]],
) -> Result<(MemoryClient, Returned<E>), Fail>
    requires { 0 < cut }
{
    let relay = pumped(alloc, link, cut, pid, messages)?;
    Ok(relay.close())
}

/// What went over a link of this end by these messages of its client.
fn counts_of<E: ServerEnd>(alloc: Global, end: E, messages: &[&[u8]]) -> Result<Counts, Fail>
    requires { CanStartAll (E.standing end) }
{
    let relay = pumped(alloc, link(alloc, end)?, 1_000, 1, messages)?;
    Ok(relay.counts())
}

/// The same over a server that asks for nothing.
fn counts(alloc: Global, messages: &[&[u8]]) -> Result<Counts, Fail> {
    let end = server(alloc, ServerAuth::Trust, 1_000, None)?;
    counts_of(alloc, end, messages)
}

/// What is kept of what a server that asks for nothing said, by these messages of its client.
fn last_note(alloc: Global, messages: &[&[u8]]) -> Result<LastNote, Fail> {
    let end = server(alloc, ServerAuth::Trust, 1_000, None)?;
    let relay = pumped(alloc, link(alloc, end)?, 1_000, 1, messages)?;
    Ok(relay.last_note())
}

/// What becomes of the link, and whether the client was given these bytes last.
fn fate_of<E: ServerEnd>(
    alloc: Global,
    end: E,
    messages: &[&[u8]],
    last: &[u8],
) -> Result<(Fate, bool), Fail>
    requires { CanStartAll (E.standing end) }
{
    let (client, link) = lease(alloc, link(alloc, end)?, 1_000, 1, messages)?;
    let told = client.given().ends_with(last);
    match link {
        Returned::Unused(_) => Ok((Fate::Unused, told)),
        Returned::Used(_) => Ok((Fate::Used, told)),
        Returned::Gone(_, cause) => Ok((Fate::Gone(cause), told)),
    }
}

/// The same over a server that asks for nothing.
fn left(alloc: Global, messages: &[&[u8]], last: &[u8]) -> Result<(Fate, bool), Fail> {
    fate_of(
        alloc,
        server(alloc, ServerAuth::Trust, 1_000, None)?,
        messages,
        last,
    )
}

#[test]
fn a_link_is_unused_or_used(rt: HostRuntime) -> Result<(), Fail> {
    let alloc = rt.alloc();
    assert!(rt; left(alloc, &[], b"Z\0\0\0\x05I")? == (Fate::Unused, true));
    assert!(rt; left(alloc, &[SHOW], b"Z\0\0\0\x05I")? == (Fate::Used, true));
    Ok(())
}

/// Each case has its messages, how many of them ask for a ReadyForQuery, how many came, how many told of no block, and the last status.
#[test]
fn what_went_over_a_link_is_counted(rt: HostRuntime) -> Result<(), Fail> {
    let cases: &[(&[&[u8]], u64, u64, u64, Option<u8>)] = &[
        (&[], 0, 0, 0, None),
        (&[SHOW, SHOW, SYNC], 3, 3, 3, Some(b'I')),
        (&[SHOW, BEGIN, SHOW], 3, 3, 1, Some(b'T')),
        (&[REFUSED, SHOW, SYNC], 2, 1, 1, Some(b'I')),
    ];
    for &(messages, asked, answered, ended, status) in cases {
        let wanted = Counts {
            asked,
            answered,
            ended,
            status,
        };
        assert!(rt; counts(rt.alloc(), messages)? == wanted);
    }
    Ok(())
}

#[test]
fn a_block_is_left_open(rt: HostRuntime) -> Result<(), Fail> {
    let in_block = Fate::Gone(GoneCause::Left(Verdict::InBlock));
    assert!(rt; left(rt.alloc(), &[BEGIN], b"Z\0\0\0\x05T")? == (in_block, true));
    Ok(())
}

/// A Query that the server skips is never answered, also where a Sync behind it is: two messages asked for a ReadyForQuery, and one
/// came.
#[test]
fn a_skipped_query_is_unanswered(rt: HostRuntime) -> Result<(), Fail> {
    let alloc = rt.alloc();
    let unanswered = Fate::Gone(GoneCause::Left(Verdict::Unanswered));
    assert!(rt; left(alloc, &[REFUSED, SHOW], ERROR)? == (unanswered, true));
    let idle = left(
        alloc,
        &[REFUSED, SHOW, SYNC],
        b"Msyntax error\0\0Z\0\0\0\x05I",
    )?;
    assert!(rt; idle == (unanswered, true));
    assert!(rt; left(alloc, &[REFUSED, SYNC], b"Z\0\0\0\x05I")? == (Fate::Used, true));
    Ok(())
}

/// What follows an error takes nothing away from what is kept of it.
#[test]
fn the_last_error_is_kept(rt: HostRuntime) -> Result<(), Fail> {
    let cases: &[(&[&[u8]], &[u8])] = &[
        (&[SHOW], b""),
        (&[REFUSED, SYNC], ERROR),
        (&[REFUSED, SYNC, SHOW], ERROR),
    ];
    for &(messages, wanted) in cases {
        assert!(rt; last_note(rt.alloc(), messages)?.message() == wanted);
    }
    Ok(())
}
