//! Clients whose servers die.
use crate::files::START;
use crate::links::{FOUND, LOOKS, MARKED, MARKS};
use crate::play_parts::{CUTS, LET_IN, given, greeted, links, played};
use message_view::{Refusal, refusal_bytes};
use play::{Act, Played};
use std::alloc::{AllocError, Global};
use std::test::Fail;

/// How many bytes a server gives in its start; and to the reset behind those marks: CommandComplete, the report of DateStyle, and
/// ReadyForQuery.
const STARTED: u64 = 260;

const RESET: u64 = 47;

const CITIES: &[u8] = b"Q\0\0\0\x17SELECT * FROM city\0";

/// The beginning of its answer: RowDescription, and 7 bytes of the first DataRow.
const BEGUN: &[u8] =
    b"T\0\0\0\x37\0\x02name\0\0\0\0\0\0\0\0\0\0\x19\xff\xff\xff\xff\xff\xff\0\0country\0\0\0\0\0\0\0\0\0\0\x19\xff\xff\xff\xff\xff\xff\0\0D\0\0\0\x14\0\x02";

/// The rest of it.
const ENDED: &[u8] =
    b"\0\0\0\x04Bern\0\0\0\x02CHD\0\0\0\x14\0\x02\0\0\0\x04Oslo\0\0\0\x02NOD\0\0\0\x12\0\x02\0\0\0\x04Nuuk\xff\xff\xff\xffC\0\0\0\x0dSELECT 3\0Z\0\0\0\x05I";

/// The server dies after so many bytes: inside a row its client is closed, behind ReadyForQuery it is refused.
#[test]
fn a_client_is_refused_at_a_border_only(rt: HostRuntime) -> Result<(), Fail> {
    let part = greeted(rt.alloc(), b"", 1, BEGUN)?;
    let mut whole = greeted(rt.alloc(), b"", 1, BEGUN)?;
    whole.extend_from_slice(ENDED)?;
    whole.extend_from_slice(refusal_bytes(Refusal::ServerFailed))?;
    for cut in CUTS {
        for (count, wanted) in [(323, &part), (397, &whole)] {
            let acts = [
                Act::ServersDieAfter(count),
                Act::Come,
                Act::Send(1, START),
                Act::Send(1, CITIES),
            ];
            let played = played(rt.alloc(), b"", cut.max(1), &acts)?;
            assert!(rt; given(&played, 1) == wanted.as_slice());
        }
    }
    Ok(())
}

/// Where every server dies before its start has come to its end, the client is refused.
#[test]
fn a_client_whose_link_cannot_be_started(rt: HostRuntime) -> Result<(), Fail> {
    let mut refused = Vec::from_slice(rt.alloc(), LET_IN)?;
    refused.extend_from_slice(refusal_bytes(Refusal::ServerNotReached))?;
    let acts = [Act::ServersDieAfter(100), Act::Come, Act::Send(1, START)];
    let played = played(rt.alloc(), b"", 7, &acts)?;
    assert!(rt; given(&played, 1) == refused.as_slice());
    Ok(())
}

/// A client leaves its marks and goes, and its server dies once so many bytes of its reset were read; then another client comes.
fn dies_in_reset(alloc: Global, count: u64) -> Result<Played, AllocError> {
    let answered = STARTED + MARKED.len() as u64;
    let acts = [
        Act::ServersDieAfter(answered.saturating_add(count)),
        Act::Come,
        Act::Send(1, START),
        Act::Send(1, MARKS),
        Act::Go(1),
        Act::ServersDieAfter(1_000_000),
        Act::Come,
        Act::Send(2, START),
        Act::Send(2, LOOKS),
    ];
    played(alloc, b"", 7, &acts)
}

/// The next client finds nothing of the one before, over a link of its own, wherever the reset's answer ends.
#[test]
fn a_server_dies_in_its_reset(rt: HostRuntime) -> Result<(), Fail> {
    let found = greeted(rt.alloc(), b"", 2, FOUND)?;
    for count in 0..RESET {
        let played = dies_in_reset(rt.alloc(), count)?;
        assert!(rt; given(&played, 2) == found.as_slice());
        assert!(rt; links(&played, 2) == [2].as_slice());
    }
    Ok(())
}

/// Behind the whole answer the link is clean, and lent; its client is refused then.
#[test]
fn a_server_dies_behind_its_reset(rt: HostRuntime) -> Result<(), Fail> {
    let mut refused = greeted(rt.alloc(), b"", 2, b"")?;
    refused.extend_from_slice(refusal_bytes(Refusal::ServerFailed))?;
    let played = dies_in_reset(rt.alloc(), RESET)?;
    assert!(rt; given(&played, 2) == refused.as_slice());
    assert!(rt; links(&played, 2) == [1].as_slice());
    Ok(())
}
