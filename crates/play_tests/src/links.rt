//! Which link a client has, and what it finds of the client before.
use crate::files::START;
use crate::play_parts::{CUTS, START_A, START_B, given, greeted, links, long_query, played};
use play::{Act, Played};
use std::alloc::{AllocError, Global};
use std::test::Fail;

/// A setting, a temporary table and a prepared statement.
pub(crate) const MARKS: &[u8] =
    b"Q\0\0\0\x20SET DateStyle TO 'SQL, DMY'\0Q\0\0\0\x21CREATE TEMP TABLE t (a text)\0P\0\0\0\x16s\0SHOW TimeZone\0\0\0S\0\0\0\x04";

pub(crate) const MARKED: &[u8] =
    b"C\0\0\0\x08SET\0S\0\0\0\x17DateStyle\0SQL, DMY\0Z\0\0\0\x05IC\0\0\0\x11CREATE TABLE\0Z\0\0\0\x05I1\0\0\0\x04Z\0\0\0\x05I";

/// Another client asks for the name, the table and the statement.
pub(crate) const LOOKS: &[u8] =
    b"Q\0\0\0\x1aSHOW application_name\0Q\0\0\0\x14SELECT * FROM t\0B\0\0\0\x0d\0s\0\0\0\0\0\0\0S\0\0\0\x04";

pub(crate) const FOUND: &[u8] =
    b"T\0\0\0\x29\0\x01application_name\0\0\0\0\0\0\0\0\0\0\x19\xff\xff\xff\xff\xff\xff\0\0D\0\0\0\x0a\0\x01\0\0\0\0C\0\0\0\x09SHOW\0Z\0\0\0\x05IE\0\0\0\x33SERROR\0VERROR\0C42P01\0Mrelation does not exist\0\0Z\0\0\0\x05IE\0\0\0\x3dSERROR\0VERROR\0C26000\0Mprepared statement does not exist\0\0Z\0\0\0\x05I";

/// A client sets its name, resets it, and asks for it.
const NAMES: &[u8] =
    b"Q\0\0\0\x20SET application_name TO 'z'\0Q\0\0\0\x1bRESET application_name\0Q\0\0\0\x1aSHOW application_name\0";

const NAMED: &[u8] =
    b"C\0\0\0\x08SET\0S\0\0\0\x17application_name\0z\0Z\0\0\0\x05IC\0\0\0\x0aRESET\0S\0\0\0\x17application_name\0b\0Z\0\0\0\x05IT\0\0\0\x29\0\x01application_name\0\0\0\0\0\0\0\0\0\0\x19\xff\xff\xff\xff\xff\xff\0\0D\0\0\0\x0b\0\x01\0\0\0\x01bC\0\0\0\x09SHOW\0Z\0\0\0\x05I";

const SYNTAX_ERROR: &[u8] = b"E\0\0\0\x28SERROR\0VERROR\0C42601\0Msyntax error\0\0";

/// ReadyForQuery behind it.
const SYNTAX_ERROR_AND_READY: &[u8] =
    b"E\0\0\0\x28SERROR\0VERROR\0C42601\0Msyntax error\0\0Z\0\0\0\x05I";

/// One client sends this and goes; the next one has the same key.
fn one_after_another(alloc: Global, cut: usize, sent: &[u8]) -> Result<Played, AllocError> {
    let acts = [
        Act::Come,
        Act::Send(1, START),
        Act::Send(1, sent),
        Act::Go(1),
        Act::Come,
        Act::Send(2, START),
        Act::Send(2, LOOKS),
    ];
    played(alloc, b"", cut.max(1), &acts)
}

/// One client leaves its marks and goes; the next of its key has its link, and finds none of them.
#[test]
fn a_link_is_reset(rt: HostRuntime) -> Result<(), Fail> {
    let first = greeted(rt.alloc(), b"", 1, MARKED)?;
    let second = greeted(rt.alloc(), b"", 2, FOUND)?;
    for cut in CUTS {
        let played = one_after_another(rt.alloc(), cut, MARKS)?;
        assert!(rt; given(&played, 1) == first.as_slice());
        assert!(rt; links(&played, 1) == [1].as_slice());
        assert!(rt; given(&played, 2) == second.as_slice());
        assert!(rt; links(&played, 2) == [1].as_slice());
    }
    Ok(())
}

/// What a first client sends before it goes, what it is answered, and which link the next one of its key has.
#[test]
fn a_link_is_kept_only_where_all_is_answered(rt: HostRuntime) -> Result<(), Fail> {
    let cases: &[(&[u8], &[u8], u64)] = &[
        // an error, and then ReadyForQuery
        (b"Q\0\0\0\x0aSELEC\0", SYNTAX_ERROR_AND_READY, 1),
        // inside a block
        (b"Q\0\0\0\x0aBEGIN\0", b"C\0\0\0\x0aBEGIN\0Z\0\0\0\x05T", 2),
        // the Query is skipped behind the error of the Parse, and no ReadyForQuery comes
        (
            b"P\0\0\0\x0d\0SELEC\0\0\0Q\0\0\0\x12SHOW TimeZone\0",
            SYNTAX_ERROR,
            2,
        ),
        // one comes for two closing messages
        (
            b"P\0\0\0\x0d\0SELEC\0\0\0Q\0\0\0\x12SHOW TimeZone\0S\0\0\0\x04",
            SYNTAX_ERROR_AND_READY,
            2,
        ),
    ];
    for &(sent, answered, link) in cases {
        let first = greeted(rt.alloc(), b"", 1, answered)?;
        let second = greeted(rt.alloc(), b"", 2, FOUND)?;
        let played = one_after_another(rt.alloc(), 7, sent)?;
        assert!(rt; given(&played, 1) == first.as_slice());
        assert!(rt; given(&played, 2) == second.as_slice());
        assert!(rt; links(&played, 2) == [link].as_slice());
    }
    Ok(())
}

/// A Query of 20,005 bytes that comes whole is answered, and its link is kept; where the client goes after 10,005 of them it isn't.
#[test]
fn a_link_is_kept_only_at_a_border(rt: HostRuntime) -> Result<(), Fail> {
    let query = long_query(rt.alloc())?;
    let whole = greeted(rt.alloc(), b"", 1, b"I\0\0\0\x04Z\0\0\0\x05I")?;
    let part = greeted(rt.alloc(), b"", 1, b"")?;
    for cut in CUTS {
        for (sent, answered, link) in [(20_005, &whole, 1), (10_005, &part, 2)] {
            let sent = query.as_slice().get(..sent).unwrap_or(b"");
            let played = one_after_another(rt.alloc(), cut, sent)?;
            assert!(rt; given(&played, 1) == answered.as_slice());
            assert!(rt; links(&played, 2) == [link].as_slice());
        }
    }
    Ok(())
}

/// A pool of one link: a client of another key has it evicted, and its values are those of its own start.
#[test]
fn a_link_of_another_key_is_evicted(rt: HostRuntime) -> Result<(), Fail> {
    let acts = [
        Act::Come,
        Act::Send(1, START_A),
        Act::Go(1),
        Act::Come,
        Act::Send(2, START_B),
        Act::Send(2, NAMES),
    ];
    let played = played(rt.alloc(), b"default_pool_size = 1\n", 7, &acts)?;
    let first = greeted(rt.alloc(), b"a", 1, b"")?;
    let second = greeted(rt.alloc(), b"b", 2, NAMED)?;
    assert!(rt; given(&played, 1) == first.as_slice());
    assert!(rt; given(&played, 2) == second.as_slice());
    assert!(rt; links(&played, 2) == [2].as_slice());
    Ok(())
}

/// Of two links of one key the one that came back last is lent first.
#[test]
fn the_latest_link_is_lent_first(rt: HostRuntime) -> Result<(), Fail> {
    let acts = [
        Act::Come,
        Act::Send(1, START),
        Act::Come,
        Act::Send(2, START),
        Act::Go(1),
        Act::Go(2),
        Act::Come,
        Act::Send(3, START),
    ];
    let played = played(rt.alloc(), b"", 8_192, &acts)?;
    assert!(rt; links(&played, 1) == [1].as_slice());
    assert!(rt; links(&played, 2) == [2].as_slice());
    assert!(rt; links(&played, 3) == [2].as_slice());
    Ok(())
}
