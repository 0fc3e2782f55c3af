//! What a client is answered over a link of its own.
ghost use Rattle.std.specs.Prelude.{◌<◌};

use crate::lease_parts::{WELCOME, served};
use message_view::{Refusal, refusal_bytes};
use std::alloc::Global;
use std::test::Fail;

const LIMIT: u32 = 1_024;

/// An empty Query.
const EMPTY: &[u8] = b"Q\0\0\0\x05\0";

/// EmptyQueryResponse, and ReadyForQuery.
const ANSWER: &[u8] = b"I\0\0\0\x04Z\0\0\0\x05I";

/// What a server of ann's own sends before the first answer: AuthenticationOk, and the welcome.
const BEFORE: u64 = 260;

/// As many bytes as a call moves at most, where the whole answer is to go at once.
const WHOLE: usize = 8_192;

/// Whether a client that sends these bytes is given its welcome and then this, over a server that dies after so many bytes.
///
/// What was given is held here alone: a test that held it would have to show how it is dropped on each of its ways out.
fn gives(
    alloc: Global,
    dies_after: Option<u64>,
    cut: usize,
    sent: &[u8],
    answer: &[&[u8]],
) -> Result<bool, Fail>
    requires { 0 < cut }
{
    let mut wanted = Vec::from_slice(alloc, WELCOME)?;
    for part in answer {
        wanted.extend_from_slice(part)?;
    }
    let given = served(alloc, dies_after, LIMIT, cut, sent)?;
    Ok(given.as_slice() == wanted.as_slice())
}

#[test]
fn cuts_change_nothing(rt: HostRuntime) -> Result<(), Fail> {
    for cut in [WHOLE, 1, 7] {
        assert!(rt; gives(rt.alloc(), None, cut, EMPTY, &[ANSWER])?, "{cut}");
    }
    Ok(())
}

/// A server that dies between two frames, or in the head of one: the client is told.
#[test]
fn a_server_dies_at_a_border(rt: HostRuntime) -> Result<(), Fail> {
    for more in [0, 3] {
        let told = refusal_bytes(Refusal::ServerFailed);
        assert!(rt; gives(rt.alloc(), Some(BEFORE + more), WHOLE, EMPTY, &[told])?);
    }
    Ok(())
}

/// A server that dies inside a frame of which the client was given a part: nothing can follow.
#[test]
fn a_server_dies_inside_a_frame(rt: HostRuntime) -> Result<(), Fail> {
    let show = b"Q\0\0\0\x1aSHOW application_name\0";
    let part = b"T\0\0\0\x29\0\x01app";
    assert!(rt; gives(rt.alloc(), Some(BEFORE + 10), WHOLE, show, &[part])?);
    Ok(())
}

/// The same inside the head of a row's values: what stands before it was given, and no refusal follows.
#[test]
fn a_server_dies_inside_a_row(rt: HostRuntime) -> Result<(), Fail> {
    let select = b"Q\0\0\0\x17SELECT * FROM city\0";
    let part =
        b"T\0\0\0\x37\0\x02name\0\0\0\0\0\0\0\0\0\0\x19\xff\xff\xff\xff\xff\xff\0\0country\0\0\0\0\0\0\0\0\0\0\x19\xff\xff\xff\xff\xff\xff\0\0D\0\0\0\x14\0\x02";
    for cut in [WHOLE, 1, 7] {
        assert!(rt;
            gives(rt.alloc(), Some(BEFORE + 56 + 7), cut, select, &[part])?,
            "{cut}"
        );
    }
    Ok(())
}

/// A server that dies once all was answered: the client is told, where it sends one more message.
#[test]
fn a_server_dies_behind_its_answer(rt: HostRuntime) -> Result<(), Fail> {
    let two = b"Q\0\0\0\x05\0Q\0\0\0\x05\0";
    let told = refusal_bytes(Refusal::ServerFailed);
    assert!(rt; gives(rt.alloc(), Some(BEFORE + 11), WHOLE, two, &[ANSWER, told])?);
    Ok(())
}

/// A server that dies before its welcome is whole: the link isn't started.
#[test]
fn a_server_dies_in_its_start(rt: HostRuntime) -> Result<(), Fail> {
    let answer = served(rt.alloc(), Some(BEFORE - 1), LIMIT, WHOLE, EMPTY)?;
    assert!(rt; answer.as_slice() == refusal_bytes(Refusal::ServerNotReached));
    Ok(())
}

/// A message above the limit comes behind a whole one, whose answer is given first; one of length 3 is none.
#[test]
fn a_message_is_faulty(rt: HostRuntime) -> Result<(), Fail> {
    let long = refusal_bytes(Refusal::ClientMessageTooLong);
    assert!(rt;
        gives(
            rt.alloc(),
            None,
            WHOLE,
            b"Q\0\0\0\x05\0Q\0\0\x04\x01",
            &[ANSWER, long]
        )?
    );
    let malformed = refusal_bytes(Refusal::MalformedClientMessage);
    assert!(rt; gives(rt.alloc(), None, WHOLE, b"Q\0\0\0\x03", &[malformed])?);
    Ok(())
}

/// A Query of spaces that is as long as the limit allows is served.
#[test]
fn a_message_is_as_long_as_it_may_be(rt: HostRuntime) -> Result<(), Fail> {
    let mut query = [b' '; 1_025];
    query[..5].copy_from_slice(b"Q\0\0\x04\0");
    query[1_024] = 0;
    assert!(rt; gives(rt.alloc(), None, WHOLE, &query, &[ANSWER])?);
    Ok(())
}

/// What is left of a message, or of a Terminate, is answered by nothing.
#[test]
fn a_client_goes_inside_a_message(rt: HostRuntime) -> Result<(), Fail> {
    for sent in [
        b"Q\0\0\0\x05\0".as_slice(),
        b"Q\0\0\0\x05\0Q",
        b"Q\0\0\0\x05\0Q\0\0\0\x09",
        b"Q\0\0\0\x05\0Q\0\0\0\x09abc",
        b"Q\0\0\0\x05\0X",
        b"Q\0\0\0\x05\0X\0\0\0\x08",
        b"Q\0\0\0\x05\0X\0\0\0\x04",
    ] {
        assert!(rt; gives(rt.alloc(), None, WHOLE, sent, &[ANSWER])?);
    }
    Ok(())
}

/// What comes behind a Terminate is answered by nothing, not even a faulty message.
#[test]
fn nothing_follows_a_terminate(rt: HostRuntime) -> Result<(), Fail> {
    let sent = b"Q\0\0\0\x05\0X\0\0\0\x04?\0\0\0\x04";
    assert!(rt; gives(rt.alloc(), None, 7, sent, &[ANSWER])?);
    Ok(())
}
