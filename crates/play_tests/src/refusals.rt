//! Clients that are refused, and acts that come to nothing.
use crate::files::START;
use crate::play_parts::{given, greeted, links, played};
use message_view::{Refusal, refusal_bytes};
use play::Act;
use std::test::Fail;

/// One client may be there: the second is refused, and given nothing else.
#[test]
fn a_client_too_many(rt: HostRuntime) -> Result<(), Fail> {
    let acts = [
        Act::Come,
        Act::Send(1, START),
        Act::Come,
        Act::Send(2, START),
    ];
    let played = played(rt.alloc(), b"max_client_conn = 1\n", 7, &acts)?;
    assert!(rt; given(&played, 2) == refusal_bytes(Refusal::TooManyClients));
    assert!(rt; links(&played, 2).len() == 0);
    Ok(())
}

/// What clients send before they come or after they went, nobody gets.
#[test]
fn who_is_not_there_sends_nothing(rt: HostRuntime) -> Result<(), Fail> {
    let acts = [
        Act::Send(1, b"Q\0\0\0\x05\0"),
        Act::Go(1),
        Act::Go(0),
        Act::Send(2, b"Q\0\0\0\x05\0"),
        Act::Come,
        Act::Send(1, START),
        Act::Go(1),
        Act::Send(1, b"Q\0\0\0\x05\0"),
        Act::Go(2),
    ];
    let played = played(rt.alloc(), b"", 7, &acts)?;
    let first = greeted(rt.alloc(), b"", 1, b"")?;
    assert!(rt; played.clients.len() == 1);
    assert!(rt; given(&played, 1) == first.as_slice());
    Ok(())
}
