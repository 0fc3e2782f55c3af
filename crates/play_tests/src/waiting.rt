//! Clients that wait for a link.
use crate::files::START;
use crate::play_parts::{LET_IN, given, greeted, links, played};
use message_view::{Refusal, refusal_bytes};
use play::Act;
use std::test::Fail;

/// Two clients wait for a pool's one link: it goes to the first of them, and the second waits on.
#[test]
fn clients_wait_in_turn(rt: HostRuntime) -> Result<(), Fail> {
    let acts = [
        Act::Come,
        Act::Send(1, START),
        Act::Come,
        Act::Send(2, START),
        Act::Come,
        Act::Send(3, START),
        Act::Go(1),
    ];
    let played = played(rt.alloc(), b"default_pool_size = 1\n", 7, &acts)?;
    let second = greeted(rt.alloc(), b"", 2, b"")?;
    assert!(rt; links(&played, 1) == [1].as_slice());
    assert!(rt; links(&played, 2) == [1].as_slice());
    assert!(rt; given(&played, 2) == second.as_slice());
    assert!(rt; links(&played, 3).len() == 0);
    assert!(rt; given(&played, 3) == LET_IN);
    Ok(())
}

/// A client that has waited for 5 seconds is refused, and not before.
#[test]
fn a_client_waits_too_long(rt: HostRuntime) -> Result<(), Fail> {
    let mut refused = Vec::from_slice(rt.alloc(), LET_IN)?;
    refused.extend_from_slice(refusal_bytes(Refusal::WaitedTooLong))?;
    let cases: &[(u64, &[u8])] = &[(4, LET_IN), (5, refused.as_slice())];
    for &(second, wanted) in cases {
        let acts = [
            Act::Come,
            Act::Send(1, START),
            Act::Come,
            Act::Send(2, START),
            Act::Tick(second),
        ];
        let options = b"default_pool_size = 1\nquery_wait_timeout = 5\n";
        let played = played(rt.alloc(), options, 7, &acts)?;
        assert!(rt; given(&played, 2) == wanted);
    }
    Ok(())
}
