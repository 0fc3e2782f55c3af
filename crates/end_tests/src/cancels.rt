//! Cancels of a server in memory (PostgreSQL manual, "Canceling Requests in Progress").
use crate::packets::{ann, cancelled, empty_answer, empty_query, ready, sync, welcome};
use crate::server_talk::{first_surprise, server_and_striker};
use std::test::Fail;

/// A cancel with the words of another key strikes nothing.
#[test]
fn another_key_strikes_nothing(rt: HostRuntime) -> Result<(), Fail> {
    let alloc = rt.alloc();
    let (mut server, striker) = server_and_striker(alloc)?;
    assert!(rt; !striker.cancel(7, 9) && !striker.cancel(8, 8));
    let talk: [(&[u8], &[u8]); 2] = [(ann(), welcome()), (empty_query(), empty_answer())];
    assert!(rt; first_surprise(alloc, &mut *server, &talk)?.is_none());
    Ok(())
}

/// One with the server's own is spent by the next Query, by no Sync, and once.
#[test]
fn the_next_query_is_struck(rt: HostRuntime) -> Result<(), Fail> {
    let alloc = rt.alloc();
    let (mut server, striker) = server_and_striker(alloc)?;
    assert!(rt; striker.cancel(7, 8));
    let talk: [(&[u8], &[u8]); 4] = [
        (ann(), welcome()),
        (sync(), ready()),
        (empty_query(), cancelled()),
        (empty_query(), empty_answer()),
    ];
    assert!(rt; first_surprise(alloc, &mut *server, &talk)?.is_none());
    Ok(())
}
