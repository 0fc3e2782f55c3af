//! A client in memory.
use crate::client_talk::{give, hands_out};
use crate::packets::{ann, ready, sync};
use memory_ends::failing_end::FailingEnd;
use memory_ends::memory_client::MemoryClient;
use server_end::{ClientEnd, Moved};
use std::test::Fail;

#[test]
fn it_is_fed(rt: HostRuntime) -> Result<(), Fail> {
    let alloc = rt.alloc();
    let mut client = MemoryClient::new(alloc, ann(), 1)?;
    assert!(rt; hands_out(alloc, &mut client, ann(), Moved::NotNow)?);
    client.feed(sync())?;
    assert!(rt; hands_out(alloc, &mut client, sync(), Moved::NotNow)?);
    assert!(rt; (client.waits(), client.faults()) == ((2, 0), 0));
    assert!(rt; client.taken().len() == 37);
    Ok(())
}

#[test]
fn it_hangs_up(rt: HostRuntime) -> Result<(), Fail> {
    let alloc = rt.alloc();
    let mut client = MemoryClient::new(alloc, ann(), 100)?;
    client.hang_up();
    client.feed(sync())?;
    assert!(rt; hands_out(alloc, &mut client, ann(), Moved::Ended)?);
    assert!(rt; client.taken() == ann());
    Ok(())
}

/// Also after it hung up.
#[test]
fn it_keeps_what_it_is_given(rt: HostRuntime) -> Result<(), Fail> {
    let mut client = MemoryClient::new(rt.alloc(), ann(), 2)?;
    assert!(rt; give(&mut client, b"abc").is_none());
    client.hang_up();
    assert!(rt; give(&mut client, ready()).is_none());
    assert!(rt; client.given() == b"abcZ\0\0\0\x05I".as_slice());
    Ok(())
}

#[test]
fn its_end_fails(rt: HostRuntime) -> Result<(), Fail> {
    let alloc = rt.alloc();
    let mut end = FailingEnd::new(MemoryClient::new(alloc, ann(), 100)?, 3);
    assert!(rt; hands_out(alloc, &mut end, ann(), Moved::NotNow)?);
    assert!(rt; hands_out(alloc, &mut end, b"", Moved::Fault)?);
    assert!(rt; give(&mut end, ready()) == Some(Moved::Fault));
    assert!(rt; (end.faults(), end.waits()) == (2, (1, 0)));
    Ok(())
}
