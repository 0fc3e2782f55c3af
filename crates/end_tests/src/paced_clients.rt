//! A client in memory that waits for its answers.
ghost use Rattle.std.specs.Prelude.{◌<◌};

use crate::client_talk::{give, hands_out, joined, take};
use crate::packets::{ann, empty_answer, empty_query, parse_and_sync, ready, sync, welcome};
use crate::server_talk::{ask, server};
use memory_ends::memory_server::{MemoryServer, ServerAuth};
use paced_client::PacedClient;
use server_end::{ClientEnd, Moved};
use std::alloc::Global;
use std::test::Fail;

/// A client that hands out these packets after its StartupMessage.
fn client(alloc: Global, packets: &[&[u8]], cut: usize) -> Result<PacedClient, Fail>
    requires { 0 < cut }
{
    let mut input = joined(alloc, &[ann()])?;
    input.extend_from_slice(joined(alloc, packets)?.as_slice())?;
    Ok(PacedClient::new(alloc, input.as_slice(), cut)?)
}

/// What a client does, or what is done to it.
#[derive(Clone, Copy, Drop)]
enum Turn<'a> {
    /// It hands out these bytes, and then answers so.
    HandsOut(&'a [u8], Moved),
    /// It is given these bytes, and counts them all.
    IsGiven(&'a [u8]),
}

/// The place of the first turn that goes otherwise.
fn first_surprise(
    alloc: Global,
    client: &mut PacedClient,
    turns: &[Turn<'_>],
) -> Result<Option<usize>, Fail> {
    for (at, turn) in turns.iter().enumerate() {
        let goes_so = match turn {
            Turn::HandsOut(bytes, end) => hands_out(alloc, client, bytes, *end)?,
            Turn::IsGiven(bytes) => give(client, bytes).is_none(),
        };
        if !goes_so {
            return Ok(Some(at));
        }
    }
    Ok(None)
}

/// One closing message at a time, with what stands before it.
#[test]
fn it_waits_for_its_answers(rt: HostRuntime) -> Result<(), Fail> {
    let alloc = rt.alloc();
    let mut client = client(alloc, &[parse_and_sync(), empty_query()], 1)?;
    let turns = [
        Turn::HandsOut(ann(), Moved::NotNow),
        Turn::IsGiven(welcome()),
        Turn::HandsOut(parse_and_sync(), Moved::NotNow),
        Turn::IsGiven(ready()),
        Turn::HandsOut(empty_query(), Moved::NotNow),
        Turn::IsGiven(empty_answer()),
        Turn::HandsOut(b"", Moved::Ended),
    ];
    assert!(rt; first_surprise(alloc, &mut client, &turns)?.is_none());
    Ok(())
}

/// Half a ReadyForQuery answers nothing.
#[test]
fn it_waits_for_whole_answers(rt: HostRuntime) -> Result<(), Fail> {
    let alloc = rt.alloc();
    let mut client = client(alloc, &[sync()], 100)?;
    let turns = [
        Turn::HandsOut(ann(), Moved::NotNow),
        Turn::IsGiven(b"Z\0\0\0\x05"),
        Turn::HandsOut(b"", Moved::NotNow),
        Turn::IsGiven(b"I"),
        Turn::HandsOut(sync(), Moved::NotNow),
    ];
    assert!(rt; first_surprise(alloc, &mut client, &turns)?.is_none());
    assert!(rt; client.waits() == (3, 0));
    Ok(())
}

/// What is no whole frame comes last.
#[test]
fn it_ends_in_part_of_a_frame(rt: HostRuntime) -> Result<(), Fail> {
    let alloc = rt.alloc();
    let mut client = client(alloc, &[sync(), b"Q\0"], 100)?;
    let turns = [
        Turn::HandsOut(ann(), Moved::NotNow),
        Turn::IsGiven(ready()),
        Turn::HandsOut(sync(), Moved::NotNow),
        Turn::IsGiven(ready()),
        Turn::HandsOut(b"Q\0", Moved::Ended),
    ];
    assert!(rt; first_surprise(alloc, &mut client, &turns)?.is_none());
    assert!(rt; client.taken().len() == 39);
    Ok(())
}

/// Takes what the client hands out to the server, and the answers back, until the client has ended.
fn talk(alloc: Global, client: &mut PacedClient, server: &mut MemoryServer) -> Result<(), Fail> {
    for _ in 0..10 {
        let (taken, end) = take(alloc, client)?;
        let heard = ask(alloc, server, taken.as_slice())?;
        let _ = give(client, heard.as_slice());
        if end == Moved::Ended {
            return Ok(());
        }
    }
    Err("the client goes on without end")?
}

#[test]
fn it_talks_to_a_server(rt: HostRuntime) -> Result<(), Fail> {
    let alloc = rt.alloc();
    let mut client = client(alloc, &[empty_query(), empty_query()], 100)?;
    let mut server = server(alloc, ServerAuth::Trust, 100, None)?;
    talk(alloc, &mut client, &mut *server)?;
    let all = joined(alloc, &[welcome(), empty_answer(), empty_answer()])?;
    assert!(rt; client.given() == all.as_slice());
    Ok(())
}
