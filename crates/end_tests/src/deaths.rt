//! Ends that die or fail, and a gate that never waits.
use crate::packets::{ann, sync, welcome};
use crate::server_talk::{hear, say, server};
use memory_ends::failing_end::FailingEnd;
use memory_ends::memory_server::{MemoryServer, ServerAuth};
use server_end::gate::{Counts, Gate, OpenGate, Ready};
use server_end::{Moved, ServerEnd};
use std::alloc::Global;
use std::mem::ManuallyDrop;
use std::test::Fail;

/// How many bytes of its welcome a server gives that dies after so many, and the answers that follow to a read and a write.
fn death(alloc: Global, after: u64) -> Result<(usize, Moved, Option<Moved>), Fail> {
    let mut server = server(alloc, ServerAuth::Trust, 100, Some(after))?;
    let _ = say(&mut *server, ann());
    let (heard, end) = hear(alloc, &mut *server)?;
    if !welcome().starts_with(heard.as_slice()) {
        return Err("this is no welcome")?;
    }
    Ok((heard.len(), end, say(&mut *server, sync())))
}

#[test]
fn a_server_dies(rt: HostRuntime) -> Result<(), Fail> {
    let ended = Some(Moved::Ended);
    let deaths = [
        (0, (0, Moved::Ended, ended)),
        (1, (1, Moved::Ended, ended)),
        (100, (100, Moved::Ended, ended)),
        (260, (260, Moved::Ended, ended)),
        (261, (260, Moved::NotNow, None)),
    ];
    for (after, wanted) in deaths {
        assert!(rt; death(rt.alloc(), after)? == wanted);
    }
    Ok(())
}

/// How many bytes a server gives whose end fails after so many good calls, and the faults of three calls more.
fn failure(alloc: Global, good: u32) -> Result<(usize, Moved, u64), Fail> {
    let mut end = ManuallyDrop::new(FailingEnd::new(
        ManuallyDrop::into_inner(server(alloc, ServerAuth::Trust, 100, None)?),
        u64::from(good) + 1,
    ));
    let _ = say(&mut *end, ann());
    let (heard, moved) = hear(alloc, &mut *end)?;
    let _ = say(&mut *end, sync());
    let _ = say(&mut *end, sync());
    Ok((heard.len(), moved, end.faults()))
}

#[test]
fn a_server_fails(rt: HostRuntime) -> Result<(), Fail> {
    let failures = [
        (0, (0, Moved::Fault, 4)),
        (1, (0, Moved::Fault, 3)),
        (3, (200, Moved::Fault, 3)),
        (6, (260, Moved::NotNow, 1)),
        (7, (260, Moved::NotNow, 0)),
    ];
    for (good, wanted) in failures {
        assert!(rt; failure(rt.alloc(), good)? == wanted);
    }
    Ok(())
}

#[test]
fn an_open_gate(rt: HostRuntime) -> Result<(), Fail> {
    let ready = Gate::<MemoryServer>::turn(&mut OpenGate::new());
    let both = Ready {
        client: true,
        server: true,
    };
    assert!(rt; ready == both);
    Ok(())
}

/// Nothing that it is told changes that.
#[test]
fn an_open_gate_is_never_late(rt: HostRuntime) -> Result<(), Fail> {
    let mut gate = OpenGate::new();
    Gate::<MemoryServer>::limit(&mut gate, Some(0));
    Gate::<MemoryServer>::know(&mut gate);
    let counts = Counts {
        asked: 1,
        answered: 0,
        ended: 0,
        status: None,
    };
    Gate::<MemoryServer>::tell(&mut gate, counts);
    assert!(rt; !Gate::<MemoryServer>::is_late(&mut gate));
    Ok(())
}
