//! What reads and writes of an end come to.
ghost use Rattle.std.specs.Prelude.{◌<◌, ◌≤◌};

use crate::pairs::{HERE, listen, pair};
use server_end::{ClientEnd, Moved, ServerEnd};
use std::test::Fail;
use std::thread::sleep;
use std::time::Duration;
use tcp_end::connection::TcpEnd;
use tcp_end::dial::dial;

/// Reads once by way of the trait, into room for four bytes.
fn read<E: ServerEnd>(end: &mut E) -> (Moved, [u8; 4]) {
    let mut room = [0u8; 4];
    let moved = end.read_some(&mut room);
    (moved, room)
}

/// Reads until the answer isn't the one that is expected first; at most a million times.
fn read_after(end: &mut TcpEnd, first: Moved) -> Moved {
    for _ in 0..1_000_000u32 {
        let (moved, _) = read(end);
        if moved != first {
            return moved;
        }
    }
    first
}

/// AuthenticationOk.
const AUTHENTICATION_OK: &[u8] = b"R\0\0\0\x08\0\0\0\0";

/// The same, into room for a thousand bytes.
fn read_many<E: ServerEnd>(end: &mut E) -> (Moved, [u8; 1024]) {
    let mut room = [0u8; 1024];
    let moved = end.read_some(&mut room);
    (moved, room)
}

/// Reads once, once there is something; at most a million times.
fn read_whole(end: &mut TcpEnd) -> (Moved, [u8; 1024]) {
    for _ in 0..1_000_000u32 {
        let (moved, room) = read_many(end);
        if moved != Moved::NotNow {
            return (moved, room);
        }
    }
    (Moved::NotNow, [0; 1024])
}

/// What may go to another thread, as an end does with its link.
fn sent<T: Send>(value: T) -> T {
    value
}

#[test]
fn bytes_go_both_ways(rt: HostRuntime) -> Result<(), Fail> {
    let (mut near, mut far) = sent(pair(&rt)?);
    assert!(rt; read(&mut near) == (Moved::NotNow, [0; 4]));
    assert!(rt; ClientEnd::write_some(&mut far, b"Z(49)") == Moved::Count(5));
    assert!(rt; read_after(&mut near, Moved::NotNow) == Moved::Count(4));
    assert!(rt; read(&mut near) == (Moved::Count(1), [b')', 0, 0, 0]));
    assert!(rt; ServerEnd::waits(&near).1 == 0);
    Ok(())
}

// It is in front of what follows it, in one call, and nothing of it comes before.
#[test]
fn authentication_ok_waits_for_what_follows(rt: HostRuntime) -> Result<(), Fail> {
    let (mut near, mut far) = pair(&rt)?;
    let mut room = [0u8; 64];
    assert!(rt; ClientEnd::write_some(&mut far, AUTHENTICATION_OK) == Moved::Count(9));
    assert!(rt; ClientEnd::read_some(&mut far, &mut room) == Moved::NotNow);
    sleep(&rt, Duration::from_millis(100));
    assert!(rt; read(&mut near).0 == Moved::NotNow);
    assert!(rt; ClientEnd::write_some(&mut far, b"Z(49)") == Moved::Count(5));
    let (moved, came) = read_whole(&mut near);
    assert!(rt; moved == Moved::Count(14));
    assert!(rt; came.starts_with(b"R\0\0\0\x08\0\0\0\0Z(49)"));
    assert!(rt; ClientEnd::waits(&far) == (1, 0));
    Ok(())
}

// What doesn't fit behind it is for the next call; the first AuthenticationOk alone waits, and none of a server's end does.
#[test]
fn authentication_ok_waits_once(rt: HostRuntime) -> Result<(), Fail> {
    let (mut near, mut far) = pair(&rt)?;
    assert!(rt; ClientEnd::write_some(&mut far, AUTHENTICATION_OK) == Moved::Count(9));
    assert!(rt; ClientEnd::write_some(&mut far, &[7; 600]) == Moved::Count(503));
    let (moved, came) = read_whole(&mut near);
    assert!(rt; moved == Moved::Count(512));
    assert!(rt; came.starts_with(b"R\0\0\0\x08\0\0\0\0\x07\x07"));
    assert!(rt; ClientEnd::write_some(&mut far, AUTHENTICATION_OK) == Moved::Count(9));
    assert!(rt; read_whole(&mut near).0 == Moved::Count(9));
    assert!(rt; ServerEnd::write_some(&mut near, AUTHENTICATION_OK) == Moved::Count(9));
    assert!(rt; read_whole(&mut far).0 == Moved::Count(9));
    Ok(())
}

/// Reads into room for so many bytes once there is something, at most a million times; and whether these begin with what came.
fn reads(end: &mut TcpEnd, room: usize, bytes: &[u8]) -> (Moved, bool)
    requires some { 0 < room }
    requires fits { room ≤ 64 }
{
    let mut came = [0u8; 64];
    for _ in 0..1_000_000u32 {
        match ClientEnd::read_some(end, &mut came[..room]) {
            Moved::NotNow => {}
            Moved::Count(count) => return (Moved::Count(count), bytes.starts_with(&came[..count])),
            moved => return (moved, false),
        }
    }
    (Moved::NotNow, false)
}

/// A packet of sixty bytes, no two of them the same.
fn packet() -> [u8; 60] {
    let mut bytes = [0u8; 60];
    for at in 0..60u8 {
        bytes[at as usize] = at + 1;
    }
    bytes
}

// One call of the system reads both parts: the second needs none.
#[test]
fn a_packet_is_read_in_two_parts(rt: HostRuntime) -> Result<(), Fail> {
    let (mut near, mut far) = pair(&rt)?;
    let packet = packet();
    assert!(rt; ServerEnd::write_some(&mut near, &packet) == Moved::Count(60));
    assert!(rt; reads(&mut far, 8, &packet) == (Moved::Count(8), true));
    assert!(rt; reads(&mut far, 52, &packet[8..]) == (Moved::Count(52), true));
    assert!(rt; ClientEnd::read_some(&mut far, &mut [0; 8]) == Moved::NotNow);
    Ok(())
}

// Its last part is short; and the end of the input stands behind all of it.
#[test]
fn an_end_of_input_is_behind_all_bytes(rt: HostRuntime) -> Result<(), Fail> {
    let (mut near, mut far) = pair(&rt)?;
    let packet = packet();
    assert!(rt; ServerEnd::write_some(&mut near, &packet) == Moved::Count(60));
    drop(near);
    for part in 0..7usize {
        assert!(rt; reads(&mut far, 8, &packet[8 * part..]) == (Moved::Count(8), true));
    }
    assert!(rt; reads(&mut far, 8, &packet[56..]) == (Moved::Count(4), true));
    assert!(rt; reads(&mut far, 8, &[]).0 == Moved::Ended);
    Ok(())
}

#[test]
fn waits_are_counted(rt: HostRuntime) -> Result<(), Fail> {
    let (mut near, _far) = pair(&rt)?;
    for _ in 0..3 {
        assert!(rt; read(&mut near).0 == Moved::NotNow);
    }
    assert!(rt; ServerEnd::waits(&near) == (3, 0));
    let block = [7u8; 65_536];
    for _ in 0..10_000u32 {
        if ServerEnd::write_some(&mut near, &block) == Moved::NotNow {
            break;
        }
    }
    assert!(rt; ClientEnd::waits(&near) == (3, 1));
    assert!(rt; ClientEnd::faults(&near) == 0);
    Ok(())
}

#[test]
fn an_end_of_input_is_final(rt: HostRuntime) -> Result<(), Fail> {
    let (mut near, far) = pair(&rt)?;
    drop(far);
    assert!(rt; read_after(&mut near, Moved::NotNow) == Moved::Ended);
    assert!(rt; ServerEnd::read_some(&mut near, &mut [0; 4]) == Moved::Ended);
    assert!(rt; ServerEnd::write_some(&mut near, b"Q") == Moved::Ended);
    assert!(rt; ServerEnd::faults(&near) == 0);
    Ok(())
}

/// What the first write came to that wasn't counted, to a client whose input has ended; at most a million are tried.
fn write_after(end: &mut TcpEnd) -> Moved {
    for _ in 0..1_000_000u32 {
        let moved = ClientEnd::write_some(end, b"Q");
        if !matches!(moved, Moved::Count(_)) {
            return moved;
        }
    }
    Moved::NotNow
}

#[test]
fn a_fault_is_final(rt: HostRuntime) -> Result<(), Fail> {
    let (mut near, far) = pair(&rt)?;
    drop(far);
    assert!(rt; read_after(&mut near, Moved::NotNow) == Moved::Ended);
    assert!(rt; write_after(&mut near) == Moved::Fault);
    assert!(rt; ClientEnd::faults(&near) == 1);
    assert!(rt; ClientEnd::write_some(&mut near, b"Q") == Moved::Ended);
    assert!(rt; ClientEnd::read_some(&mut near, &mut [0; 4]) == Moved::Ended);
    Ok(())
}

#[test]
fn nobody_listens(rt: HostRuntime) -> Result<(), Fail> {
    let (listener, port) = listen(&rt)?;
    assert!(rt; dial(&rt, rt.alloc(), HERE, port, 0, 15, &None).is_ok());
    assert!(rt; dial(&rt, rt.alloc(), HERE, port, 0, 0, &None).is_ok());
    drop(listener);
    assert!(rt; dial(&rt, rt.alloc(), HERE, port, 0, 15, &None).is_err());
    Ok(())
}
