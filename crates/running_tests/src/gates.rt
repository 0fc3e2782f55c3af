//! How long the turns of a gate take.
use crate::pairs::pair;
use server_end::gate::Gate;
use server_end::{ClientEnd, Moved, ServerEnd};
use std::rt::Clock;
use std::test::Fail;
use std::thread::{join, sleep};
use std::time::{Duration, Instant};
use tcp_end::connection::TcpEnd;
use tcp_end::gate::{GatePoll, TcpGate};
use tcp_notes::notes::Notes;

/// How many turns of an idle client take a second: each is followed by a read of both ends.
fn idle_turns(rt: &HostRuntime, client: &mut TcpEnd, link: &mut TcpEnd) -> Result<u32, Fail> {
    let mut poll = GatePoll::new(rt, rt.alloc())?;
    let mut gate = TcpGate::new(*rt, &mut poll, client)?;
    gate.watch(link);
    let start = Instant::now(rt)?;
    for turns in 0..1_000_000u32 {
        if start.elapsed(rt)?.as_secs() > 0 {
            return Ok(turns);
        }
        Gate::<TcpEnd>::turn_of_client(&mut gate);
        let _ = ClientEnd::read_some(client, &mut [0; 4]);
        let _ = ServerEnd::read_some(link, &mut [0; 4]);
    }
    Ok(1_000_000)
}

// The first is taken at once, by what a new end notes.
#[test]
fn an_idle_client_has_a_turn_a_second(rt: HostRuntime) -> Result<(), Fail> {
    let (mut client, _near) = pair(&rt)?;
    let (mut link, _far) = pair(&rt)?;
    let turns = idle_turns(&rt, &mut client, &mut link)?;
    assert!(rt; turns <= 3);
    Ok(())
}

/// A peer says nothing for a second, and then one byte.
fn speaks_late<R: Clock>(rt: &R, far: &mut TcpEnd) -> Moved {
    sleep(rt, Duration::from_millis(1_000));
    ServerEnd::write_some(far, b"Z")
}

// Turns that aren't counted wait until something comes.
#[test]
fn an_idle_lease_sleeps(rt: HostRuntime) -> Result<(), Fail> {
    let (mut client, _near) = pair(&rt)?;
    let (mut link, mut far) = pair(&rt)?;
    let mut poll = GatePoll::new(&rt, rt.alloc())?;
    let mut gate = TcpGate::new(rt, &mut poll, &mut client)?;
    gate.watch(&mut link);
    let (turns, _) = join(
        &rt,
        || -> u32 { read_by_turns(&mut gate, &mut link) },
        || -> Moved { speaks_late(&rt, &mut far) },
    );
    assert!(rt; turns <= 4);
    Ok(())
}

/// Reads into four bytes' room, and once more after a turn at most.
fn read_twice(gate: &mut TcpGate<'_, HostRuntime>, client: &mut TcpEnd) -> (Moved, Moved) {
    let first = ClientEnd::read_some(client, &mut [0; 4]);
    let second = ClientEnd::read_some(client, &mut [0; 4]);
    if second == Moved::NotNow {
        Gate::<TcpEnd>::turn_of_client(gate);
        return (first, ClientEnd::read_some(client, &mut [0; 4]));
    }
    (first, second)
}

// The event that tells of the bytes tells of the end too, and no other does.
#[test]
fn an_end_behind_bytes_is_seen(rt: HostRuntime) -> Result<(), Fail> {
    let (mut client, mut near) = pair(&rt)?;
    let mut poll = GatePoll::new(&rt, rt.alloc())?;
    let mut gate = TcpGate::new(rt, &mut poll, &mut client)?;
    assert!(rt; ClientEnd::write_some(&mut near, b"Q") == Moved::Count(1));
    drop(near);
    assert!(rt; is_seen_to_go(&rt, &mut gate));
    assert!(rt; read_twice(&mut gate, &mut client) == (Moved::Count(1), Moved::Ended));
    Ok(())
}

// As long as bytes that were read ahead are left, no turn waits for more; waiting, the hundred would take a hundred seconds.
#[test]
fn bytes_read_ahead_need_no_wait(rt: HostRuntime) -> Result<(), Fail> {
    let (mut client, mut near) = pair(&rt)?;
    let mut poll = GatePoll::new(&rt, rt.alloc())?;
    let mut gate = TcpGate::new(rt, &mut poll, &mut client)?;
    assert!(rt; ServerEnd::write_some(&mut near, &[7; 100]) == Moved::Count(100));
    Gate::<TcpEnd>::turn_of_client(&mut gate);
    let start = Instant::now(&rt)?;
    for _ in 0..100 {
        assert!(rt; ClientEnd::read_some(&mut client, &mut [0; 1]) == Moved::Count(1));
        Gate::<TcpEnd>::turn_of_client(&mut gate);
    }
    assert!(rt; start.elapsed(&rt)?.as_millis() < 2_500);
    Ok(())
}

#[test]
fn an_end_after_bytes_is_seen(rt: HostRuntime) -> Result<(), Fail> {
    let (mut client, mut near) = pair(&rt)?;
    let mut poll = GatePoll::new(&rt, rt.alloc())?;
    let mut gate = TcpGate::new(rt, &mut poll, &mut client)?;
    assert!(rt; ClientEnd::write_some(&mut near, b"Q") == Moved::Count(1));
    Gate::<TcpEnd>::turn_of_client(&mut gate);
    assert!(rt; ClientEnd::read_some(&mut client, &mut [0; 4]) == Moved::Count(1));
    drop(near);
    assert!(rt; read_twice(&mut gate, &mut client).1 == Moved::Ended);
    Ok(())
}

/// Reads one byte once it is there; how many turns that took.
fn read_by_turns<R: Clock>(gate: &mut TcpGate<'_, R>, link: &mut TcpEnd) -> u32 {
    for turns in 1..1000u32 {
        gate.turn();
        if ServerEnd::read_some(link, &mut [0; 1]) == Moved::Count(1) {
            return turns;
        }
    }
    1000
}

/// Whether a write of five bytes that took so many leaves no room.
fn is_full_behind(count: usize) -> bool {
    let notes = Notes::new();
    notes.mind(true);
    notes.wrote(&Ok(count), 5);
    notes.is_full()
}

#[test]
fn a_write_of_a_part_fills_a_socket(rt: HostRuntime) -> Result<(), Fail> {
    assert!(rt; is_full_behind(3));
    assert!(rt; !is_full_behind(5));
    Ok(())
}

/// Reads into four bytes' room, each time behind a turn, until the end is found.
fn ends_by_turns<R: Clock>(gate: &mut TcpGate<'_, R>, link: &mut TcpEnd) -> bool {
    for _ in 0..1000u32 {
        gate.turn();
        if ServerEnd::read_some(link, &mut [0; 4]) == Moved::Ended {
            return true;
        }
    }
    false
}

// The bytes and the end come by one event. A turn that waited for another would take ten seconds.
#[test]
fn no_turn_waits_for_an_end_behind_bytes(rt: HostRuntime) -> Result<(), Fail> {
    let (mut client, _near) = pair(&rt)?;
    let (mut link, mut far) = pair(&rt)?;
    let mut poll = GatePoll::new(&rt, rt.alloc())?;
    let mut gate = TcpGate::new(rt, &mut poll, &mut client)?;
    gate.watch(&mut link);
    assert!(rt; ServerEnd::write_some(&mut far, b"Z") == Moved::Count(1));
    drop(far);
    sleep(&rt, Duration::from_millis(100));
    let start = Instant::now(&rt)?;
    assert!(rt; ends_by_turns(&mut gate, &mut link));
    assert!(rt; start.elapsed(&rt)?.as_secs() < 5);
    Ok(())
}

// A turn that waited in vain would take 100 ms, and two hundred of them twenty seconds.
#[test]
fn bytes_end_a_wait(rt: HostRuntime) -> Result<(), Fail> {
    let (mut client, _near) = pair(&rt)?;
    let (mut link, mut far) = pair(&rt)?;
    let mut poll = GatePoll::new(&rt, rt.alloc())?;
    let mut gate = TcpGate::new(rt, &mut poll, &mut client)?;
    gate.watch(&mut link);
    let start = Instant::now(&rt)?;
    for _ in 0..200 {
        assert!(rt; ServerEnd::write_some(&mut far, b"Z") == Moved::Count(1));
        read_by_turns(&mut gate, &mut link);
    }
    assert!(rt; start.elapsed(&rt)?.as_secs() < 10);
    Ok(())
}

// Ten thousand turns with a byte left behind each; waiting, they would take a thousand seconds.
#[test]
fn bytes_that_are_there_need_no_wait(rt: HostRuntime) -> Result<(), Fail> {
    let (mut client, _near) = pair(&rt)?;
    let (mut link, mut far) = pair(&rt)?;
    let mut poll = GatePoll::new(&rt, rt.alloc())?;
    let mut gate = TcpGate::new(rt, &mut poll, &mut client)?;
    gate.watch(&mut link);
    assert!(rt; ServerEnd::write_some(&mut far, &[7; 10_000]) == Moved::Count(10_000));
    let mut turns = 0u32;
    for _ in 0..10_000 {
        turns = turns.saturating_add(read_by_turns(&mut gate, &mut link));
    }
    assert!(rt; turns < 10_100);
    gate.unwatch(&mut link);
    Ok(())
}

/// How many milliseconds twelve turns of an idle link take, where the client sends a byte before each.
fn link_turns(
    rt: &HostRuntime,
    client: &mut TcpEnd,
    near: &mut TcpEnd,
    link: &mut TcpEnd,
) -> Result<u128, Fail> {
    let mut poll = GatePoll::new(rt, rt.alloc())?;
    let mut gate = TcpGate::new(*rt, &mut poll, client)?;
    gate.watch(link);
    let start = Instant::now(rt)?;
    for _ in 0..12 {
        let _ = ClientEnd::write_some(near, b"Q");
        gate.turn_of_link();
        let _ = ServerEnd::read_some(link, &mut [0; 4]);
    }
    Ok(start.elapsed(rt)?.as_millis())
}

// The first is taken at once; the others wait for 100 ms each.
#[test]
fn what_a_client_sends_ends_no_turn_of_the_link(rt: HostRuntime) -> Result<(), Fail> {
    let (mut client, mut near) = pair(&rt)?;
    let (mut link, _far) = pair(&rt)?;
    let milliseconds = link_turns(&rt, &mut client, &mut near, &mut link)?;
    assert!(rt; milliseconds >= 950);
    assert!(rt; milliseconds < 5_000);
    Ok(())
}

/// Whether the client is seen to have gone within a second.
fn is_seen_to_go(rt: &HostRuntime, gate: &mut TcpGate<'_, HostRuntime>) -> bool {
    for _ in 0..1_000u32 {
        if Gate::<TcpEnd>::client_has_left(gate) {
            return true;
        }
        sleep(rt, Duration::from_millis(1));
    }
    false
}

// What it sent before is still there: nothing was taken of it.
#[test]
fn a_client_that_goes_is_seen(rt: HostRuntime) -> Result<(), Fail> {
    let (mut client, mut near) = pair(&rt)?;
    let mut poll = GatePoll::new(&rt, rt.alloc())?;
    let mut gate = TcpGate::new(rt, &mut poll, &mut client)?;
    assert!(rt; ClientEnd::write_some(&mut near, b"Q") == Moved::Count(1));
    assert!(rt; !Gate::<TcpEnd>::client_has_left(&mut gate));
    drop(near);
    assert!(rt; is_seen_to_go(&rt, &mut gate));
    assert!(rt; ClientEnd::read_some(&mut client, &mut [0; 4]) == Moved::Count(1));
    Ok(())
}

// Each gate finds what comes to its own client, and the byte that the client before left unread is none of it.
#[test]
fn gates_follow_one_another_over_one_poll(rt: HostRuntime) -> Result<(), Fail> {
    let mut poll = GatePoll::new(&rt, rt.alloc())?;
    for _ in 0..20 {
        let (mut client, mut near) = pair(&rt)?;
        let mut gate = TcpGate::new(rt, &mut poll, &mut client)?;
        assert!(rt; ClientEnd::read_some(&mut client, &mut [0; 1]) == Moved::NotNow);
        assert!(rt; !Gate::<TcpEnd>::client_has_left(&mut gate));
        assert!(rt; ClientEnd::write_some(&mut near, b"QX") == Moved::Count(2));
        Gate::<TcpEnd>::turn_of_client(&mut gate);
        assert!(rt; ClientEnd::read_some(&mut client, &mut [0; 1]) == Moved::Count(1));
        drop(near);
        assert!(rt; is_seen_to_go(&rt, &mut gate));
    }
    Ok(())
}

/// Writes until nothing more is taken.
fn fill(client: &mut TcpEnd) -> bool {
    for _ in 0..100_000u32 {
        match ClientEnd::write_some(client, &[7; 4096]) {
            Moved::Count(_) => {}
            other => return other == Moved::NotNow,
        }
    }
    false
}

/// How many turns it takes until a byte more is taken.
fn turns_until_room<R: Clock>(gate: &mut TcpGate<'_, R>, client: &mut TcpEnd) -> u32 {
    for turns in 0..1000u32 {
        if ClientEnd::write_some(client, &[7; 1]) == Moved::Count(1) {
            return turns;
        }
        Gate::<TcpEnd>::turn(gate);
    }
    1000
}

/// Reads, after a while, all that comes until nothing has come for a while.
fn reads_late<R: Clock>(rt: &R, near: &mut TcpEnd) -> u32 {
    let mut idle = 0u32;
    for _ in 0..1_000_000u32 {
        if idle == 100 {
            return idle;
        }
        match ServerEnd::read_some(near, &mut [0; 4096]) {
            Moved::Count(_) => {}
            _ => {
                idle = idle.saturating_add(1);
                sleep(rt, Duration::from_millis(5));
            }
        }
    }
    idle
}

// A gate asks its poll for room only once a write has found too little. Were it never told, a turn would take ten seconds.
#[test]
fn room_ends_a_wait(rt: HostRuntime) -> Result<(), Fail> {
    let (mut client, mut near) = pair(&rt)?;
    let mut poll = GatePoll::new(&rt, rt.alloc())?;
    let mut gate = TcpGate::new(rt, &mut poll, &mut client)?;
    assert!(rt; fill(&mut client));
    let start = Instant::now(&rt)?;
    let (turns, _) = join(
        &rt,
        || -> u32 { turns_until_room(&mut gate, &mut client) },
        || -> u32 { reads_late(&rt, &mut near) },
    );
    assert!(rt; turns < 1000);
    assert!(rt; start.elapsed(&rt)?.as_millis() < 5_000);
    Ok(())
}
