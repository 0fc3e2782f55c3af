//! A gate's limit by the clock.
use crate::pairs::pair;
use server_end::ClientEnd;
use server_end::gate::Gate;
use std::rt::Clock;
use std::test::Fail;
use std::time::{Duration, Instant};
use tcp_end::connection::TcpEnd;
use tcp_end::gate::{GatePoll, TcpGate};

/// The turn that comes after a read which came to nothing, so that it waits.
fn turn_in_vain<R: Clock>(gate: &mut TcpGate<'_, R>, client: &mut TcpEnd) {
    let _ = ClientEnd::read_some(client, &mut [0; 4]);
    Gate::<TcpEnd>::turn(gate);
}

fn is_late<R: Clock>(gate: &mut TcpGate<'_, R>) -> bool {
    Gate::<TcpEnd>::is_late(gate)
}

/// How many milliseconds a turn of a silent client takes that waits for ten seconds without a limit; and whether the gate is late then.
fn waited(
    rt: &HostRuntime,
    gate: &mut TcpGate<'_, HostRuntime>,
    client: &mut TcpEnd,
) -> Result<(u128, bool), Fail> {
    let start = Instant::now(rt)?;
    turn_in_vain(gate, client);
    let milliseconds = start.elapsed(rt)?.as_millis();
    Ok((milliseconds, is_late(gate)))
}

// The first turn is taken at once, by what a new end notes.
#[test]
fn a_silent_client_is_late(rt: HostRuntime) -> Result<(), Fail> {
    let (mut client, _near) = pair(&rt)?;
    let mut poll = GatePoll::new(&rt, rt.alloc())?;
    let mut gate = TcpGate::new(rt, &mut poll, &mut client)?;
    Gate::<TcpEnd>::turn(&mut gate);
    Gate::<TcpEnd>::limit(&mut gate, Some(1));
    assert!(rt; !is_late(&mut gate));
    let (milliseconds, late) = waited(&rt, &mut gate, &mut client)?;
    assert!(rt; late);
    assert!(rt; milliseconds >= 900, "{milliseconds}");
    assert!(rt; milliseconds < 5_000, "{milliseconds}");
    Gate::<TcpEnd>::limit(&mut gate, None);
    assert!(rt; !is_late(&mut gate));
    Ok(())
}

/// How many turns of the client, with a read behind each, fill a second.
fn turns_in_a_second(
    rt: &HostRuntime,
    gate: &mut TcpGate<'_, HostRuntime>,
    client: &mut TcpEnd,
) -> Result<u32, Fail> {
    let start = Instant::now(rt)?;
    for turns in 0..1_000_000u32 {
        if start.elapsed(rt)? >= Duration::from_secs(1) {
            return Ok(turns);
        }
        Gate::<TcpEnd>::turn_of_client(gate);
        let _ = ClientEnd::read_some(client, &mut [0; 4]);
    }
    Ok(1_000_000)
}

// Were they cut short by the limit that is over, there would be thousands.
#[test]
fn turns_are_long_again_once_the_gate_was_late(rt: HostRuntime) -> Result<(), Fail> {
    let (mut client, _near) = pair(&rt)?;
    let mut poll = GatePoll::new(&rt, rt.alloc())?;
    let mut gate = TcpGate::new(rt, &mut poll, &mut client)?;
    Gate::<TcpEnd>::limit(&mut gate, Some(0));
    assert!(rt; is_late(&mut gate));
    let turns = turns_in_a_second(&rt, &mut gate, &mut client)?;
    assert!(rt; turns <= 3, "{turns}");
    Ok(())
}

/// How many turns it takes, with a byte from the client before each, until the gate is late.
fn turns_until_late(
    rt: &HostRuntime,
    gate: &mut TcpGate<'_, HostRuntime>,
    client: &mut TcpEnd,
    near: &mut TcpEnd,
) -> Result<u32, Fail> {
    let start = Instant::now(rt)?;
    for turns in 0..1_000_000u32 {
        if is_late(gate) {
            return Ok(turns);
        }
        if start.elapsed(rt)?.as_secs() > 9 {
            return Err("it isn't late in ten seconds")?;
        }
        let _ = ClientEnd::write_some(near, b"Q");
        Gate::<TcpEnd>::turn_of_client(gate);
        let _ = ClientEnd::read_some(client, &mut [0; 1]);
    }
    Err("it isn't late in a million turns")?
}

// A client that drips is late too.
#[test]
fn bytes_put_no_limit_off(rt: HostRuntime) -> Result<(), Fail> {
    let (mut client, mut near) = pair(&rt)?;
    let mut poll = GatePoll::new(&rt, rt.alloc())?;
    let mut gate = TcpGate::new(rt, &mut poll, &mut client)?;
    Gate::<TcpEnd>::limit(&mut gate, Some(1));
    let turns = turns_until_late(&rt, &mut gate, &mut client, &mut near)?;
    assert!(rt; turns > 13, "{turns}");
    Ok(())
}
