//! Connections as other threads see them.
use crate::pairs::pair;
use server_end::gate::{Counts, Gate};
use server_end::{ClientEnd, Moved, ServerEnd};
use std::rt::Clock;
use std::test::Fail;
use std::thread::{join, sleep};
use std::time::{Duration, Instant};
use tcp_end::connection::TcpEnd;
use tcp_end::gate::{GatePoll, TcpGate};
use tcp_notes::sight::{Sight, Stance};

/// AuthenticationOk, which a client's end holds until more is given to it.
const AUTHENTICATION_OK: &[u8] = b"R\0\0\0\x08\0\0\0\0";

/// Reads into four bytes' room once there is something; at most a million times.
fn read(client: &mut TcpEnd) -> Moved {
    for _ in 0..1_000_000u32 {
        let moved = ClientEnd::read_some(client, &mut [0; 4]);
        if moved != Moved::NotNow {
            return moved;
        }
    }
    Moved::NotNow
}

/// The bytes that came, and those that went.
fn seen(sight: &Sight) -> (u64, u64) {
    let figures = sight.figures();
    (figures.received, figures.sent)
}

#[test]
fn figures_are_the_bytes_that_moved(rt: HostRuntime) -> Result<(), Fail> {
    let (mut near, mut client) = pair(&rt)?;
    let sight = client.sight()?;
    assert!(rt; seen(&sight) == (0, 0));
    assert!(rt; ServerEnd::write_some(&mut near, b"Q12345") == Moved::Count(6));
    assert!(rt; read(&mut client) == Moved::Count(4));
    assert!(rt; seen(&sight) == (4, 0));
    assert!(rt; read(&mut client) == Moved::Count(2));
    assert!(rt; ClientEnd::write_some(&mut client, AUTHENTICATION_OK) == Moved::Count(9));
    assert!(rt; ClientEnd::write_some(&mut client, b"Z(49)") == Moved::Count(5));
    assert!(rt; seen(&sight) == (6, 14));
    assert!(rt; client.moved() == (6, 14));
    drop(client);
    assert!(rt; seen(&sight) == (6, 14));
    Ok(())
}

/// Tells the gate of so many messages, answers and transactions that ended, with this status; what is seen then.
fn told<R: Clock>(
    gate: &mut TcpGate<'_, R>,
    sight: &Sight,
    counts: (u64, u64, u64),
    status: Option<u8>,
) -> (Stance, u64, u64) {
    let (asked, answered, ended) = counts;
    Gate::<TcpEnd>::tell(
        gate,
        Counts {
            asked,
            answered,
            ended,
            status,
        },
    );
    let figures = sight.figures();
    (sight.stance().0, figures.queries, figures.transactions)
}

// Two queries of one transaction, of 20 ms each and with 20 ms between them; and one that fails.
#[test]
fn what_a_gate_is_told_is_seen(rt: HostRuntime) -> Result<(), Fail> {
    let (mut client, _near) = pair(&rt)?;
    let sight = client.sight()?;
    let mut poll = GatePoll::new(&rt, rt.alloc())?;
    let mut gate = TcpGate::new(rt, &mut poll, &mut client)?;
    gate.reckon_from(Instant::now(&rt).ok());
    let pause = Duration::from_millis(20);
    assert!(rt; told(&mut gate, &sight, (0, 0, 0), None) == (Stance::Idle, 0, 0));
    assert!(rt; told(&mut gate, &sight, (1, 0, 0), None) == (Stance::Running, 0, 0));
    sleep(&rt, pause);
    assert!(rt; told(&mut gate, &sight, (1, 1, 0), Some(b'T')) == (Stance::InTransaction, 1, 0));
    let (_, since) = sight.stance();
    sleep(&rt, pause);
    assert!(rt; told(&mut gate, &sight, (2, 1, 0), Some(b'T')) == (Stance::Running, 1, 0));
    assert!(rt; sight.stance().1 >= since.saturating_add(20_000));
    sleep(&rt, pause);
    assert!(rt; told(&mut gate, &sight, (2, 2, 1), Some(b'I')) == (Stance::Idle, 2, 1));
    let figures = sight.figures();
    assert!(rt; figures.query_time >= 40_000);
    assert!(rt; figures.transaction_time >= figures.query_time.saturating_add(20_000));
    assert!(rt; told(&mut gate, &sight, (3, 3, 1), Some(b'E')) == (Stance::InFailed, 3, 1));
    Ok(())
}

// Without a first moment no time is reckoned, and all is counted still.
#[test]
fn answers_need_no_clock(rt: HostRuntime) -> Result<(), Fail> {
    let (mut client, _near) = pair(&rt)?;
    let sight = client.sight()?;
    let mut poll = GatePoll::new(&rt, rt.alloc())?;
    let mut gate = TcpGate::new(rt, &mut poll, &mut client)?;
    assert!(rt; told(&mut gate, &sight, (7, 7, 5), Some(b'I')) == (Stance::Idle, 7, 5));
    assert!(rt; sight.figures().query_time == 0);
    Ok(())
}

#[test]
fn a_stranger_is_cut_once(rt: HostRuntime) -> Result<(), Fail> {
    let (mut client, mut near) = pair(&rt)?;
    let sight = client.sight()?;
    assert!(rt; sight.cut());
    assert!(rt; !sight.cut());
    assert!(rt; !sight.is_known());
    assert!(rt; read(&mut client) == Moved::Ended);
    assert!(rt; read(&mut near) == Moved::Ended);
    Ok(())
}

#[test]
fn a_client_that_is_known_is_not_cut(rt: HostRuntime) -> Result<(), Fail> {
    let (mut client, mut near) = pair(&rt)?;
    let sight = client.sight()?;
    let mut poll = GatePoll::new(&rt, rt.alloc())?;
    let mut gate = TcpGate::new(rt, &mut poll, &mut client)?;
    assert!(rt; !sight.is_known());
    Gate::<TcpEnd>::know(&mut gate);
    assert!(rt; sight.is_known());
    assert!(rt; !sight.cut());
    assert!(rt; ServerEnd::write_some(&mut near, b"Q") == Moved::Count(1));
    assert!(rt; read(&mut client) == Moved::Count(1));
    Ok(())
}

// The next connection has most likely the descriptor of the one that is closed, and goes on.
#[test]
fn a_closed_connection_is_not_cut(rt: HostRuntime) -> Result<(), Fail> {
    for _ in 0..20 {
        let (near, client) = pair(&rt)?;
        let sight = client.sight()?;
        drop(client);
        drop(near);
        let (mut near, mut client) = pair(&rt)?;
        assert!(rt; !sight.cut());
        assert!(rt; ServerEnd::write_some(&mut near, b"Q") == Moved::Count(1));
        assert!(rt; read(&mut client) == Moved::Count(1));
    }
    Ok(())
}

/// Takes turns until the client's end has ended, at most ten; how it ended, if it did.
fn ends<R: Clock>(gate: &mut TcpGate<'_, R>, client: &mut TcpEnd) -> Moved {
    for _ in 0..10 {
        Gate::<TcpEnd>::turn(gate);
        let moved = ClientEnd::read_some(client, &mut [0; 4]);
        if moved != Moved::NotNow {
            return moved;
        }
    }
    Moved::NotNow
}

/// Cuts after a while.
fn cuts_late<R: Clock>(rt: &R, sight: &Sight) -> bool {
    sleep(rt, Duration::from_millis(200));
    sight.cut()
}

// A turn that isn't ended waits for ten seconds.
#[test]
fn a_cut_ends_a_wait(rt: HostRuntime) -> Result<(), Fail> {
    let (mut client, _near) = pair(&rt)?;
    let sight = client.sight()?;
    let mut poll = GatePoll::new(&rt, rt.alloc())?;
    let mut gate = TcpGate::new(rt, &mut poll, &mut client)?;
    let start = Instant::now(&rt)?;
    let (moved, was_cut) = join(
        &rt,
        || -> Moved { ends(&mut gate, &mut client) },
        || -> bool { cuts_late(&rt, &sight) },
    );
    assert!(rt; was_cut && moved == Moved::Ended);
    assert!(rt; start.elapsed(&rt)?.as_secs() < 5);
    Ok(())
}
