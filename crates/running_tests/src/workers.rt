//! Threads that do jobs, and are kept for the next ones.
use std::rt::Clock;
use std::sync::Arc;
use std::sync::atomic::{AtomicU64, Ordering};
use std::test::Fail;
use std::thread::sleep;
use std::time::Duration;
use worker_threads::Workers;

/// Adds a number.
#[derive(Drop)]
struct Adds {
    total: Arc<AtomicU64>,
    amount: u64,
}

impl Adds {
    fn add(self) {
        let Adds { total, amount } = self;
        total.fetch_add(amount, Ordering::SeqCst);
    }
}

// More jobs than threads: those that are done take the next.
#[test]
fn every_job_is_done_once(rt: HostRuntime) -> Result<(), Fail> {
    let sum = Arc::new(rt.alloc(), AtomicU64::new(0))?;
    let mut workers = Workers::<Adds>::new(rt.alloc())?;
    for amount in 1..=200u64 {
        let total = Arc::try_clone(&sum)?;
        workers.start(
            rt,
            Adds { total, amount },
            |_: &mut Option<u8>, job: Adds| job.add(),
        )?;
    }
    workers.join_all(&rt);
    assert!(rt; sum.load(Ordering::SeqCst) == 20_100);
    Ok(())
}

/// Counts what it finds kept.
#[derive(Drop)]
struct Finds {
    first: Arc<AtomicU64>,
    later: Arc<AtomicU64>,
}

impl Finds {
    fn find(self, kept: &mut Option<u8>) {
        let Finds { first, later } = self;
        if kept.is_none() {
            first.fetch_add(1, Ordering::SeqCst);
        } else {
            later.fetch_add(1, Ordering::SeqCst);
        }
        *kept = Some(7);
    }
}

// A thread finds nothing at its first job, and at each later one what it kept.
#[test]
fn a_thread_keeps_what_it_has(rt: HostRuntime) -> Result<(), Fail> {
    let first = Arc::new(rt.alloc(), AtomicU64::new(0))?;
    let later = Arc::new(rt.alloc(), AtomicU64::new(0))?;
    let mut workers = Workers::<Finds>::new(rt.alloc())?;
    for _ in 0..20u32 {
        let (first, later) = (Arc::try_clone(&first)?, Arc::try_clone(&later)?);
        workers.start(
            rt,
            Finds { first, later },
            |kept: &mut Option<u8>, job: Finds| job.find(kept),
        )?;
        sleep(&rt, Duration::from_millis(20));
    }
    workers.join_all(&rt);
    let found = first
        .load(Ordering::SeqCst)
        .saturating_add(later.load(Ordering::SeqCst));
    assert!(rt; found == 20);
    assert!(rt; first.load(Ordering::SeqCst) < 10);
    Ok(())
}

/// Waits until so many have come, for at most 20,000 sleeps of 1 ms.
fn comes_to(rt: &impl Clock, count: &AtomicU64, all: u64) -> bool {
    for _ in 0..20_000u32 {
        if count.load(Ordering::SeqCst) >= all {
            return true;
        }
        sleep(rt, Duration::from_millis(1));
    }
    false
}

/// Waits for all others of its kind.
#[derive(Drop)]
struct Meets<R: Drop> {
    rt: R,
    begun: Arc<AtomicU64>,
    met: Arc<AtomicU64>,
    all: u64,
}

impl<R: Clock + Drop> Meets<R> {
    fn meet(self) {
        let Meets {
            rt,
            begun,
            met,
            all,
        } = self;
        begun.fetch_add(1, Ordering::SeqCst);
        if comes_to(&rt, &begun, all) {
            met.fetch_add(1, Ordering::SeqCst);
        }
    }
}

// Twenty jobs each of which waits for all others: none is left out. In the first round each has a new thread, and later mostly one of
// the round before.
#[test]
fn jobs_are_done_at_once(rt: HostRuntime) -> Result<(), Fail> {
    let met = Arc::new(rt.alloc(), AtomicU64::new(0))?;
    let mut workers = Workers::<Meets<HostRuntime>>::new(rt.alloc())?;
    for round in 1..=20u64 {
        let begun = Arc::new(rt.alloc(), AtomicU64::new(0))?;
        for _ in 0..20u32 {
            let (begun, met) = (Arc::try_clone(&begun)?, Arc::try_clone(&met)?);
            let all = 20;
            workers.start(
                rt,
                Meets {
                    rt,
                    begun,
                    met,
                    all,
                },
                |_: &mut Option<u8>, job: Meets<HostRuntime>| job.meet(),
            )?;
        }
        assert!(rt; comes_to(&rt, &met, round.saturating_mul(20)));
    }
    workers.join_all(&rt);
    assert!(rt; met.load(Ordering::SeqCst) == 400);
    Ok(())
}
