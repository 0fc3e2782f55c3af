//! The log's queue, its limiter, and the thread that writes it.
use log_lines::events::Event;
use log_writer::limiter::Limiter;
use log_writer::log::begin;
use std::alloc::Global;
use std::io::{self, Write};
use std::rt::Clock;
use std::sync::atomic::{AtomicU64, Ordering};
use std::sync::{Arc, Mutex, Wait};
use std::test::Fail;
use std::thread::sleep;
use std::time::Duration;

/// What a writer was given, and whether it takes more.
#[derive(Drop)]
pub struct Given {
    pub bytes: Mutex<Vec<u8>>,
    /// How many writes have begun.
    begun: AtomicU64,
    /// 1 where writes go on.
    is_open: AtomicU64,
}

/// A writer that waits, for at most 20,000 sleeps of 1 ms, until it may write.
#[derive(Drop)]
pub struct Held<R: Wait + Clock + Drop> {
    pub rt: R,
    pub given: Arc<Given>,
}

impl<R: Wait + Clock + Drop> Write for Held<R> {
    fn write(&mut self, buf: &[u8]) -> io::Result<usize> {
        self.given.begun.fetch_add(1, Ordering::SeqCst);
        for _ in 0..20_000u32 {
            if self.given.is_open.load(Ordering::SeqCst) == 1 {
                break;
            }
            sleep(&self.rt, Duration::from_millis(1));
        }
        self.given.bytes.lock(&self.rt).extend_from_slice(buf)?;
        Ok(buf.len())
    }

    fn flush(&mut self) -> io::Result<()> {
        Ok(())
    }
}

pub fn nothing_given(alloc: Global, is_open: u64) -> Result<Arc<Given>, Fail> {
    Ok(Arc::new(
        alloc,
        Given {
            bytes: Mutex::new(Vec::new(alloc)),
            begun: AtomicU64::new(0),
            is_open: AtomicU64::new(is_open),
        },
    )?)
}

/// Waits until a write has begun, for at most 20,000 sleeps of 1 ms.
fn has_begun(rt: &impl Clock, given: &Given) -> bool {
    for _ in 0..20_000u32 {
        if given.begun.load(Ordering::SeqCst) > 0 {
            return true;
        }
        sleep(rt, Duration::from_millis(1));
    }
    false
}

#[test]
fn lines_are_written_in_order(rt: HostRuntime) -> Result<(), Fail> {
    let given = nothing_given(rt.alloc(), 1)?;
    let out = Held {
        rt,
        given: Arc::try_clone(&given)?,
    };
    let (log, thread) = begin(rt, rt.alloc(), out)?;
    log.event(&rt, rt.alloc(), Event::Listening(b"127.0.0.1", 6432));
    log.event(&rt, rt.alloc(), Event::Reloaded);
    log.push(&rt, vec![in rt.alloc(); b'x'; 1_001]?);
    log.event(&rt, rt.alloc(), Event::Wanting(2));
    thread.close(&rt);
    let bytes = given.bytes.lock(&rt);
    assert!(rt; bytes.len() == 33 + 17 + 1_001 + 76);
    assert!(rt; bytes.starts_with(b"pgsess: listening 127.0.0.1 6432\npgsess: reloaded\nxxx"));
    assert!(rt;
        bytes.ends_with(
            b"xx\npgsess: 2 connections closed for want of a thread, a poll, a file or memory\n"
        )
    );
    Ok(())
}

// While its writer is held back at a first line, 1,024 wait and ten are dropped. That is told as soon as there is room again: after
// the first of those that wait.
#[test]
fn dropped_lines_are_counted(rt: HostRuntime) -> Result<(), Fail> {
    let given = nothing_given(rt.alloc(), 0)?;
    let out = Held {
        rt,
        given: Arc::try_clone(&given)?,
    };
    let (log, thread) = begin(rt, rt.alloc(), out)?;
    log.push(&rt, vec![in rt.alloc(); b'a'; 1]?);
    assert!(rt; has_begun(&rt, &given));
    for _ in 0..1_034u32 {
        log.push(&rt, vec![in rt.alloc(); b'b'; 1]?);
    }
    given.is_open.store(1, Ordering::SeqCst);
    thread.close(&rt);
    let bytes = given.bytes.lock(&rt);
    assert!(rt; bytes.starts_with(b"a\nb\npgsess: 10 lines of the log were dropped\nb\nb\n"));
    assert!(rt; bytes.len() == 1_025 * 2 + 41);
    Ok(())
}

// A log ends though its writer doesn't.
#[test]
fn close_gives_up(rt: HostRuntime) -> Result<(), Fail> {
    let given = nothing_given(rt.alloc(), 0)?;
    let out = Held {
        rt,
        given: Arc::try_clone(&given)?,
    };
    let (log, thread) = begin(rt, rt.alloc(), out)?;
    log.push(&rt, vec![in rt.alloc(); b'a'; 1]?);
    assert!(rt; has_begun(&rt, &given));
    thread.close(&rt);
    assert!(rt; given.bytes.lock(&rt).is_empty());
    given.is_open.store(1, Ordering::SeqCst);
    Ok(())
}

#[test]
fn told_once_a_second(rt: HostRuntime) -> Result<(), Fail> {
    let mut limiter = Limiter::new();
    assert!(rt; limiter.due(5) == None);
    limiter.add();
    assert!(rt; limiter.due(5) == Some(1));
    limiter.add();
    limiter.add();
    assert!(rt; limiter.due(5) == None);
    assert!(rt; limiter.due(6) == Some(2));
    assert!(rt; limiter.due(7) == None);
    Ok(())
}
