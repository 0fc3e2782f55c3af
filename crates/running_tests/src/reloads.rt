//! Files that are read again, and hold once the book keeps to their limits.
use crate::logs::{Given, Held, nothing_given};
use crate::pools::{Elsewhere, settings, users};
use ini_config::Settings;
use link_desk::answers::Changed;
use log_writer::log::{LogThread, begin};
use pool_run::keeping::{Keeper, ReloadError, Source};
use pool_run::log::PoolLog;
use std::alloc::Global;
use std::rt::Clock;
use std::sync::atomic::{AtomicBool, AtomicU64, Ordering};
use std::sync::{Arc, Wait};
use std::test::Fail;
use std::thread::{self, Threads, sleep};
use std::time::Duration;
use user_file::UserTable;

/// A reading that doesn't come.
const NEVER: u64 = u64::MAX;

/// Files that lead to port 2. At one of their readings, counted from 0, they can't be read.
struct Files {
    elsewhere: Elsewhere,
    readings: AtomicU64,
    vain: u64,
}

impl Drop for Files {
    fn drop(self) {
        let Files {
            elsewhere: _,
            readings: _,
            vain: _,
        } = self;
    }
}

impl Source for Files {
    fn read(&self) -> Result<(Settings, UserTable), ReloadError> {
        if self.readings.fetch_add(1, Ordering::SeqCst) == self.vain {
            return Err(ReloadError::Memory);
        }
        self.elsewhere.read()
    }
}

/// Settings of a server at port 1, and such files.
fn start_keeping<R: Wait + Drop>(
    rt: R,
    alloc: Global,
    vain: u64,
) -> Result<Keeper<R, Files>, Fail> {
    let settings = settings(alloc, 1, "").ok_or("no settings")?;
    let users = users(alloc).ok_or("no users")?;
    let elsewhere = Elsewhere {
        alloc,
        port: 2,
        options: "",
        was_asked: AtomicBool::new(true),
    };
    let source = Files {
        elsewhere,
        readings: AtomicU64::new(0),
        vain,
    };
    Ok(Keeper::new(rt, alloc, settings, users, [0; 32], source)?)
}

/// A log, what it was given, and the thread that writes it.
fn log<R: Threads + Wait + Clock + Copy + Drop + Send + 'static>(
    rt: R,
    alloc: Global,
) -> Result<(PoolLog<R>, Arc<Given>, LogThread), Fail> {
    let given = nothing_given(alloc, 1)?;
    let out = Held {
        rt,
        given: Arc::try_clone(&given)?,
    };
    let (log, writing) = begin(rt, alloc, out)?;
    Ok((PoolLog::new(rt, alloc, log), given, writing))
}

/// The port to which a client is led that comes now.
fn port<R: Wait>(files: &Keeper<R, Files>) -> Result<u16, Fail> {
    let (settings, _) = files.share()?;
    let row = settings.rows.get(b"shop").ok_or("no row")?;
    Ok(row.port)
}

#[test]
fn what_was_read_holds_once_its_limits_do(rt: HostRuntime) -> Result<(), Fail> {
    let files = start_keeping(rt, rt.alloc(), NEVER)?;
    let (log, given, writing) = log(rt, rt.alloc())?;
    assert!(rt; files.reload(&log).is_some());
    assert!(rt; port(&files)? == 1);
    files.settle(&log, Changed::Done);
    assert!(rt; port(&files)? == 2);
    writing.close(&rt);
    assert!(rt; given.bytes.lock(&rt).as_slice() == b"pgsess: reloaded\n".as_slice());
    Ok(())
}

// Nor does what was refused hold up who reads the files the next time.
#[test]
fn behind_the_last_decision_nothing_holds_that_was_read(rt: HostRuntime) -> Result<(), Fail> {
    let files = start_keeping(rt, rt.alloc(), NEVER)?;
    let (log, given, writing) = log(rt, rt.alloc())?;
    for _ in 0..2u32 {
        assert!(rt; files.reload(&log).is_some());
        files.settle(&log, Changed::Last);
        assert!(rt; port(&files)? == 1);
    }
    writing.close(&rt);
    let lines = b"pgsess: not reloaded: P12\npgsess: not reloaded: P12\n";
    assert!(rt; given.bytes.lock(&rt).as_slice() == lines.as_slice());
    Ok(())
}

/// Reads the files again, as a RELOAD does, and says so before it is settled.
fn reload_beside<R: Wait + Clock>(
    files: &Keeper<R, Files>,
    log: &PoolLog<R>,
    has_read: &AtomicBool,
) {
    if files.reload(log).is_some() {
        has_read.store(true, Ordering::SeqCst);
        files.settle(log, Changed::Done);
    }
}

#[test]
fn one_reload_waits_for_another(rt: HostRuntime) -> Result<(), Fail> {
    let files = Arc::new(rt.alloc(), start_keeping(rt, rt.alloc(), NEVER)?)?;
    let (log, given, writing) = log(rt, rt.alloc())?;
    let log = Arc::new(rt.alloc(), log)?;
    let has_read = Arc::new(rt.alloc(), AtomicBool::new(false))?;
    assert!(rt; files.reload(&log).is_some());
    let (other, its_log) = (Arc::try_clone(&files)?, Arc::try_clone(&log)?);
    let says = Arc::try_clone(&has_read)?;
    let beside = thread::spawn(&rt, move || reload_beside(&other, &its_log, &says))?;
    sleep(&rt, Duration::from_millis(200));
    assert!(rt; !has_read.load(Ordering::SeqCst));
    files.settle(&log, Changed::Done);
    beside.join(&rt);
    assert!(rt; has_read.load(Ordering::SeqCst));
    writing.close(&rt);
    let lines = b"pgsess: reloaded\npgsess: reloaded\n";
    assert!(rt; given.bytes.lock(&rt).as_slice() == lines.as_slice());
    Ok(())
}

// Of the two that wait for the first, one reads in vain.
#[test]
fn a_reload_in_vain_holds_up_no_other(rt: HostRuntime) -> Result<(), Fail> {
    let files = Arc::new(rt.alloc(), start_keeping(rt, rt.alloc(), 1)?)?;
    let (log, given, writing) = log(rt, rt.alloc())?;
    let log = Arc::new(rt.alloc(), log)?;
    let has_read = Arc::new(rt.alloc(), AtomicBool::new(false))?;
    assert!(rt; files.reload(&log).is_some());
    let mut beside = Vec::new(rt.alloc());
    for _ in 0..2u32 {
        let (other, its_log) = (Arc::try_clone(&files)?, Arc::try_clone(&log)?);
        let says = Arc::try_clone(&has_read)?;
        beside.push(thread::spawn(&rt, move || reload_beside(&other, &its_log, &says))?)?;
    }
    sleep(&rt, Duration::from_millis(200));
    files.settle(&log, Changed::Done);
    for thread in beside {
        thread.join(&rt);
    }
    assert!(rt; has_read.load(Ordering::SeqCst));
    writing.close(&rt);
    assert!(rt; given.bytes.lock(&rt).len() == 17 + 17 + 29);
    Ok(())
}
