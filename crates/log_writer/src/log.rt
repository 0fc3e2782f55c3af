//! The thread that writes the log.

use crate::queue::{MAX_LINE, Next, Queue};
use log_lines::events::{Event, put_event};
use log_lines::lines::put_note;
use log_lines::notes::{Client, Note};
use std::alloc::{AllocError, Global};
use std::io::Write;
use std::rt::Clock;
use std::sync::{Arc, Condvar, Mutex, Wait};
use std::thread::{self, JoinHandle, Threads};
use time_limits::LOG_END;

/// What the thread shares with those that tell the log.
#[derive(Drop)]
struct State {
    queue: Queue,
    /// Nothing is logged any more.
    is_closed: bool,
    /// The thread has ended.
    is_done: bool,
}

/// A log. What is logged waits in a queue, from which one thread writes it: nobody else waits for that.
#[derive(Drop)]
pub struct Log {
    state: Mutex<State>,
    changed: Condvar,
}

impl Log {
    fn new(alloc: Global) -> Result<Log, AllocError> {
        let state = State {
            queue: Queue::new(alloc)?,
            is_closed: false,
            is_done: false,
        };
        Ok(Log {
            state: Mutex::new(state),
            changed: Condvar::new(),
        })
    }

    /// A line more, without its end. Where [`crate::queue::MAX_LINES`] wait it is dropped and counted. The lock is held for as
    /// long as a line takes to move.
    pub fn push<R: Wait>(&self, rt: &R, line: Vec<u8>) {
        self.state.lock(rt).queue.push(line);
        self.changed.notify_all();
    }

    /// A line is counted as dropped for which there is no memory.
    fn lose<R: Wait>(&self, rt: &R) {
        self.state.lock(rt).queue.count_drop();
        self.changed.notify_all();
    }

    /// Tells of a client, so many milliseconds after it came, where they are known.
    pub fn note<R: Wait>(
        &self,
        rt: &R,
        alloc: Global,
        client: &Client<'_>,
        note: Note<'_>,
        ms: Option<u64>,
    ) {
        let mut line = Vec::new(alloc);
        match put_note(&mut line, client, note, ms) {
            Ok(()) => self.push(rt, line),
            Err(_) => self.lose(rt),
        }
    }

    /// Tells of the program itself.
    pub fn event<R: Wait>(&self, rt: &R, alloc: Global, event: Event<'_>) {
        let mut line = Vec::new(alloc);
        match put_event(&mut line, event) {
            Ok(()) => self.push(rt, line),
            Err(_) => self.lose(rt),
        }
    }

    /// Waits for what is to be written next. None: the log is closed, and nothing waits.
    fn next<R: Wait>(&self, rt: &R) -> Option<Next> {
        let mut state = self.state.lock(rt);
        for _ in rt.forever() {
            if let Some(next) = state.queue.take() {
                return Some(next);
            }
            if state.is_closed {
                return None;
            }
            state = self.changed.wait(rt, state);
        }
        unreachable!()
    }

    /// Writes what waits, and what comes until the log is closed: each line by one write, where the writer takes so much. Where
    /// nobody reads the log, lines are lost.
    fn write_all<R: Wait, W: Write>(&self, rt: &R, line: &mut Vec<u8>, out: &mut W) {
        for _ in rt.forever() {
            let Some(next) = self.next(rt) else {
                return;
            };
            line.clear();
            if put_line(line, next).is_ok() {
                let _ = out.write_all(line);
            }
        }
    }

    /// The thread has ended.
    fn end<R: Wait>(&self, rt: &R) {
        self.state.lock(rt).is_done = true;
        self.changed.notify_all();
    }
}

/// Puts a line and its end into an empty buffer, which has room for both.
fn put_line(line: &mut Vec<u8>, next: Next) -> Result<(), AllocError> {
    match next {
        Next::Line(bytes) => line.extend_from_slice(&bytes)?,
        Next::Dropped(count) => put_event(line, Event::Dropped(count))?,
    }
    line.push(b'\n')?;
    Ok(())
}

/// The thread of a log. Where it is let go it isn't closed: it waits, and is cut off when the program ends.
#[derive(Drop)]
pub struct LogThread {
    log: Arc<Log>,
    thread: JoinHandle<()>,
}

/// Begins a log, whose thread writes to this writer. The errors are that the system has no more threads, or that an allocation
/// failed. Afterwards the thread takes no memory.
pub fn begin<R: Threads + Wait + Copy + Send + 'static, W: Write + Drop + Send + 'static>(
    rt: R,
    alloc: Global,
    out: W,
) -> Result<(Arc<Log>, LogThread), AllocError> {
    let line = Vec::with_capacity(alloc, MAX_LINE + 1)?;
    let log = Arc::new(alloc, Log::new(alloc)?)?;
    let (handed, shared) = (Arc::try_clone(&log)?, Arc::try_clone(&log)?);
    let thread = thread::spawn(&rt, move || {
        let mut out = out;
        let mut line = line;
        shared.write_all(&rt, &mut line, &mut out);
        shared.end(&rt);
    })?;
    Ok((handed, LogThread { log, thread }))
}

impl LogThread {
    /// Closes the log, and waits until all that waits is written, but no longer than [`LOG_END`]: a thread that writes to a pipe
    /// whose reader has stopped never ends, and can't be joined. It is then cut off when the program ends.
    pub fn close<R: Threads + Wait + Clock>(self, rt: &R) {
        let LogThread { log, thread } = self;
        log.state.lock(rt).is_closed = true;
        log.changed.notify_all();
        let (state, waited) = log.changed.wait_timeout_while(
            rt,
            log.state.lock(rt),
            LOG_END.duration(),
            |state| !state.is_done,
        );
        drop(state);
        if !waited.timed_out() {
            thread.join(rt);
        }
    }
}
