//! Threads that do jobs, and are kept for the next ones.
//!
//! Public: `Workers`, of which `pool_run` and `stub_server` have one each, with connections for jobs. Contracts are those of the private
//! `board` alone: no more jobs lie there than threads wait, each is taken once, and a thread ends only where none is left for it. That a
//! thread wakes for its job isn't proved; `running_tests` try it. Free to change: how many threads are kept, and which job is taken
//! first.
#![tactic(auto)]

mod board;

use crate::board::Board;
use std::alloc::{AllocError, Global};
use std::rt::Clock;
use std::sync::{Arc, Condvar, CondvarTimeouts, Mutex, Wait};
use std::thread;
use std::thread::{JoinHandle, Threads};
use time_limits::IDLE_THREAD;

/// What the threads share with their owner.
#[derive(Drop)]
struct Shared<J> {
    board: Mutex<Board<J>>,
    /// A job came, or none will any more.
    bell: Condvar,
}

impl<J: Drop> Shared<J> {
    /// Leaves the job to a thread that waits; the job again where none does.
    fn leave<R: Wait>(&self, rt: &R, job: J) -> Option<J> {
        let kept = self.board.lock(rt).leave(job);
        if kept.is_none() {
            self.bell.notify_one();
        }
        kept
    }

    /// The next job of the thread at this place; none where it is to end.
    fn next<R: Wait + Clock>(&self, rt: &R, place: usize) -> Option<J> {
        let mut board = self.board.lock(rt);
        board.begin_wait();
        let mut has_waited = false;
        for _ in rt.forever() {
            if let Some(job) = board.take() {
                return Some(job);
            }
            if board.lets_go(has_waited, place) {
                return None;
            }
            let (again, waited) = self.bell.wait_timeout(rt, board, IDLE_THREAD.duration());
            board = again;
            has_waited = waited.timed_out();
        }
        unreachable!()
    }

    /// No job comes any more: who waits ends.
    fn close<R: Wait>(&self, rt: &R) {
        self.board.lock(rt).close();
        self.bell.notify_all();
    }
}

/// Threads that do jobs. One that is done waits for the next job, and another is started only where none waits, so that there are
/// never more than jobs were to be done at once. What a thread has of its own it keeps from one job to the next. Of those that have waited
/// for [`IDLE_THREAD`] all but eight end; they are joined when the next job comes. Where the workers are let go without
/// [`Workers::join_all`], their threads wait until the program ends.
#[derive(Drop)]
pub struct Workers<J> {
    shared: Arc<Shared<J>>,
    threads: Vec<Option<JoinHandle<()>>>,
    /// The places of `threads` where none is.
    free: Vec<usize>,
}

impl<J: Drop> Workers<J> {
    /// No thread was started yet. The only error is that an allocation failed.
    pub fn new(alloc: Global) -> Result<Workers<J>, AllocError> {
        let shared = Shared {
            board: Mutex::new(Board::new(alloc)),
            bell: Condvar::new(),
        };
        Ok(Workers {
            shared: Arc::new(alloc, shared)?,
            threads: Vec::new(alloc),
            free: Vec::new(alloc),
        })
    }

    /// Joins the threads that have ended.
    fn join_ended<R: Threads + Wait>(&mut self, rt: &R) {
        for _ in 0..self.threads.len() {
            let Some(place) = self.shared.board.lock(rt).ended() else {
                return;
            };
            if place < self.threads.len() {
                if let Some(thread) = self.threads[place].take() {
                    thread.join(rt);
                }
                // there is room: it was reserved with the place
                let _ = self.free.push(place);
            }
        }
    }

    /// A place where no thread is, with room for it among those that have ended and those that are free.
    fn free_place<R: Wait>(&mut self, rt: &R) -> Result<usize, AllocError> {
        if let Some(place) = self.free.pop() {
            return Ok(place);
        }
        let place = self.threads.len();
        self.shared.board.lock(rt).make_room(place + 1)?;
        self.free.reserve(place + 1)?;
        self.threads.push(None)?;
        Ok(place)
    }

    /// Waits until all jobs are done, and all threads have ended.
    pub fn join_all<R: Threads + Wait>(self, rt: &R) {
        self.shared.close(rt);
        for thread in self.threads {
            if let Some(thread) = thread {
                thread.join(rt);
            }
        }
    }
}

impl<J: Drop + Send + 'static> Workers<J> {
    /// Has the job done by a thread that waits for one, or by a new one where none does: that one does by `serve` this job and those
    /// that are left to it later, with what it keeps, which is nothing at first. The error is that the system has no more threads, or that
    /// an allocation failed; the job is then dropped, and isn't done.
    pub fn start<
        R: Threads + Wait + Clock + Copy + Send + 'static,
        T: Drop + Send + 'static,
        S: Fn(&mut Option<T>, J) + Copy + Send + Drop + 'static,
    >(&mut self, rt: R, job: J, serve: S) -> Result<(), AllocError>
        requires { S.IsAlwaysCallable serve }
    {
        self.join_ended(&rt);
        match self.shared.leave(&rt, job) {
            Some(job) => self.start_thread::<R, T, S>(rt, job, serve),
            None => Ok(()),
        }
    }

    /// Starts a thread whose first job is this.
    fn start_thread<
        R: Threads + Wait + Clock + Copy + Send + 'static,
        T: Drop + Send + 'static,
        S: Fn(&mut Option<T>, J) + Copy + Send + Drop + 'static,
    >(&mut self, rt: R, job: J, serve: S) -> Result<(), AllocError>
        requires { S.IsAlwaysCallable serve }
    {
        let place = self.free_place(&rt)?;
        let Ok(thread) = spawned::<R, J, T, S>(rt, &self.shared, place, job, serve) else {
            // there is room: it was reserved with the place
            let _ = self.free.push(place);
            return Err(AllocError);
        };
        if place < self.threads.len() {
            self.threads[place] = Some(thread);
        }
        Ok(())
    }
}

/// The thread at this place, whose first job is this.
fn spawned<
    R: Threads + Wait + Clock + Copy + Send + 'static,
    J: Drop + Send + 'static,
    T: Drop + Send + 'static,
    S: Fn(&mut Option<T>, J) + Copy + Send + Drop + 'static,
>(
    rt: R,
    shared: &Arc<Shared<J>>,
    place: usize,
    first: J,
    serve: S,
) -> Result<JoinHandle<()>, AllocError>
    requires { S.IsAlwaysCallable serve }
{
    let shared = Arc::try_clone(shared)?;
    let thread = thread::spawn(
        &rt,
        move || -> ()
            requires { S.IsAlwaysCallable serve }
        { work::<R, J, T, S>(&rt, &shared, place, first, serve) },
    )?;
    Ok(thread)
}

/// Does this job, and then the next ones.
fn work<R: Wait + Clock, J: Drop, T: Drop, S: Fn(&mut Option<T>, J)>(
    rt: &R,
    shared: &Shared<J>,
    place: usize,
    first: J,
    serve: S,
)
    requires { S.IsAlwaysCallable serve }
{
    let mut kept = None::<T>;
    serve(&mut kept, first);
    for _ in rt.forever() {
        match shared.next(rt, place) {
            Some(job) => serve(&mut kept, job),
            None => return,
        }
    }
}
