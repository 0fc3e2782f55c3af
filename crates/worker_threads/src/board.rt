//! What threads and their owner tell one another.
ghost use Rattle.std.specs.Prelude.{◌≡◌, ◌≤◌, ◌<◌, ◌+◌, ◌-◌, if◌then◌else◌, ◌++◌, ◌∷◌, [], ◌||◌, ◌&&◌, ◌⊎◌, true, nat_lt, MatchOption, OnOk, OnSome, vec_capacity, vec_len};
ghost use Rattle.worker_threads.specs.declared.board.TheConstants.{KEPT};

use std::alloc::{AllocError, Global};

/// So many threads that wait are kept for as long as it takes.
const KEPT: usize = 8;

/// The jobs that are to be done, and the threads that wait for one. No more jobs are here than threads wait: each is done at once.
#[derive(Drop)]
pub(crate) struct Board<J> {
    jobs: Vec<J>,
    waiting: usize,
    /// The places of the threads that have ended.
    ended: Vec<usize>,
    /// No job comes any more.
    is_closed: bool,
    ghost awaited: { vec_len jobs ≤ waiting },
}

impl<J: Drop> Board<J> {
    pub(crate) fn new(alloc: Global) -> Board<J>
        ensures jobs { result.jobs.items ≡ [] }
        ensures waiting { result.waiting ≡ 0 }
    {
        Board {
            jobs: Vec::new(alloc),
            waiting: 0,
            ended: Vec::new(alloc),
            is_closed: false,
        }
    }

    /// Leaves the job to a thread that waits and to which none was left. The job again where there is no such thread, or no room for
    /// it and an allocation failed.
    pub(crate) fn leave(&mut self, job: J) -> Option<J>
        ensures left { MatchOption result (self.new.jobs.items ≡ self.old.jobs.items ++ job ∷ []) (λ kept. (kept ≡ job) × (self.new.jobs.items ≡ self.old.jobs.items)) }
        ensures kept { OnSome result ((self.old.waiting ≤ vec_len self.old.jobs) ⊎ (vec_capacity self.old.jobs ≤ vec_len self.old.jobs)) }
        ensures waiting { self.new.waiting ≡ self.old.waiting }
        ensures ended { self.new.ended.items ≡ self.old.ended.items }
        ensures closed { self.new.is_closed ≡ self.old.is_closed }
    {
        if self.jobs.len() >= self.waiting {
            return Some(job);
        }
        match self.jobs.push(job) {
            Ok(()) => None,
            Err(failed) => Some(failed.value),
        }
    }

    /// A thread waits for a job from now on.
    pub(crate) fn begin_wait(&mut self)
        ensures jobs { self.new.jobs.items ≡ self.old.jobs.items }
        ensures waiting { self.old.waiting < usize.MAX → self.new.waiting ≡ self.old.waiting + 1 }
        ensures ended { self.new.ended.items ≡ self.old.ended.items }
        ensures closed { self.new.is_closed ≡ self.old.is_closed }
    {
        self.waiting = self.waiting.saturating_add(1);
    }

    /// The job that a thread finds that waited. None: there is none.
    pub(crate) fn take(&mut self) -> Option<J>
        ensures jobs { MatchOption result ((self.old.jobs.items ≡ []) × (self.new.jobs.items ≡ [])) (λ job. self.old.jobs.items ≡ self.new.jobs.items ++ job ∷ []) }
        ensures waiting { MatchOption result (self.new.waiting ≡ self.old.waiting) (λ _. self.old.waiting ≡ self.new.waiting + 1) }
        ensures ended { self.new.ended.items ≡ self.old.ended.items }
        ensures closed { self.new.is_closed ≡ self.old.is_closed }
    {
        let job = self.jobs.pop()?;
        self.waiting -= 1;
        Some(job)
    }

    /// Whether the thread at this place is to end, that waited and found no job. It then waits no more.
    pub(crate) fn lets_go(&mut self, has_waited: bool, place: usize) -> bool
        requires { self.old.jobs.items ≡ [] }
        ensures ends { result ≡ (self.old.is_closed || (has_waited && nat_lt KEPT self.old.waiting)) }
        ensures jobs { self.new.jobs.items ≡ [] }
        ensures waiting { self.new.waiting ≡ (if result then self.old.waiting - 1 else self.old.waiting) }
        ensures ended { vec_len self.old.ended < vec_capacity self.old.ended → self.new.ended.items ≡ (if result then self.old.ended.items ++ place ∷ [] else self.old.ended.items) }
        ensures closed { self.new.is_closed ≡ self.old.is_closed }
    {
        let ends = self.is_closed || (has_waited && self.waiting > KEPT);
        if ends {
            self.waiting = self.waiting.saturating_sub(1);
            // there is room: it was made with the place
            let _ = self.ended.push(place);
        }
        ends
    }

    /// The place of a thread that has ended, told once.
    pub(crate) fn ended(&mut self) -> Option<usize>
        ensures place { MatchOption result ((self.old.ended.items ≡ []) × (self.new.ended.items ≡ [])) (λ place. self.old.ended.items ≡ self.new.ended.items ++ place ∷ []) }
        ensures jobs { self.new.jobs.items ≡ self.old.jobs.items }
        ensures waiting { self.new.waiting ≡ self.old.waiting }
        ensures closed { self.new.is_closed ≡ self.old.is_closed }
    {
        self.ended.pop()
    }

    /// Makes room for so many places of threads that have ended, and a job for each. The only error is that an allocation failed.
    pub(crate) fn make_room(&mut self, places: usize) -> Result<(), AllocError>
        ensures room { OnOk result ((places ≤ vec_capacity self.new.jobs) × (places ≤ vec_capacity self.new.ended)) }
        ensures jobs { self.new.jobs.items ≡ self.old.jobs.items }
        ensures waiting { self.new.waiting ≡ self.old.waiting }
        ensures ended { self.new.ended.items ≡ self.old.ended.items }
        ensures closed { self.new.is_closed ≡ self.old.is_closed }
    {
        self.ended.reserve(places)?;
        self.jobs.reserve(places)?;
        Ok(())
    }

    /// No job comes any more: who finds none ends.
    pub(crate) fn close(&mut self)
        ensures jobs { self.new.jobs.items ≡ self.old.jobs.items }
        ensures waiting { self.new.waiting ≡ self.old.waiting }
        ensures ended { self.new.ended.items ≡ self.old.ended.items }
        ensures closed { self.new.is_closed ≡ true }
    {
        self.is_closed = true;
    }
}
