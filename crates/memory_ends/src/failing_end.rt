//! An end that fails from one of its calls on.
ghost use Rattle.std.specs.Prelude.{◌≡◌, ◌<◌, ◌-◌, [], length};
ghost use Rattle.link_model.specs.Standing.{Moves};
ghost use Rattle.memory_ends.specs.Failing.{Counts, Fails, IsCall, failing_client, failing_server};
ghost use Rattle.server_end.specs.Moves.{ClientReads, ClientWrites, CountsRead, CountsWrite, IsWithin, moved};
ghost use Rattle.memory_ends.specs.declared.failing_end.Calls.TheVariants.{Good};

use server_end::{ClientEnd, Moved, ServerEnd};

/// How many more calls go to the end inside; or that the end fails, and how many faults were counted in all.
#[derive(Clone, Copy, Drop)]
enum Calls {
    Good(u64),
    Failed(u64),
}

/// An end that is the one inside up to one of its reads and writes, and answers [`Moved::Fault`] to that one and to every later
/// one. At the last count that a number of eight bytes has it answers [`Moved::Ended`].
pub struct FailingEnd<E: Drop> {
    inner: E,
    calls: Calls,
}

impl<E: Drop> Drop for FailingEnd<E> {
    fn drop(self) {
        let FailingEnd { inner: _, calls: _ } = self;
    }
}

impl Calls {
    /// One more fault.
    fn fail(&mut self, faults: u64) -> Moved
        ensures { Counts faults self.new result }
    {
        if faults == u64::MAX {
            *self = Calls::Failed(faults);
            return Moved::Ended;
        }
        *self = Calls::Failed(faults + 1);
        Moved::Fault
    }

    /// What a call comes to that doesn't go to the end inside, which has counted so many faults.
    fn failure(&mut self, inner: u64) -> Option<Moved>
        ensures { Fails self.old self.new inner result }
    {
        match *self {
            Calls::Good(0) => Some(self.fail(inner)),
            Calls::Good(count) => {
                *self = Calls::Good(count - 1);
                None
            }
            Calls::Failed(faults) => Some(self.fail(faults)),
        }
    }
}

impl<E: Drop> FailingEnd<E> {
    /// An end that fails from its call number `nth` on; its first call is number 1.
    pub fn new(inner: E, nth: u64) -> FailingEnd<E>
        requires { 0 < nth }
        ensures inner { result.inner ≡ inner }
        ensures calls { result.calls ≡ Good (nth - 1) }
    {
        FailingEnd {
            inner,
            calls: Calls::Good(nth - 1),
        }
    }
}

impl<E: ServerEnd> ServerEnd for FailingEnd<E> {
    ghost standing = { λ f. failing_server f.calls (E.standing f.inner) };

    #[tactic(auto, using(crate::proofs::Failing::call_fails, crate::proofs::Failing::call_passes, crate::proofs::Failing::read_fails, crate::proofs::Failing::read_counts_fail, crate::proofs::Failing::read_passes, crate::proofs::Failing::read_counts_pass))]
    fn read_some(&mut self, into: &mut [u8]) -> Moved
        requires { 0 < length into.old }
        ensures within { IsWithin result (length into.old) }
        ensures moves { Moves (failing_server self.old.calls (E.standing self.old.inner)) [] (failing_server self.new.calls (E.standing self.new.inner)) (moved result into.new) }
        ensures counts { CountsRead (failing_server self.old.calls (E.standing self.old.inner)) (failing_server self.new.calls (E.standing self.new.inner)) result }
        ensures call { IsCall self.old.calls self.new.calls self.old.inner self.new.inner (E.standing self.old.inner).faults result }
    {
        let faults = self.inner.faults();
        match self.calls.failure(faults) {
            Some(answer) => answer,
            None => self.inner.read_some(into),
        }
    }

    #[tactic(auto, using(crate::proofs::Failing::call_fails, crate::proofs::Failing::call_passes, crate::proofs::Failing::write_fails, crate::proofs::Failing::write_counts_fail, crate::proofs::Failing::write_passes, crate::proofs::Failing::write_counts_pass))]
    fn write_some(&mut self, from: &[u8]) -> Moved
        requires { 0 < length from.now }
        ensures within { IsWithin result (length from.now) }
        ensures moves { Moves (failing_server self.old.calls (E.standing self.old.inner)) (moved result from.now) (failing_server self.new.calls (E.standing self.new.inner)) [] }
        ensures counts { CountsWrite (failing_server self.old.calls (E.standing self.old.inner)) (failing_server self.new.calls (E.standing self.new.inner)) result }
        ensures call { IsCall self.old.calls self.new.calls self.old.inner self.new.inner (E.standing self.old.inner).faults result }
    {
        let faults = self.inner.faults();
        match self.calls.failure(faults) {
            Some(answer) => answer,
            None => self.inner.write_some(from),
        }
    }

    fn faults(&self) -> u64 {
        match self.calls {
            Calls::Good(_) => self.inner.faults(),
            Calls::Failed(faults) => faults,
        }
    }

    fn waits(&self) -> (u64, u64) {
        self.inner.waits()
    }
}

impl<E: ClientEnd> ClientEnd for FailingEnd<E> {
    ghost facts = { λ f. failing_client f.calls (E.facts f.inner) };

    #[tactic(auto, using(crate::proofs::Failing::call_fails, crate::proofs::Failing::call_passes, crate::proofs::Failing::client_read_fails, crate::proofs::Failing::client_read_passes))]
    fn read_some(&mut self, into: &mut [u8]) -> Moved
        requires { 0 < length into.old }
        ensures within { IsWithin result (length into.old) }
        ensures reads { ClientReads (failing_client self.old.calls (E.facts self.old.inner)) (failing_client self.new.calls (E.facts self.new.inner)) (moved result into.new) result }
        ensures call { IsCall self.old.calls self.new.calls self.old.inner self.new.inner (E.facts self.old.inner).faults result }
    {
        let faults = self.inner.faults();
        match self.calls.failure(faults) {
            Some(answer) => answer,
            None => self.inner.read_some(into),
        }
    }

    #[tactic(auto, using(crate::proofs::Failing::call_fails, crate::proofs::Failing::call_passes, crate::proofs::Failing::client_write_fails, crate::proofs::Failing::client_write_passes))]
    fn write_some(&mut self, from: &[u8]) -> Moved
        requires { 0 < length from.now }
        ensures within { IsWithin result (length from.now) }
        ensures writes { ClientWrites (failing_client self.old.calls (E.facts self.old.inner)) (failing_client self.new.calls (E.facts self.new.inner)) (moved result from.now) result }
        ensures call { IsCall self.old.calls self.new.calls self.old.inner self.new.inner (E.facts self.old.inner).faults result }
    {
        let faults = self.inner.faults();
        match self.calls.failure(faults) {
            Some(answer) => answer,
            None => self.inner.write_some(from),
        }
    }

    fn faults(&self) -> u64 {
        match self.calls {
            Calls::Good(_) => self.inner.faults(),
            Calls::Failed(faults) => faults,
        }
    }

    fn waits(&self) -> (u64, u64) {
        self.inner.waits()
    }
}
