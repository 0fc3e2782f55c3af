//! A client in memory that waits for its answers.
ghost use Rattle.std.specs.Prelude.{◌≡◌, ◌<◌, ◌≤◌, false, length, nat_lt, true, IfOk};
ghost use Rattle.server_end.specs.Moves.{ClientReads, ClientWrites, IsWithin, moved};
ghost use Rattle.memory_lease.specs.Patient.{IsGiven, new_patient};

use bytes::BytesMut;
use frame_view::{MAX_FRAME, Side, Step, next_frame};
use server_end::{ClientEnd, Moved};
use std::alloc::{AllocError, Global};
use std::marker::Model;

/// A client that sends one frame after the other, and the next one only after a turn in which it was given nothing; what stands
/// behind its last whole frame comes last, as one. Then it hangs up.
pub(crate) struct PatientClient<'a> {
    input: &'a [u8],
    /// So many bytes of the input were taken.
    at: usize,
    /// The end of the frame that is being taken.
    border: usize,
    given: BytesMut,
    cut: usize,
    /// It stands at a border, and was given nothing since its last read.
    rests: bool,
    hung_up: bool,
    faults: u64,
    waits: u64,
}

impl<'a> Drop for PatientClient<'a> {
    fn drop(self) {
        let PatientClient {
            input: _,
            at: _,
            border: _,
            given: _,
            cut: _,
            rests: _,
            hung_up: _,
            faults: _,
            waits: _,
        } = self;
    }
}

impl<'a> Model for PatientClient<'a> {
    ghost use Rattle.std.specs.Prelude.{◌≡◌, ◌<◌, ◌≤◌, length, true};
    ghost use Rattle.memory_lease.specs.Patient.{PatientOf, patient_view};

    ghost Value = { PatientOf };

    ghost view = { λ c. patient_view c.input.now c.at c.border c.given.items c.hung_up c.faults c.waits };

    ghost invariant = { λ c. (0 < c.cut) × (c.at ≤ c.border) × (c.border ≤ length c.input.now) × (c.hung_up ≡ true → c.at ≡ length c.input.now) };
}

/// The end of the whole frame that stands there; where none does, the end of all bytes.
fn frame_end(input: &[u8], at: usize) -> usize
    requires { at < length input.now }
    ensures some { at < result }
    ensures within { result ≤ length input.now }
{
    match next_frame(input, at, MAX_FRAME, Side::Client) {
        Step::Whole(frame) => at + frame.whole.len(),
        _ => input.len(),
    }
}

impl<'a> PatientClient<'a> {
    /// A client with this input, of whose bytes a call moves at most `cut`.
    pub(crate) fn new(alloc: Global, input: &'a [u8], cut: usize) -> PatientClient<'a>
        requires { 0 < cut }
        ensures { result ≡ new_patient input.now }
    {
        PatientClient {
            input,
            at: 0,
            border: 0,
            given: BytesMut::new(alloc),
            cut,
            rests: false,
            hung_up: false,
            faults: 0,
            waits: 0,
        }
    }

    /// All that it was given, where no fault ended it: so it has ended only where its whole input was taken. The only error is that
    /// one did: an allocation failed.
    pub(crate) fn into_given(self) -> Result<BytesMut, AllocError>
        ensures given { IfOk result (λ out. IsGiven self.entry out.items) }
        ensures faults { IfOk result (λ _. self.entry.facts.faults ≡ 0) }
        ensures all { IfOk result (λ _. self.entry.facts.ended ≡ true → self.entry.facts.taken ≡ self.entry.input) }
    {
        if self.is_broken() {
            return Err(AllocError);
        }
        let PatientClient {
            input: _,
            at: _,
            border: _,
            given,
            cut: _,
            rests: _,
            hung_up: _,
            faults: _,
            waits: _,
        } = self;
        Ok(given)
    }

    /// Whether it answers [`Moved::Ended`] to a read from now on.
    fn has_ended(&self) -> bool
        ensures { result ≡ self.now.facts.ended }
    {
        self.is_broken() || self.hung_up
    }

    fn is_broken(&self) -> bool
        ensures { result ≡ nat_lt 0 self.now.facts.faults }
    {
        self.faults > 0
    }

    /// [`ClientEnd::read_some`] of this client.
    ///
    /// [`Moved::NotNow`]: it waits for answers, once at each border of its frames, and again after each turn that brought some; at
    /// the last count it waits no more. [`Moved::Ended`]: it has hung up, or ended by a fault.
    fn read(&mut self, into: &mut [u8]) -> Moved
        requires { 0 < length into.old }
        ensures within { IsWithin result (length into.old) }
        ensures facts { ClientReads self.old.facts self.new.facts (moved result into.new) result }
    {
        if self.has_ended() {
            return Moved::Ended;
        }
        if self.at == self.border {
            if !self.rests && self.waits < u64::MAX {
                self.rests = true;
                self.waits += 1;
                return Moved::NotNow;
            }
            if self.at == self.input.len() {
                self.hung_up = true;
                return Moved::Ended;
            }
            self.border = frame_end(self.input, self.at);
            self.rests = false;
        }
        self.hand_out(into)
    }

    /// Gives bytes of the frame that is being taken.
    fn hand_out(&mut self, into: &mut [u8]) -> Moved
        requires room { 0 < length into.old }
        requires living { self.old.facts.ended ≡ false }
        requires inside { self.old.at < self.old.border }
        ensures within { IsWithin result (length into.old) }
        ensures facts { ClientReads self.old.facts self.new.facts (moved result into.new) result }
    {
        let count = self.cut.min(into.len()).min(self.border - self.at);
        let unread = &self.input[self.at..];
        into[..count].copy_from_slice(&unread[..count]);
        self.at += count;
        Moved::Count(count)
    }

    /// [`ClientEnd::write_some`] of this client, also after it hung up.
    ///
    /// [`Moved::Ended`]: it ended by a fault. [`Moved::Fault`]: an allocation failed, which ends it.
    fn write(&mut self, from: &[u8]) -> Moved
        requires { 0 < length from.now }
        ensures within { IsWithin result (length from.now) }
        ensures facts { ClientWrites self.old.facts self.new.facts (moved result from.now) result }
    {
        if self.is_broken() {
            return Moved::Ended;
        }
        self.rests = false;
        let count = self.cut.min(from.len());
        match self.given.extend_from_slice(&from[..count]) {
            Ok(()) => Moved::Count(count),
            Err(_) => {
                self.faults += 1;
                Moved::Fault
            }
        }
    }
}

impl<'a> ClientEnd for PatientClient<'a> {
    ghost facts = { λ c. c.facts };

    fn read_some(&mut self, into: &mut [u8]) -> Moved {
        self.read(into)
    }

    fn write_some(&mut self, from: &[u8]) -> Moved {
        self.write(from)
    }

    fn faults(&self) -> u64 {
        self.faults
    }

    fn waits(&self) -> (u64, u64) {
        (self.waits, 0)
    }
}
