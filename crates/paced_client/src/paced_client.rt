//! A client in memory that waits for its answers.
ghost use Rattle.std.specs.Prelude.{◌≡◌, ◌<◌, ◌≤◌, ◌++◌, length, IfOk, OnOk, OnErr, take};
ghost use Rattle.memory_ends.specs.Clients.{is_broken};
ghost use Rattle.server_end.specs.Moves.{ClientReads, ClientWrites, IsWithin, moved};
ghost use Rattle.paced_client.specs.Pauses.{allowed_to_hand_out};
ghost use Rattle.paced_client.specs.Paced.{ReadsPaced, WritesPaced, facts_of, has_ended, new_client};

use crate::pauses::{Heard, pauses};
use bytes::BytesMut;
use frame_view::laws::are_bytes;
use server_end::{ClientEnd, Moved};
use std::alloc::{AllocError, Global};
use std::marker::Model;

/// A client in memory that waits for its answers: it hands out its StartupMessage, and then its frames up to one closing
/// message at a time (Query, FunctionCall, Sync), and nothing further until it was given a ReadyForQuery for each. It keeps
/// what it was given. Its login asks for no password.
///
/// A server drops closing messages unanswered between an error of an extended message and the next Sync; a client that sends
/// a Query or FunctionCall there waits for ever.
pub struct PacedClient {
    input: BytesMut,
    /// So many bytes of the input were taken.
    at: usize,
    /// The places of the input where it waits for a ReadyForQuery.
    pauses: Vec<usize>,
    given: BytesMut,
    heard: Heard,
    cut: usize,
    faults: u64,
    waits: u64,
}

impl Drop for PacedClient {
    fn drop(self) {
        let PacedClient {
            input: _,
            at: _,
            pauses: _,
            given: _,
            heard: _,
            cut: _,
            faults: _,
            waits: _,
        } = self;
    }
}

impl Model for PacedClient {
    ghost use Rattle.paced_client.specs.Paced.{PacedOf};
    ghost use Rattle.paced_client.specs.Standing.{IsPaced};

    ghost Value = { PacedOf };

    ghost view = { λ m. record { input = m.input.items; at = m.at; given = m.given.items; cut = m.cut; faults = m.faults; waits = m.waits } };

    ghost invariant = { λ m. IsPaced m.input.items m.at m.pauses.items m.given.items m.heard m.cut };
}

impl PacedClient {
    /// A client with this input, of whose bytes a call moves at most `cut`. Bytes after its last whole frame go out with the
    /// frames after its last closing message. An input that begins with no StartupMessage goes out whole at first. The only
    /// error is that an allocation failed.
    pub fn new(alloc: Global, input: &[u8], cut: usize) -> Result<PacedClient, AllocError>
        requires { 0 < cut }
        ensures { IfOk result (λ c. c ≡ new_client input.now cut) }
    {
        are_bytes(input);
        Ok(PacedClient {
            input: BytesMut::copy_from_slice(alloc, input)?,
            at: 0,
            pauses: pauses(alloc, input)?,
            given: BytesMut::new(alloc),
            heard: Heard { end: 0, readies: 0 },
            cut,
            faults: 0,
            waits: 0,
        })
    }

    /// All bytes that were taken from it.
    pub fn taken(&self) -> &[u8]
        ensures { result.now ≡ take self.now.at self.now.input }
    {
        &self.input.as_slice()[..self.at]
    }

    /// All bytes that it was given.
    pub fn given(&self) -> &[u8]
        ensures { result.now ≡ self.now.given }
    {
        self.given.as_slice()
    }

    /// How many bytes of the input may be handed out by now.
    fn allowed(&self) -> usize
        ensures allowed { result ≡ allowed_to_hand_out self.now.input self.now.given }
        ensures taken { self.now.at ≤ result }
        ensures within { result ≤ length self.now.input }
    {
        if self.heard.readies < self.pauses.len() {
            return self.pauses[self.heard.readies];
        }
        self.input.len()
    }

    fn is_broken(&self) -> bool
        ensures { result ≡ is_broken self.now.faults self.now.waits }
    {
        self.faults > 0 || self.waits == u64::MAX
    }

    fn has_ended(&self) -> bool
        ensures { result ≡ has_ended self.now }
    {
        let all_answered = self.pauses.len() <= self.heard.readies;
        self.is_broken() || all_answered && self.at == self.input.len()
    }

    /// [`ClientEnd::read_some`] of this client.
    ///
    /// [`Moved::NotNow`]: it waits for an answer. [`Moved::Ended`]: all was read and answered, or it ended by a fault or the
    /// last count.
    pub fn read(&mut self, into: &mut [u8]) -> Moved
        requires { 0 < length into.old }
        ensures within { IsWithin result (length into.old) }
        ensures facts { ClientReads (facts_of self.old) (facts_of self.new) (moved result into.new) result }
        ensures reads { ReadsPaced self.old self.new result }
    {
        if self.has_ended() {
            return Moved::Ended;
        }
        let count = self.cut.min(into.len()).min(self.allowed() - self.at);
        if count == 0 {
            self.waits += 1;
            return Moved::NotNow;
        }
        let unread = &self.input.as_slice()[self.at..];
        into[..count].copy_from_slice(&unread[..count]);
        self.at += count;
        Moved::Count(count)
    }

    /// Keeps these bytes, and hears the answers among them. The only error is that an allocation failed, which changes nothing.
    fn keep(&mut self, bytes: &[u8]) -> Result<(), AllocError>
        ensures ok { OnOk result (self.new ≡ record self.old { given = self.old.given ++ bytes.now }) }
        ensures err { OnErr result (self.new ≡ self.old) }
    {
        self.given.extend_from_slice(bytes)?;
        self.heard.hear(self.given.as_slice());
        Ok(())
    }

    /// [`ClientEnd::write_some`] of this client, also after all was answered. It never answers [`Moved::NotNow`].
    ///
    /// [`Moved::Ended`]: it ended by a fault or the last count. [`Moved::Fault`]: an allocation failed, which ends it.
    pub fn write(&mut self, from: &[u8]) -> Moved
        requires { 0 < length from.now }
        ensures within { IsWithin result (length from.now) }
        ensures facts { ClientWrites (facts_of self.old) (facts_of self.new) (moved result from.now) result }
        ensures writes { WritesPaced self.old from.now self.new result }
    {
        if self.is_broken() {
            return Moved::Ended;
        }
        let count = self.cut.min(from.len());
        match self.keep(&from[..count]) {
            Ok(()) => Moved::Count(count),
            Err(_) => {
                self.faults += 1;
                Moved::Fault
            }
        }
    }
}

impl ClientEnd for PacedClient {
    ghost facts = { λ m. facts_of m };

    fn read_some(&mut self, into: &mut [u8]) -> Moved {
        self.read(into)
    }

    fn write_some(&mut self, from: &[u8]) -> Moved {
        self.write(from)
    }

    fn faults(&self) -> u64 {
        self.faults
    }

    fn waits(&self) -> (u64, u64) {
        (self.waits, 0)
    }
}
