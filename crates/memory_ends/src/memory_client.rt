//! A client in memory.
ghost use Rattle.std.specs.Prelude.{◌≡◌, ◌<◌, length, IfOk, OnOk, OnErr};
ghost use Rattle.server_end.specs.Moves.{ClientReads, ClientWrites, IsWithin, moved};
ghost use Rattle.memory_ends.specs.Clients.{ReadsClient, WritesClient, after_hang_up, fed, is_broken, new_client};

use bytes::BytesMut;
use server_end::{ClientEnd, Moved};
use std::alloc::{AllocError, Global};
use std::marker::Model;

/// A client in memory: it hands out its input, and keeps what it was given.
pub struct MemoryClient {
    input: BytesMut,
    /// So many bytes of the input were taken.
    at: usize,
    given: BytesMut,
    cut: usize,
    hung_up: bool,
    faults: u64,
    waits: u64,
}

impl Drop for MemoryClient {
    fn drop(self) {
        let MemoryClient {
            input: _,
            at: _,
            given: _,
            cut: _,
            hung_up: _,
            faults: _,
            waits: _,
        } = self;
    }
}

impl Model for MemoryClient {
    ghost use Rattle.std.specs.Prelude.{◌<◌, ◌≤◌, length};
    ghost use Rattle.memory_ends.specs.Clients.{ClientOf, client_view};

    ghost Value = { ClientOf };

    ghost view = { λ m. client_view m.input.items m.at m.given.items m.cut m.hung_up m.faults m.waits };

    ghost invariant = { λ m. (0 < m.cut) × (m.at ≤ length m.input.items) };
}

impl MemoryClient {
    /// A client with this input, of whose bytes a call moves at most `cut`. Once all were read it answers [`Moved::NotNow`],
    /// until it is fed more or hangs up. The only error is that an allocation failed.
    pub fn new(alloc: Global, input: &[u8], cut: usize) -> Result<MemoryClient, AllocError>
        requires { 0 < cut }
        ensures { IfOk result (λ c. c ≡ new_client input.now cut) }
    {
        Ok(MemoryClient {
            input: BytesMut::copy_from_slice(alloc, input)?,
            at: 0,
            given: BytesMut::new(alloc),
            cut,
            hung_up: false,
            faults: 0,
            waits: 0,
        })
    }

    /// Adds to the input; a client that hung up has no more. The only error is that an allocation failed, which changes
    /// nothing.
    pub fn feed(&mut self, bytes: &[u8]) -> Result<(), AllocError>
        ensures ok { OnOk result (self.new ≡ fed self.old bytes.now) }
        ensures err { OnErr result (self.new ≡ self.old) }
    {
        if self.hung_up {
            return Ok(());
        }
        self.input.extend_from_slice(bytes)
    }

    /// It ends once its input is read.
    pub fn hang_up(&mut self)
        ensures { self.new ≡ after_hang_up self.old }
    {
        self.hung_up = true;
    }

    /// All bytes that were taken from it.
    pub fn taken(&self) -> &[u8]
        ensures { result.now ≡ self.now.facts.taken }
    {
        &self.input.as_slice()[..self.at]
    }

    /// All bytes that it was given.
    pub fn given(&self) -> &[u8]
        ensures { result.now ≡ self.now.facts.given }
    {
        self.given.as_slice()
    }

    fn is_broken(&self) -> bool
        ensures { result ≡ is_broken self.now.facts.faults self.now.facts.read_waits }
    {
        self.faults > 0 || self.waits == u64::MAX
    }

    fn has_ended(&self) -> bool
        ensures { result ≡ self.now.facts.ended }
    {
        self.is_broken() || self.hung_up && self.at == self.input.len()
    }

    /// [`ClientEnd::read_some`] of this client.
    ///
    /// [`Moved::NotNow`]: all was read, and it may be fed more. [`Moved::Ended`]: all was read and it has hung up, or it ended by
    /// a fault or the last count.
    pub fn read(&mut self, into: &mut [u8]) -> Moved
        requires { 0 < length into.old }
        ensures within { IsWithin result (length into.old) }
        ensures facts { ClientReads self.old.facts self.new.facts (moved result into.new) result }
        ensures reads { ReadsClient self.old self.new (moved result into.new) result }
    {
        if self.has_ended() {
            return Moved::Ended;
        }
        let count = self.cut.min(into.len()).min(self.input.len() - self.at);
        if count == 0 {
            self.waits += 1;
            return Moved::NotNow;
        }
        let unread = &self.input.as_slice()[self.at..];
        into[..count].copy_from_slice(&unread[..count]);
        self.at += count;
        Moved::Count(count)
    }

    /// [`ClientEnd::write_some`] of this client, also after it hung up. It never answers [`Moved::NotNow`].
    ///
    /// [`Moved::Ended`]: it ended by a fault or the last count. [`Moved::Fault`]: an allocation failed, which ends it.
    pub fn write(&mut self, from: &[u8]) -> Moved
        requires { 0 < length from.now }
        ensures within { IsWithin result (length from.now) }
        ensures facts { ClientWrites self.old.facts self.new.facts (moved result from.now) result }
        ensures writes { WritesClient self.old self.new result }
    {
        if self.is_broken() {
            return Moved::Ended;
        }
        let count = self.cut.min(from.len());
        match self.given.extend_from_slice(&from[..count]) {
            Ok(()) => Moved::Count(count),
            Err(_) => {
                self.faults += 1;
                Moved::Fault
            }
        }
    }
}

impl ClientEnd for MemoryClient {
    ghost facts = { λ m. m.facts };

    fn read_some(&mut self, into: &mut [u8]) -> Moved {
        self.read(into)
    }

    fn write_some(&mut self, from: &[u8]) -> Moved {
        self.write(from)
    }

    fn faults(&self) -> u64 {
        self.faults
    }

    fn waits(&self) -> (u64, u64) {
        (self.waits, 0)
    }
}
