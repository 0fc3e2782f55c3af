//! A client in memory that sends by its script.
ghost use Rattle.std.specs.Prelude.{◌≡◌, ◌<◌, ◌≤◌, ◌+◌, ◌++◌, false, length, OnOk, OnErr};
ghost use Rattle.server_end.specs.Moves.{ClientReads, ClientWrites, IsWithin, moved};
ghost use Rattle.memory_ends.specs.Clients.{is_broken};
ghost use Rattle.act_client.specs.Clients.{SameGiven, SameTaken, facts_of, given_more, has_ended, new_client, taken};

use crate::script::Script;
use bytes::BytesMut;
use server_end::{ClientEnd, Moved};
use std::alloc::{AllocError, Global};
use std::marker::Model;

/// A client in memory: it hands out what its script says that it has sent by now, and keeps what it was given.
pub struct ActClient<'a> {
    script: &'a Script,
    /// So many bytes of the input were taken.
    at: usize,
    given: BytesMut,
    cut: usize,
    hung_up: bool,
    faults: u64,
    waits: u64,
}

impl<'a> Drop for ActClient<'a> {
    fn drop(self) {
        let ActClient {
            script: _,
            at: _,
            given: _,
            cut: _,
            hung_up: _,
            faults: _,
            waits: _,
        } = self;
    }
}

impl<'a> Model for ActClient<'a> {
    ghost use Rattle.std.specs.Prelude.{◌<◌, ◌≤◌, length};
    ghost use Rattle.act_client.specs.Clients.{ActClientOf};

    ghost Value = { ActClientOf };

    ghost view = { λ c. record { input = c.script.now.bytes; at = c.at; given = c.given.items; hung_up = c.hung_up; faults = c.faults; waits = c.waits } };

    ghost invariant = { λ c. (0 < c.cut) × (c.at ≤ length c.script.now.bytes) };
}

impl<'a> ActClient<'a> {
    /// A client of this script, of whose bytes a call moves at most `cut`.
    pub fn new(alloc: Global, script: &'a Script, cut: usize) -> ActClient<'a>
        requires { 0 < cut }
        ensures { result ≡ new_client script.now.bytes }
    {
        ActClient {
            script,
            at: 0,
            given: BytesMut::new(alloc),
            cut,
            hung_up: false,
            faults: 0,
            waits: 0,
        }
    }

    /// Its script.
    pub fn script(&self) -> &'a Script
        ensures { result.now.bytes ≡ self.now.input }
    {
        self.script
    }

    /// All bytes that it was given.
    pub fn given(&self) -> &[u8]
        ensures { result.now ≡ self.now.given }
    {
        self.given.as_slice()
    }

    /// All bytes that it was given, where the client isn't needed any more.
    pub fn into_given(self) -> BytesMut
        ensures { result.items ≡ self.entry.given }
    {
        let ActClient {
            script: _,
            at: _,
            given,
            cut: _,
            hung_up: _,
            faults: _,
            waits: _,
        } = self;
        given
    }

    /// Gives it all of these bytes. The only error is that an allocation failed, which changes nothing.
    pub fn give(&mut self, bytes: &[u8]) -> Result<(), AllocError>
        ensures ok { OnOk result (self.new ≡ given_more self.old bytes.now) }
        ensures err { OnErr result (self.new ≡ self.old) }
    {
        self.given.extend_from_slice(bytes)
    }

    fn is_broken(&self) -> bool
        ensures { result ≡ is_broken self.now.faults self.now.waits }
    {
        self.faults > 0 || self.waits == u64::MAX
    }

    fn has_ended(&self) -> bool
        ensures { result ≡ has_ended self.now }
    {
        self.is_broken() || self.hung_up
    }

    /// [`ClientEnd::read_some`] of this client.
    ///
    /// [`Moved::NotNow`]: all that was sent by now was read. [`Moved::Ended`]: so it was and the client has hung up, or it ended
    /// by a fault or the last count.
    pub fn read(&mut self, into: &mut [u8]) -> Moved
        requires { 0 < length into.old }
        ensures within { IsWithin result (length into.old) }
        ensures facts { ClientReads (facts_of self.old) (facts_of self.new) (moved result into.new) result }
        ensures taken { taken self.new ≡ taken self.old ++ moved result into.new }
        ensures given { SameGiven self.old self.new }
    {
        if self.has_ended() {
            return Moved::Ended;
        }
        let unread = self.script.sent().saturating_sub(self.at);
        let count = self.cut.min(into.len()).min(unread);
        if count > 0 {
            return self.hand_out(count, into);
        }
        if self.script.has_gone() {
            self.hung_up = true;
            return Moved::Ended;
        }
        self.waits += 1;
        Moved::NotNow
    }

    /// Hands out so many of the bytes that were sent.
    fn hand_out(&mut self, count: usize, into: &mut [u8]) -> Moved
        requires some { 0 < count }
        requires room { count ≤ length into.old }
        requires there { self.old.at + count ≤ length self.old.input }
        requires living { has_ended self.old ≡ false }
        ensures within { IsWithin result (length into.old) }
        ensures facts { ClientReads (facts_of self.old) (facts_of self.new) (moved result into.new) result }
        ensures taken { taken self.new ≡ taken self.old ++ moved result into.new }
        ensures given { SameGiven self.old self.new }
    {
        let unread = &self.script.input()[self.at..];
        into[..count].copy_from_slice(&unread[..count]);
        self.at += count;
        Moved::Count(count)
    }

    /// [`ClientEnd::write_some`] of this client, also after it hung up. It never answers [`Moved::NotNow`].
    ///
    /// [`Moved::Ended`]: it ended by a fault or the last count. [`Moved::Fault`]: an allocation failed, which ends it.
    pub fn write(&mut self, from: &[u8]) -> Moved
        requires { 0 < length from.now }
        ensures within { IsWithin result (length from.now) }
        ensures facts { ClientWrites (facts_of self.old) (facts_of self.new) (moved result from.now) result }
        ensures taken { SameTaken self.old self.new }
        ensures given { self.new.given ≡ self.old.given ++ moved result from.now }
    {
        if self.is_broken() {
            return Moved::Ended;
        }
        let count = self.cut.min(from.len());
        match self.given.extend_from_slice(&from[..count]) {
            Ok(()) => Moved::Count(count),
            Err(_) => {
                self.faults += 1;
                Moved::Fault
            }
        }
    }
}

impl<'a> ClientEnd for ActClient<'a> {
    ghost facts = { facts_of };

    fn read_some(&mut self, into: &mut [u8]) -> Moved {
        self.read(into)
    }

    fn write_some(&mut self, from: &[u8]) -> Moved {
        self.write(from)
    }

    fn faults(&self) -> u64 {
        self.faults
    }

    fn waits(&self) -> (u64, u64) {
        (self.waits, 0)
    }
}
