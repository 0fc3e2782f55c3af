//! What was read of a client's stream ahead of what was asked for, so that a packet costs one call of the system and not one for each
//! of its parts.
//!
//! Why nothing is lost. The bytes here stand in front of those that the stream still has: as long as there are any, a read gives from
//! them alone, whatever the notes say of the socket. To the gate they are as bytes that the socket has and has told of: an end that
//! has given notes that there may be more where some are left here, or where a read of the stream may come to something, so that the next
//! turn doesn't wait for an event that won't come. A read of no bytes, which ends the input, is only made where none are here; so an end of
//! input, or an error, behind bytes that were read ahead is found by the read behind them, and a connection that is closing is one where
//! such a read may come to something.
ghost use Rattle.std.specs.Prelude.{◌≡◌, ◌+◌, ◌≤◌, ◌++◌, [], true, false, drop, length, min, take, IfOk, OnErr};
ghost use Rattle.std.specs.Io.KnownBytes.{Consumes};
ghost use Rattle.tcp_end.specs.Reading as spec;

use std::alloc::{AllocError, Global};
use std::io;
use std::io::Read;
use std::marker::Model;

/// So many bytes are read ahead at most: most first packets of a connection have fewer.
pub(crate) const AHEAD: usize = 512;

/// Bytes that were read of a stream, and are still to be given.
pub(crate) struct Ahead {
    /// Room for all, allocated: an end moves through many frames of its thread's stack, where an array would take its room in each.
    bytes: Vec<u8>,
    /// They are those from here ..
    start: usize,
    /// .. to here.
    end: usize,
}

impl Drop for Ahead {
    fn drop(self) {
        let Ahead {
            bytes: _,
            start: _,
            end: _,
        } = self;
    }
}

impl Model for Ahead {
    ghost use Rattle.std.specs.Prelude.{◌≡◌, List, ℕ, ◌≤◌, drop, length, take};

    ghost Value = { List ℕ };

    ghost view = { λ a. drop a.start (take a.end a.bytes.items) };

    ghost invariant = { λ a. (a.start ≤ a.end) × (a.end ≤ 512) × (length a.bytes.items ≡ 512) };
}

impl Ahead {
    /// None, with the room. The only error is that an allocation failed.
    pub(crate) fn new(alloc: Global) -> Result<Ahead, AllocError>
        ensures { IfOk result (λ a. a ≡ []) }
    {
        Ok(Ahead {
            bytes: vec![in alloc; 0u8; AHEAD]?,
            start: 0,
            end: 0,
        })
    }

    /// Whether all were given.
    pub(crate) fn is_empty(&self) -> bool
        ensures { result ≡ spec.is_empty self.now }
    {
        self.start == self.end
    }

    /// Reads once of this stream, where all were given.
    pub(crate) fn fill<R: Read>(&mut self, stream: &mut R) -> io::Result<usize>
        requires { self.old ≡ [] }
        ensures count { IfOk result (λ n. length self.new ≡ n) }
        ensures none { OnErr result (self.new ≡ []) }
        ensures bytes { Consumes (R.remaining stream.old) (R.remaining stream.new) self.new }
    {
        let answer = stream.read(&mut self.bytes);
        self.start = 0;
        self.end = match &answer {
            Ok(count) => *count,
            Err(_) => 0,
        };
        answer
    }

    /// Gives as many as have room, into the front of `into`; how many.
    pub(crate) fn give(&mut self, into: &mut [u8]) -> usize
        ensures count { result ≡ min (length self.old) (length into.old) }
        ensures bytes { into.new ≡ take result self.old ++ drop result into.old }
        ensures left { self.new ≡ drop result self.old }
    {
        let count = (self.end - self.start).min(into.len());
        let part = &self.bytes[self.start..self.start + count];
        into[..count].copy_from_slice(part);
        self.start += count;
        count
    }
}
