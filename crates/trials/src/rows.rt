//! Ends that cost next to nothing: a server that sends rows of one size, and a client that counts what it is given.
ghost use Rattle.std.specs.Prelude.{◌≡◌, ◌≤◌, [], IfOk};
ghost use Rattle.std.specs.Arc.{arc_value};

use server_end::transcript::Transcript;
use server_end::{ClientEnd, Moved, ServerEnd};
use start_keys::StartKey;
use std::alloc::{AllocError, Global};
use std::sync::Arc;

/// Rows are kept ready for a read in a page of at least so many bytes, or of one row where that is longer.
const PAGE: usize = 65_536;

/// A server that sends the same rows again and again, at least so many bytes in all, whatever it is sent. It follows no session, and
/// tells that one of its key was started on it before.
pub struct RowServer {
    key: Arc<StartKey>,
    page: Vec<u8>,
    at: usize,
    left: u64,
    accepted: Transcript,
    given: Transcript,
}

impl Drop for RowServer {
    fn drop(self) {
        let RowServer {
            key: _,
            page: _,
            at: _,
            left: _,
            accepted: _,
            given: _,
        } = self;
    }
}

/// Adds a DataRow of one value, so many bytes in all.
fn put_row(page: &mut Vec<u8>, size: u32) -> Result<(), AllocError>
    requires { 11 ≤ size }
{
    page.push(b'D')?;
    page.extend_from_slice(&(size - 1).to_be_bytes())?;
    page.extend_from_slice(&1u16.to_be_bytes())?;
    page.extend_from_slice(&(size - 11).to_be_bytes())?;
    for _ in 0..size - 11 {
        page.push(b'r')?;
    }
    Ok(())
}

impl RowServer {
    /// A server of rows of this size, 11 or more.
    pub fn new(
        alloc: Global,
        key: &Arc<StartKey>,
        size: u32,
        total: u64,
    ) -> Result<RowServer, AllocError>
        requires { 11 ≤ size }
        ensures key { IfOk result (λ s. arc_value s.key ≡ arc_value key.now) }
        ensures accepted { IfOk result (λ s. s.accepted.bytes ≡ []) }
        ensures given { IfOk result (λ s. s.given.bytes ≡ []) }
    {
        let mut page = Vec::new(alloc);
        for _ in 0..PAGE {
            if page.len() >= PAGE {
                break;
            }
            put_row(&mut page, size)?;
        }
        Ok(RowServer {
            key: Arc::try_clone(key)?,
            page,
            at: 0,
            left: total,
            accepted: Transcript::new(),
            given: Transcript::new(),
        })
    }
}

impl ServerEnd for RowServer {
    ghost use Rattle.std.specs.Prelude.{nat_lt, false, []};
    ghost use Rattle.std.specs.Arc.{arc_value};
    ghost use Rattle.trials.specs.Ends.{row_standing};

    ghost standing = { λ s. row_standing (arc_value s.key) s.left s.accepted.bytes s.given.bytes };

    fn read_some(&mut self, into: &mut [u8]) -> Moved {
        if self.left == 0 {
            return Moved::Ended;
        }
        if self.at >= self.page.len() {
            self.at = 0;
        }
        let count = into.len().min(self.page.len() - self.at);
        if count == 0 {
            self.left = 0;
            return Moved::Ended;
        }
        into[..count].copy_from_slice(&self.page[self.at..self.at + count]);
        self.given.note(&into[..count]);
        self.at += count;
        if self.at == self.page.len() {
            self.left = self.left.saturating_sub(self.page.len() as u64);
        }
        Moved::Count(count)
    }

    fn write_some(&mut self, from: &[u8]) -> Moved {
        if self.left == 0 {
            return Moved::Ended;
        }
        self.accepted.note(from);
        Moved::Count(from.len())
    }

    fn faults(&self) -> u64 {
        0
    }

    fn waits(&self) -> (u64, u64) {
        (0, 0)
    }
}

/// A client that sends nothing, and counts what it is given. It doesn't tell its bytes.
#[derive(Drop)]
pub struct Counter {
    given: u64,
    waits: u64,
    ended: bool,
}

impl Counter {
    pub fn new() -> Counter {
        Counter {
            given: 0,
            waits: 0,
            ended: false,
        }
    }

    /// The bytes that it was given, up to the greatest count.
    pub fn given(&self) -> u64 {
        self.given
    }
}

impl ClientEnd for Counter {
    ghost use Rattle.trials.specs.Ends.{counter_facts};

    ghost facts = { λ c. counter_facts c.waits c.ended };

    fn read_some(&mut self, into: &mut [u8]) -> Moved {
        let _ = into;
        if self.waits == u64::MAX {
            self.ended = true;
            return Moved::Ended;
        }
        self.waits += 1;
        Moved::NotNow
    }

    fn write_some(&mut self, from: &[u8]) -> Moved {
        self.given = self.given.saturating_add(from.len() as u64);
        Moved::Count(from.len())
    }

    fn faults(&self) -> u64 {
        0
    }

    fn waits(&self) -> (u64, u64) {
        (self.waits, 0)
    }
}
