//! The lines that wait to be written.
ghost use Rattle.std.specs.Prelude.{◌≡◌, ◌++◌, ◌∷◌, [], true, IfOk};
ghost use Rattle.log_writer.specs.Queues.{Takes, pushed, with_drop};
ghost use Rattle.log_writer.specs.Queues as spec;

use circular_buffer::HeapCircularBuffer;
use std::alloc::{AllocError, Global};
use std::marker::Model;

/// As many lines may wait.
pub const MAX_LINES: usize = 1024;

/// As many bytes of a line are written.
pub const MAX_LINE: usize = 1000;

/// A line that waits.
struct Waiting {
    bytes: Vec<u8>,
}

impl Drop for Waiting {
    fn drop(self) {
        let Waiting { bytes: _ } = self;
    }
}

impl Model for Waiting {
    ghost use Rattle.std.specs.Prelude.{List, ℕ};

    ghost Value = { List ℕ };

    ghost view = { λ w. w.bytes.items };
}

impl Waiting {
    fn into_bytes(self) -> Vec<u8>
        ensures { result.items ≡ self }
    {
        let Waiting { bytes } = self;
        bytes
    }
}

/// What is to be written next.
#[derive(Drop)]
pub enum Next {
    /// That so many lines were dropped.
    Dropped(u64),
    /// This line.
    Line(Vec<u8>),
}

/// One more, as far as 64 bits count.
pub(crate) fn one_more(n: u64) -> u64
    ensures { result ≡ spec.one_more n }
{
    if n < u64::MAX { n + 1 } else { n }
}

/// Lines that wait to be written, first in, first out. Of more than [`MAX_LINES`] the last are dropped and counted.
pub struct Queue {
    lines: HeapCircularBuffer<Waiting>,
    dropped: u64,
}

impl Drop for Queue {
    fn drop(self) {
        let Queue {
            lines: _,
            dropped: _,
        } = self;
    }
}

impl Model for Queue {
    ghost use Rattle.std.specs.Prelude.{◌≡◌, ◌≤◌, length};
    ghost use Rattle.log_writer.specs.Queues.{QueueOf};

    ghost Value = { QueueOf };

    ghost view = { λ q. record { lines = q.lines.items; dropped = q.dropped } };

    ghost invariant = { λ q. (q.lines.capacity ≡ 1024) × (length q.lines.items ≤ 1024) };
}

impl Queue {
    /// No lines, with room for all. The only error is that an allocation failed.
    pub fn new(alloc: Global) -> Result<Queue, AllocError>
        ensures { IfOk result (λ q. q ≡ record { lines = []; dropped = 0 }) }
    {
        Ok(Queue {
            lines: HeapCircularBuffer::with_capacity(alloc, MAX_LINES)?,
            dropped: 0,
        })
    }

    fn has_room(&self) -> bool
        ensures { result ≡ spec.has_room self.now }
    {
        self.lines.len() < MAX_LINES
    }

    /// A line more, which is cut after [`MAX_LINE`] bytes. Where there is no room it is dropped and counted. It takes no
    /// memory.
    pub fn push(&mut self, line: Vec<u8>)
        ensures { self.new ≡ pushed line.items self.old }
    {
        if !self.has_room() {
            self.count_drop();
            return;
        }
        let mut bytes = line;
        bytes.truncate(MAX_LINE);
        self.put(Waiting { bytes });
    }

    fn put(&mut self, line: Waiting)
        requires { spec.has_room self.old ≡ true }
        ensures { self.new ≡ record self.old { lines = self.old.lines ++ line ∷ [] } }
    {
        let _ = self.lines.push_back(line);
    }

    /// A line is counted as dropped that wasn't even made.
    pub fn count_drop(&mut self)
        ensures { self.new ≡ with_drop self.old }
    {
        self.dropped = one_more(self.dropped);
    }

    fn tells_drops(&self) -> bool
        ensures { result ≡ spec.tells_drops self.now }
    {
        self.dropped > 0 && self.has_room()
    }

    /// What is to be written next, which is taken out: how many lines were dropped, as soon as there is room again, or the first
    /// line.
    pub fn take(&mut self) -> Option<Next>
        ensures { Takes self.old result self.new }
    {
        if self.tells_drops() {
            let dropped = self.dropped;
            self.dropped = 0;
            return Some(Next::Dropped(dropped));
        }
        match self.lines.pop_front() {
            Some(line) => Some(Next::Line(line.into_bytes())),
            None => None,
        }
    }
}
