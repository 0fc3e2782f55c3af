//! Bytes on their way from one end to the other, through a buffer of a fixed size.
//!
//! ```text
//!            start          pass           fill           ROOM
//!   | written  | may go on    | may not yet  | free         |
//! ```
//!
//! What is read comes at `fill`. A cursor moves `pass` on over bytes that may go on. What is written goes at `start`. The functions by
//! which it moves are written into their callers (`inline(always)`), since each row of a result costs a step of it.
ghost use Rattle.std.specs.Prelude.{◌≡◌, ◌+◌, ◌-◌, ◌<◌, ◌≤◌, [], drop, length, true, false, MatchOption, ◌≢◌};
ghost use Rattle.frame_view.specs.Frames.{AreBytes};
ghost use Rattle.frame_view.specs.declared.Side.TheVariants.{Client};
ghost use Rattle.server_end.specs.Moves.{ClientReads, CountsRead};
ghost use Rattle.server_end.specs.Standing.{Moves};
ghost use Rattle.relay_flow.specs.Flows.{came, Fills, IsAhead, IsEmptyFlow, IsPositive, is_empty, is_faulty, is_last, is_last_end, is_open, Passes, SameCursor, Stays};
ghost use Rattle.relay_flow.specs.declared.flow.Ends.TheVariants.{Open};
ghost use Rattle.frame_view.specs.declared.client.TheConstants.{TERMINATE};
ghost use Rattle.relay_flow.specs.declared.flow.TheConstants.{ROOM};

use crate::buffers::Buffer;
use crate::parts::{Advance, body_next, head_next};
use frame_view::client::TERMINATE;
use frame_view::laws::are_bytes;
use frame_view::{FrameError, Side};
use server_end::{ClientEnd, Moved, ServerEnd};
use std::marker::Model;

/// How many bytes a flow has room for.
pub const ROOM: usize = 8_192;

/// What stands behind the bytes that may go on.
#[derive(Clone, Copy, Drop)]
pub enum Ends {
    /// Bytes that may go on when more of them are there.
    Open,
    /// The client's Terminate, which doesn't go on, nor does what follows it.
    Last,
    /// No lawful frame.
    Faulty(FrameError),
}

/// One direction. Contracts see of it the bytes that are held and may go on, the part behind them that may
/// not yet, the free room, and the cursor.
pub struct Flow {
    bytes: Vec<u8>,
    start: usize,
    pass: usize,
    fill: usize,
    kind: u8,
    rest: usize,
    side: Side,
    limit: u32,
    ends: Ends,
}

impl Drop for Flow {
    fn drop(self) {
        let Flow {
            bytes: _,
            start: _,
            pass: _,
            fill: _,
            kind: _,
            rest: _,
            side: _,
            limit: _,
            ends: _,
        } = self;
    }
}

impl Model for Flow {
    ghost use Rattle.std.specs.Prelude.{◌≡◌, ◌≤◌, ◌<◌, ◌-◌, ◌≢◌, length, slice_range};
    ghost use Rattle.relay_flow.specs.Flows.{FlowView};
    ghost use Rattle.relay_flow.specs.declared.flow.TheConstants.{ROOM};
    ghost use Rattle.frame_view.specs.declared.client.TheConstants.{TERMINATE};
    ghost use Rattle.frame_view.specs.declared.Side.TheVariants.{Client};

    ghost Value = { FlowView };

    ghost view = { λ f. record { held = slice_range f.bytes.items f.start f.pass; part = slice_range f.bytes.items f.pass f.fill; room = ROOM - f.fill; kind = f.kind; rest = f.rest; side = f.side; limit = f.limit; ends = f.ends } };

    ghost invariant = { λ f. (f.start ≤ f.pass) × (f.pass ≤ f.fill) × (f.fill ≤ ROOM) × (length f.bytes.items ≡ ROOM) × (4 ≤ f.limit) × (f.side ≡ Client → 0 < f.rest → f.kind ≢ TERMINATE) };
}

/// Bytes of one frame that go on now.
#[derive(Clone, Copy, Drop)]
pub struct Passed {
    /// The frame's type.
    pub kind: u8,
    /// How many they are, at least 1.
    pub count: usize,
    /// Whether the frame's end is among them.
    pub whole: bool,
    /// Where a server's frame ends: the status that it tells, if it is a ReadyForQuery of one.
    pub status: Option<u8>,
    /// Where a server's frame ends: whether it is one that no session sends.
    pub is_foreign: bool,
}

/// What stands behind the bytes that may go on, seen afresh.
#[derive(Clone, Copy, Drop)]
enum Ahead {
    Goes(Advance),
    Waits,
    Last,
    Faulty(FrameError),
}

/// Whether a frame of this type ends what goes on.
fn is_last(side: Side, kind: u8) -> bool
    ensures { result ≡ is_last side kind }
{
    match side {
        Side::Client => kind == TERMINATE,
        Side::Server => false,
    }
}

impl Flow {
    /// An empty one for the frames of this side, none of a length above `limit`, in this buffer.
    pub fn new(buffer: Buffer, side: Side, limit: u32) -> Flow
        requires { 4 ≤ limit }
        ensures { IsEmptyFlow side limit result }
    {
        Flow {
            bytes: buffer.into_bytes(),
            start: 0,
            pass: 0,
            fill: 0,
            kind: 0,
            rest: 0,
            side,
            limit,
            ends: Ends::Open,
        }
    }

    /// Its buffer, once nothing is on its way any more.
    pub fn into_buffer(self) -> Buffer {
        let Flow {
            bytes,
            start: _,
            pass: _,
            fill: _,
            kind: _,
            rest: _,
            side: _,
            limit: _,
            ends: _,
        } = self;
        Buffer::of(bytes)
    }

    /// What stands behind the bytes that may go on.
    pub fn ends(&self) -> Ends
        ensures { result ≡ self.now.ends }
    {
        self.ends
    }

    /// Whether more may go on when more is there.
    pub fn is_open(&self) -> bool
        ensures { result ≡ is_open self.now.ends }
    {
        matches!(self.ends, Ends::Open)
    }

    /// Whether the client's Terminate stands next.
    pub fn is_last(&self) -> bool
        ensures { result ≡ is_last_end self.now.ends }
    {
        matches!(self.ends, Ends::Last)
    }

    /// Whether no lawful frame stands next.
    pub fn is_faulty(&self) -> bool
        ensures { result ≡ is_faulty self.now.ends }
    {
        matches!(self.ends, Ends::Faulty(_))
    }

    /// How many bytes of a frame that went on in part are still to come.
    pub fn rest(&self) -> usize
        ensures { result ≡ self.now.rest }
    {
        self.rest
    }

    /// The bytes that may go on.
    pub fn held(&self) -> &[u8]
        ensures { result.now ≡ self.now.held }
    {
        &self.bytes[self.start..self.pass]
    }

    /// The last `count` of them.
    pub fn last_held(&self, count: usize) -> &[u8]
        requires { count ≤ length self.now.held }
        ensures { result.now ≡ drop (length self.now.held - count) self.now.held }
    {
        let held = self.held();
        &held[held.len() - count..]
    }

    /// Whether there are none.
    pub fn held_is_empty(&self) -> bool
        ensures { result ≡ is_empty self.now.held }
    {
        self.start == self.pass
    }

    /// Whether there are none that may not go on yet.
    pub fn part_is_empty(&self) -> bool
        ensures { result ≡ is_empty self.now.part }
    {
        self.pass == self.fill
    }

    /// The first `count` of the bytes that may go on were written.
    pub fn wrote(&mut self, count: usize)
        requires { count ≤ length self.old.held }
        ensures held { self.new.held ≡ drop count self.old.held }
        ensures part { self.new.part ≡ self.old.part }
        ensures cursor { SameCursor self.old self.new }
    {
        self.start += count;
    }

    /// Moves what is there to the front.
    fn compact(&mut self)
        ensures held { self.new.held ≡ self.old.held }
        ensures part { self.new.part ≡ self.old.part }
        ensures cursor { SameCursor self.old self.new }
        ensures room { self.new.room ≡ ROOM - (length self.old.held + length self.old.part) }
    {
        self.bytes.copy_within(self.start..self.fill, 0);
        self.fill -= self.start;
        self.pass -= self.start;
        self.start = 0;
    }

    /// Whether there is room for a byte more: there is, where fewer than [`ROOM`] bytes are there. They are moved to the
    /// front only where no room is left behind them, or all are gone.
    pub fn make_room(&mut self) -> bool
        ensures held { self.new.held ≡ self.old.held }
        ensures part { self.new.part ≡ self.old.part }
        ensures cursor { SameCursor self.old self.new }
        ensures room { result ≡ true → 0 < self.new.room }
        ensures full { result ≡ false → ROOM ≤ length self.old.held + length self.old.part }
    {
        if self.fill < ROOM && (self.start < self.fill || self.start == 0) {
            return true;
        }
        self.compact();
        self.fill < ROOM
    }

    /// One read from a server's end, into the room: what it answered.
    pub fn read_server<E: ServerEnd>(&mut self, end: &mut E) -> Moved
        requires { 0 < self.old.room }
        ensures positive { IsPositive result }
        ensures fills { Fills self.old self.new result }
        ensures moves { Moves (E.standing end.old) [] (E.standing end.new) (came self.old self.new) }
        ensures counts { CountsRead (E.standing end.old) (E.standing end.new) result }
    {
        let moved = end.read_some(&mut self.bytes[self.fill..]);
        if let Moved::Count(count) = moved {
            self.fill += count;
        }
        moved
    }

    /// One read from a client's end, into the room: what it answered.
    pub fn read_client<C: ClientEnd>(&mut self, end: &mut C) -> Moved
        requires { 0 < self.old.room }
        ensures positive { IsPositive result }
        ensures fills { Fills self.old self.new result }
        ensures reads { ClientReads (C.facts end.old) (C.facts end.new) (came self.old self.new) result }
    {
        let moved = end.read_some(&mut self.bytes[self.fill..]);
        if let Moved::Count(count) = moved {
            self.fill += count;
        }
        moved
    }

    /// From a frame's border.
    #[inline(always)]
    fn next_head(&self) -> Ahead
        requires { self.now.rest ≡ 0 }
        ensures { IsAhead self.now result }
    {
        let part = &self.bytes[self.pass..self.fill];
        match head_next(part, self.kind, self.side, self.limit) {
            Ok(Some(next)) => {
                if is_last(self.side, next.kind) {
                    return Ahead::Last;
                }
                Ahead::Goes(next)
            }
            Ok(None) => Ahead::Waits,
            Err(fault) => Ahead::Faulty(fault),
        }
    }

    /// From inside a frame.
    #[inline(always)]
    fn next_body(&self) -> Ahead
        requires { 0 < self.now.rest }
        ensures { IsAhead self.now result }
    {
        let part = &self.bytes[self.pass..self.fill];
        match body_next(part, self.kind, self.rest, self.side, self.limit) {
            Some(next) => Ahead::Goes(next),
            None => Ahead::Waits,
        }
    }

    /// What stands next.
    #[inline(always)]
    fn next(&self) -> Ahead
        ensures ahead { IsAhead self.now result }
        ensures bytes { AreBytes self.now.part }
    {
        are_bytes(&self.bytes[self.pass..self.fill]);
        // a shortcut: nothing goes of nothing, which is what most tries find
        if self.part_is_empty() {
            return Ahead::Waits;
        }
        if self.rest == 0 {
            return self.next_head();
        }
        self.next_body()
    }

    /// Lets bytes of one frame go on, as many as may, and tells of them. None where none may; it says then what stands next.
    #[inline(always)]
    pub fn pass_some(&mut self) -> Option<Passed>
        requires { is_open self.old.ends ≡ true }
        ensures { MatchOption result (Stays self.old self.new) (Passes self.old self.new) }
    {
        match self.next() {
            Ahead::Goes(next) => {
                self.pass += next.count;
                self.kind = next.kind;
                self.rest = next.rest;
                Some(Passed {
                    kind: next.kind,
                    count: next.count,
                    whole: next.rest == 0,
                    status: next.status,
                    is_foreign: next.is_foreign,
                })
            }
            Ahead::Waits => None,
            Ahead::Last => {
                self.ends = Ends::Last;
                None
            }
            Ahead::Faulty(fault) => {
                self.ends = Ends::Faulty(fault);
                None
            }
        }
    }
}
