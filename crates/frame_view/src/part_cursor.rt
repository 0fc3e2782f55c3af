//! A stream of frames, handed out in parts, whatever pieces its bytes come in.
ghost use Rattle.std.specs.Prelude.{◌≡◌, ◌<◌, ◌≤◌, ◌++◌, [], length, take};
ghost use Rattle.frame_view.specs.Parts.{AtHead, HasPlace, LiesInPart, at_border, begun_of, of_body, of_head, part_of, place_of, rest_of, turn, turn_of};
ghost use Rattle.frame_view.specs.Frames.{head_front};

use crate::frames::{HEAD, LEAST_LENGTH, head_at};
use crate::{FrameError, Head, HeadStep, Side};
use std::marker::Model;

/// A part of a stream of frames.
#[derive(Clone, Copy, PartialEq, Eq, Drop)]
pub enum Part<'a> {
    /// A frame's head without fault: its type byte, and its length, which counts its own four bytes and
    /// the body.
    Head { kind: u8, length: u32 },
    /// Bytes of its body, and whether they are the last. A frame without a body has one empty last part.
    Body(&'a [u8], bool),
    /// The piece is used up.
    End,
    /// No frame stands here, whatever comes.
    Bad(FrameError),
}

/// The bytes of a head that were taken.
#[derive(Clone, Copy, Drop)]
struct Begun {
    bytes: [u8; HEAD],
    count: usize,
}

/// Where a cursor stands.
#[derive(Clone, Copy, Drop)]
enum Place {
    /// At a head, of which these bytes were taken.
    Head(Begun),
    /// Inside a frame, of whose body so many bytes are to come.
    Body(usize),
    /// At a head with this fault, of which these bytes were taken.
    Fault(Begun, FrameError),
}

/// What a call makes of a piece: how many of its bytes are used, the part that they are, and the place
/// after it.
#[derive(Drop)]
struct Turn<'a> {
    used: usize,
    part: Part<'a>,
    place: Place,
}

/// A cursor over a stream of frames, whose bytes come in pieces of any size (PostgreSQL manual, "Message
/// Formats"). It takes no memory.
///
/// Contracts see its limit, its side, and its place: which bytes of a head were taken, or how many of a
/// body are to come.
#[derive(Drop)]
pub struct PartCursor {
    limit: u32,
    side: Side,
    place: Place,
}

impl Model for PartCursor {
    ghost use Rattle.frame_view.specs.Parts.{CursorOf, HasPlace, place_of};

    ghost Value = { CursorOf };

    ghost view = { λ c. record { limit = c.limit; side = c.side; place = place_of c.place } };

    ghost invariant = { λ c. HasPlace c.place };
}

/// A border, where nothing of the next head was taken.
const BORDER: Place = Place::Head(Begun {
    bytes: [0; HEAD],
    count: 0,
});

impl Begun {
    fn as_slice(&self) -> &[u8]
        requires { self.now.count ≤ HEAD }
        ensures bytes { result.now ≡ begun_of self.now }
        ensures count { length (begun_of self.now) ≡ self.now.count }
    {
        &self.bytes[..self.count]
    }

    /// With as many bytes of the piece as the head lacks.
    fn with(self, piece: &[u8]) -> Begun
        requires { self.count ≤ HEAD }
        ensures count { result.count ≤ HEAD }
        ensures bytes { begun_of result ≡ take HEAD (begun_of self ++ piece.now) }
    {
        let more = (HEAD - self.count).min(piece.len());
        let count = self.count + more;
        let mut bytes = self.bytes;
        bytes[self.count..count].copy_from_slice(&piece[..more]);
        Begun { bytes, count }
    }
}

/// At a head, of which these bytes were taken.
fn at_head(begun: Begun, piece: &[u8], limit: u32, side: Side) -> Turn<'_>
    requires { begun.count < HEAD }
    ensures turn { turn_of result ≡ of_head (begun_of begun) piece.now (head_front side limit (begun_of begun ++ piece.now)) }
    ensures fits { HasPlace result.place }
    ensures within { result.used ≤ length piece.now }
    ensures lies { LiesInPart result.part piece.entry }
{
    let head = begun.with(piece);
    match head_at(head.as_slice(), limit, side) {
        HeadStep::Whole(Head { kind, length }) => Turn {
            used: HEAD - begun.as_slice().len(),
            part: Part::Head { kind, length },
            place: Place::Body((length - LEAST_LENGTH) as usize),
        },
        HeadStep::Need(_) => Turn {
            used: piece.len(),
            part: Part::End,
            place: Place::Head(head),
        },
        HeadStep::Bad(fault) => Turn {
            used: 0,
            part: Part::Bad(fault),
            place: Place::Fault(begun, fault),
        },
    }
}

/// Inside a frame, of whose body so many bytes are to come.
fn in_body(rest: usize, piece: &[u8]) -> Turn<'_>
    ensures turn { turn_of result ≡ of_body rest piece.now }
    ensures fits { HasPlace result.place }
    ensures within { result.used ≤ length piece.now }
    ensures lies { LiesInPart result.part piece.entry }
{
    if rest <= piece.len() {
        return Turn {
            used: rest,
            part: Part::Body(&piece[..rest], true),
            place: BORDER,
        };
    }
    if piece.is_empty() {
        return Turn {
            used: 0,
            part: Part::End,
            place: Place::Body(rest),
        };
    }
    Turn {
        used: piece.len(),
        part: Part::Body(piece, false),
        place: Place::Body(rest - piece.len()),
    }
}

impl PartCursor {
    /// A cursor at a border, which has taken no byte. `limit` is the greatest length that is accepted, as
    /// for [`crate::next_frame`].
    pub fn new(limit: u32, side: Side) -> PartCursor
        ensures { result ≡ record { limit = limit; side = side; place = AtHead [] } }
    {
        PartCursor {
            limit,
            side,
            place: BORDER,
        }
    }

    /// Takes bytes from the front of `piece`, and tells how many, and the part that they are. What is left
    /// of the piece is handed in at the next call.
    ///
    /// A [`Part::Head`] comes once the head's five bytes are there, then [`Part::Body`] until its last,
    /// each the piece's own memory. The empty last part of a frame without a body takes 0 bytes, also of an
    /// empty piece. [`Part::End`] takes the whole piece, with the bytes that it has of an unfinished head.
    /// A fault is that of [`crate::head_fault`], told once five bytes are there: [`Part::Bad`] takes 0 bytes
    /// of this piece (those of the head that stood in earlier pieces were taken before), and every later
    /// call answers the same. Takes no memory.
    pub fn next<'a>(&mut self, piece: &'a [u8]) -> (usize, Part<'a>)
        ensures used { result.0 ≡ (turn self.old.side self.old.limit self.old.place piece.now).used }
        ensures part { part_of result.1 ≡ (turn self.old.side self.old.limit self.old.place piece.now).part }
        ensures after { self.new ≡ record self.old { place = (turn self.old.side self.old.limit self.old.place piece.now).place } }
        ensures within { result.0 ≤ length piece.now }
        ensures lies { LiesInPart result.1 piece.entry }
    {
        let turn = match self.place {
            Place::Head(begun) => at_head(begun, piece, self.limit, self.side),
            Place::Body(rest) => in_body(rest, piece),
            Place::Fault(begun, fault) => Turn {
                used: 0,
                part: Part::Bad(fault),
                place: Place::Fault(begun, fault),
            },
        };
        self.place = turn.place;
        (turn.used, turn.part)
    }

    /// How many bytes of a body are to come; 0 at a head and after a fault.
    pub fn rest(&self) -> usize
        ensures { result ≡ rest_of self.now.place }
    {
        match self.place {
            Place::Body(rest) => rest,
            Place::Head(_) | Place::Fault(..) => 0,
        }
    }

    /// Whether it stands between two frames: false from the first byte of a head until the last part of
    /// the body. After a fault, whether no byte of that head was taken.
    pub fn at_border(&self) -> bool
        ensures { result ≡ at_border self.now.place }
    {
        match self.place {
            Place::Head(begun) | Place::Fault(begun, _) => begun.as_slice().is_empty(),
            Place::Body(_) => false,
        }
    }
}
