//! Laws of frames and of first packets, each the contract of a function that does nothing: a caller that
//! needs a law calls its function.

ghost use Rattle.frame_view.specs.Frames.{AreBytes};
ghost use Rattle.frame_view.specs.Laws.{CodesAreTheStandards, FirstGrows, FirstReadIsSpelled, FirstSpelledIsRead, FramesGoOn, FramesSplit, FrontGrows, FrontIsSpelled, KindsAreTheStandards, LengthsAreTheStandards, SpelledAreFirst, SpelledIsFirst, SpelledIsFront, SplitsOneWay};

/// The types of [`crate::client`] and [`crate::server`], the codes of first packets and a frame's least
/// and greatest length are the standard's.
pub fn names_are_the_standards()
    ensures kinds { KindsAreTheStandards }
    ensures codes { CodesAreTheStandards }
    ensures lengths { LengthsAreTheStandards }
{}

/// The items of a slice of bytes are bytes: what the laws ask of a list that is read.
pub fn are_bytes(bytes: &[u8])
    ensures { AreBytes bytes.now }
{}

/// A frame's spelling is cut out again, whatever follows it.
pub fn spelled_is_front()
    ensures { SpelledIsFront }
{}

/// A frame's spelling is the first of the frames, and the others are those of what follows it.
pub fn spelled_is_first()
    ensures { SpelledIsFirst }
{}

/// Frames that are spelled one after the other are the first of the frames.
pub fn spelled_are_first()
    ensures { SpelledAreFirst }
{}

/// What stands at the front as a frame is spelled so.
pub fn front_is_spelled()
    ensures { FrontIsSpelled }
{}

/// When more bytes come a whole frame and a fault stay, and what an unfinished frame lacks is its own.
pub fn front_grows()
    ensures { FrontGrows }
{}

/// The frames of some bytes and their rest are together the bytes.
pub fn frames_split()
    ensures { FramesSplit }
{}

/// Bytes are frames and a rest in one way alone.
pub fn splits_one_way()
    ensures { SplitsOneWay }
{}

/// Any cutting of the bytes gives the same frames.
pub fn frames_go_on()
    ensures { FramesGoOn }
{}

/// A first packet's spelling is read again, whatever follows it.
pub fn first_spelled_is_read()
    ensures { FirstSpelledIsRead }
{}

/// What is read as a first packet is spelled so.
pub fn first_read_is_spelled()
    ensures { FirstReadIsSpelled }
{}

/// When more bytes come a whole first packet and a fault stay, and what an unfinished one lacks is its own.
pub fn first_grows()
    ensures { FirstGrows }
{}
