//! Laws over the definitions alone: what a cursor gives of pieces are the frames of their bytes, and what
//! it tells of the bytes that it took.
ghost use Rattle.frame_laws.specs.Laws.{BeginningsAreOfOneFrame, BodiesGoOn, BordersAreEmpty, CallsStep, CallsTell, HeadsOpen, NewTells, PiecesGiveFrames};

use frame_view::laws::front_is_spelled;

/// Any cutting of a stream into pieces gives the frames of its bytes, what stands after them, and the
/// fault, if there is one.
pub fn pieces_give_frames()
    ensures { PiecesGiveFrames }
{}

/// A new cursor tells that nothing was taken and nothing given.
pub fn new_tells()
    ensures { NewTells }
{}

/// A cursor that tells bytes and parts tells, after a call, those with what the call adds.
pub fn calls_tell()
    ensures { CallsTell }
{}

/// What a call makes of the bytes since the last border: more of one frame's beginning, or its end.
pub fn calls_step()
    ensures { CallsStep }
{}

/// At a border a lawful head at the front of a piece is told.
pub fn heads_open()
    ensures { HeadsOpen }
{}

/// Inside a frame a piece gives as many bytes as it has and the body lacks.
pub fn bodies_go_on()
    ensures { BodiesGoOn }
{}

/// The bytes since the last border are the beginning of one frame, whatever is to come of it.
pub fn beginnings_are_of_one_frame()
    ensures { BeginningsAreOfOneFrame }
{
    front_is_spelled();
}

/// A cursor is at a border exactly where no byte was taken since the last one.
pub fn borders_are_empty()
    ensures { BordersAreEmpty }
{}
