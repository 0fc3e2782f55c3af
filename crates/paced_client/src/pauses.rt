//! Where a client waits for its answers, and how many of them came (PostgreSQL manual, "Message Flow").
ghost use Rattle.std.specs.Prelude.{◌≡◌, ◌≤◌, length, drop, IfOk, OnOk, ◌++◌};
ghost use Rattle.frame_view.specs.declared.Side.TheVariants.{Client};
ghost use Rattle.frame_view.specs.declared.frames.TheConstants.{MAX_FRAME as LONGEST};
ghost use Rattle.frame_view.specs.Frames.{frames};
ghost use Rattle.paced_client.specs.Pauses as spec;
ghost use Rattle.paced_client.specs.Pauses.{closing_ends};
ghost use Rattle.paced_client.specs.Hearing.{HasHeard, IsHearing};

use frame_view::client::is_closing;
use frame_view::laws::are_bytes;
use frame_view::server::READY_FOR_QUERY;
use frame_view::{FirstStep, MAX_FRAME, Side, Step, first_packet, next_frame};
use std::alloc::{AllocError, Global};

/// The bytes of a StartupMessage's length and code.
const START_HEAD: usize = 8;

/// The end of the StartupMessage that stands first, or of all bytes where none does.
fn first_end(input: &[u8]) -> usize
    ensures end { result ≡ spec.first_end input.now }
    ensures within { result ≤ length input.now }
{
    are_bytes(input);
    match first_packet(input) {
        FirstStep::Startup(start) => START_HEAD + start.len(),
        _ => input.len(),
    }
}

/// Adds the ends of the closing messages from this place on.
fn put_closing_ends(input: &[u8], from: usize, ends: &mut Vec<usize>) -> Result<(), AllocError>
    requires { from ≤ length input.now }
    ensures { OnOk result (ends.new.items ≡ ends.old.items ++ closing_ends from (frames Client LONGEST (drop from input.now)).frames) }
{
    let mut at = from;
    'frames: while let Step::Whole(frame) = next_frame(input, at, MAX_FRAME, Side::Client) {
        at += frame.whole.len();
        if is_closing(frame.kind) {
            ends.push(at)?;
        }
    }
    Ok(())
}

/// Where a client with this input waits for a ReadyForQuery: at the end of its StartupMessage, and at that of each closing
/// message. The only error is that an allocation failed.
pub(crate) fn pauses(alloc: Global, input: &[u8]) -> Result<Vec<usize>, AllocError>
    ensures { IfOk result (λ v. v.items ≡ spec.pauses input.now) }
{
    let first = first_end(input);
    let mut ends = Vec::new(alloc);
    ends.push(first)?;
    put_closing_ends(input, first, &mut ends)?;
    Ok(ends)
}

/// How much of what a client was given was heard: whole frames up to this place, so many of them ReadyForQuery.
#[derive(Clone, Copy, Drop)]
pub(crate) struct Heard {
    pub(crate) end: usize,
    pub(crate) readies: usize,
}

impl Heard {
    /// Hears the whole frames that have come since.
    pub(crate) fn hear(&mut self, given: &[u8])
        requires { IsHearing self.old given.now }
        ensures { HasHeard self.new given.now }
    {
        'frames: while let Step::Whole(frame) = next_frame(
            given,
            self.end,
            MAX_FRAME,
            Side::Server,
        ) {
            self.end += frame.whole.len();
            self.readies += usize::from(frame.kind == READY_FOR_QUERY);
        }
    }
}
