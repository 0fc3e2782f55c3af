//! What a server says of its session while a lease lasts: an error, or a notice.
ghost use Rattle.std.specs.Prelude.{◌≡◌, ◌≤◌, [], length};
ghost use Rattle.relay_core.specs.LastNotes.{heard, is_note, kept};

use arrayvec::ArrayVec;
use frame_view::server::{ERROR_RESPONSE, NOTICE_RESPONSE};
use relay_flow::flow::{Flow, Passed};
use std::marker::Model;

/// The longest message that is kept.
pub const MAX_NOTE: usize = 512;

/// The last ErrorResponse or NoticeResponse that came over a link: the whole message. It is empty where none came, and where the last was
/// longer than [`MAX_NOTE`]; of one that went on in parts it is the last part.
#[derive(Drop)]
pub struct LastNote {
    message: ArrayVec<u8, MAX_NOTE>,
}

impl Model for LastNote {
    ghost use Rattle.std.specs.Prelude.{List, ℕ};

    ghost Value = { List ℕ };

    ghost view = { λ n. n.message.items };
}

fn is_note(kind: u8) -> bool
    ensures { result ≡ is_note kind }
{
    kind == ERROR_RESPONSE || kind == NOTICE_RESPONSE
}

impl LastNote {
    /// None came.
    pub(crate) fn none() -> LastNote
        ensures { result ≡ [] }
    {
        LastNote {
            message: ArrayVec::new(),
        }
    }

    /// This one.
    pub(crate) fn of(message: &[u8]) -> LastNote
        ensures { result ≡ kept message.now }
    {
        let mut note = LastNote::none();
        let _ = note.message.try_extend_from_slice(message);
        note
    }

    /// The message.
    pub fn message(&self) -> &[u8]
        ensures { result.now ≡ self.now }
    {
        self.message.as_slice()
    }
}

/// Keeps the frame that went on last, if it is an error or a notice.
// written into no caller, and neither is `of`: rows come this way, and notes are rare
#[inline(always)]
pub(crate) fn hear(last: &mut LastNote, flow: &Flow, passed: Passed)
    requires { passed.count ≤ length flow.now.held }
    ensures { last.new ≡ heard flow.now.held passed.count passed.kind last.old }
{
    if is_note(passed.kind) {
        *last = LastNote::of(flow.last_held(passed.count));
    }
}
