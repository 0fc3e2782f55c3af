//! A text of bounded length, which takes no memory.
ghost use Rattle.std.specs.Prelude.{◌≤◌};

/// The greatest length of a message, in bytes.
pub const MAX_MESSAGE: usize = 400;

/// The text of a message, of at most [`MAX_MESSAGE`] bytes, which takes no memory. Contracts see it by `text_of`.
#[derive(Clone, Copy, Drop)]
pub struct Message {
    pub(crate) bytes: [u8; 400],
    pub(crate) length: usize,
    ghost within: { length ≤ 400 },
}
