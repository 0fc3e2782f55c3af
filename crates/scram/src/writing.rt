//! The text of a message, and what is added to it.
ghost use Rattle.std.specs.Prelude.{◌≡◌, ◌+◌, ◌≤◌, ◌++◌, [], length, decimal};
ghost use Rattle.scram.specs.Short.{text_of};
ghost use Rattle.scram.specs.Texts.{base64};
ghost use Rattle.scram.specs.declared.message.TheConstants.{MAX_MESSAGE};

use crate::message::Message;
use base64::engine::general_purpose::STANDARD;
use itoa::Buffer;

impl Message {
    /// A message of no bytes.
    pub fn new() -> Message
        ensures text { text_of result ≡ [] }
        ensures none { length (text_of result) ≡ 0 }
    {
        Message {
            bytes: [0; 400],
            length: 0,
        }
    }

    /// Its bytes.
    pub fn as_bytes(&self) -> &[u8]
        ensures { result.now ≡ text_of self.now }
    {
        &self.bytes[..self.length]
    }

    /// Adds a text, for which there must be room.
    pub fn push(&mut self, text: &[u8])
        requires { length (text_of self.old) + length text.now ≤ MAX_MESSAGE }
        ensures text { text_of self.new ≡ text_of self.old ++ text.now }
        ensures longer { length (text_of self.new) ≡ length (text_of self.old) + length text.now }
    {
        let end = self.length + text.len();
        self.bytes[self.length..end].copy_from_slice(text);
        self.length = end;
    }

    /// Adds at most 64 bytes in base64, for which there must be room.
    pub(crate) fn push_base64(&mut self, bytes: &[u8])
        requires short { length bytes.now ≤ 64 }
        requires room { length (text_of self.old) + 88 ≤ MAX_MESSAGE }
        ensures text { text_of self.new ≡ text_of self.old ++ base64 bytes.now }
        ensures longer { length (text_of self.new) ≤ length (text_of self.old) + 88 }
    {
        let mut text = [0u8; 88];
        let Ok(count) = STANDARD.encode_slice(bytes, &mut text) else {
            unreachable!();
        };
        self.push(&text[..count]);
    }

    /// Adds a number in decimal digits, for which there must be room.
    pub(crate) fn push_number(&mut self, number: u32)
        requires { length (text_of self.old) + 40 ≤ MAX_MESSAGE }
        ensures text { text_of self.new ≡ text_of self.old ++ decimal number }
        ensures longer { length (text_of self.new) ≤ length (text_of self.old) + 40 }
    {
        let mut digits = Buffer::new();
        self.push(digits.format(number).as_bytes());
    }
}
