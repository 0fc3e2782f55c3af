//! The types of a client's messages (PostgreSQL manual, "Message Formats": those marked F).

ghost use Rattle.std.specs.Prelude.{◌≡◌};
ghost use Rattle.frame_view.specs.Frames.{is_closing as closes};

pub const BIND: u8 = b'B';

pub const CLOSE: u8 = b'C';

pub const COPY_DATA: u8 = b'd';

pub const COPY_DONE: u8 = b'c';

pub const COPY_FAIL: u8 = b'f';

pub const DESCRIBE: u8 = b'D';

pub const EXECUTE: u8 = b'E';

pub const FLUSH: u8 = b'H';

pub const FUNCTION_CALL: u8 = b'F';

pub const PARSE: u8 = b'P';

pub const PASSWORD_MESSAGE: u8 = b'p';

pub const QUERY: u8 = b'Q';

pub const SYNC: u8 = b'S';

pub const TERMINATE: u8 = b'X';

/// Whether a message of this type is answered up to one ReadyForQuery: Query, FunctionCall, Sync.
pub fn is_closing(kind: u8) -> bool
    ensures { result ≡ closes kind }
{
    matches!(kind, QUERY | FUNCTION_CALL | SYNC)
}
