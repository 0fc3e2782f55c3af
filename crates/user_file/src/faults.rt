//! Why a user file is refused.
use thiserror::Error;

/// What is wrong with a line. Where one line has several faults, the first of this list is reported.
#[derive(Clone, Copy, Debug, PartialEq, Eq, Error)]
pub enum UserCause {
    /// The line doesn't begin with two quoted fields, or its name is empty.
    #[error("U1")]
    BadQuoting,
    /// A name for the second time.
    #[error("U2")]
    NameTwice,
    /// No memory was left to keep what the line says.
    #[error("U3")]
    Memory,
}

/// The first faulty line of a user file.
///
/// It shows as the code and the line, as in `U1 line 7`, and tells nothing of the line's text.
#[derive(Clone, Copy, Debug, PartialEq, Eq, Error)]
#[error("{cause} line {line}")]
pub struct UserError {
    pub cause: UserCause,
    /// Counted from 1.
    pub line: usize,
}
