//! Why a settings file is refused.
use thiserror::Error;

/// What is wrong with a line. Where one line has several faults, the first of this list is reported.
#[derive(Clone, Copy, Debug, PartialEq, Eq, Error)]
pub enum IniCause {
    /// A header of a section that isn't `databases`, `pgbouncer`, `users` or `peers`, or a line within the last two.
    #[error("C1")]
    UnknownSection,
    /// A key of `[pgbouncer]` that is neither served nor read over at this value.
    #[error("C2")]
    UnknownKey,
    /// A value that the key doesn't take, or a database row that can't be read or isn't served.
    #[error("C3")]
    BadValue,
    /// A key, or the name of a database row, for the second time.
    #[error("C4")]
    KeyTwice,
    /// A `pool_mode` that isn't `session`.
    #[error("C5")]
    PoolMode,
    /// A `server_reset_query` that isn't `DISCARD ALL`.
    #[error("C6")]
    ResetQuery,
    /// A line that is neither a header nor `key = value`, or a key before any section.
    #[error("C7")]
    NotALine,
    /// No memory was left to keep what the line says.
    #[error("C8")]
    Memory,
}

/// The first faulty line of a settings file.
///
/// It shows as the code and the line, as in `C3 line 7`.
#[derive(Clone, Copy, Debug, PartialEq, Eq, Error)]
#[error("{cause} line {line}")]
pub struct IniError {
    pub cause: IniCause,
    /// Counted from 1; 0 where no memory was left for the defaults.
    pub line: usize,
}
