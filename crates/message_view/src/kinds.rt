//! What numbers and letters inside a body stand for (PostgreSQL manual, "Message Formats" and "Error and
//! Notice Message Fields").

/// An authentication message that lets the client in: AuthenticationOk.
pub const ASKS_NOTHING: u32 = 0;
/// One that asks for a password: AuthenticationCleartextPassword.
pub const ASKS_CLEARTEXT: u32 = 3;
/// One that asks for a password's digest: AuthenticationMD5Password.
pub const ASKS_MD5: u32 = 5;

/// A ReadyForQuery outside a transaction block.
pub const IDLE: u8 = b'I';
/// One inside a transaction block.
pub const IN_TRANSACTION: u8 = b'T';
/// One inside a transaction block that has failed.
pub const FAILED: u8 = b'E';

/// A Describe or a Close of a prepared statement.
pub const STATEMENT: u8 = b'S';
/// One of a portal.
pub const PORTAL: u8 = b'P';

/// The field of an error or a notice with its severity, maybe translated.
pub const SEVERITY: u8 = b'S';
/// The field with its severity, never translated.
pub const SEVERITY_UNTRANSLATED: u8 = b'V';
/// The field with its SQLSTATE.
pub const SQLSTATE: u8 = b'C';
/// The field with its text.
pub const MESSAGE: u8 = b'M';

/// The oid of the type `text` of a column.
pub const TEXT_TYPE: u32 = 25;
