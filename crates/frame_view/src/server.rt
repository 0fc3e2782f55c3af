//! The types of a server's messages that have names here (PostgreSQL manual, "Message Formats": those
//! marked B). Any other byte may be a type of a server's message too.

/// Every authentication message: AuthenticationOk, AuthenticationCleartextPassword and the others.
pub const AUTHENTICATION: u8 = b'R';

pub const BACKEND_KEY_DATA: u8 = b'K';

pub const BIND_COMPLETE: u8 = b'2';

pub const CLOSE_COMPLETE: u8 = b'3';

pub const COMMAND_COMPLETE: u8 = b'C';

pub const DATA_ROW: u8 = b'D';

pub const EMPTY_QUERY_RESPONSE: u8 = b'I';

pub const ERROR_RESPONSE: u8 = b'E';

pub const NO_DATA: u8 = b'n';

pub const NOTICE_RESPONSE: u8 = b'N';

pub const PARAMETER_DESCRIPTION: u8 = b't';

pub const PARAMETER_STATUS: u8 = b'S';

pub const PARSE_COMPLETE: u8 = b'1';

pub const PORTAL_SUSPENDED: u8 = b's';

pub const READY_FOR_QUERY: u8 = b'Z';

pub const ROW_DESCRIPTION: u8 = b'T';
