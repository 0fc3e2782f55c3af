//! Packets of a client's session and the answers to them, as the PostgreSQL manual spells them ("Message Formats").

/// The StartupMessage of ann on shop.
pub fn ann() -> &'static [u8] {
    b"\0\0\0\x20\0\x03\0\0user\0ann\0database\0shop\0\0"
}

/// One whose database isn't in the catalogue.
pub fn nowhere() -> &'static [u8] {
    b"\0\0\0\x23\0\x03\0\0user\0ann\0database\0nowhere\0\0"
}

/// One with a DateStyle that there isn't.
pub fn bogus() -> &'static [u8] {
    b"\0\0\0\x30\0\x03\0\0user\0ann\0database\0shop\0DateStyle\0bogus\0\0"
}

/// The Query of an empty statement.
pub fn empty_query() -> &'static [u8] {
    b"Q\0\0\0\x05\0"
}

pub fn empty_answer() -> &'static [u8] {
    b"I\0\0\0\x04Z\0\0\0\x05I"
}

/// What a Query is answered by that a cancel struck.
pub fn cancelled() -> &'static [u8] {
    b"E\0\0\0\x33SERROR\0VERROR\0C57014\0Mstatement was cancelled\0\0Z\0\0\0\x05I"
}

/// A Parse, and the Sync that closes it.
pub fn parse_and_sync() -> &'static [u8] {
    b"P\0\0\0\x08\0\0\0\0S\0\0\0\x04"
}

pub fn sync() -> &'static [u8] {
    b"S\0\0\0\x04"
}

pub fn ready() -> &'static [u8] {
    b"Z\0\0\0\x05I"
}

/// The PasswordMessage of `secret`.
pub fn secret() -> &'static [u8] {
    b"p\0\0\0\x0bsecret\0"
}

/// The PasswordMessage of another password.
pub fn wrong() -> &'static [u8] {
    b"p\0\0\0\x09open\0"
}

pub fn cleartext() -> &'static [u8] {
    b"R\0\0\0\x08\0\0\0\x03"
}

pub fn salted() -> &'static [u8] {
    b"R\0\0\0\x0c\0\0\0\x05\x01\x02\x03\x04"
}

pub fn let_in() -> &'static [u8] {
    b"R\0\0\0\x08\0\0\0\0"
}

pub fn wrong_password() -> &'static [u8] {
    b"E\0\0\0\x3aSFATAL\0VFATAL\0C28P01\0Mpassword authentication failed\0\0"
}

pub fn no_database() -> &'static [u8] {
    b"E\0\0\0\x33SFATAL\0VFATAL\0C3D000\0Mdatabase does not exist\0\0"
}

pub fn invalid_value() -> &'static [u8] {
    b"E\0\0\0\x29SFATAL\0VFATAL\0C22023\0Minvalid value\0\0"
}

/// What ann is given by a server whose own words are 7 and 8: AuthenticationOk, nine reports, BackendKeyData, ReadyForQuery.
pub fn welcome() -> &'static [u8] {
    b"R\0\0\0\x08\0\0\0\0\
      S\0\0\0\x16application_name\0\0\
      S\0\0\0\x19client_encoding\0UTF8\0\
      S\0\0\0\x17DateStyle\0ISO, MDY\0\
      S\0\0\0\x19integer_datetimes\0on\0\
      S\0\0\0\x1bIntervalStyle\0postgres\0\
      S\0\0\0\x19server_encoding\0UTF8\0\
      S\0\0\0\x18server_version\016.0\0\
      S\0\0\0#standard_conforming_strings\0on\0\
      S\0\0\0\x11TimeZone\0UTC\0\
      K\0\0\0\x0c\0\0\0\x07\0\0\0\x08\
      Z\0\0\0\x05I"
}

/// The digest of ann's password and the salt 1, 2, 3, 4 (manual, "AuthenticationMD5Password").
pub fn digest() -> [u8; 35] {
    *b"md59009ce60b9ca97f1e752376843d1309e"
}

/// Its PasswordMessage.
pub fn digest_message() -> &'static [u8] {
    b"p\0\0\0\x28md59009ce60b9ca97f1e752376843d1309e\0"
}
