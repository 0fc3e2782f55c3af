//! The kinds of Authentication messages by which a server asks for SASL (PostgreSQL manual, "SASL Authentication").

/// AuthenticationSASL: it names its mechanisms, each with a zero byte behind it, and one zero byte more.
pub const ASKS_SASL: u32 = 10;
/// AuthenticationSASLContinue: of SCRAM the challenge.
pub const SASL_CONTINUES: u32 = 11;
/// AuthenticationSASLFinal: of SCRAM the server's own proof. It asks nothing.
pub const SASL_ENDS: u32 = 12;
