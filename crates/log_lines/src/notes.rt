//! What a pool logs of its clients: each note is one line.

use arrayvec::ArrayString;
use message_view::Refusal;
use std::time::Instant;

/// As many bytes as an address of IPv6 has as a text at most.
pub const MAX_ADDRESS: usize = 45;

/// A client's connection: where it comes from (an address, or `unix`), and when it came, where the clock could be read.
#[derive(Clone, Copy)]
pub struct Visit {
    pub host: ArrayString<MAX_ADDRESS>,
    pub port: u16,
    pub since: Option<Instant>,
}

/// Whom a note is about.
#[derive(Clone, Copy)]
pub struct Client<'a> {
    pub visit: Visit,
    /// Its number in the lease book, once it has arrived there.
    pub number: Option<u64>,
    /// The user and the database that its StartupMessage names; empty where none was read.
    pub user: &'a [u8],
    pub database: &'a [u8],
}

/// Where a link leads, or would.
#[derive(Clone, Copy)]
pub struct Server<'a> {
    pub host: &'a [u8],
    pub port: u16,
}

/// Why a link wasn't started.
#[derive(Clone, Copy)]
pub enum Unstarted<'a> {
    /// No connection to the server can be had.
    NotReached,
    /// The server asks for another authentication than this pooler's, of this number; or for a password (3), its MD5 digest (5), or by SASL
    /// for SCRAM (10), of which the user file has nothing, or for another mechanism of SASL than SCRAM-SHA-256.
    Unanswerable(u32),
    /// The connection was lost in the dialogue.
    Lost,
    /// Something that isn't in the protocol was answered.
    Unexpected,
    /// It was not answered in time.
    TimedOut,
    /// The server's own ErrorResponse, the whole message.
    Refused(&'a [u8]),
}

/// Why a link was closed at the end of its lease, or lost.
#[derive(Clone, Copy)]
pub enum Loss<'a> {
    /// Its server's connection ended or faulted.
    Ended,
    /// The same, and this is the ErrorResponse by which the server ended the session, the whole message.
    Said(&'a [u8]),
    /// The client left within a transaction block.
    InBlock,
    /// The client left before all was answered, or within a message.
    Unanswered,
    /// What the server sent is no session's answer.
    Foreign,
    /// `DISCARD ALL` wasn't answered as it is to be, or not in time.
    NotReset,
    /// A cancel was for its client's lease, and may still come.
    Cancelled,
}

/// Why a client isn't let in by its password, which the client isn't told.
#[derive(Clone, Copy)]
pub enum LoginFailure {
    /// The user file has no user of this name.
    NoUser,
    /// The client was asked for SCRAM, and the user's secret is an MD5 digest.
    Digest,
    /// The client was asked for its password, and the user's secret is a SCRAM verifier of more than 1,000,000 rounds.
    Rounds,
    /// The user's secret has no bytes, or begins as a verifier does and is none.
    NoSecret,
    /// The database is the console's, and the user none of it.
    NoAdmin,
    /// The password, or the answer to the question, isn't the user's.
    WrongPassword,
}

/// What a pool logs of a client.
#[derive(Clone, Copy)]
pub enum Note<'a> {
    /// The client is through its login.
    LoggedIn,
    /// The client's connection is closed.
    Closed,
    /// The client had said who it is, and wasn't through its login in time.
    Late,
    /// The client was refused.
    Refused(Refusal),
    /// It was refused because of this startup parameter.
    UnsupportedParameter(&'a [u8]),
    /// The client was told 28P01.
    LoginFailed(LoginFailure),
    /// The settings have no such database.
    NoDatabase,
    /// No link could be started for the client.
    Unstarted(Server<'a>, Unstarted<'a>),
    /// The server refused the start of the client's link by this ErrorResponse, the whole message, and the client asks for another.
    AsksAgain(Server<'a>, &'a [u8]),
    /// The client was lent the link of this number, to this process of its server, where the server told it.
    Lent(u64, Server<'a>, Option<u32>),
    /// The client's link, of this number, is closed.
    LinkLost(u64, Loss<'a>),
    /// It asked to have the statement cancelled of the client that has the link of this number.
    Cancels(u64),
    /// It asked to have a statement cancelled, and nobody has a link by that key.
    CancelsNobody,
    /// The client paused the pool, resumed it, has it lend no link again that is there now, or shuts it down.
    Paused,
    Resumed,
    Reconnecting,
    ShuttingDown,
}
