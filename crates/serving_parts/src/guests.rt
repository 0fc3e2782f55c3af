//! Clients that say their parts one after the other, each once they were given what they wait for.
ghost use Rattle.std.specs.Prelude.{◌≡◌, ◌<◌, length};
ghost use Rattle.server_end.specs.Moves.{ClientReads, ClientWrites, IsWithin, moved};

use memory_ends::memory_client::MemoryClient;
use play_tests::files::START;
use play_tests::play_parts::{START_A, START_B};
use server_end::{ClientEnd, Moved};
use std::alloc::{AllocError, Global};

/// What a client says. Those that leave do so by a Terminate.
#[derive(Clone, Copy, Drop)]
pub enum Talk {
    /// Its StartupMessage alone: it stays.
    Stays,
    /// It leaves once it is welcomed.
    Leaves,
    /// The same, with `application_name` `a`, and with `b`.
    LeavesAsA,
    LeavesAsB,
    /// It asks for its `application_name`, and leaves with the answer.
    Shows,
    /// It asks, and stays.
    ShowsAndStays,
    /// It asks, and leaves at once.
    ShowsAndLeaves,
    /// It leaves a block open.
    Begins,
    /// It sends a Query of length 3.
    Malformed,
    /// A Query of length 2,001, and one of 2,000 that is answered.
    TooLong,
    Longest,
    /// A StartupMessage without a user, of protocol 2.0, with the parameter `options`.
    WithoutUser,
    OldProtocol,
    WithOptions,
    /// The user bob, the database other.
    AsBob,
    ToOther,
    /// The console: it asks for its version, and leaves with the answer.
    ToConsole,
    /// It asks for a cancel of what the first client is at.
    Cancels,
    /// It answers the question for its password.
    RightPassword,
    WrongPassword,
    /// It says 10,000 bytes one by one: of a StartupMessage; of the answer to that question; and of that of the console.
    DripsAtFirst,
    Drips,
    DripsToConsole,
}

/// ReadyForQuery outside a block, and inside.
pub(crate) const READY: &[u8] = b"Z\0\0\0\x05I";

const IN_BLOCK: &[u8] = b"Z\0\0\0\x05T";

const TERMINATE: &[u8] = b"X\0\0\0\x04";

/// AuthenticationMD5Password with the salt of the tests.
pub(crate) const QUESTION: &[u8] = b"R\0\0\0\x0c\0\0\0\x05\0\0\0\0";

/// PasswordMessages: the digest of `secret`, `ann` and the salt, by another program; and none of hers.
const RIGHT: &[u8] = b"p\0\0\0\x28md535d8bd964605289cae3abbeb4bca5e95\0";

const WRONG: &[u8] = b"p\0\0\0\x28md500000000000000000000000000000000\0";

const SHOW_NAME: &[u8] = b"Q\0\0\0\x1aSHOW application_name\0";

const SHOW_NAME_AND_LEAVE: &[u8] = b"Q\0\0\0\x1aSHOW application_name\0X\0\0\0\x04";

/// The first packet.
fn first(talk: Talk) -> &'static [u8] {
    match talk {
        Talk::LeavesAsA => START_A,
        Talk::LeavesAsB => START_B,
        Talk::WithoutUser => b"\0\0\0\x17\0\x03\0\0database\0shop\0\0",
        Talk::OldProtocol => b"\0\0\0\x08\0\x02\0\0",
        Talk::WithOptions => b"\0\0\0\x2b\0\x03\0\0user\0ann\0database\0shop\0options\0-c\0\0",
        Talk::AsBob => b"\0\0\0\x20\0\x03\0\0user\0bob\0database\0shop\0\0",
        Talk::ToOther => b"\0\0\0\x21\0\x03\0\0user\0ann\0database\0other\0\0",
        Talk::Cancels => b"\0\0\0\x10\x04\xd2\x16\x2e\0\0\0\x01\0\0\0\x01",
        Talk::ToConsole | Talk::DripsToConsole =>
            b"\0\0\0\x25\0\x03\0\0user\0ann\0database\0pgbouncer\0\0",
        Talk::DripsAtFirst => b"\0\0\x27\x10\0\x03\0\0",
        _ => START,
    }
}

/// What it waits for, and what it says then, at this place behind the first packet.
fn then(talk: Talk, at: usize) -> Option<(&'static [u8], &'static [u8])> {
    match (talk, at) {
        (Talk::Leaves | Talk::LeavesAsA | Talk::LeavesAsB, 0) => Some((READY, TERMINATE)),
        (Talk::Shows | Talk::ShowsAndStays, 0) => Some((READY, SHOW_NAME)),
        (Talk::Shows, 1) => Some((READY, TERMINATE)),
        (Talk::ShowsAndLeaves, 0) => Some((READY, SHOW_NAME_AND_LEAVE)),
        (Talk::Begins, 0) => Some((READY, b"Q\0\0\0\x0aBEGIN\0")),
        (Talk::Begins, 1) => Some((IN_BLOCK, TERMINATE)),
        (Talk::Malformed, 0) => Some((READY, b"Q\0\0\0\x03")),
        (Talk::TooLong, 0) => Some((READY, b"Q\0\0\x07\xd1")),
        (Talk::Longest, 0) => Some((READY, b"Q\0\0\x07\xd0")),
        // 1,995 spaces
        (Talk::Longest, 1..=105) => Some((b"", b"                   ")),
        (Talk::Longest, 106) => Some((b"", b"\0")),
        (Talk::Longest, 107) => Some((READY, TERMINATE)),
        (Talk::ToConsole, 0) => Some((READY, b"Q\0\0\0\x12SHOW VERSION;\0")),
        (Talk::ToConsole, 1) => Some((READY, TERMINATE)),
        (Talk::RightPassword, 0) => Some((QUESTION, RIGHT)),
        (Talk::RightPassword, 1) => Some((READY, TERMINATE)),
        (Talk::WrongPassword, 0) => Some((QUESTION, WRONG)),
        (Talk::Drips | Talk::DripsToConsole, 0) => Some((QUESTION, b"p\0\0\x27\x10")),
        (Talk::DripsAtFirst | Talk::Drips | Talk::DripsToConsole, _) => Some((b"", b"a")),
        _ => None,
    }
}

/// Whether so much was given since it said something, and it ends so.
fn is_due(given: &[u8], since: usize, wanted: &[u8]) -> bool {
    wanted.is_empty() || given.len() > since && given.ends_with(wanted)
}

/// A client with a talk. A read comes to nothing before each part but the first.
#[derive(Drop)]
pub(crate) struct Guest {
    client: MemoryClient,
    talk: Talk,
    at: usize,
    /// So many bytes it had been given when it spoke last.
    since: usize,
}

impl Guest {
    /// Of whose bytes a call moves at most so many.
    pub(crate) fn new(alloc: Global, talk: Talk, cut: usize) -> Result<Guest, AllocError>
        requires { 0 < cut }
    {
        Ok(Guest {
            client: MemoryClient::new(alloc, first(talk), cut)?,
            talk,
            at: 0,
            since: 0,
        })
    }

    /// All that it was given.
    pub(crate) fn given(&self) -> &[u8] {
        self.client.given()
    }

    /// Says the next part, if it is due.
    fn go_on(&mut self)
        ensures { self.new.client.facts ≡ self.old.client.facts }
    {
        let Some((wanted, part)) = then(self.talk, self.at) else {
            return;
        };
        let count = self.client.given().len();
        if !is_due(self.client.given(), self.since, wanted) {
            return;
        }
        self.since = count;
        self.at = self.at.saturating_add(1);
        // a part that isn't said for want of memory is missed in what the client is given
        let _ = self.client.feed(part);
    }
}

impl ClientEnd for Guest {
    ghost use Rattle.serving_parts.specs.Ends.{untold};

    ghost facts = { λ g. untold g.client.facts };

    #[tactic(auto, using(crate::proofs::Ends::untold_reads))]
    fn read_some(&mut self, into: &mut [u8]) -> Moved {
        let moved = self.client.read(into);
        if moved == Moved::NotNow {
            self.go_on();
        }
        moved
    }

    #[tactic(auto, using(crate::proofs::Ends::untold_writes))]
    fn write_some(&mut self, from: &[u8]) -> Moved {
        self.client.write(from)
    }

    fn faults(&self) -> u64 {
        ClientEnd::faults(&self.client)
    }

    fn waits(&self) -> (u64, u64) {
        ClientEnd::waits(&self.client)
    }
}
