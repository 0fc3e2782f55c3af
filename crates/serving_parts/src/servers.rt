//! Servers of the tests, and how they are reached.
ghost use Rattle.std.specs.Prelude.{◌≡◌, ◌<◌, ◌≤◌, [], length, true};
ghost use Rattle.link_model.specs.Standing.{Moves};
ghost use Rattle.serving_parts.specs.Ends.{unfollowed};
ghost use Rattle.server_end.specs.Moves.{CountsRead, CountsWrite, IsWithin, moved};

use credentials::Credential;
use log_lines::notes::{Client, Loss, Note, Unstarted};
use memory_ends::memory_server::{MemoryServer, ServerAuth};
use pool_desk::answers::Strike;
use pool_desk::outside::Outside;
use server_end::transcript::Transcript;
use server_end::{Moved, ServerEnd};
use session_catalogue::Catalogue;
use start_keys::StartKey;
use std::alloc::{AllocError, Global};
use std::sync::Arc;
use std::sync::atomic::{AtomicU64, Ordering};
use worker_parts::{CUT, WELCOME, word};

/// What stands behind all addresses.
#[derive(Clone, Copy, Drop)]
pub enum Behind {
    /// Servers that answer.
    Sessions,
    /// The same, of whose bytes a call moves one.
    Slow,
    /// Servers that die once so many bytes were read of them.
    Mortals(u64),
    /// Servers that refuse each start by [`START_ERROR`].
    Starting,
    /// Servers that send a ReadyForQuery of length 3 behind their welcome.
    Malformed,
    Nobody,
}

/// What a server says that isn't up yet (PostgreSQL manual, "PostgreSQL Error Codes", cannot_connect_now).
pub(crate) const START_ERROR: &[u8] =
    b"E\0\0\0\x3eSFATAL\0VFATAL\0C57P03\0Mthe database system is starting up\0\0";

/// How many Terminates, and how many resets, were written to the servers; and how many logins that were late, starts that were late, and
/// links whose servers' connections had ended were logged.
#[derive(Drop)]
pub(crate) struct Seen {
    pub terminates: AtomicU64,
    pub resets: AtomicU64,
    pub late_logins: AtomicU64,
    pub late_starts: AtomicU64,
    pub ended_links: AtomicU64,
}

impl Seen {
    fn note(&self, written: &[u8]) {
        if written == b"X\0\0\0\x04".as_slice() {
            self.terminates.fetch_add(1, Ordering::SeqCst);
        }
        if written == b"Q\0\0\0\x10DISCARD ALL\0".as_slice() {
            self.resets.fetch_add(1, Ordering::SeqCst);
        }
    }
}

/// A stand-in server that notes what is written to it, and may speak unasked.
#[derive(Drop)]
pub(crate) struct TestServer {
    server: MemoryServer,
    /// What it says once so many bytes were read of it.
    words: &'static [u8],
    after: u64,
    seen: Arc<Seen>,
    /// All that it gave, those words too.
    given: Transcript,
}

impl TestServer {
    /// Whether it says something of its own now.
    fn speaks(&self) -> bool
        ensures words { result ≡ true → 0 < length self.now.words.now }
        ensures lives { result ≡ true → self.now.server.standing.lives ≡ true }
    {
        self.after == 0 && self.words.len() > 0 && self.server.lives()
    }

    /// Says its own words, as many as there is room for.
    #[tactic(auto, using(crate::proofs::Ends::speaks, crate::proofs::Ends::speaks_counted))]
    fn speak(&mut self, into: &mut [u8]) -> Moved
        requires room { 0 < length into.old }
        requires words { 0 < length self.old.words.now }
        requires lives { self.old.server.standing.lives ≡ true }
        ensures within { IsWithin result (length into.old) }
        ensures moves { Moves (unfollowed self.old.server.standing self.old.given.bytes) [] (unfollowed self.new.server.standing self.new.given.bytes) (moved result into.new) }
        ensures counts { CountsRead (unfollowed self.old.server.standing self.old.given.bytes) (unfollowed self.new.server.standing self.new.given.bytes) result }
    {
        let count = self.words.len().min(into.len());
        into[..count].copy_from_slice(&self.words[..count]);
        self.words = &self.words[count..];
        self.given.note(&into[..count]);
        Moved::Count(count)
    }
}

impl ServerEnd for TestServer {
    ghost use Rattle.serving_parts.specs.Ends.{unfollowed};

    ghost standing = { λ s. unfollowed s.server.standing s.given.bytes };

    #[tactic(auto, using(crate::proofs::Ends::none_given, crate::proofs::Ends::unfollowed_moves, crate::proofs::Ends::unfollowed_reads))]
    fn read_some(&mut self, into: &mut [u8]) -> Moved {
        if self.speaks() {
            return self.speak(into);
        }
        let moved = self.server.read(into);
        if let Moved::Count(count) = moved {
            self.given.note(&into[..count]);
            self.after = self.after.saturating_sub(count as u64);
        }
        moved
    }

    #[tactic(auto, using(crate::proofs::Ends::unfollowed_takes, crate::proofs::Ends::unfollowed_writes))]
    fn write_some(&mut self, from: &[u8]) -> Moved {
        self.seen.note(from);
        self.server.write(from)
    }

    fn faults(&self) -> u64 {
        ServerEnd::faults(&self.server)
    }

    fn waits(&self) -> (u64, u64) {
        ServerEnd::waits(&self.server)
    }
}

/// Reaches new servers of one catalogue, whatever the row, which let everybody in, and which no cancel strikes.
pub(crate) struct Servers {
    alloc: Global,
    catalogue: Arc<Catalogue>,
    behind: Behind,
    seen: Arc<Seen>,
}

impl Drop for Servers {
    fn drop(self) {
        let Servers {
            alloc: _,
            catalogue: _,
            behind: _,
            seen: _,
        } = self;
    }
}

impl Servers {
    pub(crate) fn new(
        alloc: Global,
        catalogue: Arc<Catalogue>,
        behind: Behind,
    ) -> Result<Servers, AllocError> {
        let seen = Seen {
            terminates: AtomicU64::new(0),
            resets: AtomicU64::new(0),
            late_logins: AtomicU64::new(0),
            late_starts: AtomicU64::new(0),
            ended_links: AtomicU64::new(0),
        };
        Ok(Servers {
            alloc,
            catalogue,
            behind,
            seen: Arc::new(alloc, seen)?,
        })
    }

    /// What its servers see.
    pub(crate) fn seen(&self) -> Result<Arc<Seen>, AllocError> {
        Arc::try_clone(&self.seen)
    }

    /// The most bytes that a call of a server moves, and after how many it dies.
    fn moves(&self) -> (usize, Option<u64>)
        ensures { 0 < result.0 }
    {
        match self.behind {
            Behind::Slow => (1, None),
            Behind::Mortals(count) => (CUT, Some(count)),
            _ => (CUT, None),
        }
    }

    /// What a server says of its own, and after how many bytes.
    fn words(&self) -> (&'static [u8], u64) {
        match self.behind {
            Behind::Starting => (START_ERROR, 0),
            Behind::Malformed => (b"Z\0\0\0\x03", WELCOME as u64),
            _ => (b"", 0),
        }
    }

    /// A server in memory that waits for its StartupMessage.
    fn server(&self) -> Result<MemoryServer, AllocError> {
        let (cut, dies_after) = self.moves();
        let catalogue = Arc::try_clone(&self.catalogue)?;
        MemoryServer::spared(
            self.alloc,
            catalogue,
            ServerAuth::Trust,
            word(7),
            cut,
            dies_after,
        )
    }
}

impl Outside for Servers {
    ghost use Rattle.link_desk.specs.Homes.{unknown_home};

    type End = TestServer;

    ghost home = { unknown_home };

    fn dial(
        &self,
        _number: u64,
        _key: &StartKey,
        _credential: &Credential<'_>,
        _seconds: u32,
    ) -> Option<TestServer> {
        if let Behind::Nobody = self.behind {
            return None;
        }
        let (words, after) = self.words();
        Some(TestServer {
            server: self.server().ok()?,
            words,
            after,
            seen: self.seen().ok()?,
            given: Transcript::new(),
        })
    }

    fn strike(&self, _strike: &Strike) {}

    fn note(&self, _client: &Client<'_>, note: &Note<'_>) {
        let count = match note {
            Note::Late => &self.seen.late_logins,
            Note::Unstarted(_, Unstarted::TimedOut) => &self.seen.late_starts,
            Note::LinkLost(_, Loss::Ended) => &self.seen.ended_links,
            _ => return,
        };
        count.fetch_add(1, Ordering::SeqCst);
    }
}
