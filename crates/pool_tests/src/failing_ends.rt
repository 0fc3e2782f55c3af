//! Servers of which the first fails at one of its calls, which is noted, and a client that notes where it is given bytes that it isn't owed.
ghost use Rattle.std.specs.Prelude.{◌≡◌, true};
ghost use Rattle.server_end.specs.Moves.{ClientReads, ClientWrites, IsWithin, moved};

use credentials::Credential;
use memory_dial::{MemoryDial, Naming};
use memory_ends::failing_end::FailingEnd;
use memory_ends::memory_server::MemoryServer;
use paced_client::PacedClient;
use pool_desk::answers::Strike;
use pool_desk::outside::Outside;
use server_end::{ClientEnd, Moved, ServerEnd};
use start_keys::StartKey;
use std::sync::atomic::{AtomicBool, Ordering};

/// A server in memory that fails from one of its calls on, which is noted then.
#[derive(Drop)]
pub(crate) struct FailingServer<'a> {
    end: FailingEnd<MemoryServer>,
    has_failed: &'a AtomicBool,
}

impl<'a> FailingServer<'a> {
    fn note(&self, moved: Moved) {
        if moved == Moved::Fault {
            self.has_failed.store(true, Ordering::SeqCst);
        }
    }
}

impl<'a> ServerEnd for FailingServer<'a> {
    ghost use Rattle.memory_ends.specs.Failing.{failing_server};

    ghost standing = { λ s. failing_server s.end.calls s.end.inner.standing };

    fn read_some(&mut self, into: &mut [u8]) -> Moved {
        let moved = self.end.read_some(into);
        self.note(moved);
        moved
    }

    fn write_some(&mut self, from: &[u8]) -> Moved {
        let moved = self.end.write_some(from);
        self.note(moved);
        moved
    }

    fn faults(&self) -> u64 {
        ServerEnd::faults(&self.end)
    }

    fn waits(&self) -> (u64, u64) {
        ServerEnd::waits(&self.end)
    }
}

/// Reaches new servers in memory; the first that is dialled fails from this call on.
#[derive(Drop)]
pub(crate) struct FailingDial<'a, N: Naming> {
    pub dialer: MemoryDial<N>,
    pub call: u64,
    pub has_dialled: AtomicBool,
    pub has_failed: &'a AtomicBool,
}

impl<'a, N: Naming> FailingDial<'a, N> {
    /// At which call the next server fails.
    fn next_call(&self) -> u64 {
        if self.has_dialled.swap(true, Ordering::SeqCst) {
            return u64::MAX;
        }
        self.call
    }
}

impl<'a, N: Naming> Outside for FailingDial<'a, N> {
    ghost use Rattle.memory_dial.specs.Homes.{open_home};

    type End = FailingServer<'a>;

    ghost home = { open_home N.catalogue };

    fn dial(
        &self,
        number: u64,
        key: &StartKey,
        credential: &Credential<'_>,
        seconds: u32,
    ) -> Option<FailingServer<'a>> {
        let server = self.dialer.dial(number, key, credential, seconds)?;
        Some(FailingServer {
            end: FailingEnd::new(server, self.next_call().max(1)),
            has_failed: self.has_failed,
        })
    }

    fn strike(&self, _strike: &Strike) {}
}

/// A paced client that notes once it was given anything but a beginning of what it is owed.
#[derive(Drop)]
pub(crate) struct OwedClient<'a> {
    pub client: PacedClient,
    pub owed: &'a [u8],
    pub strays: &'a AtomicBool,
}

impl<'a> ClientEnd for OwedClient<'a> {
    ghost use Rattle.paced_client.specs.Paced.{facts_of};

    ghost facts = { λ c. facts_of c.client };

    fn read_some(&mut self, into: &mut [u8]) -> Moved {
        self.client.read(into)
    }

    fn write_some(&mut self, from: &[u8]) -> Moved {
        let moved = self.client.write(from);
        if !self.owed.starts_with(self.client.given()) {
            self.strays.store(true, Ordering::SeqCst);
        }
        moved
    }

    fn faults(&self) -> u64 {
        self.client.faults()
    }

    fn waits(&self) -> (u64, u64) {
        self.client.waits()
    }
}
