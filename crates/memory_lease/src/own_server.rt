//! The stand-in server of one client.
ghost use Rattle.std.specs.Prelude.{◌≡◌, ◌<◌, [], length, true, false};
ghost use Rattle.link_model.specs.Futures.{future};
ghost use Rattle.link_model.specs.Standing.{Moves};
ghost use Rattle.server_end.specs.Moves.{CountsRead, CountsWrite, IsWithin, moved};
ghost use Rattle.memory_ends.specs.Servers.{LAST_COUNT, has_some};
ghost use Rattle.memory_lease.specs.Own.{IsMarked, own_server};
ghost use Rattle.memory_lease.specs.Unended.{StillWaits};

use memory_ends::memory_server::MemoryServer;
use server_end::{Moved, ServerEnd};
use std::marker::Model;

/// A stand-in server in memory, and whether it has nothing to give.
pub(crate) struct OwnServer {
    server: MemoryServer,
    /// The last call was a read that came to nothing.
    rests: bool,
}

impl Drop for OwnServer {
    fn drop(self) {
        let OwnServer {
            server: _,
            rests: _,
        } = self;
    }
}

impl Model for OwnServer {
    ghost use Rattle.std.specs.Prelude.{◌≡◌, true, []};
    ghost use Rattle.link_model.specs.Futures.{future};
    ghost use Rattle.memory_lease.specs.Own.{OwnOf, own_server};

    ghost Value = { OwnOf };

    ghost view = { λ s. own_server s.server.left s.server.standing };

    ghost invariant = { λ s. s.rests ≡ true → future s.server.standing [] ≡ [] };
}

impl OwnServer {
    pub(crate) fn new(server: MemoryServer) -> OwnServer
        ensures { result ≡ own_server server.left server.standing }
    {
        OwnServer {
            server,
            rests: false,
        }
    }

    /// Whether it lives.
    pub(crate) fn lives(&self) -> bool
        ensures { result ≡ self.now.standing.lives }
    {
        self.server.lives()
    }

    /// Whether it has nothing to give.
    pub(crate) fn rests(&self) -> bool
        ensures { result ≡ true → future self.now.standing [] ≡ [] }
    {
        self.rests
    }

    /// Whether a fault ended it: an allocation failed.
    pub(crate) fn is_faulty(&self) -> bool
        ensures faults { result ≡ false → self.now.standing.faults ≡ 0 }
        ensures marked { IsMarked self.now }
    {
        self.server.faults() > 0
    }

    /// Whether the last count of its waits ended it. Else, without a fault, it dies of nothing but the bytes that
    /// were read from it.
    pub(crate) fn is_counted_out(&self) -> bool
        ensures last { result ≡ true → self.now.standing.read_waits ≡ LAST_COUNT }
        ensures lives { result ≡ false → self.now.standing.faults ≡ 0 → self.now.standing.lives ≡ has_some self.now.left }
    {
        !self.server.lives() && self.server.waits().0 == u64::MAX
    }

    /// Whether it died of the bytes that were read from it. Else, without a fault, it still waits.
    pub(crate) fn has_died(&self) -> bool
        ensures died { result ≡ true → self.now.standing.faults ≡ 0 → has_some self.now.left ≡ false }
        ensures waits { result ≡ false → StillWaits self.now.standing }
    {
        !self.lives() && !self.is_counted_out()
    }

    /// The server itself.
    pub(crate) fn into_server(self) -> MemoryServer
        ensures { own_server result.left result.standing ≡ self }
    {
        let OwnServer { server, rests: _ } = self;
        server
    }

    /// [`MemoryServer::read`].
    fn read(&mut self, into: &mut [u8]) -> Moved
        requires { 0 < length into.old }
        ensures within { IsWithin result (length into.old) }
        ensures moves { Moves self.old.standing [] self.new.standing (moved result into.new) }
        ensures counts { CountsRead self.old.standing self.new.standing result }
    {
        let moved = self.server.read(into);
        self.rests = matches!(moved, Moved::NotNow);
        moved
    }

    /// [`MemoryServer::write`].
    fn write(&mut self, from: &[u8]) -> Moved
        requires { 0 < length from.now }
        ensures within { IsWithin result (length from.now) }
        ensures moves { Moves self.old.standing (moved result from.now) self.new.standing [] }
        ensures counts { CountsWrite self.old.standing self.new.standing result }
    {
        self.rests = false;
        self.server.write(from)
    }
}

impl ServerEnd for OwnServer {
    ghost standing = { λ s. s.standing };

    fn read_some(&mut self, into: &mut [u8]) -> Moved {
        self.read(into)
    }

    fn write_some(&mut self, from: &[u8]) -> Moved {
        self.write(from)
    }

    fn faults(&self) -> u64 {
        self.server.faults()
    }

    fn waits(&self) -> (u64, u64) {
        self.server.waits()
    }
}
