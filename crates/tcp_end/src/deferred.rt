//! AuthenticationOk of a client's end, which goes out with what follows it: a client waits for that in any case, so the two in one call spare
//! a call of the system and a wake of the client for each connection.
ghost use Rattle.std.specs.Prelude.{◌≡◌, ◌+◌, ◌≤◌, ◌++◌, false, length, take, true};
ghost use Rattle.tcp_end.specs.Deferring as spec;
ghost use Rattle.tcp_end.specs.Deferring.{new_deferred};
ghost use Rattle.message_view.specs.declared.writers.TheConstants.{AUTHENTICATION_OK};
ghost use Rattle.tcp_end.specs.declared.deferred.TheConstants.{PACKET};

use message_view::AUTHENTICATION_OK;
use server_end::Moved;
use std::marker::Model;

/// So many bytes go out in one call while some are held: most welcomes have fewer.
pub(crate) const PACKET: usize = 512;

/// AuthenticationOk, once it was given, until it has gone.
pub(crate) struct Deferred {
    /// It was given. It is held but once: a row whose bytes look like it isn't kept back.
    is_given: bool,
    /// How many of its bytes are still to go, its last ones.
    unsent: usize,
}

impl Drop for Deferred {
    fn drop(self) {
        let Deferred {
            is_given: _,
            unsent: _,
        } = self;
    }
}

impl Model for Deferred {
    ghost use Rattle.std.specs.Prelude.{◌≤◌};
    ghost use Rattle.tcp_end.specs.Deferring.{DeferredOf};

    ghost Value = { DeferredOf };

    ghost view = { λ d. record { given = d.is_given; unsent = d.unsent } };

    ghost invariant = { λ d. d.unsent ≤ 9 };
}

/// Puts as many of these bytes as have room behind the first `at` of a packet; how many it then has.
#[tactic(auto, using(crate::proofs::Packets::put_behind))]
fn put(packet: &mut [u8; PACKET], at: usize, bytes: &[u8]) -> usize
    requires { at ≤ PACKET }
    ensures room { result ≤ PACKET }
    ensures count { result ≤ at + length bytes.now }
    ensures bytes { take result packet.new ≡ take PACKET (take at packet.old ++ bytes.now) }
{
    let more = (PACKET - at).min(bytes.len());
    let count = at + more;
    packet[at..count].copy_from_slice(&bytes[..more]);
    count
}

impl Deferred {
    pub(crate) fn new() -> Deferred
        ensures { result ≡ new_deferred }
    {
        Deferred {
            is_given: false,
            unsent: 0,
        }
    }

    /// Whether these bytes are the first AuthenticationOk. Then they are held.
    pub(crate) fn take(&mut self, bytes: &[u8]) -> bool
        ensures first { bytes.now ≡ AUTHENTICATION_OK → self.old.given ≡ false → result ≡ true }
        ensures held { result ≡ true → (bytes.now ≡ AUTHENTICATION_OK) × (self.old.given ≡ false) × (self.new ≡ record { given = true; unsent = 9 }) }
        ensures left { result ≡ false → self.new ≡ self.old }
    {
        if self.is_given || bytes != &AUTHENTICATION_OK[..] {
            return false;
        }
        self.is_given = true;
        self.unsent = AUTHENTICATION_OK.len();
        true
    }

    /// Whether nothing is held.
    pub(crate) fn is_empty(&self) -> bool
        ensures { result ≡ spec.is_empty self.now }
    {
        self.unsent == 0
    }

    /// The bytes that are still to go.
    fn held(&self) -> &[u8]
        ensures bytes { result.now ≡ spec.held self.now }
        ensures count { length result.now ≡ self.now.unsent }
    {
        &AUTHENTICATION_OK[AUTHENTICATION_OK.len() - self.unsent..]
    }

    /// Puts what is held into the front of a packet, and behind it as many of these bytes as have room; how many it then has.
    pub(crate) fn fill(&self, packet: &mut [u8; PACKET], bytes: &[u8]) -> usize
        ensures room { result ≤ PACKET }
        ensures count { result ≤ self.now.unsent + length bytes.now }
        ensures bytes { take result packet.new ≡ take PACKET (spec.held self.now ++ bytes.now) }
    {
        let count = put(packet, 0, self.held());
        put(packet, count, bytes)
    }

    /// A write of what is held, with other bytes behind it, came to this: what it came to for those.
    pub(crate) fn wrote(&mut self, moved: Moved) -> Moved
        ensures moved { result ≡ spec.moved_behind self.old.unsent moved }
        ensures left { self.new ≡ record self.old { unsent = spec.left_of self.old.unsent moved } }
    {
        let Moved::Count(count) = moved else {
            return moved;
        };
        let held = self.unsent;
        self.unsent = held.saturating_sub(count);
        if held < count {
            Moved::Count(count - held)
        } else {
            Moved::NotNow
        }
    }
}
