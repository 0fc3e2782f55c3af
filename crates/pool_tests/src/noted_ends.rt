//! A client that notes how far it has come, and a gate that waits for another client.
ghost use Rattle.std.specs.Prelude.{◌≡◌, false, true};
ghost use Rattle.server_end.specs.Moves.{ClientReads, ClientWrites, IsWithin, moved};

use paced_client::PacedClient;
use server_end::gate::{Gate, Ready, TurnCount};
use server_end::{ClientEnd, Moved, ServerEnd};
use std::rt::Clock;
use std::sync::atomic::{AtomicBool, Ordering};
use std::thread::sleep;
use std::time::Duration;

/// A paced client that notes once it was given more than so many bytes.
#[derive(Drop)]
pub(crate) struct NotedClient<'a> {
    pub client: PacedClient,
    pub bytes: usize,
    pub given: &'a AtomicBool,
}

impl<'a> ClientEnd for NotedClient<'a> {
    ghost use Rattle.paced_client.specs.Paced.{facts_of};

    ghost facts = { λ c. facts_of c.client };

    fn read_some(&mut self, into: &mut [u8]) -> Moved {
        self.client.read(into)
    }

    fn write_some(&mut self, from: &[u8]) -> Moved {
        let moved = self.client.write(from);
        if self.client.given().len() > self.bytes {
            self.given.store(true, Ordering::SeqCst);
        }
        moved
    }

    fn faults(&self) -> u64 {
        self.client.faults()
    }

    fn waits(&self) -> (u64, u64) {
        self.client.waits()
    }
}

/// How far two clients have come, of which the first waits for the second.
#[derive(Drop)]
pub(crate) struct Notes {
    /// Set once the first client was welcomed.
    pub welcomed: AtomicBool,
    /// Set once the second client was answered.
    pub answered: AtomicBool,
    /// Set where the first client waited in vain.
    pub late: AtomicBool,
}

impl Notes {
    /// Of clients that haven't come yet.
    pub fn new() -> Notes {
        Notes {
            welcomed: AtomicBool::new(false),
            answered: AtomicBool::new(false),
            late: AtomicBool::new(false),
        }
    }

    /// Waits until the first client was welcomed, for at most 60,000 sleeps of 1 ms.
    pub fn wait_for_welcome(&self, rt: &impl Clock) {
        for _ in 0..60_000u32 {
            if self.welcomed.load(Ordering::SeqCst) {
                return;
            }
            sleep(rt, Duration::from_millis(1));
        }
    }

    /// Whether the second client was answered while the first one waited for it.
    pub fn are_in_time(&self) -> bool {
        self.answered.load(Ordering::SeqCst) && !self.late.load(Ordering::SeqCst)
    }
}

/// The first client's: once it was welcomed, its turns last until the second was answered, or for 60,000 sleeps of 1 ms.
#[derive(Drop)]
pub(crate) struct HoldingGate<'a, R: Clock> {
    pub rt: &'a R,
    pub notes: &'a Notes,
    pub turns: TurnCount,
}

impl<'a, R: Clock> HoldingGate<'a, R> {
    /// Waits for the other client, once its own was welcomed.
    fn hold(&self) {
        if !self.notes.welcomed.load(Ordering::SeqCst) {
            return;
        }
        for _ in 0..60_000u32 {
            if self.notes.answered.load(Ordering::SeqCst) {
                return;
            }
            sleep(self.rt, Duration::from_millis(1));
        }
        self.notes.late.store(true, Ordering::SeqCst);
    }
}

impl<'a, R: Clock, E: ServerEnd> Gate<E> for HoldingGate<'a, R> {
    ghost turns = { λ g. g.turns };

    ghost late = { λ g. false };

    fn turn(&mut self) -> Ready {
        self.turns.count();
        self.hold();
        Ready {
            client: true,
            server: true,
        }
    }

    fn turn_of_client(&mut self) {
        self.turns.count();
        self.hold();
    }

    fn turn_of_link(&mut self) {
        self.turns.count();
        self.hold();
    }
}
