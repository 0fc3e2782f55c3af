//! A client that asks once another client was answered.
ghost use Rattle.std.specs.Prelude.{◌≡◌, [], IfOk, true};
ghost use Rattle.server_end.specs.Moves.{ClientReads, ClientWrites, IsWithin, moved};

use crate::noted_ends::Notes;
use memory_ends::memory_client::MemoryClient;
use play_tests::files::START;
use server_end::{ClientEnd, Moved};
use std::alloc::{AllocError, Global};
use std::sync::atomic::Ordering;
use worker_parts::{CUT, WELCOME};

/// How far it is.
#[derive(Clone, Copy, Drop)]
enum Part {
    Welcome,
    Answer,
    End,
}

const TERMINATE: &[u8] = b"X\0\0\0\x04";

const READY: &[u8] = b"Z\0\0\0\x05I";

/// A client that is welcomed, asks once the notes tell that the other client was answered, and leaves once it is answered itself.
#[derive(Drop)]
pub(crate) struct HeldClient<'a> {
    client: MemoryClient,
    /// What it asks.
    query: &'static [u8],
    part: Part,
    notes: &'a Notes,
}

impl<'a> HeldClient<'a> {
    pub(crate) fn new(
        alloc: Global,
        query: &'static [u8],
        notes: &'a Notes,
    ) -> Result<HeldClient<'a>, AllocError>
        ensures taken { IfOk result (λ h. h.client.facts.taken ≡ []) }
        ensures given { IfOk result (λ h. h.client.facts.given ≡ []) }
    {
        Ok(HeldClient {
            client: MemoryClient::new(alloc, START, CUT)?,
            query,
            part: Part::Welcome,
            notes,
        })
    }

    /// All that it was given.
    pub(crate) fn given(&self) -> &[u8] {
        self.client.given()
    }

    /// What it says next, if that is due.
    fn due(&self) -> Option<&'static [u8]> {
        match self.part {
            Part::Welcome if self.notes.answered.load(Ordering::SeqCst) => Some(self.query),
            Part::Answer if self.is_answered() => Some(TERMINATE),
            _ => None,
        }
    }

    fn is_answered(&self) -> bool {
        let given = self.client.given();
        given.len() > WELCOME && given.ends_with(READY)
    }

    /// Says the next part, if it is due.
    fn go_on(&mut self)
        ensures { self.new.client.facts ≡ self.old.client.facts }
    {
        let Some(part) = self.due() else {
            return;
        };
        self.part = match self.part {
            Part::Welcome => Part::Answer,
            Part::Answer | Part::End => Part::End,
        };
        // a part that isn't said for want of memory is missed in what the client is given
        let _ = self.client.feed(part);
    }
}

impl<'a> ClientEnd for HeldClient<'a> {
    ghost facts = { λ h. h.client.facts };

    fn read_some(&mut self, into: &mut [u8]) -> Moved {
        let moved = self.client.read(into);
        if moved == Moved::NotNow {
            self.go_on();
        }
        moved
    }

    fn write_some(&mut self, from: &[u8]) -> Moved {
        let moved = self.client.write(from);
        if self.client.given().len() >= WELCOME {
            self.notes.welcomed.store(true, Ordering::SeqCst);
        }
        moved
    }

    fn faults(&self) -> u64 {
        ClientEnd::faults(&self.client)
    }

    fn waits(&self) -> (u64, u64) {
        ClientEnd::waits(&self.client)
    }
}
