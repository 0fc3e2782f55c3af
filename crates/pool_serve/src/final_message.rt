//! What a client is told last.
ghost use Rattle.std.specs.Prelude.{◌≡◌, ◌+◌, ◌≤◌};
ghost use Rattle.pool_serve.specs.FinalMessages.{HasGiven, final_message_of_start, last_bytes, or_nothing};
ghost use Rattle.time_limits.specs.declared.TheConstants.{CLIENT_TURNS};

use link_start::start::{StartCause, StartError, StartRefusal};
use message_view::{Refusal, refusal_bytes};
use server_end::gate::Gate;
use server_end::{ClientEnd, Moved, ServerEnd, rest_of};
use time_limits::CLIENT_TURNS;

/// What a client is told last.
#[derive(Drop)]
pub(crate) enum FinalMessage {
    Nothing,
    Refusal(Refusal),
    /// The ErrorResponse by which a server refused the start of the client's link.
    Error(StartError),
}

/// Gives a client these bytes, in at most so many tries; one turn of the gate is taken for each that came to nothing.
fn give<C: ClientEnd, E: ServerEnd, G: Gate<E>>(client: &mut C, bytes: &[u8], gate: &mut G)
    ensures given { HasGiven (C.facts client.old) (C.facts client.new) bytes.now }
    ensures taken { G.turns gate.new ≤ G.turns gate.old + CLIENT_TURNS }
    ensures paced { (C.facts client.new).write_waits + G.turns gate.old ≡ (C.facts client.old).write_waits + G.turns gate.new }
{
    let mut sent = 0;
    for _ in 0..CLIENT_TURNS {
        if sent == bytes.len() {
            return;
        }
        match client.write_some(rest_of(bytes, sent)) {
            Moved::Count(count) => sent += count,
            Moved::NotNow => {
                gate.turn_of_client();
            }
            Moved::Ended | Moved::Fault => return,
        }
    }
}

impl FinalMessage {
    /// The refusal, if there is one.
    pub(crate) fn of(refusal: Option<Refusal>) -> FinalMessage
        ensures { result ≡ or_nothing refusal }
    {
        match refusal {
            Some(refusal) => FinalMessage::Refusal(refusal),
            None => FinalMessage::Nothing,
        }
    }

    /// What a client is told whose link wasn't started.
    pub(crate) fn of_start(cause: StartCause) -> FinalMessage
        ensures { result ≡ final_message_of_start cause }
    {
        match cause.into_refusal() {
            StartRefusal::Error(error) => FinalMessage::Error(error),
            StartRefusal::Refusal(refusal) => FinalMessage::Refusal(refusal),
        }
    }

    fn as_bytes(&self) -> &[u8]
        ensures { result.now ≡ last_bytes self.now }
    {
        match self {
            FinalMessage::Nothing => b"",
            FinalMessage::Refusal(refusal) => refusal_bytes(*refusal),
            FinalMessage::Error(error) => error.as_bytes(),
        }
    }

    /// Tells the client.
    pub(crate) fn tell<C: ClientEnd, E: ServerEnd, G: Gate<E>>(&self, client: &mut C, gate: &mut G)
        ensures given { HasGiven (C.facts client.old) (C.facts client.new) (last_bytes self.now) }
        ensures taken { G.turns gate.new ≤ G.turns gate.old + CLIENT_TURNS }
        ensures paced { (C.facts client.new).write_waits + G.turns gate.old ≡ (C.facts client.old).write_waits + G.turns gate.new }
    {
        give(client, self.as_bytes(), gate);
    }
}
