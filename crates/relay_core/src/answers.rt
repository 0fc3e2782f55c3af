//! What a pump answers, by where the relay stands after its moves.
ghost use Rattle.std.specs.Prelude.{◌≡◌};
ghost use Rattle.relay_flow.specs.Flows.{is_empty};
ghost use Rattle.relay_model.specs.Answers.{border_next, is_done, is_quiet, judged, moved_or, phase_after as after, quiet_next, refusal_of};

use crate::relay::Relay;
use frame_view::FrameError;
use message_view::Refusal;
use relay_flow::flow::Ends;
use relay_model::{Next, Phase};
use server_end::{ClientEnd, ServerEnd};

/// Wait where nothing was moved.
fn moved_or(none: bool) -> Next
    ensures { result ≡ moved_or none }
{
    if none { Next::Wait } else { Next::Again }
}

/// The refusal of a client by what stands behind its lawful frames.
fn refusal_of(ends: Ends) -> Option<Refusal>
    ensures { result ≡ refusal_of ends }
{
    match ends {
        Ends::Open | Ends::Last => None,
        Ends::Faulty(FrameError::TooLong) => Some(Refusal::ClientMessageTooLong),
        Ends::Faulty(_) => Some(Refusal::MalformedClientMessage),
    }
}

/// Whether the relay has ended after this answer.
pub fn phase_after(next: Next) -> Phase
    ensures { result ≡ after next }
{
    match next {
        Next::Again | Next::Wait => Phase::Running,
        Next::ClientDone => Phase::Done,
        Next::Refuse(_) | Next::Closed => Phase::Shut,
    }
}

impl<C: ClientEnd, E: ServerEnd> Relay<C, E> {
    /// Whether the client is done.
    fn is_done(&self) -> bool
        ensures { result ≡ is_done self.now }
    {
        self.flags.client_over
            || (self.to_link.held_is_empty() && (self.flags.input_over || self.to_link.is_last()))
    }

    /// Whether the client was given its welcome.
    pub(crate) fn welcome_is_empty(&self) -> bool
        ensures { result ≡ is_empty self.now.greeting }
    {
        self.greeted == self.welcome.len()
    }

    /// Whether the client was given all that may go on to it.
    pub(crate) fn is_quiet(&self) -> bool
        ensures { result ≡ is_quiet self.now }
    {
        self.welcome_is_empty() && self.to_client.held_is_empty()
    }

    /// The answer at a border of the server's frames.
    fn border_next(&self, none: bool) -> Next
        ensures { result ≡ border_next none self.now }
    {
        if let Some(refusal) = refusal_of(self.to_link.ends()) {
            return Next::Refuse(refusal);
        }
        if self.to_client.is_faulty() {
            return Next::Refuse(Refusal::MalformedServerMessage);
        }
        if self.flags.link_over {
            return Next::Refuse(Refusal::ServerFailed);
        }
        moved_or(none)
    }

    /// The answer where all is given.
    fn quiet_next(&self, none: bool) -> Next
        ensures { result ≡ quiet_next none self.now }
    {
        if self.to_client.rest() == 0 {
            return self.border_next(none);
        }
        if self.flags.link_over {
            return Next::Closed;
        }
        moved_or(none)
    }

    /// The answer.
    pub(crate) fn judge(&self, none: bool) -> Next
        ensures { result ≡ judged none self.now }
    {
        if self.is_done() {
            return Next::ClientDone;
        }
        if self.is_quiet() {
            return self.quiet_next(none);
        }
        moved_or(none)
    }
}
