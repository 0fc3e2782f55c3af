//! How a client's time at the desk ends.
ghost use Rattle.std.specs.Prelude.{◌≡◌};
ghost use Rattle.pool_serve.specs.FinalMessages.{final_message_of};
ghost use Rattle.pool_serve.specs.declared.ending.Ending.TheVariants as endings;

use crate::final_message::FinalMessage;
use link_start::start::StartCause;
use message_view::Refusal;
use std::alloc::AllocError;

/// How a client's time at the desk ended, once it had arrived.
#[derive(Drop)]
pub(crate) enum Ending {
    /// It went, or its login led to no link.
    Left,
    /// The desk refused it.
    Refused(Refusal),
    /// An allocation failed before its lease began.
    Memory,
    /// A call of the desk was answered as strange, or the link that was lent is of another key.
    Strange,
    /// The book made its last decision before its lease was keyed.
    Last,
    /// The server of its row can't be reached.
    Unreached,
    /// Its link wasn't started, for this cause.
    Unstarted(StartCause),
    /// Its lease has ended, by this refusal or by none.
    Relayed(Option<Refusal>),
    /// It was a client of the console, and its talk has ended, by this refusal or by none.
    Managed(Option<Refusal>),
}

impl From<AllocError> for Ending {
    ghost from_gives = { λ _ ending. ending ≡ endings.Memory };

    fn from(_error: AllocError) -> Ending {
        Ending::Memory
    }
}

impl Ending {
    /// What the client is told last.
    pub(crate) fn into_final_message(self) -> FinalMessage
        ensures { result ≡ final_message_of self }
    {
        match self {
            Ending::Left | Ending::Strange => FinalMessage::Nothing,
            Ending::Refused(refusal) => FinalMessage::Refusal(refusal),
            Ending::Memory => FinalMessage::Refusal(Refusal::OutOfMemory),
            Ending::Last => FinalMessage::Refusal(Refusal::LastDecision),
            Ending::Unreached => FinalMessage::Refusal(Refusal::ServerNotReached),
            Ending::Unstarted(cause) => FinalMessage::of_start(cause),
            Ending::Relayed(refusal) | Ending::Managed(refusal) => FinalMessage::of(refusal),
        }
    }
}
