//! Why a message of the client isn't carried out.
ghost use Rattle.std.specs.Prelude.{◌≡◌};
ghost use Rattle.session_values.specs.declared.stop.Stop.TheVariants.{Refused, OutOfMemory};
ghost use Rattle.session_values.specs.declared.cause.Cause.TheVariants.{MalformedMessage};

use crate::cause::Cause;
use message_view::ViewError;
use std::alloc::AllocError;

/// Why a message isn't carried out.
#[derive(Clone, Copy, Debug, PartialEq, Eq, Drop)]
pub enum Stop {
    /// The client is answered by this error, and the session is as it was.
    Refused(Cause),
    /// An allocation failed. The session and the output are of no use from then on.
    OutOfMemory,
}

impl From<Cause> for Stop {
    ghost from_gives = { λ cause stop. stop ≡ Refused cause };

    fn from(cause: Cause) -> Stop {
        Stop::Refused(cause)
    }
}

impl From<AllocError> for Stop {
    ghost from_gives = { λ _ stop. stop ≡ OutOfMemory };

    fn from(_error: AllocError) -> Stop {
        Stop::OutOfMemory
    }
}

impl From<ViewError> for Stop {
    ghost from_gives = { λ _ stop. stop ≡ Refused MalformedMessage };

    fn from(_fault: ViewError) -> Stop {
        Stop::Refused(Cause::MalformedMessage)
    }
}
