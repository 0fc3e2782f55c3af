//! An end of a server that has gone.
ghost use Rattle.std.specs.Prelude.{◌≡◌, IfOk, None, Some};
ghost use Rattle.std.specs.Arc.{arc_value};

use server_end::{Moved, ServerEnd};
use session_machine::StartKey;
use std::alloc::AllocError;
use std::marker::Model;
use std::sync::Arc;

/// A server that has gone: it follows nothing and each call of it answers [`Moved::Ended`].
pub struct GoneEnd {
    /// The key of the session that was started on it before, if one was.
    started: Option<Arc<StartKey>>,
}

impl Drop for GoneEnd {
    fn drop(self) {
        let GoneEnd { started: _ } = self;
    }
}

impl Model for GoneEnd {
    ghost use Rattle.std.specs.Prelude.{Option, option_map};
    ghost use Rattle.std.specs.Arc.{arc_value};
    ghost use Rattle.session_values.specs.State.{StartKeyOf};

    ghost Value = { Option StartKeyOf };

    ghost view = { λ e. option_map arc_value e.started };
}

impl GoneEnd {
    /// A server that went before it was sent anything.
    pub fn new() -> GoneEnd
        ensures { result ≡ None }
    {
        GoneEnd { started: None }
    }

    /// A server that went once a session of this key was started on it: it asked for nothing, and gave no more than AuthenticationOk
    /// and ReadyForQuery. The only error is that the key has too many owners.
    pub fn of(key: &Arc<StartKey>) -> Result<GoneEnd, AllocError>
        ensures { IfOk result (λ e. e ≡ Some (arc_value key.now)) }
    {
        Ok(GoneEnd {
            started: Some(Arc::try_clone(key)?),
        })
    }
}

impl ServerEnd for GoneEnd {
    ghost use Rattle.memory_ends.specs.Gone.{gone};

    ghost standing = { λ e. gone e };

    fn read_some(&mut self, _into: &mut [u8]) -> Moved {
        Moved::Ended
    }

    fn write_some(&mut self, _from: &[u8]) -> Moved {
        Moved::Ended
    }

    fn faults(&self) -> u64 {
        0
    }

    fn waits(&self) -> (u64, u64) {
        (0, 0)
    }
}
