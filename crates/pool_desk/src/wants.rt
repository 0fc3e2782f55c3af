//! Clients whose server had no place for their links. Nothing is proved of who asks again when.
ghost use Rattle.std.specs.Prelude.{◌<◌, IfSome, vec_len};

use start_keys::StartKey;
use std::alloc::{AllocError, Global};
use std::sync::Arc;

/// A client whose server had no place for its link.
#[derive(Drop)]
struct Want {
    client: u64,
    key: Arc<StartKey>,
    /// A link of its pool has come back or gone since.
    is_called: bool,
}

impl Want {
    /// Whether it waits for a link of this key's pool, and wasn't called yet.
    fn waits_with(&self, key: &StartKey) -> bool {
        !self.is_called && self.key.row == key.row && self.key.user == key.user
    }
}

/// Those clients, in the order in which they came to wait.
#[derive(Drop)]
pub(crate) struct Wants {
    waiting: Vec<Want>,
}

impl Wants {
    /// Nobody.
    pub(crate) fn new(alloc: Global) -> Wants {
        Wants {
            waiting: Vec::new(alloc),
        }
    }

    /// Whether nobody waits.
    pub(crate) fn is_empty(&self) -> bool {
        self.waiting.is_empty()
    }

    /// Where this client stands among them.
    fn place_of(&self, client: u64) -> Option<usize>
        ensures { IfSome result (λ place. place < vec_len self.now.waiting) }
    {
        self.waiting.iter().position(|want| want.client == client)
    }

    /// Whether this client waits.
    pub(crate) fn has(&self, client: u64) -> bool {
        self.place_of(client).is_some()
    }

    /// Whether this client was called; it doesn't wait any more then.
    pub(crate) fn answers_call(&mut self, client: u64) -> bool {
        let Some(place) = self.place_of(client) else {
            return false;
        };
        let was_called = match self.waiting.get(place) {
            Some(want) => want.is_called,
            None => false,
        };
        if was_called {
            self.waiting.remove(place);
        }
        was_called
    }

    /// This client waits behind them.
    ///
    /// `AllocError` where memory is refused.
    pub(crate) fn push(&mut self, client: u64, key: &Arc<StartKey>) -> Result<(), AllocError> {
        let key = Arc::try_clone(key)?;
        self.waiting.push(Want {
            client,
            key,
            is_called: false,
        })?;
        Ok(())
    }

    /// Calls the first that waits for a link of this key's pool: its number.
    pub(crate) fn call(&mut self, key: &StartKey) -> Option<u64> {
        let place = self.waiting.iter().position(|want| want.waits_with(key))?;
        let want = self.waiting.get_mut(place)?;
        want.is_called = true;
        Some(want.client)
    }

    /// This client doesn't wait any more. Where it was called, the next of its pool is: its number.
    pub(crate) fn remove(&mut self, client: u64) -> Option<u64> {
        let place = self.place_of(client)?;
        let want = self.waiting.remove(place);
        if want.is_called {
            return self.call(&want.key);
        }
        None
    }
}
