//! What cancels the statements of the connections that a stand-in server has.
ghost use Rattle.std.specs.Prelude.{◌≡◌, ◌++◌, ◌∷◌, [], OnErr, OnOk, filter};
ghost use Rattle.std.specs.List.{list_any};
ghost use Rattle.stub_server.specs.Strikers.{is_of, is_other};

use memory_ends::striker::Striker;
use message_view::KeyView;
use std::alloc::{AllocError, Global};
use std::marker::Model;

/// The strikers of the connections that are served, each with a key of its own.
pub struct Strikers {
    open: Vec<Striker>,
}

impl Drop for Strikers {
    fn drop(self) {
        let Strikers { open: _ } = self;
    }
}

impl Model for Strikers {
    ghost use Rattle.std.specs.Prelude.{List};
    ghost use Rattle.memory_ends.specs.declared.striker.Striker.{Striker};

    ghost Value = { List Striker };

    ghost view = { λ s. s.open.items };
}

impl Strikers {
    /// No connection is served.
    pub fn new(alloc: Global) -> Strikers
        ensures { result ≡ [] }
    {
        Strikers {
            open: Vec::new(alloc),
        }
    }

    /// A connection is served, and cancels find it from now on. The only error is that an allocation failed.
    pub fn add(&mut self, striker: Striker) -> Result<(), AllocError>
        ensures ok { OnOk result (self.new ≡ self.old ++ striker ∷ []) }
        ensures err { OnErr result (self.new ≡ self.old) }
    {
        self.open.push(striker)?;
        Ok(())
    }

    /// The connection with this key has ended, and no cancel finds it any more.
    pub fn remove(&mut self, key: KeyView)
        ensures { self.new ≡ filter (is_other key) self.old }
    {
        self.open
            .retain(|striker| !striker.has(key.pid, key.secret));
    }

    /// A cancel: whether a connection has this key. Its next Query or Execute that isn't skipped is struck.
    pub fn cancel(&self, key: KeyView) -> bool
        ensures { result ≡ list_any (is_of key) self.now }
    {
        self.open
            .iter()
            .any(|striker| striker.cancel(key.pid, key.secret))
    }
}
