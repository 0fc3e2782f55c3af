//! What is logged once a second at most.
ghost use Rattle.std.specs.Prelude.{◌≡◌, None};
ghost use Rattle.log_writer.specs.Limits as spec;

use crate::queue::one_more;
use std::marker::Model;

/// How often something has come that is logged once a second at most.
#[derive(Drop)]
pub struct Limiter {
    /// The second in which it was logged last.
    logged: Option<u64>,
    /// How often it has come since then.
    unlogged: u64,
}

impl Model for Limiter {
    ghost use Rattle.log_writer.specs.Limits.{LimiterOf};

    ghost Value = { LimiterOf };

    ghost view = { λ l. record { logged = l.logged; unlogged = l.unlogged } };
}

impl Limiter {
    /// It has never come.
    pub fn new() -> Limiter
        ensures { result ≡ record { logged = None; unlogged = 0 } }
    {
        Limiter {
            logged: None,
            unlogged: 0,
        }
    }

    /// It has come once more.
    pub fn add(&mut self)
        ensures { self.new ≡ spec.with_one self.old }
    {
        self.unlogged = one_more(self.unlogged);
    }

    fn is_later(&self, second: u64) -> bool
        ensures { result ≡ spec.is_later self.now.logged second }
    {
        match self.logged {
            Some(logged) => logged < second,
            None => true,
        }
    }

    /// What is to be logged in this second, and then counts as logged: how often it has come since it was logged last. None where it
    /// hasn't, or was logged in this second or a later one.
    pub fn due(&mut self, second: u64) -> Option<u64>
        ensures logged { result ≡ spec.due second self.old }
        ensures rest { self.new ≡ spec.after_due second self.old }
    {
        if self.unlogged == 0 || !self.is_later(second) {
            return None;
        }
        let unlogged = self.unlogged;
        self.logged = Some(second);
        self.unlogged = 0;
        Some(unlogged)
    }
}
