//! Bells by which waiting clients are woken. Nothing is proved of who wakes when.
ghost use Rattle.std.specs.Prelude.{◌≡◌, ◌%◌, slice_set, true, vec_len};
ghost use Rattle.pool_desk.specs.declared.bells.TheConstants.{BELLS};

use std::alloc::{AllocError, Global};
use std::sync::Condvar;

/// So many bells there are.
pub const BELLS: u64 = 1024;

/// Which of the bells are to be rung.
pub type Chosen = [bool; BELLS as usize];

/// Chooses the bell of this client too.
pub fn choose(chosen: &mut Chosen, client: u64)
    ensures { chosen.new ≡ slice_set chosen.old (client % BELLS) true }
{
    chosen[(client % BELLS) as usize] = true;
}

/// A client waits at the bell of its number, modulo their number.
#[derive(Drop)]
pub struct Bells {
    bells: Vec<Condvar>,
    ghost all: { vec_len bells ≡ BELLS },
}

impl Bells {
    /// `AllocError` where memory is refused.
    pub fn new(alloc: Global) -> Result<Bells, AllocError> {
        let mut bells = Vec::new(alloc);
        bells.reserve(BELLS as usize)?;
        for _ in 0..BELLS {
            bells.push_reserved(Condvar::new());
        }
        Ok(Bells { bells })
    }

    /// The bell of this client.
    pub fn of(&self, client: u64) -> &Condvar {
        &self.bells[(client % BELLS) as usize]
    }

    /// Wakes those that wait at these bells.
    pub fn ring(&self, chosen: &Chosen) {
        for (bell, is_chosen) in self.bells.iter().zip(chosen) {
            if *is_chosen {
                bell.notify_all();
            }
        }
    }

    /// Wakes all that wait.
    pub fn ring_all(&self) {
        for bell in &self.bells {
            bell.notify_all();
        }
    }
}
