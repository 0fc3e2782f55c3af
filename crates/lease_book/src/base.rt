//! The lists that the kept decisions begin from, which only clauses read: they take no memory, and what folds a decision into them does
//! nothing at run time.
ghost use Rattle.std.specs.Prelude.{◌≡◌};
ghost use Rattle.std.specs.Borrow.{ftrue};
ghost use Rattle.book_model.specs.Book.{Book};
ghost use Rattle.book_model.specs.Outcomes.{apply};

use crate::kept_event::KeptEvent;
use book_register::book_state::BookState;
use std::marker::{Model, PhantomData};

/// The lists behind the kept decisions. A clause reads them as `lists`.
#[derive(Drop)]
pub struct Base {
    marker: PhantomData<u8>,
    pub ghost lists: { Book },
}

impl Model for Base {
    ghost also_owns = { λ _. ftrue };
}

// It owns nothing.
unsafe impl Send for Base {}

impl Base {
    /// These lists.
    pub fn of(_lists: &BookState) -> Base
        ensures { result.lists ≡ _lists.now }
    {
        Base {
            marker: PhantomData,
        }
    }

    /// What this event made of them.
    pub fn fold(&mut self, _event: &KeptEvent)
        ensures { self.new.lists ≡ (apply self.old.lists _event.now).book }
    {}
}
