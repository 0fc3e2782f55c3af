//! Lists that grow at their end, in chunks that their copies share.
ghost use Rattle.std.specs.Prelude.{◌≡◌, ℕ, List, [], ◌∷◌, ◌++◌, map, IfOk};
ghost use Rattle.std.specs.Arc.{arc_value};

use crate::shared::{Shared, push_items};
use std::alloc::{AllocError, Global};
use std::marker::Model;
use std::sync::Arc;

const CHUNK: usize = 64;

/// A list that grows at its end, and whose copies share their items. Contracts see it as the list.
pub struct AppendList<T> {
    /// Lists of `CHUNK` items each.
    full: Shared<Shared<T>>,
    tail: Shared<T>,
}

impl<T: Drop> Drop for AppendList<T> {
    fn drop(self) {
        let AppendList { full: _, tail: _ } = self;
    }
}

impl<T> Model for AppendList<T> {
    ghost use Rattle.std.specs.Prelude.{List, ◌++◌};
    ghost use Rattle.shared_list.specs.Lists.{all_of};

    ghost Value = { List T };

    ghost view = { λ l. all_of l.full ++ l.tail };
}

impl<T: Drop> AppendList<T> {
    /// The empty list.
    pub fn new(alloc: Global) -> Result<AppendList<T>, AllocError>
        ensures { IfOk result (λ l. l ≡ []) }
    {
        Ok(AppendList {
            full: Shared::new(alloc)?,
            tail: Shared::new(alloc)?,
        })
    }

    /// The same list.
    pub fn copied(&self) -> Result<AppendList<T>, AllocError>
        ensures { IfOk result (λ l. l ≡ self.now) }
    {
        Ok(AppendList {
            full: self.full.copied()?,
            tail: self.tail.copied()?,
        })
    }

    /// This list with `item` at its end.
    #[tactic(auto, using(crate::proofs::Lists::all_push, std::proofs::Common::append_assoc))]
    pub fn pushed(&self, alloc: Global, item: T) -> Result<AppendList<T>, AllocError>
        ensures { IfOk result (λ l. l ≡ self.now ++ item ∷ []) }
    {
        if self.tail.len() < CHUNK {
            return Ok(AppendList {
                full: self.full.copied()?,
                tail: self.tail.pushed(alloc, item)?,
            });
        }
        Ok(AppendList {
            full: self.full.pushed(alloc, self.tail.copied()?)?,
            tail: Shared::new(alloc)?.pushed(alloc, item)?,
        })
    }

    /// The items, in order.
    pub fn to_vec(&self, alloc: Global) -> Result<Vec<Arc<T>>, AllocError>
        ensures { IfOk result (λ v. map arc_value v.items ≡ self.now) }
    {
        let mut items = Vec::new(alloc);
        let mut index = 0;
        while index < self.full.len() {
            push_items(self.full.at(index).as_slice(), &mut items)?;
            index += 1;
        }
        push_items(self.tail.as_slice(), &mut items)?;
        Ok(items)
    }
}
