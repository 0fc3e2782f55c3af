//! Lists whose copies share their items.
ghost use Rattle.std.specs.Prelude.{◌≡◌, ℕ, ◌<◌, ◌≤◌, List, [], ◌∷◌, ◌++◌, map, length, take, slice_get, slice_set, IfOk, OnOk, Some};
ghost use Rattle.std.specs.Arc.{arc_value};

use std::alloc::{AllocError, Global};
use std::marker::Model;
use std::sync::Arc;

/// A list whose copies share their items. Contracts see it as the list.
pub struct Shared<T> {
    list: Arc<Vec<Arc<T>>>,
}

impl<T: Drop> Drop for Shared<T> {
    fn drop(self) {
        let Shared { list: _ } = self;
    }
}

impl<T> Model for Shared<T> {
    ghost use Rattle.std.specs.Prelude.{List, map};
    ghost use Rattle.std.specs.Arc.{arc_value};

    ghost Value = { List T };

    ghost view = { λ s. map arc_value (arc_value s.list).items };
}

fn copied_list<T: Drop>(alloc: Global, list: &[Arc<T>]) -> Result<Vec<Arc<T>>, AllocError>
    ensures { IfOk result (λ v. map arc_value v.items ≡ map arc_value list.now) }
{
    let mut next = Vec::with_capacity(alloc, list.len())?;
    for item in list {
        next.push(Arc::try_clone(item)?)?;
    }
    Ok(next)
}

fn put_at<T: Drop>(list: &mut Vec<Arc<T>>, index: usize, item: Arc<T>)
    requires { index < length list.old.items }
    ensures { map arc_value list.new.items ≡ slice_set (map arc_value list.old.items) index (arc_value item) }
{
    list[index] = item;
}

impl<T: Drop> Shared<T> {
    /// The empty list.
    pub fn new(alloc: Global) -> Result<Shared<T>, AllocError>
        ensures { IfOk result (λ s. s ≡ []) }
    {
        Shared::from_shared(alloc, Vec::new(alloc))
    }

    /// The list of these items.
    pub fn from_shared(alloc: Global, list: Vec<Arc<T>>) -> Result<Shared<T>, AllocError>
        ensures { IfOk result (λ s. s ≡ map arc_value list.items) }
    {
        Ok(Shared {
            list: Arc::new(alloc, list)?,
        })
    }

    /// The same list.
    pub fn copied(&self) -> Result<Shared<T>, AllocError>
        ensures { IfOk result (λ s. s ≡ self.now) }
    {
        Ok(Shared {
            list: Arc::try_clone(&self.list)?,
        })
    }

    /// How many items it has.
    pub fn len(&self) -> usize
        ensures { result ≡ length self.now }
    {
        self.list.len()
    }

    /// The items, each behind its own count.
    pub fn as_slice(&self) -> &[Arc<T>]
        ensures { map arc_value result.now ≡ self.now }
    {
        self.list.as_slice()
    }

    /// The item at an index.
    pub fn at(&self, index: usize) -> &T
        requires { index < length self.now }
        ensures { slice_get self.now index ≡ Some result.now }
    {
        &self.list[index]
    }

    /// The first `count` items.
    #[tactic(auto, using(crate::proofs::Lists::take_map))]
    pub fn front(&self, alloc: Global, count: usize) -> Result<Shared<T>, AllocError>
        requires { count ≤ length self.now }
        ensures { IfOk result (λ s. s ≡ take count self.now) }
    {
        Shared::from_shared(alloc, copied_list(alloc, &self.list[..count])?)
    }

    /// This list with `item` after it.
    pub fn pushed(&self, alloc: Global, item: T) -> Result<Shared<T>, AllocError>
        ensures { IfOk result (λ s. s ≡ self.now ++ item ∷ []) }
    {
        let mut list = copied_list(alloc, &self.list)?;
        list.push(Arc::new(alloc, item)?)?;
        Shared::from_shared(alloc, list)
    }

    /// This list with `item` at `index`.
    pub fn set(&self, alloc: Global, index: usize, item: T) -> Result<Shared<T>, AllocError>
        requires { index < length self.now }
        ensures { IfOk result (λ s. s ≡ slice_set self.now index item) }
    {
        let mut list = copied_list(alloc, &self.list)?;
        put_at(&mut list, index, Arc::new(alloc, item)?);
        Shared::from_shared(alloc, list)
    }
}

/// Puts the items of a list at the end of `out`.
pub fn push_items<T: Drop>(list: &[Arc<T>], out: &mut Vec<Arc<T>>) -> Result<(), AllocError>
    ensures { OnOk result (map arc_value out.new.items ≡ map arc_value out.old.items ++ map arc_value list.now) }
{
    for item in list {
        out.push(Arc::try_clone(item)?)?;
    }
    Ok(())
}
