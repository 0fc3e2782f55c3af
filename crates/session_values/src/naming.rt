//! Lists of what has a name.
ghost use Rattle.std.specs.Prelude.{◌≡◌, ◌<◌, List, ℕ, IfOk, IfSome, length, map};
ghost use Rattle.std.specs.List.{position_from};
ghost use Rattle.std.specs.Arc.{arc_value};
ghost use Rattle.std.specs.Option.{option_copied};
ghost use Rattle.session_values.specs.Named.{is_named, named, with_named, without};

use crate::text::Text;
use shared_list::Shared;
use std::alloc::{AllocError, Global};
use std::sync::Arc;

/// What is looked up by a name.
pub trait HasName: Drop {
    ghost name_of: { Self → List ℕ };

    /// Its name.
    fn name(&self) -> &Text
        ensures { result.now ≡ name_of self.now };
}

fn first_named<'a, T: HasName>(list: &'a [Arc<T>], name: &[u8]) -> Option<&'a T>
    ensures { option_copied result ≡ named T.name_of (map arc_value list.now) name.now }
{
    for item in list {
        if item.name().is(name) {
            return Some(item);
        }
    }
    None
}

/// The first of this name.
pub fn find_named<'a, T: HasName>(list: &'a Shared<T>, name: &[u8]) -> Option<&'a T>
    ensures { option_copied result ≡ named T.name_of list.now name.now }
{
    first_named(list.as_slice(), name)
}

fn others<T: HasName>(
    alloc: Global,
    list: &[Arc<T>],
    name: &[u8],
) -> Result<Vec<Arc<T>>, AllocError>
    ensures { IfOk result (λ v. map arc_value v.items ≡ without T.name_of (map arc_value list.now) name.now) }
{
    let mut others = Vec::new(alloc);
    for item in list {
        if !item.name().is(name) {
            others.push(Arc::try_clone(item)?)?;
        }
    }
    Ok(others)
}

/// All that have another name. Where that is all, the list stays the same one.
#[tactic(auto, using(crate::proofs::Passing::none_named))]
pub fn without_named<T: HasName>(
    alloc: Global,
    list: &Shared<T>,
    name: &[u8],
) -> Result<Shared<T>, AllocError>
    ensures { IfOk result (λ l. l ≡ without T.name_of list.now name.now) }
{
    if find_named(list, name).is_none() {
        return list.copied();
    }
    Shared::from_shared(alloc, others(alloc, list.as_slice(), name)?)
}

fn place_of<T: HasName>(list: &[Arc<T>], name: &[u8]) -> Option<usize>
    ensures place { result ≡ position_from (is_named T.name_of name.now) 0 (map arc_value list.now) }
    ensures within { IfSome result (λ p. p < length list.now) }
{
    for (place, item) in list.iter().enumerate() {
        if item.name().is(name) {
            return Some(place);
        }
    }
    None
}

/// The list with `item` in the place of the first of its name.
pub fn with_named<T: HasName>(
    alloc: Global,
    list: &Shared<T>,
    item: T,
) -> Result<Shared<T>, AllocError>
    ensures { IfOk result (λ l. l ≡ with_named T.name_of list.now item) }
{
    match place_of(list.as_slice(), item.name().as_slice()) {
        Some(place) => list.set(alloc, place, item),
        None => list.copied(),
    }
}
