//! Lists that are changed at a place.
use shared_list::Shared;
use std::alloc::Global;
use std::sync::Arc;
use std::test::Fail;

/// The list 0, 1, ..
fn counted(alloc: Global, count: u32) -> Result<Shared<u32>, Fail> {
    let mut items = Vec::new(alloc);
    for item in 0..count {
        items.push(Arc::new(alloc, item)?)?;
    }
    let list = Shared::from_shared(alloc, items)?;
    Ok(list)
}

/// Whether the list is 0, 1, .. but for 99 at a place.
fn is_counted_but_at(list: &Shared<u32>, place: usize) -> bool {
    for (n, item) in list.as_slice().iter().enumerate() {
        let expected = if n == place { 99 } else { n };
        if **item as usize != expected {
            return false;
        }
    }
    true
}

#[test]
fn set_at_every_place(rt: HostRuntime) -> Result<(), Fail> {
    let list = counted(rt.alloc(), 20)?;
    for place in 0..20 {
        assert!(rt; place < list.len());
        let changed = list.set(rt.alloc(), place, 99)?;
        assert!(rt; changed.len() == 20);
        assert!(rt;
            is_counted_but_at(&changed, place),
            "it changes its place alone"
        );
        assert!(rt;
            is_counted_but_at(&list, 20),
            "the old list stays as it was"
        );
    }
    Ok(())
}

#[test]
fn front_at_every_length(rt: HostRuntime) -> Result<(), Fail> {
    let list = counted(rt.alloc(), 70)?;
    for count in 0..71 {
        assert!(rt; count <= list.len());
        let front = list.front(rt.alloc(), count)?;
        assert!(rt; front.len() == count);
        assert!(rt; is_counted_but_at(&front, count));
    }
    Ok(())
}

#[test]
fn pushed_and_found_again(rt: HostRuntime) -> Result<(), Fail> {
    let mut list = Shared::new(rt.alloc())?;
    for item in 0..200u32 {
        list = list.pushed(rt.alloc(), item)?;
    }
    for place in 0..200 {
        assert!(rt; place < list.len());
        assert!(rt; *list.at(place) as usize == place);
    }
    Ok(())
}

/// A copy shares its items: copies that were lists of their own would take hours.
#[test]
fn copies_of_a_long_list(rt: HostRuntime) -> Result<(), Fail> {
    let mut list = counted(rt.alloc(), 100_000)?;
    for _ in 0..100_000 {
        list = list.copied()?;
    }
    assert!(rt; list.len() == 100_000);
    Ok(())
}
