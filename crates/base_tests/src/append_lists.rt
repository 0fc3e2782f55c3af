//! Lists that grow at their end.
use shared_list::AppendList;
use std::test::Fail;

#[test]
fn five_thousand_items(rt: HostRuntime) -> Result<(), Fail> {
    let mut log = AppendList::new(rt.alloc())?;
    for item in 0..5_000u32 {
        log = log.pushed(rt.alloc(), item)?;
    }
    let items = log.to_vec(rt.alloc())?;
    assert!(rt; items.len() == 5_000);
    for (place, item) in items.iter().enumerate() {
        assert!(rt; **item as usize == place);
    }
    Ok(())
}

#[test]
fn a_copy_stays_as_it_was(rt: HostRuntime) -> Result<(), Fail> {
    let mut log = AppendList::new(rt.alloc())?;
    for item in 0..64u32 {
        log = log.pushed(rt.alloc(), item)?;
    }
    let copy = log.copied()?;
    log = log.pushed(rt.alloc(), 64)?;
    assert!(rt; copy.to_vec(rt.alloc())?.len() == 64);
    assert!(rt; log.to_vec(rt.alloc())?.len() == 65);
    Ok(())
}

/// A copy shares its items: copies that were lists of their own would take hours.
#[test]
fn copies_of_a_long_list(rt: HostRuntime) -> Result<(), Fail> {
    let mut log = AppendList::new(rt.alloc())?;
    for item in 0..100_000u32 {
        log = log.pushed(rt.alloc(), item)?;
    }
    for _ in 0..100_000 {
        log = log.copied()?;
    }
    assert!(rt; log.to_vec(rt.alloc())?.len() == 100_000);
    Ok(())
}
