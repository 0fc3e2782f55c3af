//! What a book answers where the server of a link hangs up.
use crate::acts::{Act, Story, Told, surprise};
use crate::book_parts::{Settings, Whose};
use std::test::Fail;

/// A link goes while it is idle, and neither while it is lent nor a second time; the next client has a new one.
#[test]
fn an_idle_link_goes(rt: HostRuntime) -> Result<(), Fail> {
    let acts = [
        (Act::HungUp(1), Told::Nobody),
        (Act::Come, Told::Client(1)),
        (Act::Ask(1, Whose::Ann), Told::Queued(0)),
        (Act::Take(1), Told::Start(1, 0, None)),
        (Act::HungUp(1), Told::Nobody),
        (Act::Back(1, Whose::Ann), Told::Done),
        (Act::HungUp(2), Told::Nobody),
        (Act::HungUp(1), Told::Close(1)),
        (Act::HungUp(1), Told::Nobody),
        (Act::Ask(1, Whose::Ann), Told::Queued(0)),
        (Act::Take(1), Told::Start(2, 0, None)),
    ];
    let mut story = Story::new(rt.alloc(), Settings::Default)?;
    assert!(rt; surprise(&mut story, &acts)? == None);
    assert!(rt; story.sizes()? == [1, 0, 1, 0]);
    assert!(rt; story.hang_ups() == [7, 1]);
    Ok(())
}

/// The others stay, also where no client is let in any more.
#[test]
fn the_others_stay(rt: HostRuntime) -> Result<(), Fail> {
    let acts = [
        (Act::Come, Told::Client(1)),
        (Act::Come, Told::Client(2)),
        (Act::Ask(1, Whose::Ann), Told::Queued(0)),
        (Act::Take(1), Told::Start(1, 0, None)),
        (Act::Ask(2, Whose::Ann), Told::Queued(0)),
        (Act::Take(2), Told::Start(2, 0, None)),
        (Act::Back(1, Whose::Ann), Told::Done),
        (Act::Back(2, Whose::Ann), Told::Done),
        (Act::HungUp(2), Told::Close(2)),
        (Act::Ask(1, Whose::Ann), Told::Queued(0)),
        (Act::Take(1), Told::Lend(1)),
        (Act::Back(1, Whose::Ann), Told::Done),
        (Act::Shutdown, Told::Done),
        (Act::HungUp(1), Told::Close(1)),
    ];
    let mut story = Story::new(rt.alloc(), Settings::Default)?;
    assert!(rt; surprise(&mut story, &acts)? == None);
    assert!(rt; story.sizes()? == [2, 0, 0, 0]);
    Ok(())
}
