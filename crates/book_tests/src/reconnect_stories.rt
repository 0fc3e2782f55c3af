//! What a book answers behind a Reconnect.
use crate::acts::{Act, Story, Told, surprise};
use crate::book_parts::{Settings, Whose};
use message_view::Refusal;
use std::test::Fail;

/// Two clients of ann's come, and have links 1 and 2; link 1 comes back.
fn one_idle_and_one_lent() -> [(Act, Told); 7] {
    [
        (Act::Come, Told::Client(1)),
        (Act::Come, Told::Client(2)),
        (Act::Ask(1, Whose::Ann), Told::Queued(0)),
        (Act::Take(1), Told::Start(1, 0, None)),
        (Act::Ask(2, Whose::Ann), Told::Queued(0)),
        (Act::Take(2), Told::Start(2, 0, None)),
        (Act::Back(1, Whose::Ann), Told::Done),
    ]
}

/// The idle link isn't lent again, and is closed by a tick; the lent one is at its return; the one that was started since is lent again.
#[test]
fn no_link_that_was_there_is_lent_again(rt: HostRuntime) -> Result<(), Fail> {
    let acts = [
        (Act::Reconnect, Told::Done),
        (Act::Ask(1, Whose::Ann), Told::Queued(0)),
        (Act::Take(1), Told::Start(3, 0, None)),
        (Act::Tick(0), Told::Close(1)),
        (Act::Tick(0), Told::Done),
        (Act::Back(2, Whose::Ann), Told::Close(2)),
        (Act::Back(3, Whose::Ann), Told::Done),
        (Act::Tick(0), Told::Done),
        (Act::Ask(2, Whose::Ann), Told::Queued(0)),
        (Act::Take(2), Told::Lend(3)),
        (Act::Back(3, Whose::Ann), Told::Done),
    ];
    let mut story = Story::new(rt.alloc(), Settings::Default)?;
    assert!(rt; surprise(&mut story, &one_idle_and_one_lent())? == None);
    assert!(rt; surprise(&mut story, &acts)? == None);
    assert!(rt; story.sizes()? == [2, 0, 0, 1]);
    assert!(rt; story.reconnects() == [16, 1]);
    Ok(())
}

/// Without a Reconnect both are kept, and lent again.
#[test]
fn without_it_they_are(rt: HostRuntime) -> Result<(), Fail> {
    let acts = [
        (Act::Tick(0), Told::Done),
        (Act::Back(2, Whose::Ann), Told::Done),
        (Act::Ask(1, Whose::Ann), Told::Queued(0)),
        (Act::Take(1), Told::Lend(2)),
        (Act::Ask(2, Whose::Ann), Told::Queued(0)),
        (Act::Take(2), Told::Lend(1)),
    ];
    let mut story = Story::new(rt.alloc(), Settings::Default)?;
    assert!(rt; surprise(&mut story, &one_idle_and_one_lent())? == None);
    assert!(rt; surprise(&mut story, &acts)? == None);
    Ok(())
}

/// In a full pool the idle link makes room for a new one.
#[test]
fn an_old_idle_link_makes_room(rt: HostRuntime) -> Result<(), Fail> {
    let acts = [
        (Act::Come, Told::Client(1)),
        (Act::Ask(1, Whose::Ann), Told::Queued(0)),
        (Act::Take(1), Told::Start(1, 0, None)),
        (Act::Back(1, Whose::Ann), Told::Done),
        (Act::Reconnect, Told::Done),
        (Act::Ask(1, Whose::Ann), Told::Queued(0)),
        (Act::Take(1), Told::Start(2, 0, Some(1))),
        (Act::Back(2, Whose::Ann), Told::Done),
        // a link that is to be started is there, too
        (Act::Reconnect, Told::Done),
        (Act::Reconnect, Told::Done),
        (Act::Ask(1, Whose::Ann), Told::Queued(0)),
        (Act::Take(1), Told::Start(3, 0, Some(2))),
        (Act::Reconnect, Told::Done),
        (Act::Back(3, Whose::Ann), Told::Close(3)),
    ];
    let mut story = Story::new(rt.alloc(), Settings::PoolsOf(1))?;
    assert!(rt; surprise(&mut story, &acts)? == None);
    assert!(rt; story.sizes()? == [1, 0, 0, 0]);
    Ok(())
}

/// A switch-over of a server: PAUSE, RECONNECT, its restart, RESUME. Who asks meanwhile waits, and has a new link.
#[test]
fn a_switch_over_gives_new_links(rt: HostRuntime) -> Result<(), Fail> {
    let acts = [
        (Act::Pause, Told::Done),
        (Act::Reconnect, Told::Done),
        (Act::Ask(1, Whose::Ann), Told::Queued(0)),
        (Act::Take(1), Told::Queued(0)),
        (Act::Back(2, Whose::Ann), Told::Close(2)),
        (Act::Tick(1), Told::Close(1)),
        (Act::Tick(1), Told::Done),
        (Act::Resume, Told::Done),
        (Act::Take(1), Told::Start(3, 1, None)),
    ];
    let mut story = Story::new(rt.alloc(), Settings::Default)?;
    assert!(rt; surprise(&mut story, &one_idle_and_one_lent())? == None);
    assert!(rt; !story.has_stale(None)?);
    assert!(rt; surprise(&mut story, &acts)? == None);
    assert!(rt; !story.has_stale(None)?);
    Ok(())
}

/// A link is stale from the Reconnect to its close, be it lent or idle, and to its own database alone.
#[test]
fn stale_links_are_seen(rt: HostRuntime) -> Result<(), Fail> {
    let mut story = Story::new(rt.alloc(), Settings::Default)?;
    assert!(rt; surprise(&mut story, &one_idle_and_one_lent())? == None);
    assert!(rt; !story.has_stale(Some(b"shop"))?);
    assert!(rt; story.play(Act::Reconnect)? == Told::Done);
    assert!(rt; story.has_stale(None)? & story.has_stale(Some(b"shop"))?);
    assert!(rt; !story.has_stale(Some(b"cafe"))? & !story.has_stale(Some(b"shops"))?);
    assert!(rt; story.play(Act::Tick(0))? == Told::Close(1));
    assert!(rt; story.has_stale(Some(b"shop"))?);
    assert!(rt; story.play(Act::Lost(2))? == Told::Done);
    assert!(rt; !story.has_stale(None)? & !story.has_stale(Some(b"shop"))?);
    Ok(())
}

/// After the last decision it changes nothing.
#[test]
fn after_the_last_decision_it_does_nothing(rt: HostRuntime) -> Result<(), Fail> {
    let acts = [
        (Act::Reconnect, Told::Refuse(Refusal::LastDecision, None)),
        (Act::Reconnect, Told::Refuse(Refusal::LastDecision, None)),
    ];
    let mut story = Story::after(rt.alloc(), u64::MAX - 7)?;
    assert!(rt; surprise(&mut story, &one_idle_and_one_lent())? == None);
    assert!(rt; surprise(&mut story, &acts)? == None);
    assert!(rt; !story.has_stale(None)?);
    Ok(())
}
