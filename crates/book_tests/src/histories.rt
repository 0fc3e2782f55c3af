//! What a book keeps and shows of itself.
use crate::acts::{Act, Story, Told, surprise};
use crate::book_parts::{Settings, Whose};
use book_model::events::ClientState;
use message_view::Refusal;
use std::test::Fail;

#[test]
fn the_last_decisions_are_kept(rt: HostRuntime) -> Result<(), Fail> {
    let mut story = Story::new(rt.alloc(), Settings::Default)?;
    for now in 1..301u64 {
        assert!(rt; story.play(Act::Tick(now))? == Told::Done);
    }
    assert!(rt; story.kept() == (44, 256));
    assert!(rt; story.ticks()? == [300, 300, 300]);
    Ok(())
}

#[test]
fn after_the_last_decision_nothing_changes(rt: HostRuntime) -> Result<(), Fail> {
    let last = Refusal::LastDecision;
    let acts = [
        (Act::Come, Told::Refuse(last, None)),
        (Act::Ask(1, Whose::Ann), Told::Refuse(last, None)),
        (Act::Back(1, Whose::Ann), Told::Refuse(last, Some(1))),
        (Act::Pause, Told::Refuse(last, None)),
    ];
    let mut story = Story::after(rt.alloc(), u64::MAX)?;
    assert!(rt; surprise(&mut story, &acts)?.is_none());
    assert!(rt; story.ticks()? == [0, u64::MAX, u64::MAX]);
    assert!(rt; story.sizes()? == [0, 0, 0, 0]);
    Ok(())
}

#[test]
fn the_last_decision_is_an_end(rt: HostRuntime) -> Result<(), Fail> {
    let acts = [
        (Act::Come, Told::Client(1)),
        (Act::Ask(1, Whose::Ann), Told::Queued(0)),
        (Act::Take(1), Told::Start(1, 0, None)),
        (
            Act::Back(1, Whose::Ann),
            Told::Refuse(Refusal::LastDecision, Some(1)),
        ),
    ];
    let mut story = Story::after(rt.alloc(), u64::MAX - 3)?;
    assert!(rt; surprise(&mut story, &acts)?.is_none());
    assert!(rt; story.kept() == (u64::MAX - 3, 3));
    assert!(rt; story.sizes()? == [1, 0, 1, 0]);
    Ok(())
}

/// Three clients: one has a link, one waits for one, and the third isn't through its login.
fn three_clients() -> [Act; 9] {
    [
        Act::Come,
        Act::Come,
        Act::Come,
        Act::Tick(4),
        Act::Ask(1, Whose::Ann),
        Act::Take(1),
        Act::Tick(5),
        Act::Ask(2, Whose::Ann),
        Act::Take(2),
    ]
}

#[test]
fn the_view_shows_who_is_there(rt: HostRuntime) -> Result<(), Fail> {
    let mut story = Story::new(rt.alloc(), Settings::PoolsOf(1))?;
    for act in three_clients() {
        let _ = story.play(act)?;
    }
    assert!(rt; story.state_of(1)? == Some(ClientState::Active));
    assert!(rt; story.state_of(2)? == Some(ClientState::Waiting));
    assert!(rt; story.state_of(3)? == Some(ClientState::LoggingIn));
    assert!(rt; story.first_ticket()? == Some((2, 5)));
    assert!(rt; story.first_lent()? == Some((1, 4)));
    Ok(())
}

/// The first link comes back and is lent again, then lost; another of another key comes back.
fn two_links() -> [Act; 6] {
    [
        Act::BackFrom(1, Whose::Ann, 4),
        Act::Take(2),
        Act::Lost(1),
        Act::Ask(3, Whose::AnnAsB),
        Act::Take(3),
        Act::BackFrom(2, Whose::AnnAsB, 5),
    ]
}

#[test]
fn the_view_shows_what_was_counted(rt: HostRuntime) -> Result<(), Fail> {
    let mut story = Story::new(rt.alloc(), Settings::PoolsOf(1))?;
    for act in three_clients() {
        let _ = story.play(act)?;
    }
    for act in two_links() {
        let _ = story.play(act)?;
    }
    assert!(rt; story.totals()? == [14, 2, 1, 0, 1]);
    assert!(rt; story.counts() == [3, 3, 3, 2, 1, 2]);
    assert!(rt; story.sizes()? == [3, 0, 0, 1]);
    Ok(())
}

#[test]
fn the_first_of_each_pool_may_have_a_link(rt: HostRuntime) -> Result<(), Fail> {
    let acts = [
        Act::Come,
        Act::Come,
        Act::Come,
        Act::Ask(2, Whose::Ann),
        Act::Ask(1, Whose::AnnAsB),
        Act::Ask(3, Whose::Bc),
    ];
    let mut story = Story::new(rt.alloc(), Settings::Default)?;
    for act in acts {
        let _ = story.play(act)?;
    }
    let mut firsts = story.firsts()?;
    firsts.sort()?;
    assert!(rt; firsts.as_slice() == [2, 3].as_slice());
    // the next of the pool is first once the first has gone
    let _ = story.play(Act::Leave(2))?;
    let mut firsts = story.firsts()?;
    firsts.sort()?;
    assert!(rt; firsts.as_slice() == [1, 3].as_slice());
    Ok(())
}
