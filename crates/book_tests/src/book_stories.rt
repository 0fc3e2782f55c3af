//! What a book answers, event after event.
use crate::acts::{Act, Story, Told, surprise};
use crate::book_parts::{Settings, Whose};
use message_view::{Refusal, refusal_bytes};
use std::test::Fail;

static AN_IDLE_LINK_OF_ANOTHER_KEY_MAKES_ROOM: [(Act, Told); 8] = [
    (Act::Come, Told::Client(1)),
    (Act::Ask(1, Whose::Ann), Told::Queued(0)),
    (Act::Take(1), Told::Start(1, 0, None)),
    (Act::Back(1, Whose::Ann), Told::Done),
    (Act::Leave(1), Told::Done),
    (Act::Come, Told::Client(2)),
    (Act::Ask(2, Whose::AnnAsB), Told::Queued(0)),
    (Act::Take(2), Told::Start(2, 0, Some(1))),
];

static ONE_CLIENT_TOO_MANY_IS_REFUSED: [(Act, Told); 4] = [
    (Act::Come, Told::Client(1)),
    (Act::Come, Told::Refuse(Refusal::TooManyClients, None)),
    (Act::Leave(1), Told::Done),
    (Act::Come, Told::Client(2)),
];

static A_TICKET_WAITS_FOR_SO_LONG: [(Act, Told); 10] = [
    (Act::Come, Told::Client(1)),
    (Act::Ask(1, Whose::Ann), Told::Queued(0)),
    (Act::Take(1), Told::Start(1, 0, None)),
    (Act::Come, Told::Client(2)),
    (Act::Ask(2, Whose::Ann), Told::Queued(0)),
    (Act::Tick(4), Told::Done),
    (Act::Take(2), Told::Queued(0)),
    (Act::Tick(5), Told::Done),
    (Act::Take(2), Told::Refuse(Refusal::WaitedTooLong, None)),
    (Act::Take(2), Told::Stranger(None)),
];

static THE_LATEST_RETURNED_LINK_IS_LENT: [(Act, Told); 11] = [
    (Act::Come, Told::Client(1)),
    (Act::Come, Told::Client(2)),
    (Act::Come, Told::Client(3)),
    (Act::Ask(1, Whose::Ann), Told::Queued(0)),
    (Act::Take(1), Told::Start(1, 0, None)),
    (Act::Ask(2, Whose::Ann), Told::Queued(0)),
    (Act::Take(2), Told::Start(2, 0, None)),
    (Act::Back(1, Whose::Ann), Told::Done),
    (Act::Back(2, Whose::Ann), Told::Done),
    (Act::Ask(3, Whose::Ann), Told::Queued(0)),
    (Act::Take(3), Told::Lend(2)),
];

static WHO_ASKED_FIRST_IS_SERVED_FIRST: [(Act, Told); 11] = [
    (Act::Come, Told::Client(1)),
    (Act::Come, Told::Client(2)),
    (Act::Come, Told::Client(3)),
    (Act::Ask(1, Whose::Ann), Told::Queued(0)),
    (Act::Take(1), Told::Start(1, 0, None)),
    (Act::Ask(2, Whose::Ann), Told::Queued(0)),
    (Act::Ask(3, Whose::Ann), Told::Queued(1)),
    (Act::Take(3), Told::Queued(1)),
    (Act::Back(1, Whose::Ann), Told::Done),
    (Act::Take(3), Told::Queued(1)),
    (Act::Take(2), Told::Lend(1)),
];

static A_LINK_LIVES_FOR_SO_LONG: [(Act, Told); 10] = [
    (Act::Come, Told::Client(1)),
    (Act::Ask(1, Whose::Ann), Told::Queued(0)),
    (Act::Take(1), Told::Start(1, 0, None)),
    (Act::Come, Told::Client(2)),
    (Act::Ask(2, Whose::Ann), Told::Queued(0)),
    (Act::Take(2), Told::Start(2, 0, None)),
    (Act::Tick(3_599), Told::Done),
    (Act::Back(1, Whose::Ann), Told::Done),
    (Act::Tick(3_600), Told::Close(1)),
    (Act::Back(2, Whose::Ann), Told::Close(2)),
];

static A_LINK_LIES_IDLE_FOR_SO_LONG: [(Act, Told); 8] = [
    (Act::Come, Told::Client(1)),
    (Act::Ask(1, Whose::Ann), Told::Queued(0)),
    (Act::Take(1), Told::Start(1, 0, None)),
    (Act::Tick(10), Told::Done),
    (Act::Back(1, Whose::Ann), Told::Done),
    (Act::Tick(609), Told::Done),
    (Act::Tick(610), Told::Close(1)),
    (Act::Tick(610), Told::Done),
];

static THE_LONGEST_IDLE_LINK_MAKES_ROOM_FOR_ANOTHER_POOL: [(Act, Told); 11] = [
    (Act::Come, Told::Client(1)),
    (Act::Come, Told::Client(2)),
    (Act::Come, Told::Client(3)),
    (Act::Ask(1, Whose::Ann), Told::Queued(0)),
    (Act::Take(1), Told::Start(1, 0, None)),
    (Act::Ask(2, Whose::Ann), Told::Queued(0)),
    (Act::Take(2), Told::Start(2, 0, None)),
    (Act::Back(2, Whose::Ann), Told::Done),
    (Act::Back(1, Whose::Ann), Told::Done),
    (Act::Ask(3, Whose::Bc), Told::Queued(0)),
    (Act::Take(3), Told::Start(3, 0, Some(2))),
];

static STRANGERS_CHANGE_NOTHING: [(Act, Told); 13] = [
    (Act::Ask(1, Whose::Ann), Told::Stranger(None)),
    (Act::Come, Told::Client(1)),
    (Act::Take(1), Told::Stranger(None)),
    (Act::Ask(1, Whose::Ann), Told::Queued(0)),
    (Act::Ask(1, Whose::Ann), Told::Stranger(None)),
    (Act::Take(1), Told::Start(1, 0, None)),
    (Act::Back(1, Whose::AnnAsB), Told::Stranger(Some(1))),
    (Act::BackFrom(1, Whose::Ann, 1), Told::Stranger(Some(1))),
    (Act::Back(2, Whose::Ann), Told::Stranger(Some(2))),
    (Act::Lost(2), Told::Stranger(None)),
    (Act::StartFailed(2), Told::Stranger(None)),
    (Act::Take(2), Told::Stranger(None)),
    (Act::Leave(2), Told::Stranger(None)),
];

/// A client whose ticket was granted, a link that is idle, and a client that left.
static WHO_WAS_THERE_IS_STRANGE: [(Act, Told); 12] = [
    (Act::Come, Told::Client(1)),
    (Act::Ask(1, Whose::Ann), Told::Queued(0)),
    (Act::Take(1), Told::Start(1, 0, None)),
    (Act::Take(1), Told::Stranger(None)),
    (Act::Back(1, Whose::Ann), Told::Done),
    (Act::Back(1, Whose::Ann), Told::Stranger(Some(1))),
    (Act::Lost(1), Told::Stranger(None)),
    (Act::StartFailed(1), Told::Stranger(None)),
    (Act::Leave(1), Told::Done),
    (Act::Leave(1), Told::Stranger(None)),
    (Act::Ask(1, Whose::Ann), Told::Stranger(None)),
    (Act::Take(1), Told::Stranger(None)),
];

static NO_LINK_IS_LENT_IN_A_PAUSE_OR_AFTER_THE_SHUTDOWN: [(Act, Told); 18] = [
    (Act::Come, Told::Client(1)),
    (Act::Pause, Told::Done),
    (Act::Ask(1, Whose::Ann), Told::Queued(0)),
    (Act::Take(1), Told::Queued(0)),
    (Act::Resume, Told::Done),
    (Act::Take(1), Told::Start(1, 0, None)),
    (Act::Come, Told::Client(2)),
    (Act::Ask(2, Whose::Ann), Told::Queued(0)),
    (Act::Take(2), Told::Start(2, 0, None)),
    (Act::Back(2, Whose::Ann), Told::Done),
    (Act::Ask(2, Whose::Ann), Told::Queued(0)),
    (Act::Shutdown, Told::Done),
    (Act::Take(2), Told::Refuse(Refusal::ShuttingDown, None)),
    (
        Act::Ask(1, Whose::Ann),
        Told::Refuse(Refusal::ShuttingDown, None),
    ),
    (Act::Come, Told::Refuse(Refusal::ShuttingDown, None)),
    (Act::Back(1, Whose::Ann), Told::Close(1)),
    (Act::Tick(0), Told::Close(2)),
    (Act::Tick(0), Told::Done),
];

static SMALLER_LIMITS_HOLD_FOR_LINKS_THAT_COME_BACK: [(Act, Told); 9] = [
    (Act::Come, Told::Client(1)),
    (Act::Come, Told::Client(2)),
    (Act::Ask(1, Whose::Ann), Told::Queued(0)),
    (Act::Take(1), Told::Start(1, 0, None)),
    (Act::Ask(2, Whose::Ann), Told::Queued(0)),
    (Act::Take(2), Told::Start(2, 0, None)),
    (Act::Limits(Settings::PoolsOf(1)), Told::Done),
    (Act::Back(1, Whose::Ann), Told::Close(1)),
    (Act::Back(2, Whose::Ann), Told::Done),
];

/// The stories, each with its settings.
fn story(at: usize) -> Option<(&'static [(Act, Told)], Settings)> {
    match at {
        0 => Some((
            &AN_IDLE_LINK_OF_ANOTHER_KEY_MAKES_ROOM,
            Settings::PoolsOf(1),
        )),
        1 => Some((&ONE_CLIENT_TOO_MANY_IS_REFUSED, Settings::OneClient)),
        2 => Some((&A_TICKET_WAITS_FOR_SO_LONG, Settings::Wait(5))),
        3 => Some((&THE_LATEST_RETURNED_LINK_IS_LENT, Settings::Default)),
        4 => Some((&WHO_ASKED_FIRST_IS_SERVED_FIRST, Settings::PoolsOf(1))),
        5 => Some((&A_LINK_LIVES_FOR_SO_LONG, Settings::Default)),
        6 => Some((&A_LINK_LIES_IDLE_FOR_SO_LONG, Settings::Idle(600))),
        7 => Some((
            &THE_LONGEST_IDLE_LINK_MAKES_ROOM_FOR_ANOTHER_POOL,
            Settings::TwoLinks,
        )),
        8 => Some((
            &NO_LINK_IS_LENT_IN_A_PAUSE_OR_AFTER_THE_SHUTDOWN,
            Settings::Default,
        )),
        9 => Some((
            &SMALLER_LIMITS_HOLD_FOR_LINKS_THAT_COME_BACK,
            Settings::Default,
        )),
        _ => None,
    }
}

#[test]
fn each_story_goes_as_told(rt: HostRuntime) -> Result<(), Fail> {
    for at in 0..10usize {
        let Some((acts, settings)) = story(at) else {
            break;
        };
        let mut story = Story::new(rt.alloc(), settings)?;
        assert!(rt; (at, surprise(&mut story, acts)?) == (at, None));
    }
    Ok(())
}

/// Strangers are no decisions, and change no row.
#[test]
fn strangers_are_no_decisions(rt: HostRuntime) -> Result<(), Fail> {
    let mut story = Story::new(rt.alloc(), Settings::Default)?;
    assert!(rt; surprise(&mut story, &STRANGERS_CHANGE_NOTHING)?.is_none());
    assert!(rt; (story.totals()?, story.sizes()?) == ([3, 1, 0, 0, 0], [1, 0, 1, 0]));
    let mut story = Story::new(rt.alloc(), Settings::Default)?;
    assert!(rt; surprise(&mut story, &WHO_WAS_THERE_IS_STRANGE)?.is_none());
    assert!(rt; (story.totals()?, story.sizes()?) == ([5, 1, 0, 0, 0], [0, 0, 0, 1]));
    Ok(())
}

#[test]
fn a_client_too_many_is_told_so(rt: HostRuntime) -> Result<(), Fail> {
    assert!(rt; refusal_bytes(Refusal::TooManyClients).len() == 56);
    Ok(())
}
