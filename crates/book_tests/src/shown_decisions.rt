//! What a book shows of its last decisions.
use crate::acts::{Act, Story};
use crate::book_parts::{Settings, Whose};
use book_model::events::Beyond;
use message_view::KeyView;
use pool_figures::decisions::DecisionSeen;
use std::alloc::{AllocError, Global};
use std::test::Fail;

/// The key word of a client, and that of its server, whose secrets stand nowhere else.
static CLIENT: KeyView = KeyView {
    pid: 1_111,
    secret: 987_654_321,
};

static SERVER: KeyView = KeyView {
    pid: 2_222,
    secret: 123_456_789,
};

/// Each event that changes something, one after the other.
fn acts() -> [Act; 24] {
    [
        Act::Come,
        Act::ComeBeyond(Beyond::Console),
        Act::Ask(1, Whose::Ann),
        Act::Ask(2, Whose::Bc),
        Act::Take(1),
        Act::Keyed(1, CLIENT, SERVER),
        Act::Cancel(CLIENT),
        // these change nothing
        Act::Cancel(SERVER),
        Act::Take(7),
        Act::Keyed(1, CLIENT, SERVER),
        Act::EndLease(1),
        Act::Lost(1),
        Act::Take(2),
        Act::StartFailed(2),
        Act::Ask(1, Whose::Ann),
        Act::Take(1),
        Act::Back(3, Whose::Ann),
        Act::HungUp(3),
        Act::Leave(1),
        Act::Tick(9),
        Act::Pause,
        Act::Resume,
        Act::Reconnect,
        Act::Limits(Settings::OneClient),
    ]
}

/// How they are shown: the event, its number, the reply and its number.
static SHOWN: [(&'static str, u64, &'static str, u64); 22] = [
    ("arrive", 0, "arrived", 1),
    ("arrive", 64, "arrived", 2),
    ("ask", 1, "queued", 0),
    ("ask", 2, "queued", 0),
    ("take", 1, "start", 1),
    ("keyed", 1, "done", 0),
    ("cancel", 1_111, "strike", 1),
    ("end_lease", 1, "dispose", 0),
    ("lost", 1, "done", 0),
    ("take", 2, "start", 2),
    ("start_failed", 2, "done", 0),
    ("ask", 1, "queued", 0),
    ("take", 1, "start", 3),
    ("give_back", 3, "done", 0),
    ("hung_up", 3, "close", 3),
    ("leave", 1, "done", 0),
    ("tick", 9, "done", 0),
    ("pause", 0, "done", 0),
    ("resume", 0, "done", 0),
    ("reconnect", 0, "done", 0),
    ("limits", 0, "done", 0),
    ("arrive", 0, "refuse", 1),
];

/// A book in which all of them happened, and then a client too many came.
fn after_all(alloc: Global) -> Result<Story, AllocError> {
    let mut story = Story::new(alloc, Settings::Default)?;
    for act in acts() {
        let _ = story.play(act)?;
    }
    let _ = story.play(Act::Come)?;
    Ok(story)
}

/// Whether a decision is shown so, as one of the pass that the tests go through.
fn is_shown(
    seen: &DecisionSeen,
    number: u64,
    shown: &(&'static str, u64, &'static str, u64),
) -> bool {
    let numbers = [seen.number, seen.pass, seen.of, seen.to] == [number, 7, shown.1, shown.3];
    numbers & (seen.event == shown.0) & (seen.reply == shown.2)
}

/// Each decision is shown by its number, in order; an event that changed nothing isn't one.
#[test]
fn each_decision_is_shown(rt: HostRuntime) -> Result<(), Fail> {
    let story = after_all(rt.alloc())?;
    let seen = story.shown()?;
    assert!(rt; seen.len() == SHOWN.len());
    for (at, shown) in SHOWN.iter().enumerate() {
        let Some(decision) = seen.get(at) else {
            break;
        };
        assert!(rt; (at, is_shown(decision, (at as u64).saturating_add(1), shown)) == (at, true));
    }
    Ok(())
}

/// None shows a secret.
#[test]
fn no_secret_is_shown(rt: HostRuntime) -> Result<(), Fail> {
    let secrets = [u64::from(CLIENT.secret), u64::from(SERVER.secret)];
    let story = after_all(rt.alloc())?;
    for decision in &story.shown()? {
        let numbers = [decision.number, decision.pass, decision.of, decision.to];
        assert!(rt; !numbers.contains(&secrets[0]) & !numbers.contains(&secrets[1]));
    }
    Ok(())
}

/// The last 256 are shown.
#[test]
fn the_last_are_shown(rt: HostRuntime) -> Result<(), Fail> {
    let mut story = Story::new(rt.alloc(), Settings::Default)?;
    for now in 1..301u64 {
        let _ = story.play(Act::Tick(now))?;
    }
    let seen = story.shown()?;
    assert!(rt; seen.len() == 256);
    let (Some(first), Some(last)) = (seen.first(), seen.last()) else {
        return Ok(());
    };
    assert!(rt; (first.number, first.of) == (45, 45));
    assert!(rt; (last.number, last.of, last.event) == (300, 300, "tick"));
    Ok(())
}
