//! What becomes of links whose database row is changed.
use crate::acts::{Act, Story, Told, surprise};
use crate::book_parts::{Change, Settings, Whose};
use std::test::Fail;

/// Two links lie idle, one of the shop and one of the cafe. The shop is served at another port: its link is closed, that of the cafe
/// stays, and the next client of the shop has a new link, which stays too.
static A_LINK_OF_A_ROW_THAT_MOVED_IS_CLOSED: [(Act, Told); 17] = [
    (Act::Come, Told::Client(1)),
    (Act::Come, Told::Client(2)),
    (Act::Ask(1, Whose::AnnAtCafe), Told::Queued(0)),
    (Act::Take(1), Told::Start(1, 0, None)),
    (Act::Ask(2, Whose::Ann), Told::Queued(0)),
    (Act::Take(2), Told::Start(2, 0, None)),
    (Act::Back(1, Whose::AnnAtCafe), Told::Done),
    (Act::Back(2, Whose::Ann), Told::Done),
    (Act::Tick(1), Told::Done),
    (Act::Limits(Settings::Shop(Change::Port)), Told::Done),
    (Act::Tick(1), Told::Close(2)),
    (Act::Tick(1), Told::Done),
    (Act::Ask(2, Whose::AnnAt5433), Told::Queued(0)),
    (Act::Take(2), Told::Start(3, 1, None)),
    (Act::BackFrom(3, Whose::AnnAt5433, 1), Told::Done),
    (Act::Tick(2), Told::Done),
    (Act::Tick(3), Told::Done),
];

/// The row moves while its link is lent: the link is taken back, and closed by the tick.
static A_LENT_LINK_COMES_BACK_FIRST: [(Act, Told); 9] = [
    (Act::Come, Told::Client(1)),
    (Act::Ask(1, Whose::Ann), Told::Queued(0)),
    (Act::Take(1), Told::Start(1, 0, None)),
    (Act::Limits(Settings::Shop(Change::Port)), Told::Done),
    (Act::Tick(1), Told::Done),
    (Act::Back(1, Whose::Ann), Told::Done),
    (Act::Tick(1), Told::Close(1)),
    (Act::Tick(1), Told::Done),
    (Act::Leave(1), Told::Done),
];

/// A row with another pool size is the same database: of two idle links none is closed, though their pool may have one now.
static ANOTHER_POOL_SIZE_CLOSES_NOTHING: [(Act, Told); 11] = [
    (Act::Come, Told::Client(1)),
    (Act::Come, Told::Client(2)),
    (Act::Ask(1, Whose::Ann), Told::Queued(0)),
    (Act::Take(1), Told::Start(1, 0, None)),
    (Act::Ask(2, Whose::Ann), Told::Queued(0)),
    (Act::Take(2), Told::Start(2, 0, None)),
    (Act::Back(1, Whose::Ann), Told::Done),
    (Act::Back(2, Whose::Ann), Told::Done),
    (Act::Limits(Settings::PoolsOf(1)), Told::Done),
    (Act::Tick(1), Told::Done),
    (Act::Tick(2), Told::Done),
];

#[test]
fn idle_links_go_with_their_rows(rt: HostRuntime) -> Result<(), Fail> {
    let stories: [&'static [(Act, Told)]; 3] = [
        &A_LINK_OF_A_ROW_THAT_MOVED_IS_CLOSED,
        &A_LENT_LINK_COMES_BACK_FIRST,
        &ANOTHER_POOL_SIZE_CLOSES_NOTHING,
    ];
    for (at, acts) in stories.into_iter().enumerate() {
        let mut story = Story::new(rt.alloc(), Settings::Default)?;
        assert!(rt; (at, surprise(&mut story, acts)?) == (at, None));
    }
    Ok(())
}

/// Two links of the shop lie idle while its row is changed so: each is closed by a tick of its own.
fn both_go(change: Change) -> [(Act, Told); 12] {
    [
        (Act::Come, Told::Client(1)),
        (Act::Come, Told::Client(2)),
        (Act::Ask(1, Whose::Ann), Told::Queued(0)),
        (Act::Take(1), Told::Start(1, 0, None)),
        (Act::Ask(2, Whose::Bc), Told::Queued(0)),
        (Act::Take(2), Told::Start(2, 0, None)),
        (Act::Back(1, Whose::Ann), Told::Done),
        (Act::Back(2, Whose::Bc), Told::Done),
        (Act::Limits(Settings::Shop(change)), Told::Done),
        (Act::Tick(0), Told::Close(1)),
        (Act::Tick(0), Told::Close(2)),
        (Act::Tick(0), Told::Done),
    ]
}

#[test]
fn each_change_of_a_row_counts(rt: HostRuntime) -> Result<(), Fail> {
    let changes = [Change::Host, Change::Port, Change::Dbname, Change::Gone];
    for (at, change) in changes.into_iter().enumerate() {
        let mut story = Story::new(rt.alloc(), Settings::Default)?;
        assert!(rt; (at, surprise(&mut story, &both_go(change))?) == (at, None));
    }
    Ok(())
}
