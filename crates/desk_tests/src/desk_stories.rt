//! What a desk answers, call after call, and what it shows then.
ghost use Rattle.std.specs.Prelude.{◌≡◌};
ghost use Rattle.desk_tallies.specs.declared.passes.TheConstants.{ALL_PARTS};
ghost use Rattle.desk_tallies.specs.Shares.{names_of, of_each, parts_of};

use crate::cancel_stories as cancels;
use crate::desk_acts::{Act, Says, answer};
use crate::desk_parts::{Nowhere, TestDesk};
use crate::desk_rows::{Rows, shows};
use book_model::events::{Beyond, ClientState};
use book_tests::book_parts::{Change, Settings, Whose, limits};
use desk_tallies::ledgers::Ledgers;
use desk_tallies::passes::{Pass, Totals};
use desk_tallies::tallies::Blanks;
use link_desk::desk::LinkDesk;
use message_view::Refusal;
use pool_desk::desk::Desk;
use std::alloc::{AllocError, Global};
use std::marker::Brand;
use std::rt::Clock;
use std::sync::Wait;
use std::test::Fail;

/// A call through the pass at this place, and its answer.
pub(crate) type Step = (usize, Act, Says);

/// The calls through so many passes, what the desk shows at the end, and the decisions by class.
#[derive(Clone, Copy, Drop)]
pub(crate) struct Story {
    pub settings: Settings,
    pub passes: usize,
    pub steps: &'static [Step],
    pub rows: Rows,
    pub totals: Totals,
}

/// Where a desk departs from a story.
#[derive(Clone, Copy, Drop)]
enum Departure {
    /// It gives this answer at this place.
    Answer(usize, Says),
    Rows,
    Totals(Totals),
}

/// An empty book.
pub(crate) const NOTHING: Rows = Rows {
    clients: &[],
    tickets: &[],
    lent: &[],
    idle: &[],
    sums: [0; 6],
    is_paused: false,
    is_shut: false,
};

static A_LINK_IS_LENT_AGAIN: [Step; 10] = [
    (0, Act::Come, Says::Client(1)),
    (0, Act::Ask(Whose::Ann), Says::Queued(0)),
    (0, Act::Take, Says::Start(1, 0, None)),
    (0, Act::Back(Whose::Ann), Says::Done),
    (0, Act::Leave, Says::Done),
    (1, Act::Come, Says::Client(2)),
    (1, Act::Ask(Whose::Ann), Says::Queued(0)),
    (1, Act::Take, Says::Lend(1)),
    (1, Act::Lost, Says::Done),
    (1, Act::Leave, Says::Done),
];

fn lending_again() -> Story {
    Story {
        settings: Settings::PoolsOf(1),
        passes: 2,
        steps: &A_LINK_IS_LENT_AGAIN,
        rows: Rows {
            sums: [0, 1, 1, 0, 1, 0],
            ..NOTHING
        },
        totals: Totals {
            arrived: 2,
            granted: 2,
            given_back: 1,
            lost: 1,
            left: 2,
            others: 3,
        },
    }
}

static ONE_CLIENT_TOO_MANY_IS_REFUSED: [Step; 4] = [
    (0, Act::Come, Says::Client(1)),
    (1, Act::Come, Says::Refuse(Refusal::TooManyClients)),
    (1, Act::Limits(Settings::Default), Says::Done),
    (1, Act::Come, Says::Client(2)),
];

fn one_too_many() -> Story {
    Story {
        settings: Settings::OneClient,
        passes: 2,
        steps: &ONE_CLIENT_TOO_MANY_IS_REFUSED,
        rows: Rows {
            clients: &[(1, ClientState::LoggingIn), (2, ClientState::LoggingIn)],
            ..NOTHING
        },
        totals: Totals {
            arrived: 2,
            granted: 0,
            given_back: 0,
            lost: 0,
            left: 0,
            others: 2,
        },
    }
}

static WHO_ASKS_TWICE_IS_STRANGE: [Step; 4] = [
    (0, Act::Come, Says::Client(1)),
    (0, Act::Ask(Whose::Ann), Says::Queued(0)),
    (0, Act::Ask(Whose::Bc), Says::Stranger),
    (1, Act::Come, Says::Client(2)),
];

fn asking_twice() -> Story {
    Story {
        settings: Settings::Default,
        passes: 2,
        steps: &WHO_ASKS_TWICE_IS_STRANGE,
        rows: Rows {
            clients: &[(1, ClientState::Waiting), (2, ClientState::LoggingIn)],
            tickets: &[(1, 0)],
            ..NOTHING
        },
        totals: Totals {
            arrived: 2,
            granted: 0,
            given_back: 0,
            lost: 0,
            left: 0,
            others: 1,
        },
    }
}

/// In a pause clients come and ask; after the shutdown they don't.
static A_DESK_IS_PAUSED_AND_SHUT: [Step; 18] = [
    (0, Act::Come, Says::Client(1)),
    (1, Act::Pause, Says::Done),
    (0, Act::Ask(Whose::Ann), Says::Queued(0)),
    (1, Act::Come, Says::Client(2)),
    (1, Act::Resume, Says::Done),
    (0, Act::Take, Says::Start(1, 0, None)),
    (0, Act::StartFailed, Says::Done),
    (0, Act::Ask(Whose::Ann), Says::Queued(0)),
    (0, Act::Take, Says::Start(2, 0, None)),
    (0, Act::Back(Whose::Ann), Says::Done),
    (0, Act::Tick(1), Says::Done),
    (1, Act::Shutdown, Says::Done),
    (0, Act::Tick(1), Says::Close(2)),
    (0, Act::Tick(1), Says::Done),
    (0, Act::Ask(Whose::Ann), Says::Refuse(Refusal::ShuttingDown)),
    (1, Act::Ask(Whose::Ann), Says::Refuse(Refusal::ShuttingDown)),
    (1, Act::Leave, Says::Done),
    (1, Act::Come, Says::Refuse(Refusal::ShuttingDown)),
];

fn pause_and_shutdown() -> Story {
    Story {
        settings: Settings::Default,
        passes: 2,
        steps: &A_DESK_IS_PAUSED_AND_SHUT,
        rows: Rows {
            clients: &[(1, ClientState::Active)],
            sums: [1, 2, 0, 0, 0, 1],
            is_shut: true,
            ..NOTHING
        },
        totals: Totals {
            arrived: 2,
            granted: 2,
            given_back: 1,
            lost: 1,
            left: 1,
            others: 11,
        },
    }
}

/// The server of a link hangs up: while the link is lent nothing changes, and while it is idle it goes.
static A_SERVER_HANGS_UP: [Step; 9] = [
    (0, Act::Come, Says::Client(1)),
    (0, Act::Ask(Whose::Ann), Says::Queued(0)),
    (0, Act::Take, Says::Start(1, 0, None)),
    (1, Act::HungUp(1), Says::Unknown),
    (0, Act::Back(Whose::Ann), Says::Done),
    (1, Act::HungUp(1), Says::Close(1)),
    (1, Act::HungUp(1), Says::Unknown),
    (0, Act::Ask(Whose::Ann), Says::Queued(0)),
    (0, Act::Take, Says::Start(2, 0, None)),
];

fn hang_up() -> Story {
    Story {
        settings: Settings::Default,
        passes: 2,
        steps: &A_SERVER_HANGS_UP,
        rows: Rows {
            clients: &[(1, ClientState::Active)],
            lent: &[(2, 0, 0)],
            sums: [0, 2, 0, 0, 0, 0],
            ..NOTHING
        },
        totals: Totals {
            arrived: 1,
            granted: 2,
            given_back: 1,
            lost: 0,
            left: 0,
            others: 4,
        },
    }
}

/// Behind a Reconnect the idle link is closed by a tick, the lent one at its return, and the one that was started since is lent again.
static NO_OLD_LINK_IS_LENT: [Step; 16] = [
    (0, Act::Come, Says::Client(1)),
    (1, Act::Come, Says::Client(2)),
    (0, Act::Ask(Whose::Ann), Says::Queued(0)),
    (0, Act::Take, Says::Start(1, 0, None)),
    (1, Act::Ask(Whose::Ann), Says::Queued(0)),
    (1, Act::Take, Says::Start(2, 0, None)),
    (0, Act::Back(Whose::Ann), Says::Done),
    (1, Act::Reconnect, Says::Done),
    (0, Act::Ask(Whose::Ann), Says::Queued(0)),
    (0, Act::Take, Says::Start(3, 0, None)),
    (1, Act::Back(Whose::Ann), Says::Close(2)),
    (0, Act::Tick(0), Says::Close(1)),
    (0, Act::Tick(0), Says::Done),
    (0, Act::Back(Whose::Ann), Says::Done),
    (1, Act::Ask(Whose::Ann), Says::Queued(0)),
    (1, Act::Take, Says::Lend(3)),
];

fn reconnect() -> Story {
    Story {
        settings: Settings::Default,
        passes: 2,
        steps: &NO_OLD_LINK_IS_LENT,
        rows: Rows {
            clients: &[(1, ClientState::Active), (2, ClientState::Active)],
            lent: &[(3, 0, 0)],
            sums: [0, 3, 1, 0, 0, 0],
            ..NOTHING
        },
        totals: Totals {
            arrived: 2,
            granted: 4,
            given_back: 3,
            lost: 0,
            left: 0,
            others: 9,
        },
    }
}

/// Who may use the console's places is let in beyond the limit, and nobody else, also once the first client has gone.
static THE_CONSOLE_IS_LET_IN: [Step; 6] = [
    (0, Act::Come, Says::Client(1)),
    (1, Act::Come, Says::Refuse(Refusal::TooManyClients)),
    (1, Act::ComeBeyond(Beyond::Console), Says::Client(2)),
    (2, Act::ComeBeyond(Beyond::LocalConsole), Says::Client(3)),
    (0, Act::Leave, Says::Done),
    (0, Act::Come, Says::Refuse(Refusal::TooManyClients)),
];

fn beyond_the_limit() -> Story {
    Story {
        settings: Settings::OneClient,
        passes: 3,
        steps: &THE_CONSOLE_IS_LET_IN,
        rows: Rows {
            clients: &[(2, ClientState::LoggingIn), (3, ClientState::LoggingIn)],
            ..NOTHING
        },
        totals: Totals {
            arrived: 3,
            granted: 0,
            given_back: 0,
            lost: 0,
            left: 1,
            others: 2,
        },
    }
}

/// A client has a link, one gave its link back, one isn't through its login, and one waits.
static EACH_ROW_IS_SHOWN: [Step; 14] = [
    (0, Act::Come, Says::Client(1)),
    (0, Act::Ask(Whose::Ann), Says::Queued(0)),
    (0, Act::Tick(3), Says::Done),
    (0, Act::Take, Says::Start(1, 3, None)),
    (1, Act::Come, Says::Client(2)),
    (1, Act::Ask(Whose::Bc), Says::Queued(0)),
    (1, Act::Take, Says::Start(2, 3, None)),
    (1, Act::Tick(4), Says::Done),
    (1, Act::Back(Whose::Bc), Says::Done),
    (2, Act::Come, Says::Client(3)),
    (3, Act::Come, Says::Client(4)),
    (3, Act::Tick(5), Says::Done),
    (3, Act::Ask(Whose::Ann), Says::Queued(0)),
    (2, Act::Pause, Says::Done),
];

fn each_row() -> Story {
    Story {
        settings: Settings::Default,
        passes: 4,
        steps: &EACH_ROW_IS_SHOWN,
        rows: Rows {
            clients: &[
                (1, ClientState::Active),
                (2, ClientState::Active),
                (3, ClientState::LoggingIn),
                (4, ClientState::Waiting),
            ],
            tickets: &[(4, 5)],
            lent: &[(1, 3, 3)],
            idle: &[(2, 3, 4)],
            sums: [5, 2, 0, 0, 0, 0],
            is_paused: true,
            is_shut: false,
        },
        totals: Totals {
            arrived: 4,
            granted: 2,
            given_back: 1,
            lost: 0,
            left: 0,
            others: 8,
        },
    }
}

/// A link is closed in the second in which it is 10 seconds old: where it lies idle, and where it comes back.
static A_LINK_LIVES_FOR_SO_LONG: [Step; 16] = [
    (0, Act::Come, Says::Client(1)),
    (0, Act::Ask(Whose::Ann), Says::Queued(0)),
    (0, Act::Take, Says::Start(1, 0, None)),
    (1, Act::Tick(3), Says::Done),
    (0, Act::Back(Whose::Ann), Says::Done),
    (1, Act::Tick(9), Says::Done),
    (1, Act::Tick(10), Says::Close(1)),
    (1, Act::Tick(10), Says::Done),
    (0, Act::Ask(Whose::Ann), Says::Queued(0)),
    (0, Act::Take, Says::Start(2, 10, None)),
    (1, Act::Tick(19), Says::Done),
    (0, Act::Back(Whose::Ann), Says::Done),
    (0, Act::Ask(Whose::Ann), Says::Queued(0)),
    (0, Act::Take, Says::Lend(2)),
    (1, Act::Tick(20), Says::Done),
    (0, Act::Back(Whose::Ann), Says::Close(2)),
];

fn lifetimes() -> Story {
    Story {
        settings: Settings::Lifetime(10),
        passes: 2,
        steps: &A_LINK_LIVES_FOR_SO_LONG,
        rows: Rows {
            clients: &[(1, ClientState::Active)],
            sums: [20, 2, 1, 0, 0, 0],
            ..NOTHING
        },
        totals: Totals {
            arrived: 1,
            granted: 3,
            given_back: 3,
            lost: 0,
            left: 0,
            others: 11,
        },
    }
}

static A_LINK_LIES_IDLE_FOR_SO_LONG: [Step; 7] = [
    (0, Act::Come, Says::Client(1)),
    (0, Act::Ask(Whose::Ann), Says::Queued(0)),
    (0, Act::Take, Says::Start(1, 0, None)),
    (1, Act::Tick(3), Says::Done),
    (0, Act::Back(Whose::Ann), Says::Done),
    (1, Act::Tick(7), Says::Done),
    (1, Act::Tick(8), Says::Close(1)),
];

fn idle_times() -> Story {
    Story {
        settings: Settings::Idle(5),
        passes: 2,
        steps: &A_LINK_LIES_IDLE_FOR_SO_LONG,
        rows: Rows {
            clients: &[(1, ClientState::Active)],
            sums: [8, 1, 0, 0, 0, 0],
            ..NOTHING
        },
        totals: Totals {
            arrived: 1,
            granted: 1,
            given_back: 1,
            lost: 0,
            left: 0,
            others: 5,
        },
    }
}

/// A client waits behind those of its pool that asked before and have no link yet: keys of one pool count together, and those of
/// another pool don't.
static CLIENTS_WAIT_BEHIND_THEIR_POOL: [Step; 14] = [
    (0, Act::Come, Says::Client(1)),
    (1, Act::Come, Says::Client(2)),
    (2, Act::Come, Says::Client(3)),
    (3, Act::Come, Says::Client(4)),
    (0, Act::Ask(Whose::Ann), Says::Queued(0)),
    (0, Act::Take, Says::Start(1, 0, None)),
    (1, Act::Ask(Whose::Ann), Says::Queued(0)),
    (2, Act::Ask(Whose::AnnAsB), Says::Queued(1)),
    (3, Act::Ask(Whose::Bc), Says::Queued(0)),
    (0, Act::Back(Whose::Ann), Says::Done),
    (1, Act::Take, Says::Lend(1)),
    (0, Act::Leave, Says::Done),
    (0, Act::Come, Says::Client(5)),
    (0, Act::Ask(Whose::Ann), Says::Queued(1)),
];

fn queues() -> Story {
    Story {
        settings: Settings::PoolsOf(1),
        passes: 4,
        steps: &CLIENTS_WAIT_BEHIND_THEIR_POOL,
        rows: Rows {
            clients: &[
                (2, ClientState::Active),
                (3, ClientState::Waiting),
                (4, ClientState::Waiting),
                (5, ClientState::Waiting),
            ],
            tickets: &[(3, 0), (4, 0), (5, 0)],
            lent: &[(1, 0, 0)],
            sums: [0, 1, 1, 0, 0, 0],
            ..NOTHING
        },
        totals: Totals {
            arrived: 5,
            granted: 2,
            given_back: 1,
            lost: 0,
            left: 1,
            others: 6,
        },
    }
}

/// A link of another key makes room for a start, which fails; the next is lost.
static FAILED_STARTS_ARE_NO_LOSSES: [Step; 11] = [
    (0, Act::Come, Says::Client(1)),
    (0, Act::Ask(Whose::Ann), Says::Queued(0)),
    (0, Act::Take, Says::Start(1, 0, None)),
    (0, Act::Back(Whose::Ann), Says::Done),
    (1, Act::Come, Says::Client(2)),
    (1, Act::Ask(Whose::AnnAsB), Says::Queued(0)),
    (1, Act::Take, Says::Start(2, 0, Some(1))),
    (1, Act::StartFailed, Says::Done),
    (1, Act::Ask(Whose::Ann), Says::Queued(0)),
    (1, Act::Take, Says::Start(3, 0, None)),
    (1, Act::Lost, Says::Done),
];

fn failed_starts() -> Story {
    Story {
        settings: Settings::PoolsOf(1),
        passes: 2,
        steps: &FAILED_STARTS_ARE_NO_LOSSES,
        rows: Rows {
            clients: &[(1, ClientState::Active), (2, ClientState::Active)],
            sums: [0, 3, 0, 1, 1, 1],
            ..NOTHING
        },
        totals: Totals {
            arrived: 2,
            granted: 3,
            given_back: 1,
            lost: 2,
            left: 0,
            others: 4,
        },
    }
}

/// The shop goes to another port: the link of the old one is closed by the next second, and a new client gets one of its own.
static A_LINK_GOES_WITH_ITS_ROW: [Step; 10] = [
    (0, Act::Come, Says::Client(1)),
    (0, Act::Ask(Whose::Ann), Says::Queued(0)),
    (0, Act::Take, Says::Start(1, 0, None)),
    (0, Act::Back(Whose::Ann), Says::Done),
    (1, Act::Limits(Settings::Shop(Change::Port)), Says::Done),
    (1, Act::Tick(0), Says::Close(1)),
    (1, Act::Tick(0), Says::Done),
    (1, Act::Come, Says::Client(2)),
    (1, Act::Ask(Whose::AnnAt5433), Says::Queued(0)),
    (1, Act::Take, Says::Start(2, 0, None)),
];

fn moved_row() -> Story {
    Story {
        settings: Settings::Default,
        passes: 2,
        steps: &A_LINK_GOES_WITH_ITS_ROW,
        rows: Rows {
            clients: &[(1, ClientState::Active), (2, ClientState::Active)],
            lent: &[(2, 0, 0)],
            sums: [0, 2, 0, 0, 0, 0],
            ..NOTHING
        },
        totals: Totals {
            arrived: 2,
            granted: 2,
            given_back: 1,
            lost: 0,
            left: 0,
            others: 5,
        },
    }
}

/// The stories.
fn story_at(at: usize) -> Option<Story> {
    match at {
        0 => Some(lending_again()),
        1 => Some(one_too_many()),
        2 => Some(asking_twice()),
        3 => Some(pause_and_shutdown()),
        4 => Some(each_row()),
        5 => Some(lifetimes()),
        6 => Some(idle_times()),
        7 => Some(queues()),
        8 => Some(failed_starts()),
        9 => Some(moved_row()),
        10 => Some(cancels::cancelled()),
        11 => Some(cancels::by_another_secret()),
        12 => Some(cancels::after_the_end()),
        13 => Some(cancels::of_one_word()),
        14 => Some(cancels::lost()),
        15 => Some(hang_up()),
        16 => Some(reconnect()),
        17 => Some(beyond_the_limit()),
        _ => None,
    }
}

/// So many passes of a desk.
pub(crate) fn passes_of<R: Wait + Clock, K: Ledgers>(
    alloc: Global,
    desk: &TestDesk<R, K>,
    count: usize,
) -> Result<Vec<Pass<K>>, Fail> {
    let mut passes = Vec::new(alloc);
    for _ in 0..count {
        let pass = desk.pass().ok_or("no pass")?;
        passes.push(pass).ok().ok_or("no memory")?;
    }
    Ok(passes)
}

/// The first step that the desk answers otherwise than told: its place, and the answer.
fn surprise<R: Wait + Clock, K: Ledgers>(
    alloc: Global,
    desk: &TestDesk<R, K>,
    passes: &mut [Pass<K>],
    steps: &[Step],
) -> Result<Option<(usize, Says)>, AllocError> {
    for (at, (place, act, wanted)) in steps.iter().enumerate() {
        let Some(pass) = passes.get_mut(*place) else {
            return Ok(Some((at, Says::Nobody)));
        };
        let says = answer(alloc, desk, pass, *act)?;
        if says != *wanted {
            return Ok(Some((at, says)));
        }
    }
    Ok(None)
}

/// Whether the desk shows these rows, whoever looks.
fn shows_all<R: Wait + Clock, K: Ledgers>(
    alloc: Global,
    desk: &TestDesk<R, K>,
    passes: &mut [Pass<K>],
    rows: &Rows,
) -> Result<bool, AllocError> {
    for pass in passes {
        if !shows(&desk.view(alloc, pass)?, rows) {
            return Ok(false);
        }
    }
    Ok(true)
}

/// Where a desk departs from a story first.
fn departure_from<R: Wait + Clock + Drop, K: Ledgers>(
    rt: R,
    alloc: Global,
    blanks: Blanks,
    story: &Story,
) -> Result<Option<Departure>, Fail>
    requires names { names_of blanks ≡ K.names }
    requires parts { K.parts ≡ parts_of blanks }
    requires all { parts_of blanks ≡ of_each ALL_PARTS }
{
    let limits = limits(alloc, story.settings)?;
    let desk = Desk::<R, Nowhere, K>::new(rt, alloc, Nowhere::new(alloc)?, limits, blanks)?;
    let mut passes = passes_of(alloc, &desk, story.passes)?;
    if let Some((at, says)) = surprise(alloc, &desk, passes.as_mut_slice(), story.steps)? {
        return Ok(Some(Departure::Answer(at, says)));
    }
    if !shows_all(alloc, &desk, passes.as_mut_slice(), &story.rows)? {
        return Ok(Some(Departure::Rows));
    }
    let totals = desk.gather(passes).ok().ok_or("other passes")?;
    if totals != story.totals {
        return Ok(Some(Departure::Totals(totals)));
    }
    Ok(None)
}

/// The same, at new ledgers.
fn told_otherwise<R: Wait + Clock + Drop>(
    rt: R,
    alloc: Global,
    story: &Story,
) -> Result<Option<Departure>, Fail> {
    departure_from::<R, Brand>(rt, alloc, Blanks::new(), story)
}

#[test]
fn each_story_goes_as_told(rt: HostRuntime) -> Result<(), Fail> {
    for at in 0..100usize {
        let Some(story) = story_at(at) else {
            break;
        };
        assert!(rt;
            told_otherwise(rt, rt.alloc(), &story)?.is_none(),
            "story {at}"
        );
    }
    Ok(())
}

/// What a desk answers to so many of its passes, of which one was used; and then to all of them.
fn gathers<R: Wait + Clock + Drop, K: Ledgers>(
    rt: R,
    alloc: Global,
    blanks: Blanks,
) -> Result<bool, Fail>
    requires names { names_of blanks ≡ K.names }
    requires parts { K.parts ≡ parts_of blanks }
    requires all { parts_of blanks ≡ of_each ALL_PARTS }
{
    let limits = limits(alloc, Settings::Default)?;
    let desk = Desk::<R, Nowhere, K>::new(rt, alloc, Nowhere::new(alloc)?, limits, blanks)?;
    let mut passes = passes_of(alloc, &desk, 3)?;
    let mut last = passes.pop().ok_or("no pass")?;
    answer(alloc, &desk, &mut last, Act::Come)?;
    let Err((desk, _)) = desk.gather(Vec::new(alloc)) else {
        return Ok(false);
    };
    let Err((desk, passes)) = desk.gather(passes) else {
        return Ok(false);
    };
    let mut passes = passes;
    passes.push(last).ok().ok_or("no memory")?;
    let totals = desk.gather(passes).ok().ok_or("other passes")?;
    Ok((totals.arrived, totals.others) == (1, 0))
}

/// Totals come of all passes alone: not of none while one is out, nor of those that weren't used.
#[test]
fn all_passes_are_gathered(rt: HostRuntime) -> Result<(), Fail> {
    assert!(rt; gathers::<HostRuntime, Brand>(rt, rt.alloc(), Blanks::new())?);
    Ok(())
}
