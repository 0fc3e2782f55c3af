//! Clients that wait at a desk, each in a thread of its own.
ghost use Rattle.std.specs.Prelude.{◌≡◌};
ghost use Rattle.desk_tallies.specs.declared.passes.TheConstants.{ALL_PARTS};
ghost use Rattle.desk_tallies.specs.Shares.{names_of, of_each, parts_of};

use crate::desk_acts::{Act, Says, answer};
use crate::desk_parts::{Nowhere, TestDesk, TestRuntime};
use book_tests::book_parts::{Settings, Whose, limits};
use desk_tallies::ledgers::Ledgers;
use desk_tallies::passes::{Pass, Totals};
use desk_tallies::tallies::Blanks;
use link_desk::desk::LinkDesk;
use message_view::Refusal;
use pool_desk::desk::Desk;
use std::alloc::Global;
use std::marker::Brand;
use std::rt::Clock;
use std::sync::Wait;
use std::sync::atomic::{AtomicBool, Ordering};
use std::test::Fail;
use std::thread::{join, sleep};
use std::time::Duration;

/// What the desk answers; nobody, where memory is refused.
fn says<R: Wait + Clock, K: Ledgers>(
    alloc: Global,
    desk: &TestDesk<R, K>,
    pass: &mut Pass<K>,
    act: Act,
) -> Says {
    match answer(alloc, desk, pass, act) {
        Ok(says) => says,
        Err(_) => Says::Nobody,
    }
}

/// A client comes and asks: how many wait before it.
fn asks<R: Wait + Clock, K: Ledgers>(
    alloc: Global,
    desk: &TestDesk<R, K>,
    pass: &mut Pass<K>,
    whose: Whose,
) -> Says {
    says(alloc, desk, pass, Act::Come);
    says(alloc, desk, pass, Act::Ask(whose))
}

/// A client comes, asks and takes a link that needn't be waited for.
fn has_link<R: Wait + Clock, K: Ledgers>(
    alloc: Global,
    desk: &TestDesk<R, K>,
    pass: &mut Pass<K>,
    whose: Whose,
) -> Says {
    asks(alloc, desk, pass, whose);
    says(alloc, desk, pass, Act::Take)
}

/// How many clients wait at the desk.
fn waiting<R: Wait + Clock, K: Ledgers>(
    alloc: Global,
    desk: &TestDesk<R, K>,
    pass: &mut Pass<K>,
) -> usize {
    match desk.view(alloc, pass) {
        Ok(view) => view.tickets.len(),
        Err(_) => 99,
    }
}

/// Long enough for another thread to wait at its bell.
fn rest(rt: &impl Clock) {
    sleep(rt, Duration::from_millis(100));
}

/// Second 4 comes, and second 5 once it was seen who waits.
fn ticks<R: TestRuntime, K: Ledgers>(
    rt: R,
    alloc: Global,
    desk: &TestDesk<R, K>,
    pass: &mut Pass<K>,
) -> usize {
    says(alloc, desk, pass, Act::Tick(4));
    rest(&rt);
    let waiting = waiting(alloc, desk, pass);
    says(alloc, desk, pass, Act::Tick(5));
    waiting
}

/// A client waits from second 0 to second 5 for the one link of its pool, and no longer.
fn waits_too_long<R: TestRuntime, K: Ledgers + Send + Sync>(
    rt: R,
    alloc: Global,
    desk: &TestDesk<R, K>,
    first: &mut Pass<K>,
    second: &mut Pass<K>,
) -> bool {
    has_link(alloc, desk, first, Whose::Ann);
    asks(alloc, desk, second, Whose::Ann);
    let (told, waited) = join(
        &rt,
        || -> Says { says(alloc, desk, second, Act::Take) },
        || -> usize { ticks(rt, alloc, desk, first) },
    );
    (told, waited) == (Says::Refuse(Refusal::WaitedTooLong), 1)
}

/// What a client takes, how many wait meanwhile, and what it is told when it gives the link back.
fn has_its_turn<R: Wait + Clock, K: Ledgers>(
    alloc: Global,
    desk: &TestDesk<R, K>,
    pass: &mut Pass<K>,
) -> (Says, usize, Says) {
    let taken = says(alloc, desk, pass, Act::Take);
    let waiting = waiting(alloc, desk, pass);
    (
        taken,
        waiting,
        says(alloc, desk, pass, Act::Back(Whose::Ann)),
    )
}

/// The first client gives its link back, and the second has its turn: how many waited before, and the turn.
fn goes_on<R: TestRuntime, K: Ledgers + Send + Sync>(
    rt: R,
    alloc: Global,
    desk: &TestDesk<R, K>,
    first: &mut Pass<K>,
    second: &mut Pass<K>,
) -> (usize, (Says, usize, Says)) {
    let (turn, waited) = join(
        &rt,
        || -> (Says, usize, Says) { has_its_turn(alloc, desk, second) },
        || -> usize {
            rest(&rt);
            let waiting = waiting(alloc, desk, first);
            says(alloc, desk, first, Act::Back(Whose::Ann));
            waiting
        },
    );
    (waited, turn)
}

/// Three clients ask for the one link of their pool: the first has it, the second is woken by its return, and the third by the
/// second's.
fn have_their_turns<R: TestRuntime, K: Ledgers + Send + Sync>(
    rt: R,
    alloc: Global,
    desk: &TestDesk<R, K>,
    first: &mut Pass<K>,
    second: &mut Pass<K>,
    third: &mut Pass<K>,
) -> bool {
    let asked = [
        asks(alloc, desk, first, Whose::Ann),
        asks(alloc, desk, second, Whose::Ann),
        asks(alloc, desk, third, Whose::Ann),
    ];
    says(alloc, desk, first, Act::Take);
    let (last, (waited, turn)) = join(
        &rt,
        || -> (Says, usize, Says) { has_its_turn(alloc, desk, third) },
        || -> (usize, (Says, usize, Says)) { goes_on(rt, alloc, desk, first, second) },
    );
    asked == [Says::Queued(0), Says::Queued(1), Says::Queued(2)]
        && (waited, turn) == (2, (Says::Lend(1), 1, Says::Done))
        && last == (Says::Lend(1), 0, Says::Done)
}

/// What a client is told that waits, and a note of it.
fn noted<R: Wait + Clock, K: Ledgers>(
    alloc: Global,
    desk: &TestDesk<R, K>,
    pass: &mut Pass<K>,
    told: &AtomicBool,
) -> Says {
    let says = says(alloc, desk, pass, Act::Take);
    told.store(true, Ordering::SeqCst);
    says
}

/// A pause ends: whether the client that waits was told nothing until then.
fn resumes<R: TestRuntime, K: Ledgers>(
    rt: R,
    alloc: Global,
    desk: &TestDesk<R, K>,
    pass: &mut Pass<K>,
    told: &AtomicBool,
) -> bool {
    rest(&rt);
    let was_told = told.load(Ordering::SeqCst);
    let waiting = waiting(alloc, desk, pass);
    says(alloc, desk, pass, Act::Resume);
    !was_told && waiting == 1
}

/// A client beside an idle link of its key waits while the desk is paused, and no longer.
fn waits_in_a_pause<R: TestRuntime, K: Ledgers + Send + Sync>(
    rt: R,
    alloc: Global,
    desk: &TestDesk<R, K>,
    first: &mut Pass<K>,
    second: &mut Pass<K>,
) -> bool {
    let told = AtomicBool::new(false);
    let note = &told;
    has_link(alloc, desk, first, Whose::Ann);
    says(alloc, desk, first, Act::Back(Whose::Ann));
    says(alloc, desk, second, Act::Pause);
    says(alloc, desk, first, Act::Ask(Whose::Ann));
    let (grant, waited) = join(
        &rt,
        || -> Says { noted(alloc, desk, first, note) },
        || -> bool { resumes(rt, alloc, desk, second, note) },
    );
    waited && grant == Says::Lend(1)
}

/// Two links come back, or are lost, one right behind the other.
fn both_go<R: TestRuntime, K: Ledgers>(
    rt: R,
    alloc: Global,
    desk: &TestDesk<R, K>,
    first: &mut Pass<K>,
    second: &mut Pass<K>,
    how: Act,
) {
    rest(&rt);
    says(alloc, desk, first, how);
    says(alloc, desk, second, how);
}

/// Two clients wait with these keys for what two others have, who give it up before the first of them is awake: what they are granted.
fn both_wait<R: TestRuntime, K: Ledgers + Send + Sync>(
    rt: R,
    alloc: Global,
    desk: &TestDesk<R, K>,
    asked: (Whose, Whose),
    how: Act,
    first: &mut Pass<K>,
    second: &mut Pass<K>,
    third: &mut Pass<K>,
    fourth: &mut Pass<K>,
) -> (Says, Says) {
    has_link(alloc, desk, first, Whose::Ann);
    has_link(alloc, desk, second, Whose::Ann);
    asks(alloc, desk, third, asked.0);
    asks(alloc, desk, fourth, asked.1);
    let (one, (other, ())) = join(
        &rt,
        || -> Says { says(alloc, desk, third, Act::Take) },
        || -> (Says, ()) {
            join(
                &rt,
                || -> Says { says(alloc, desk, fourth, Act::Take) },
                || -> () { both_go(rt, alloc, desk, first, second, how) },
            )
        },
    );
    (one, other)
}

/// Whether both were granted, in either order.
fn are_either(granted: (Says, Says), one: Says, other: Says) -> bool {
    granted == (one, other) || granted == (other, one)
}

/// A client waits for the link of its pool, which comes back.
fn is_served<R: TestRuntime, K: Ledgers + Send + Sync>(
    rt: R,
    alloc: Global,
    desk: &TestDesk<R, K>,
    holder: &mut Pass<K>,
    waiter: &mut Pass<K>,
    whose: Whose,
) -> Says {
    let (told, ()) = join(
        &rt,
        || -> Says { says(alloc, desk, waiter, Act::Take) },
        || -> () {
            rest(&rt);
            says(alloc, desk, holder, Act::Back(whose));
        },
    );
    told
}

/// Two clients wait, each for the one link of its pool. That of the client that asked last comes back first, and it has it while the
/// other waits on.
fn each_pool_is_woken<R: TestRuntime, K: Ledgers + Send + Sync>(
    rt: R,
    alloc: Global,
    desk: &TestDesk<R, K>,
    first: &mut Pass<K>,
    second: &mut Pass<K>,
    third: &mut Pass<K>,
    fourth: &mut Pass<K>,
) -> bool {
    has_link(alloc, desk, first, Whose::Ann);
    has_link(alloc, desk, second, Whose::Bc);
    asks(alloc, desk, third, Whose::Ann);
    asks(alloc, desk, fourth, Whose::Bc);
    let (one, other) = join(
        &rt,
        || -> Says { says(alloc, desk, third, Act::Take) },
        || -> Says {
            let told = is_served(rt, alloc, desk, second, fourth, Whose::Bc);
            says(alloc, desk, first, Act::Back(Whose::Ann));
            told
        },
    );
    (one, other) == (Says::Lend(1), Says::Lend(2))
}

/// How clients wait at a desk.
#[derive(Clone, Copy, Drop)]
enum Manner {
    TooLong,
    InTurn,
    InAPause,
    ForTwoLinks,
    ForTwoPools,
    ForTheBook,
}

/// The settings of the desk at which they wait.
fn settings(wait: Manner) -> Settings {
    match wait {
        Manner::TooLong => Settings::Wait(5),
        Manner::InTurn | Manner::ForTwoPools => Settings::PoolsOf(1),
        Manner::InAPause => Settings::Default,
        Manner::ForTwoLinks => Settings::PoolsOf(2),
        Manner::ForTheBook => Settings::TwoLinks,
    }
}

/// The decisions by class that are made then: of so many clients, links granted, returns and other decisions, among which is one
/// question a link granted or waited for, and the end of a lease before each return.
fn totals(wait: Manner) -> Totals {
    let (clients, granted, given_back, others) = match wait {
        // a place that is lost, two seconds
        Manner::TooLong => (2, 1, 0, 5),
        Manner::InTurn => (3, 3, 3, 6),
        // a pause and its end
        Manner::InAPause => (1, 2, 1, 5),
        Manner::ForTwoLinks | Manner::ForTwoPools => (4, 4, 2, 6),
        Manner::ForTheBook => (4, 4, 0, 4),
    };
    let lost = match wait {
        Manner::ForTheBook => 2,
        _ => 0,
    };
    Totals {
        arrived: clients,
        granted,
        given_back,
        lost,
        left: 0,
        others,
    }
}

/// Whether they wait as they are to, through these passes.
fn waits<R: TestRuntime, K: Ledgers + Send + Sync>(
    rt: R,
    alloc: Global,
    desk: &TestDesk<R, K>,
    wait: Manner,
    first: &mut Pass<K>,
    second: &mut Pass<K>,
    third: &mut Pass<K>,
    fourth: &mut Pass<K>,
) -> bool {
    match wait {
        Manner::TooLong => waits_too_long(rt, alloc, desk, first, second),
        Manner::InTurn => have_their_turns(rt, alloc, desk, first, second, third),
        Manner::InAPause => waits_in_a_pause(rt, alloc, desk, first, second),
        // the return of a link wakes the first client alone: so it is for its grant to wake the other
        Manner::ForTwoLinks => {
            let asked = (Whose::Ann, Whose::Ann);
            let how = Act::Back(Whose::Ann);
            let granted = both_wait(rt, alloc, desk, asked, how, first, second, third, fourth);
            are_either(granted, Says::Lend(1), Says::Lend(2))
        }
        Manner::ForTwoPools => each_pool_is_woken(rt, alloc, desk, first, second, third, fourth),
        // the book has its two links: clients of two other pools wait for its room
        Manner::ForTheBook => {
            let asked = (Whose::Bc, Whose::AnnAtCafe);
            let granted = both_wait(
                rt,
                alloc,
                desk,
                asked,
                Act::Lost,
                first,
                second,
                third,
                fourth,
            );
            are_either(granted, Says::Start(3, 0, None), Says::Start(4, 0, None))
        }
    }
}

/// Four passes of a desk.
fn four_passes<R: Wait + Clock, K: Ledgers>(
    desk: &TestDesk<R, K>,
) -> Option<(Pass<K>, Pass<K>, Pass<K>, Pass<K>)> {
    Some((desk.pass()?, desk.pass()?, desk.pass()?, desk.pass()?))
}

/// Whether they wait as they are to at a new desk, and the decisions are counted.
fn waits_at<R: TestRuntime, K: Ledgers + Send + Sync>(
    rt: R,
    alloc: Global,
    blanks: Blanks,
    wait: Manner,
) -> Result<bool, Fail>
    requires names { names_of blanks ≡ K.names }
    requires parts { K.parts ≡ parts_of blanks }
    requires all { parts_of blanks ≡ of_each ALL_PARTS }
{
    let limits = limits(alloc, settings(wait))?;
    let desk = Desk::<R, Nowhere, K>::new(rt, alloc, Nowhere::new(alloc)?, limits, blanks)?;
    let (mut first, mut second, mut third, mut fourth) = four_passes(&desk).ok_or("no pass")?;
    let waits = waits(
        rt,
        alloc,
        &desk,
        wait,
        &mut first,
        &mut second,
        &mut third,
        &mut fourth,
    );
    let passes = Vec::from_array(alloc, [first, second, third, fourth])?;
    let made = desk.gather(passes).ok().ok_or("other passes")?;
    Ok(waits && made == totals(wait))
}

/// The same, at new ledgers.
fn waits_well<R: TestRuntime>(rt: R, alloc: Global, wait: Manner) -> Result<bool, Fail> {
    waits_at::<R, Brand>(rt, alloc, Blanks::new(), wait)
}

/// Less than a take waits by itself: who isn't woken by its bell takes longer.
fn in_time() -> Duration {
    Duration::from_millis(900)
}

/// The same, and nobody waited for longer than until its bell rang. On a busy machine a thread may be late, so three times are tried.
fn is_woken_in_time<R: TestRuntime>(rt: R, alloc: Global, wait: Manner) -> Result<bool, Fail> {
    for _ in 0..3u32 {
        let begun = rt.monotonic()?;
        if !waits_well(rt, alloc, wait)? {
            return Ok(false);
        }
        if rt.monotonic()?.saturating_sub(begun) < in_time() {
            return Ok(true);
        }
    }
    Ok(false)
}

#[test]
fn a_client_waits_for_so_long(rt: HostRuntime) -> Result<(), Fail> {
    assert!(rt; is_woken_in_time(rt, rt.alloc(), Manner::TooLong)?);
    Ok(())
}

#[test]
fn clients_have_their_turns(rt: HostRuntime) -> Result<(), Fail> {
    assert!(rt; is_woken_in_time(rt, rt.alloc(), Manner::InTurn)?);
    Ok(())
}

#[test]
fn nobody_is_served_in_a_pause(rt: HostRuntime) -> Result<(), Fail> {
    assert!(rt; is_woken_in_time(rt, rt.alloc(), Manner::InAPause)?);
    Ok(())
}

/// Ten times, since the first client may be awake before the second link is back.
#[test]
fn a_grant_wakes_the_next(rt: HostRuntime) -> Result<(), Fail> {
    for time in 0..10u32 {
        assert!(rt;
            is_woken_in_time(rt, rt.alloc(), Manner::ForTwoLinks)?,
            "time {time}"
        );
    }
    Ok(())
}

#[test]
fn the_first_of_each_pool_is_woken(rt: HostRuntime) -> Result<(), Fail> {
    assert!(rt; is_woken_in_time(rt, rt.alloc(), Manner::ForTwoPools)?);
    Ok(())
}

#[test]
fn room_in_the_book_wakes_other_pools(rt: HostRuntime) -> Result<(), Fail> {
    assert!(rt; is_woken_in_time(rt, rt.alloc(), Manner::ForTheBook)?);
    Ok(())
}
