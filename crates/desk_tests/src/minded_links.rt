//! Which links a desk has minded.
ghost use Rattle.std.specs.Prelude.{◌≡◌};
ghost use Rattle.desk_tallies.specs.declared.passes.TheConstants.{ALL_PARTS};
ghost use Rattle.desk_tallies.specs.Shares.{names_of, of_each, parts_of};

use crate::desk_acts::{Act, Says, answer};
use crate::desk_parts::Nowhere;
use book_tests::book_parts::{Settings, Whose, limits};
use desk_tallies::ledgers::Ledgers;
use desk_tallies::tallies::Blanks;
use pool_desk::desk::Desk;
use std::alloc::Global;
use std::marker::Brand;
use std::rt::Clock;
use std::sync::Wait;
use std::test::Fail;

/// What one client does, the desk's answers, and how many links were minded and released until then: a link that was started isn't
/// minded before it comes back, one that is kept is minded once, and one that is lent again is released once.
static STEPS: [(Act, Says, (u64, u64)); 15] = [
    (Act::Come, Says::Client(1), (0, 0)),
    (Act::Ask(Whose::Ann), Says::Queued(0), (0, 0)),
    (Act::Take, Says::Start(1, 0, None), (0, 0)),
    (Act::Back(Whose::Ann), Says::Done, (1, 0)),
    (Act::Ask(Whose::Ann), Says::Queued(0), (1, 0)),
    (Act::Take, Says::Lend(1), (1, 1)),
    (Act::Back(Whose::Ann), Says::Done, (2, 1)),
    (Act::HungUp(2), Says::Unknown, (2, 1)),
    (Act::HungUp(1), Says::Close(1), (2, 1)),
    (Act::Ask(Whose::Ann), Says::Queued(0), (2, 1)),
    (Act::Take, Says::Start(2, 0, None), (2, 1)),
    (Act::Lost, Says::Done, (2, 1)),
    (Act::Ask(Whose::Ann), Says::Queued(0), (2, 1)),
    (Act::Take, Says::Start(3, 0, None), (2, 1)),
    (Act::Back(Whose::Ann), Says::Done, (3, 1)),
];

/// The place of the first step after which the desk answers otherwise, or other links were minded.
fn departure<R: Wait + Clock + Drop, K: Ledgers>(
    rt: R,
    alloc: Global,
    blanks: Blanks,
) -> Result<Option<usize>, Fail>
    requires names { names_of blanks ≡ K.names }
    requires parts { K.parts ≡ parts_of blanks }
    requires all { parts_of blanks ≡ of_each ALL_PARTS }
{
    let nowhere = Nowhere::new(alloc)?;
    let links = nowhere.links()?;
    let limits = limits(alloc, Settings::Default)?;
    let desk = Desk::<R, Nowhere, K>::new(rt, alloc, nowhere, limits, blanks)?;
    let mut pass = desk.pass().ok_or("no pass")?;
    for (at, (act, says, counts)) in STEPS.iter().enumerate() {
        let told = answer(alloc, &desk, &mut pass, *act)?;
        if (told, links.counts()) != (*says, *counts) {
            return Ok(Some(at));
        }
    }
    Ok(None)
}

/// Each link that is kept is minded, and each that is lent again no more.
#[test]
fn idle_links_are_minded(rt: HostRuntime) -> Result<(), Fail> {
    assert!(rt; departure::<HostRuntime, Brand>(rt, rt.alloc(), Blanks::new())? == None);
    Ok(())
}
