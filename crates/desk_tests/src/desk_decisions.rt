//! What a desk shows of its book's decisions.
ghost use Rattle.std.specs.Prelude.{◌≡◌};
ghost use Rattle.desk_tallies.specs.declared.passes.TheConstants.{ALL_PARTS};
ghost use Rattle.desk_tallies.specs.Shares.{names_of, of_each, parts_of};

use crate::desk_acts::{Act, Says, Word, answer};
use crate::desk_parts::Nowhere;
use book_tests::book_parts::{Settings, Whose, limits};
use desk_tallies::ledgers::Ledgers;
use desk_tallies::tallies::Blanks;
use link_desk::desk::LinkDesk;
use pool_desk::desk::Desk;
use pool_figures::decisions::DecisionSeen;
use std::alloc::Global;
use std::marker::Brand;
use std::rt::Clock;
use std::sync::Wait;
use std::test::Fail;

/// The key words of a client and of its server, whose secrets stand nowhere else.
const CLIENT: Word = (1_111, 987_654_321);

const SERVER: Word = (2_222, 123_456_789);

/// A client's lease is cancelled, and its link is lost.
static STEPS: [(Act, Says); 7] = [
    (Act::Come, Says::Client(1)),
    (Act::Ask(Whose::Ann), Says::Queued(0)),
    (Act::Take, Says::Start(1, 0, None)),
    (Act::Key(CLIENT, SERVER), Says::Done),
    (Act::Cancel(CLIENT), Says::Strike(1, SERVER, 5432)),
    (Act::EndLease, Says::Dispose),
    (Act::Lost, Says::Done),
];

/// The event, its number, the reply and its number.
type Shown = (&'static str, u64, &'static str, u64);

static SHOWN: [Shown; 7] = [
    ("arrive", 0, "arrived", 1),
    ("ask", 1, "queued", 0),
    ("take", 1, "start", 1),
    ("keyed", 1, "done", 0),
    ("cancel", 1_111, "strike", 1),
    ("end_lease", 1, "dispose", 0),
    ("lost", 1, "done", 0),
];

/// Whether the decision of this number is shown so, as made through the second pass.
fn is_shown(seen: &DecisionSeen, number: u64, shown: &Shown) -> bool {
    let numbers = [seen.number, seen.pass, seen.of, seen.to] == [number, 1, shown.1, shown.3];
    numbers & (seen.event == shown.0) & (seen.reply == shown.2)
}

/// Whether each is.
fn are_shown(seen: &[DecisionSeen]) -> bool {
    for (at, (decision, shown)) in seen.iter().zip(SHOWN.iter()).enumerate() {
        if !is_shown(decision, (at as u64).saturating_add(1), shown) {
            return false;
        }
    }
    seen.len() == SHOWN.len()
}

/// What a desk shows behind these steps.
fn seen_behind<R: Wait + Clock + Drop, K: Ledgers>(
    rt: R,
    alloc: Global,
    blanks: Blanks,
) -> Result<Vec<DecisionSeen>, Fail>
    requires names { names_of blanks ≡ K.names }
    requires parts { K.parts ≡ parts_of blanks }
    requires all { parts_of blanks ≡ of_each ALL_PARTS }
{
    let limits = limits(alloc, Settings::Default)?;
    let desk = Desk::<R, Nowhere, K>::new(rt, alloc, Nowhere::new(alloc)?, limits, blanks)?;
    let _first = desk.pass().ok_or("no pass")?;
    let mut pass = desk.pass().ok_or("no pass")?;
    for (act, says) in &STEPS {
        if answer(alloc, &desk, &mut pass, *act)? != *says {
            return Ok(Vec::new(alloc));
        }
    }
    Ok(desk.decisions(alloc)?)
}

/// Each decision is shown, by names and numbers of which none is a secret.
#[test]
fn decisions_are_shown(rt: HostRuntime) -> Result<(), Fail> {
    let seen = seen_behind::<HostRuntime, Brand>(rt, rt.alloc(), Blanks::new())?;
    assert!(rt; are_shown(&seen));
    Ok(())
}
