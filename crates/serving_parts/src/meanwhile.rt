//! What else happens at a desk while its workers serve.
use crate::servers::Servers;
use book_model::events::Beyond;
use desk_tallies::ledgers::Ledgers;
use desk_tallies::passes::Pass;
use link_desk::answers::{Cancelled, Grant};
use link_desk::calls::Holder;
use link_desk::desk::LinkDesk;
use message_view::KeyView;
use pool_desk::answers::Changed;
use pool_desk::desk::Desk;
use std::alloc::{AllocError, Global};
use std::rt::Clock;
use std::sync::Wait;
use std::sync::atomic::{AtomicBool, Ordering};
use std::thread::sleep;
use std::time::Duration;
use worker_parts::{TestRuntime, key, limits};

/// The desk of the tests.
pub(crate) type TestDesk<R, K> = Desk<R, Servers, K>;

/// What happens.
#[derive(Clone, Copy, Drop)]
pub enum Act {
    Nothing,
    /// A client comes.
    Comes,
    /// One comes, and has a link of Ann's pool.
    HasLink,
    Tick(u64),
    /// Pools have so many links from now on.
    Pools(u32),
    Shutdown,
    /// Somebody asks for a cancel by the key word of the client with this number.
    Cancel(u32),
}

/// When it happens.
#[derive(Clone, Copy, Drop)]
pub enum Moment {
    Never,
    /// At the first turn of a client's gate, which lasts until it has happened.
    AtTurn,
    /// At the first turn of a client's lease, likewise.
    AtLease,
    /// Once a client waits for a link.
    AtTicket,
}

fn arrives<R: Wait + Clock, K: Ledgers>(desk: &TestDesk<R, K>, pass: &mut Pass<K>) -> bool {
    match pass.holder().client {
        None => {
            desk.arrive(pass, Beyond::Nothing);
            true
        }
        Some(_) => false,
    }
}

fn asks<R: Wait + Clock, K: Ledgers>(
    alloc: Global,
    desk: &TestDesk<R, K>,
    pass: &mut Pass<K>,
) -> Result<bool, AllocError> {
    let key = key(alloc)?;
    Ok(match pass.holder().client {
        Some(_) => {
            desk.ask(pass, &key);
            true
        }
        None => false,
    })
}

/// The client has its link, or knows why not; each call waits for at most a second.
fn takes<R: Wait + Clock, K: Ledgers>(desk: &TestDesk<R, K>, pass: &mut Pass<K>) -> bool {
    for _ in 0..60u32 {
        match pass.holder() {
            Holder {
                client: Some(_),
                lease: None,
                ..
            } => match desk.take(pass) {
                Grant::Queued => {}
                _ => return true,
            },
            _ => return false,
        }
    }
    false
}

/// A cancel goes to whom it finds.
fn cancels<R: Wait + Clock, K: Ledgers>(desk: &TestDesk<R, K>, pass: &mut Pass<K>, number: u32) {
    let client = KeyView {
        pid: number,
        secret: number,
    };
    match &desk.cancel(pass, client) {
        Cancelled::Strike(strike) => desk.strike(pass, strike),
        Cancelled::Nobody | Cancelled::Last => {}
    }
}

fn is_done(changed: Changed) -> bool {
    matches!(changed, Changed::Done)
}

impl Act {
    /// Whether it could happen.
    pub(crate) fn happens<R: Wait + Clock, K: Ledgers>(
        self,
        alloc: Global,
        desk: &TestDesk<R, K>,
        pass: &mut Pass<K>,
    ) -> Result<bool, AllocError> {
        match self {
            Act::Nothing => Ok(true),
            Act::Comes => Ok(arrives(desk, pass)),
            Act::HasLink => Ok(
                arrives(desk, pass) && asks(alloc, desk, pass)? && takes(desk, pass),
            ),
            Act::Tick(now) => {
                desk.tick(pass, now);
                Ok(true)
            }
            Act::Pools(size) => {
                let limits = limits(alloc, 100, size)?;
                Ok(is_done(desk.limits(pass, limits)))
            }
            Act::Shutdown => Ok(is_done(desk.shutdown(pass))),
            Act::Cancel(number) => {
                cancels(desk, pass, number);
                Ok(true)
            }
        }
    }
}

/// How far a client's gate and what else happens have come.
#[derive(Drop)]
pub(crate) struct Notes {
    /// A gate is at its first turn.
    turned: AtomicBool,
    /// What was to happen has happened.
    happened: AtomicBool,
}

/// Waits until this is noted, for at most 60,000 sleeps of 1 ms.
fn wait_for(rt: &impl Clock, note: &AtomicBool) {
    for _ in 0..60_000u32 {
        if note.load(Ordering::SeqCst) {
            return;
        }
        sleep(rt, Duration::from_millis(1));
    }
}

/// Waits until a client waits for a link, as long.
fn wait_for_ticket<R: TestRuntime, K: Ledgers>(
    rt: &R,
    alloc: Global,
    desk: &TestDesk<R, K>,
    pass: &mut Pass<K>,
) -> Result<(), AllocError> {
    for _ in 0..60_000u32 {
        if desk.view(alloc, pass)?.tickets.len() > 0 {
            return Ok(());
        }
        sleep(rt, Duration::from_millis(1));
    }
    Ok(())
}

impl Notes {
    /// Of nothing yet; where nothing happens at a turn, of all.
    pub(crate) fn new(moment: Moment) -> Notes {
        let is_at_turn = matches!(moment, Moment::AtTurn | Moment::AtLease);
        Notes {
            turned: AtomicBool::new(!is_at_turn),
            happened: AtomicBool::new(!is_at_turn),
        }
    }

    /// A gate is at a turn: it waits until what is to happen then has happened.
    pub(crate) fn hold(&self, rt: &impl Clock) {
        self.turned.store(true, Ordering::SeqCst);
        wait_for(rt, &self.happened);
    }

    /// Has this happen in its moment.
    pub(crate) fn follow<R: TestRuntime, K: Ledgers>(
        &self,
        rt: R,
        alloc: Global,
        desk: &TestDesk<R, K>,
        pass: &mut Pass<K>,
        moment: Moment,
        act: Act,
    ) -> Result<bool, AllocError> {
        match moment {
            Moment::Never => return Ok(true),
            Moment::AtTurn | Moment::AtLease => wait_for(&rt, &self.turned),
            Moment::AtTicket => wait_for_ticket(&rt, alloc, desk, pass)?,
        }
        let happens = act.happens(alloc, desk, pass)?;
        self.happened.store(true, Ordering::SeqCst);
        Ok(happens)
    }
}
