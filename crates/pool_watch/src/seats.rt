//! One client's place: its connection, and what its worker tells of it.

use log_lines::notes::Visit;
use pool_figures::figures::Figures;
use pool_figures::seen::{Activity, ClientSeen};
use session_values::text::Text;
use std::alloc::{AllocError, Global};
use std::rt::Clock;
use std::sync::atomic::{AtomicBool, Ordering};
use std::sync::{Mutex, MutexGuard, Wait};
use tcp_notes::sight::{Sight, Stance};

/// Where a client is with its link.
#[derive(Clone, Copy, PartialEq, Eq, Drop)]
enum Stage {
    LoggingIn,
    Waiting,
    Leased,
    AtConsole,
}

/// What a worker tells of its client. Times are microseconds of its visit.
#[derive(Drop)]
pub(crate) struct Held {
    /// In the lease book; 0 before it has arrived there.
    number: u64,
    user: Text,
    /// The database that it names, and whether a row of the settings bears that name.
    database: Text,
    is_listed: bool,
    stage: Stage,
    since: u64,
    link: u64,
    process: u32,
    leases: u64,
    wait_time: u64,
    /// Bytes that came and went before its first link.
    before: (u64, u64),
}

/// One client's place.
pub struct Seat {
    visit: Visit,
    sight: Sight,
    is_cut: AtomicBool,
    held: Mutex<Held>,
}

impl Drop for Seat {
    fn drop(self) {
        let Seat {
            visit: _,
            sight: _,
            is_cut: _,
            held: _,
        } = self;
    }
}

/// Microseconds of a visit so far; 0 where the clock can't be read.
fn age_of<R: Clock>(rt: &R, visit: &Visit) -> u64 {
    let Some(since) = visit.since else {
        return 0;
    };
    match since.elapsed(rt) {
        Ok(passed) => u64::try_from(passed.as_micros()).unwrap_or(0),
        Err(_) => 0,
    }
}

/// What a client that has a link is at, and since when.
fn leased(sight: &Sight, since: u64) -> (Activity, u64) {
    let (stance, stood) = sight.stance();
    let activity = match stance {
        Stance::Idle => Activity::Idle,
        Stance::InTransaction => Activity::InTransaction,
        Stance::InFailed => Activity::InFailed,
        Stance::Running => Activity::Running,
    };
    (activity, if stood == 0 { since } else { stood })
}

impl Held {
    /// The database that it has named; empty before that.
    pub(crate) fn database(&self) -> &[u8] {
        self.database.as_slice()
    }

    /// Whether a row of the settings bears that name.
    pub(crate) fn is_listed(&self) -> bool {
        self.is_listed
    }

    fn activity(&self, sight: &Sight) -> (Activity, u64) {
        match self.stage {
            Stage::LoggingIn => (Activity::LoggingIn, 0),
            Stage::Waiting => (Activity::Waiting, self.since),
            Stage::AtConsole => (Activity::AtConsole, 0),
            Stage::Leased => leased(sight, self.since),
        }
    }

    fn figures(&self, sight: &Sight) -> Figures {
        let seen = sight.figures();
        Figures {
            leases: self.leases,
            transactions: seen.transactions,
            queries: seen.queries,
            received: seen.received.saturating_sub(self.before.0),
            sent: seen.sent.saturating_sub(self.before.1),
            transaction_time: seen.transaction_time,
            query_time: seen.query_time,
            wait_time: self.wait_time,
        }
    }
}

impl Seat {
    /// That of a client that has just come.
    pub(crate) fn new(alloc: Global, visit: Visit, sight: Sight) -> Seat {
        let held = Held {
            number: 0,
            user: Text::from_vec(Vec::new(alloc)),
            database: Text::from_vec(Vec::new(alloc)),
            is_listed: false,
            stage: Stage::LoggingIn,
            since: 0,
            link: 0,
            process: 0,
            leases: 0,
            wait_time: 0,
            before: (0, 0),
        };
        Seat {
            visit,
            sight,
            is_cut: AtomicBool::new(false),
            held: Mutex::new(held),
        }
    }

    /// Whether its client has said who it is, and so isn't a stranger.
    pub fn is_known(&self) -> bool {
        self.sight.is_known()
    }

    /// Whether it is a stranger's whose connection wasn't closed yet.
    pub(crate) fn may_be_cut(&self) -> bool {
        !self.is_known() && !self.is_cut.load(Ordering::SeqCst)
    }

    /// Closes the connection of a stranger; whether it is one, and wasn't closed so before.
    pub(crate) fn cut(&self) -> bool {
        !self.is_cut.swap(true, Ordering::SeqCst) && self.sight.cut()
    }

    /// Whether its visit has lasted so many seconds, where that is a limit.
    pub fn is_late<R: Clock>(&self, rt: &R, seconds: u32) -> bool {
        seconds > 0 && age_of(rt, &self.visit) >= (seconds as u64).saturating_mul(1_000_000)
    }

    pub(crate) fn arrived<R: Wait>(&self, rt: &R, number: u64) {
        self.held.lock(rt).number = number;
    }

    /// It is through its login.
    pub(crate) fn named<R: Wait>(
        &self,
        rt: &R,
        alloc: Global,
        user: &[u8],
        database: &[u8],
        is_listed: bool,
    ) {
        let user = Text::from_slice(alloc, user);
        let database = Text::from_slice(alloc, database);
        if let (Ok(user), Ok(database)) = (user, database) {
            let mut held = self.held.lock(rt);
            held.user = user;
            held.database = database;
            held.is_listed = is_listed;
        }
    }

    /// It asks for a link from now on.
    pub(crate) fn asks<R: Wait + Clock>(&self, rt: &R) {
        let now = age_of(rt, &self.visit);
        let mut held = self.held.lock(rt);
        held.stage = Stage::Waiting;
        held.since = now;
    }

    /// It was granted this link.
    pub(crate) fn granted<R: Wait + Clock>(&self, rt: &R, link: u64) {
        let now = age_of(rt, &self.visit);
        let seen = self.sight.figures();
        let mut held = self.held.lock(rt);
        held.wait_time = held
            .wait_time
            .saturating_add(now.saturating_sub(held.since));
        if held.leases == 0 {
            held.before = (seen.received, seen.sent);
        }
        held.leases = held.leases.saturating_add(1);
        held.stage = Stage::Leased;
        held.since = now;
        held.link = link;
    }

    /// The link's server told this process.
    pub(crate) fn keyed<R: Wait>(&self, rt: &R, process: u32) {
        self.held.lock(rt).process = process;
    }

    /// It has no link any more.
    pub(crate) fn unlinked<R: Wait>(&self, rt: &R) {
        let mut held = self.held.lock(rt);
        held.link = 0;
        held.process = 0;
    }

    /// It is a client of the console.
    pub(crate) fn looks<R: Wait>(&self, rt: &R) {
        self.held.lock(rt).stage = Stage::AtConsole;
    }

    /// What its worker has told so far, which stays so meanwhile.
    pub(crate) fn hold<R: Wait>(&self, rt: &R) -> MutexGuard<'_, Held> {
        self.held.lock(rt)
    }

    /// What went through it, by what its worker has told.
    pub(crate) fn figures(&self, held: &Held) -> Figures {
        held.figures(&self.sight)
    }

    /// As it is shown; `None` before it has arrived.
    pub(crate) fn shown<R: Wait + Clock>(
        &self,
        rt: &R,
        alloc: Global,
    ) -> Result<Option<ClientSeen>, AllocError> {
        let age = age_of(rt, &self.visit);
        let held = self.held.lock(rt);
        if held.number == 0 {
            return Ok(None);
        }
        let (activity, since) = held.activity(&self.sight);
        Ok(Some(ClientSeen {
            number: held.number,
            user: Text::from_slice(alloc, held.user.as_slice())?,
            database: Text::from_slice(alloc, held.database.as_slice())?,
            host: Text::from_slice(alloc, self.visit.host.as_bytes())?,
            port: self.visit.port,
            age: age / 1_000,
            activity,
            since: age.saturating_sub(since) / 1_000,
            link: held.link,
            process: held.process,
            figures: held.figures(&self.sight),
        }))
    }
}
