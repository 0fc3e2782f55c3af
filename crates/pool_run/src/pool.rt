//! One pool, from the first connection to the last.
ghost use Rattle.std.specs.Prelude.{◌≡◌, IfSome, None};
ghost use Rattle.ini_config.specs.Bounds.{AreWithinBounds};
ghost use Rattle.desk_tallies.specs.declared.passes.TheConstants.{ALL_PARTS};
ghost use Rattle.desk_tallies.specs.Shares.{names_of, of_each, parts_of};
ghost use Rattle.pool_run.specs.Logins.{IsNewLogin};
ghost use Rattle.pool_run.specs.Salts.{salts_key};
ghost use Rattle.rand_chacha.specs.ChaCha.{of_seed};
ghost use Rattle.server_end.specs.Moves.{IsWithin};
ghost use Rattle.pool_run.specs.declared.pool.TheConstants.{HEARD};

use crate::keeping::{Arrival, Keeper, Source};
use crate::listening::{Begun, Listening};
use crate::log::PoolLog;
use crate::places::Places;
use crate::runtime::PoolRuntime;
use crate::surroundings::Surroundings;
use book_model::settings::limits_of;
use desk_tallies::ledgers::Ledgers;
use desk_tallies::passes::Pass;
use desk_tallies::tallies::Blanks;
use frame_view::{Side, Step, next_frame};
use ini_config::Settings;
use key_source::KeySource;
use link_desk::desk::LinkDesk;
use link_run::links::CleanLink;
use link_start::close::{close_link, offer_terminate};
use log_lines::events::{Heard, Totals};
use log_lines::notes::Visit;
use log_writer::log::begin;
use message_view::KeyWord;
use pool_desk::answers::{HungUp, Ticked};
use pool_desk::desk::Desk;
use pool_serve::serve::serve;
use pool_watch::desk::WatchedDesk;
use pool_watch::seats::Seat;
use pool_watch::watch::Watch;
use relay_flow::buffers::Buffers;
use scram::hmac;
use server_end::gate::Gate;
use server_end::{Moved, ServerEnd};
use std::alloc::{AllocError, Global};
use std::io::Write;
use std::marker::Brand;
use std::rt::Clock;
use std::sync::atomic::{AtomicBool, Ordering};
use std::sync::{Arc, Mutex, Wait};
use std::time::Instant;
use std::{io, thread};
use tcp_end::connection::TcpEnd;
use tcp_end::gate::{GatePoll, TcpGate};
use tcp_end::idle::{IdlePoll, Minder};
use tcp_listen::acceptor::{Acceptor, Turn};
use tcp_listen::listener::Peer;
use time_limits::{CLOCK_TURN, GIVING_WAY};
use user_file::UserTable;
use worker_threads::Workers;

/// A pass that no client holds, nor a link.
#[derive(Drop)]
pub(crate) struct FreePass<K: Ledgers> {
    pub(crate) pass: Pass<K>,
    ghost no_client: { pass.holder.client ≡ None },
    ghost no_lease: { pass.holder.lease ≡ None },
}

/// Passes that no worker has at this time.
#[derive(Drop)]
struct Free<K: Ledgers> {
    passes: Vec<FreePass<K>>,
    /// So many were cut off in all, and there is room for so many.
    cut: usize,
}

/// What a thread keeps from one connection to the next.
#[derive(Drop)]
struct Belongings {
    poll: Option<GatePoll>,
    buffers: Option<Buffers>,
}

/// What all threads of a pool share.
pub(crate) struct Pool<R: PoolRuntime, F: Source, K: Ledgers> {
    pub(crate) rt: R,
    alloc: Global,
    pub(crate) desk: Desk<R, Surroundings<R, F>, K>,
    free: Mutex<Free<K>>,
    pub(crate) keeper: Arc<Keeper<R, F>>,
    log: Arc<PoolLog<R>>,
    pub(crate) watch: Arc<Watch<R>>,
    /// No connection is accepted any more.
    pub(crate) is_closed: AtomicBool,
    /// The last connection is done.
    has_ended: AtomicBool,
}

impl<R: PoolRuntime, F: Source, K: Ledgers> Drop for Pool<R, F, K> {
    fn drop(self) {
        let Pool {
            rt: _,
            alloc: _,
            desk: _,
            free: _,
            keeper: _,
            log: _,
            watch: _,
            is_closed: _,
            has_ended: _,
        } = self;
    }
}

impl<R: PoolRuntime, F: Source, K: Ledgers> Pool<R, F, K> {
    /// A pool with an empty book.
    fn open(
        rt: R,
        alloc: Global,
        settings: Settings,
        users: UserTable,
        salts: [u8; 32],
        source: F,
        log: &Arc<PoolLog<R>>,
        minder: Minder,
        blanks: Blanks,
    ) -> Result<Pool<R, F, K>, AllocError>
        requires bounds { AreWithinBounds settings }
        requires names { names_of blanks ≡ K.names }
        requires parts { K.parts ≡ parts_of blanks }
        requires all { parts_of blanks ≡ of_each ALL_PARTS }
    {
        let limits = Arc::new(alloc, limits_of(alloc, &settings)?)?;
        let keeper = Keeper::new(rt, alloc, settings, users, salts, source)?;
        let keeper = Arc::new(alloc, keeper)?;
        let watch = Arc::new(alloc, Watch::new(rt, alloc))?;
        let outside = Surroundings {
            rt,
            alloc,
            keeper: Arc::try_clone(&keeper)?,
            log: Arc::try_clone(log)?,
            places: Mutex::new(Places::new(alloc)),
            minder,
            watch: Arc::try_clone(&watch)?,
        };
        let desk = Desk::<R, Surroundings<R, F>, K>::new(rt, alloc, outside, limits, blanks)?;
        let free = Free {
            passes: Vec::new(alloc),
            cut: 0,
        };
        Ok(Pool {
            rt,
            alloc,
            desk,
            free: Mutex::new(free),
            keeper,
            log: Arc::try_clone(log)?,
            watch,
            is_closed: AtomicBool::new(false),
            has_ended: AtomicBool::new(false),
        })
    }

    /// A pass that another worker gave back; or a new one, for which there is then room among those.
    pub(crate) fn pass(&self, rt: &R) -> Option<FreePass<K>> {
        let mut free = self.free.lock(rt);
        if let Some(pass) = free.passes.pop() {
            return Some(pass);
        }
        let room = free.cut.checked_add(1)?;
        free.passes.reserve(room).ok()?;
        let pass = self.desk.pass()?;
        free.cut = room;
        Some(FreePass { pass })
    }

    /// A worker is done with this pass.
    pub(crate) fn give_back(&self, rt: &R, pass: FreePass<K>) {
        // there is room: it was reserved when the pass was cut off
        let _ = self.free.lock(rt).passes.push(pass);
    }

    /// A poll. Where the system has none left, the oldest connection whose client hasn't said who it is gives way; `None` where none does.
    fn new_poll(&self) -> Option<GatePoll> {
        for _ in 0..MAX_CUT {
            match GatePoll::new(&self.rt, self.alloc) {
                Ok(poll) => return Some(poll),
                Err(_) if self.watch.cut_oldest() => thread::sleep(&self.rt, GIVING_WAY.duration()),
                Err(_) => return None,
            }
        }
        None
    }

    /// What the worker of a connection needs; `None` where there is no poll, no memory or no pass for it.
    // written into no caller: the stack of a thread would have room for what it moves as long as its client is served
    #[inline(never)]
    fn equip<'a>(
        &self,
        rt: R,
        word: KeyWord,
        client: &mut TcpEnd,
        kept: &'a mut Option<GatePoll>,
    ) -> Option<(TcpGate<'a, R>, Arrival, FreePass<K>)>
        ensures client { client.new ≡ client.old }
        ensures login { IfSome result (λ e. IsNewLogin word e.1.login) }
    {
        if kept.is_none() {
            *kept = self.new_poll();
        }
        let gate = TcpGate::new(rt, kept.as_mut()?, client).ok()?;
        let arrival = self.keeper.arrival(word).ok()?;
        // last, since a pass that is dropped is lost
        let pass = self.pass(&rt)?;
        Some((gate, arrival, pass))
    }

    /// Serves a connection that has its seat, from now on within the time that a login may take.
    fn serve_seated(
        &self,
        rt: R,
        word: KeyWord,
        client: TcpEnd,
        visit: Visit,
        kept: &mut Belongings,
        seat: &Seat,
    ) {
        let mut client = client;
        let Belongings { poll, buffers } = kept;
        let Some((gate, arrival, FreePass { pass })) = self.equip(rt, word, &mut client, poll)
        else {
            self.log.unserved();
            return;
        };
        let mut gate = gate;
        let Arrival {
            login,
            settings,
            users,
        } = arrival;
        let seconds = settings.client_login_timeout();
        gate.reckon_from(visit.since);
        Gate::limit(&mut gate, some_time(seconds));
        let desk = WatchedDesk {
            rt,
            alloc: self.alloc,
            desk: &self.desk,
            watch: &*self.watch,
            seat,
            settings,
            users,
        };
        let (_, pass) = serve(
            self.alloc, &desk, pass, client, login, word, gate, visit, buffers,
        );
        self.give_back(&rt, FreePass { pass });
        if !seat.is_known() && seat.is_late(&rt, seconds) {
            self.log.late();
        }
    }

    /// Serves one connection to its end, with what its thread keeps. One for which there is no poll, no pass or no memory is
    /// closed.
    fn attend(&self, rt: R, word: KeyWord, client: TcpEnd, visit: Visit, kept: &mut Belongings) {
        let sight = client.sight().ok();
        match sight.and_then(|sight| self.watch.enter(visit, sight)) {
            Some((id, seat)) => {
                self.serve_seated(rt, word, client, visit, kept, &seat);
                self.watch.leave(id);
            }
            None => self.log.unserved(),
        }
    }

    /// The clock has reached this second: logs what went through the pool in a period that is over, where it is to be logged.
    fn tell_figures(&self, now: u64) {
        let (period, is_logged) = self.keeper.stats();
        if let Some(figures) = self.watch.tick(now, period) {
            if is_logged {
                self.log.figures(figures, period);
            }
        }
    }

    /// Tells the desk this second until nothing more is to be closed; whether the clock is still wanted.
    fn tick(&self, rt: &R, pass: &mut FreePass<K>, now: u64) -> bool {
        for _ in rt.forever() {
            match self.desk.tick(&mut pass.pass, now) {
                Ticked::Done => return true,
                Ticked::Close(link) => {
                    close_link(link);
                }
                Ticked::Last => return false,
            }
        }
        unreachable!()
    }

    /// Closes the idle links of which the poll has told: their servers have hung up, or said something that nobody asked for. One that
    /// isn't idle any more is left to who has it, which sees so too.
    fn close_hung_up(&self, rt: &R, pass: &mut FreePass<K>, idle: &IdlePoll) {
        let mut told = idle.told();
        for _ in rt.forever() {
            let Some(number) = told.next() else {
                return;
            };
            match self.desk.hung_up(&mut pass.pass, number) {
                HungUp::Close(link) => self.close_idle(link),
                HungUp::NotIdle | HungUp::Last => {}
            }
        }
    }

    /// Closes an idle link to which something came, and logs what.
    fn close_idle(&self, link: CleanLink<TcpEnd>) {
        let number = link.number();
        let mut parts = link.lend();
        let mut bytes = [0u8; HEARD];
        let moved = ServerEnd::read_some(&mut parts.end, &mut bytes);
        self.log.idle_closed(number, heard_in(moved, &bytes));
        offer_terminate(&mut parts.end);
    }

    /// The clock: each second the whole seconds since its first reading, until the last connection is done. In a second in which it
    /// can't be read it tells nothing but that, and goes on with the next. While it waits for the next second, it minds the idle links.
    fn run_clock(&self, rt: &R, idle: IdlePoll, pass: FreePass<K>) {
        let mut pass = pass;
        let mut idle = idle;
        let mut start = Instant::now(rt).ok();
        let mut last = None;
        for _ in rt.forever() {
            if idle.wait(CLOCK_TURN.duration()).is_err() {
                thread::sleep(rt, CLOCK_TURN.duration());
            }
            if self.has_ended.load(Ordering::SeqCst) {
                break;
            }
            self.close_hung_up(rt, &mut pass, &idle);
            let now = second(rt, &mut start);
            self.log.clock(now.is_some());
            let Some(now) = now else {
                continue;
            };
            if last == Some(now) {
                continue;
            }
            last = Some(now);
            self.log.tell_unserved(now);
            self.tell_figures(now);
            if !self.tick(rt, &mut pass, now) {
                break;
            }
        }
        self.give_back(rt, pass);
    }

    /// The decisions of the book, and the links started; `None` where memory is refused, or no pass is left to ask through.
    fn counted(&self, rt: &R) -> Option<(u64, u64)> {
        let mut pass = self.pass(rt)?;
        let view = self.desk.view(self.alloc, &mut pass.pass);
        self.give_back(rt, pass);
        let view = view.ok()?;
        Some((view.decisions, view.starts))
    }

    /// What was decided from the first client to the last, once all passes are back. `None` where one is missing, or memory is refused.
    fn close(self, rt: &R) -> Option<Totals> {
        let (decisions, starts) = self.counted(rt)?;
        let Pool {
            rt: _,
            alloc,
            desk,
            free,
            keeper: _,
            log: _,
            watch: _,
            is_closed: _,
            has_ended: _,
        } = self;
        let mut passes = Vec::new(alloc);
        for FreePass { pass } in free.into_inner().passes {
            passes.push(pass).ok()?;
        }
        let made = desk.gather(passes).ok()?;
        Some(Totals {
            decisions,
            starts,
            arrived: made.arrived,
            granted: made.granted,
            given_back: made.given_back,
            lost: made.lost,
            left: made.left,
            others: made.others,
        })
    }
}

/// As much as is read of what the server of an idle link says.
const HEARD: usize = 512;

/// So many connections give way to one at most.
pub(crate) const MAX_CUT: u32 = 8;

/// So many seconds, where 0 is no limit.
fn some_time(seconds: u32) -> Option<u32> {
    if seconds == 0 { None } else { Some(seconds) }
}

/// What a read of an idle link's end came to.
fn heard_in(moved: Moved, bytes: &[u8; HEARD]) -> Heard<'_>
    requires { IsWithin moved HEARD }
{
    let count = match moved {
        Moved::Count(count) => count,
        Moved::NotNow => return Heard::Spoke,
        Moved::Ended | Moved::Fault => return Heard::Ended,
    };
    match next_frame(&bytes[..count], 0, HEARD as u32, Side::Server) {
        Step::Whole(frame) if frame.kind == b'E' || frame.kind == b'N' => Heard::Said(frame.whole),
        _ => Heard::Spoke,
    }
}

/// The whole seconds since the clock's first reading, which this is where there was none; `None` where it can't be read.
fn second<T: Clock>(rt: &T, start: &mut Option<Instant>) -> Option<u64> {
    let now = Instant::now(rt).ok()?;
    let first = *start.get_or_insert(now);
    Some(now.duration_since(first).as_secs())
}

/// A client that comes now.
fn visit_of<R: Clock>(rt: &R, peer: Peer) -> Visit {
    let Peer { host, port } = peer;
    Visit {
        host,
        port,
        since: Instant::now(rt).ok(),
    }
}

/// A connection that is to be served, and what its thread needs for that.
struct Connection<R: PoolRuntime, F: Source, K: Ledgers> {
    rt: R,
    pool: Arc<Pool<R, F, K>>,
    word: KeyWord,
    client: TcpEnd,
    visit: Visit,
}

impl<R: PoolRuntime, F: Source, K: Ledgers> Drop for Connection<R, F, K> {
    fn drop(self) {
        let Connection {
            rt: _,
            pool: _,
            word: _,
            client: _,
            visit: _,
        } = self;
    }
}

impl<R: PoolRuntime, F: Source, K: Ledgers> Connection<R, F, K> {
    /// Serves it to its end, with what its thread keeps.
    fn attend(self, kept: &mut Option<Belongings>) {
        let Connection {
            rt,
            pool,
            word,
            client,
            visit,
        } = self;
        let kept = kept.get_or_insert(Belongings {
            poll: None,
            buffers: None,
        });
        pool.attend(rt, word, client, visit, kept);
    }
}

/// Serves one connection on a thread of its own.
fn start_worker<
    R: PoolRuntime + 'static,
    F: Source + Send + Sync + 'static,
    K: Ledgers + Send + Sync + 'static,
>(
    rt: R,
    workers: &mut Workers<Connection<R, F, K>>,
    pool: &Arc<Pool<R, F, K>>,
    word: KeyWord,
    client: TcpEnd,
    visit: Visit,
) -> Result<(), AllocError> {
    let pool = Arc::try_clone(pool)?;
    workers.start(
        rt,
        Connection {
            rt,
            pool,
            word,
            client,
            visit,
        },
        |kept: &mut Option<Belongings>, connection: Connection<R, F, K>| connection.attend(kept),
    )
}

/// Accepts connections, each served on a thread of its own: as many as `count` says, and then no more; or until the desk lets no
/// client in any more.
fn accept_all<
    R: PoolRuntime + 'static,
    F: Source + Send + Sync + 'static,
    K: Ledgers + Send + Sync + 'static,
>(
    rt: R,
    acceptor: &mut Acceptor,
    workers: &mut Workers<Connection<R, F, K>>,
    pool: &Arc<Pool<R, F, K>>,
    keys: KeySource,
    count: Option<u64>,
) {
    let mut keys = keys;
    let mut accepted: u64 = 0;
    for _ in rt.forever() {
        if count == Some(accepted) || pool.desk.is_shut() {
            return;
        }
        match acceptor.turn() {
            Turn::Client(client, peer) => {
                accepted = accepted.wrapping_add(1);
                let word = keys.next();
                let visit = visit_of(&rt, peer);
                // a thread that can't be started closes this connection alone
                if start_worker(rt, workers, pool, word, client, visit).is_err() {
                    pool.watch.cut_oldest();
                    pool.log.unserved();
                }
            }
            Turn::Nobody => {}
            Turn::Failed => {
                if !pool.watch.cut_oldest() {
                    pool.log.unserved();
                }
            }
        }
    }
}

/// What a pool has decided that no thread shares any more.
fn totals_of<R: PoolRuntime, F: Source, K: Ledgers>(
    rt: &R,
    pool: Arc<Pool<R, F, K>>,
) -> Option<Totals> {
    match Arc::try_unwrap(pool) {
        Ok(pool) => pool.close(rt),
        Err(_) => None,
    }
}

/// The key of the salts that names have, of the seed of the key words.
fn salts_key(seed: &[u8; 32]) -> [u8; 32]
    ensures { result ≡ salts_key seed.now }
{
    hmac(seed, b"salts")
}

/// The source of the clients' key words: of this seed, and of these settings' `peer_id`.
fn keys_of(seed: [u8; 32], settings: &Settings) -> KeySource
    ensures { result ≡ record { words = of_seed seed; peer = settings.now.peer_id } }
{
    KeySource::new(seed, settings.peer_id())
}

/// Serves the connections of these listeners until the last is done, as [`serve_on`] says, over these ledgers.
fn serve_all<
    R: PoolRuntime + 'static,
    F: Source + Send + Sync + 'static,
    K: Ledgers + Send + Sync + 'static,
>(
    rt: R,
    alloc: Global,
    listening: Listening,
    settings: Settings,
    users: UserTable,
    source: F,
    seed: [u8; 32],
    count: Option<u64>,
    log: PoolLog<R>,
    blanks: Blanks,
) -> io::Result<Option<Totals>>
    requires bounds { AreWithinBounds settings }
    requires names { names_of blanks ≡ K.names }
    requires parts { K.parts ≡ parts_of blanks }
    requires all { parts_of blanks ≡ of_each ALL_PARTS }
{
    let log = Arc::new(alloc, log)?;
    let Begun {
        mut acceptor,
        metrics,
    } = listening.begin(&rt, alloc, &log)?;
    let mut workers = Workers::<Connection<R, F, K>>::new(alloc)?;
    let keys = keys_of(seed, &settings);
    let idle = IdlePoll::new(&rt, alloc)?;
    let minder = idle.minder()?;
    let salts = salts_key(&seed);
    let pool = Pool::<R, F, K>::open(
        rt, alloc, settings, users, salts, source, &log, minder, blanks,
    )?;
    let pool = Arc::new(alloc, pool)?;
    pool.keeper.tell_users(&log);
    let keeper = Arc::try_clone(&pool.keeper)?;
    let deriving = thread::spawn(&rt, move || keeper.derive_keys())?;
    let pass = pool.pass(&rt).ok_or(AllocError)?;
    let shared = Arc::try_clone(&pool)?;
    let clock = thread::spawn(&rt, move || shared.run_clock(&rt, idle, pass))?;
    let scraped = Arc::try_clone(&pool)?;
    let figures = thread::spawn(&rt, move || scraped.serve_metrics(&rt, alloc, metrics))?;
    accept_all(rt, &mut acceptor, &mut workers, &pool, keys, count);
    pool.is_closed.store(true, Ordering::SeqCst);
    if pool.desk.is_shut() {
        pool.watch.cut_strangers();
    }
    // the ports are free before the last client has gone
    pool.keeper.stops_listening();
    drop(acceptor);
    figures.join(&rt);
    workers.join_all(&rt);
    pool.has_ended.store(true, Ordering::SeqCst);
    pool.keeper.end();
    deriving.join(&rt);
    clock.join(&rt);
    let totals = totals_of(&rt, pool);
    log.ended(&totals);
    Ok(totals)
}

/// Serves the connections of these listeners, each on a thread of its own, over links of one desk: as many as `count` says, and then no
/// more, or until the console ends it. It returns when the last is done, with what was decided; without it where a worker's share is
/// missing, or memory was refused then. A thread more tells the desk the seconds, and closes the links that are idle or old, and those
/// that are idle and whose servers hang up; and one writes the log to `out`. Nobody waits for that, but for a second at the end. A thread
/// whose connection is done serves a later one ([`Workers`]).
///
/// The clients' key words come of the seed and the settings' `peer_id`, which a RELOAD doesn't change; the key of the salts that names
/// have for SCRAM comes of the seed alone. One thread more derives what SCRAM makes of the users' passwords.
///
/// A connection for which there is no thread, no poll, no pass or no memory is closed, and the others go on. The error is that the
/// system has no poll for the listeners or for the idle links, or no thread for the clock or the log, or that an allocation failed
/// before the first connection.
pub fn serve_on<
    R: PoolRuntime + 'static,
    F: Source + Send + Sync + 'static,
    W: Write + Drop + Send + 'static,
>(
    rt: R,
    alloc: Global,
    listening: Listening,
    settings: Settings,
    users: UserTable,
    source: F,
    out: W,
    seed: [u8; 32],
    count: Option<u64>,
) -> io::Result<Option<Totals>>
    requires { AreWithinBounds settings }
{
    let (log, writing) = begin(rt, alloc, out)?;
    let served = serve_all::<R, F, Brand>(
        rt,
        alloc,
        listening,
        settings,
        users,
        source,
        seed,
        count,
        PoolLog::new(rt, alloc, log),
        Blanks::new(),
    );
    writing.close(&rt);
    served
}
