//! The settings and users of later clients, which a RELOAD changes.
ghost use Rattle.std.specs.Prelude.{◌≡◌, IfOk};
ghost use Rattle.std.specs.Arc.{arc_value};
ghost use Rattle.book_model.specs.Limits.{limits_in};
ghost use Rattle.ini_config.specs.Bounds.{AreWithinBounds};
ghost use Rattle.pool_run.specs.Logins.{IsNewLogin};
ghost use Rattle.pool_run.specs.Telling as spec;

use crate::log::PoolLog;
use crate::staying::{of_clients, of_listeners};
use book_model::limits::Limits;
use book_model::settings::limits_of;
use ini_config::{AuthType, Settings};
use keep_alive::Keepalive;
use link_desk::answers::Changed;
use log_lines::notes::Note;
use login_core::Login;
use message_view::{KeyWord, Refusal};
use std::alloc::{AllocError, Global};
use std::marker::Model;
use std::rt::Clock;
use std::sync::{Arc, Condvar, Mutex, MutexGuard, Wait};
use user_file::{UserTable, Users};

/// Why files aren't read again.
#[derive(Drop)]
pub enum ReloadError {
    /// A file's fault, as it is logged.
    Fault(String),
    /// No memory was left.
    Memory,
}

impl From<AllocError> for ReloadError {
    fn from(_error: AllocError) -> ReloadError {
        ReloadError::Memory
    }
}

/// Where the files of settings and users are.
pub trait Source: Drop {
    /// What both say now: settings within their bounds, and users.
    fn read(&self) -> Result<(Settings, UserTable), ReloadError>
        ensures { IfOk result (λ read. AreWithinBounds read.0) };

    /// The pool is about to listen no more.
    fn stops_listening(&self) {}
}

/// How connections are kept alive, where the settings say that they are.
pub(crate) fn keepalive_of(settings: &Settings) -> Option<Keepalive>
    ensures { result ≡ spec.keepalive_of settings.now }
{
    if !settings.tcp_keepalive() {
        return None;
    }
    Some(Keepalive {
        idle: settings.tcp_keepidle(),
        interval: settings.tcp_keepintvl(),
        count: settings.tcp_keepcnt(),
        user_timeout: settings.tcp_user_timeout(),
    })
}

/// Settings within their bounds, which are shared.
#[derive(Drop)]
struct Bounded {
    settings: Arc<Settings>,
}

impl Model for Bounded {
    ghost use Rattle.std.specs.Arc.{arc_value};
    ghost use Rattle.ini_config.specs.Bounds.{AreWithinBounds};
    ghost use Rattle.ini_config.specs.declared.option_values.Settings.{Settings as SettingsOf};

    ghost Value = { SettingsOf };

    ghost view = { λ b. arc_value b.settings };

    ghost invariant = { λ b. AreWithinBounds (arc_value b.settings) };
}

impl Bounded {
    fn new(alloc: Global, settings: Settings) -> Result<Bounded, AllocError>
        requires { AreWithinBounds settings }
        ensures { IfOk result (λ b. b ≡ settings) }
    {
        Ok(Bounded {
            settings: Arc::new(alloc, settings)?,
        })
    }

    fn share(&self) -> Result<Arc<Settings>, AllocError>
        ensures { IfOk result (λ s. AreWithinBounds (arc_value s)) }
    {
        Arc::try_clone(&self.settings)
    }

    /// Whether such a note is logged.
    fn tells(&self, note: &Note<'_>) -> bool
        ensures { result ≡ spec.is_logged self.now note.now }
    {
        match note {
            Note::LoggedIn | Note::Lent(..) => self.settings.log_connections(),
            Note::Closed => self.settings.log_disconnections(),
            _ => true,
        }
    }
}

/// What is there for a client: its login, and the settings and users that this goes by.
#[derive(Drop)]
pub(crate) struct Arrival {
    pub(crate) login: Login,
    pub(crate) settings: Arc<Settings>,
    pub(crate) users: Arc<Users>,
}

/// The settings and users of later clients.
#[derive(Drop)]
struct InForce {
    settings: Bounded,
    users: Arc<Users>,
    /// How often they were read again.
    reloads: u64,
    has_ended: bool,
}

impl InForce {
    fn new(
        alloc: Global,
        settings: Settings,
        users: Users,
        reloads: u64,
    ) -> Result<InForce, AllocError>
        requires { AreWithinBounds settings }
        ensures { IfOk result (λ k. k.settings ≡ settings) }
    {
        Ok(InForce {
            settings: Bounded::new(alloc, settings)?,
            users: Arc::new(alloc, users)?,
            reloads,
            has_ended: false,
        })
    }

    /// Whether clients are asked for SCRAM by their names alone, and not all users' keys are derived.
    fn wants_keys(&self) -> bool {
        self.settings.settings.auth_type() == AuthType::ScramSha256 && !self.users.is_derived()
    }
}

/// The users that keys are to be derived of, and at which reload they were read.
struct Underived {
    users: Arc<Users>,
    reloads: u64,
}

impl Drop for Underived {
    fn drop(self) {
        let Underived {
            users: _,
            reloads: _,
        } = self;
    }
}

/// The limits of these settings, which are shared.
fn shared_limits(alloc: Global, settings: &Settings) -> Result<Arc<Limits>, AllocError>
    requires { AreWithinBounds settings.now }
    ensures { IfOk result (λ l. arc_value l ≡ limits_in settings.now) }
{
    Ok(Arc::new(alloc, limits_of(alloc, settings)?)?)
}

/// What the files said when they were read again: the settings' limits, and what is to hold for later clients.
#[derive(Drop)]
struct Reread {
    limits: Arc<Limits>,
    kept: InForce,
}

/// The settings and users of later clients, behind a lock under which no other is taken, and where they are read again.
pub struct Keeper<R, F: Source> {
    rt: R,
    alloc: Global,
    kept: Mutex<InForce>,
    /// What was read again, until the book's answer to its limits is known. This lock is taken before that of what is kept.
    unsettled: Mutex<Option<InForce>>,
    /// Nothing is unsettled any more.
    settled: Condvar,
    /// The settings of the start.
    at_start: Arc<Settings>,
    /// Other settings and users came, or the pool has ended.
    changed: Condvar,
    /// The key of the salts that names have, as long as the program runs.
    salts: [u8; 32],
    source: F,
}

impl<R: Drop, F: Source> Drop for Keeper<R, F> {
    fn drop(self) {
        let Keeper {
            rt: _,
            alloc: _,
            kept: _,
            unsettled: _,
            settled: _,
            at_start: _,
            changed: _,
            salts: _,
            source: _,
        } = self;
    }
}

impl<R: Drop, F: Source> Keeper<R, F> {
    /// Keeps these, and the users under this key of their salts, as all that are read later. The only error is that an allocation failed.
    pub fn new(
        rt: R,
        alloc: Global,
        settings: Settings,
        users: UserTable,
        salts: [u8; 32],
        source: F,
    ) -> Result<Keeper<R, F>, AllocError>
        requires { AreWithinBounds settings }
    {
        let kept = InForce::new(alloc, settings, Users::new(users, salts), 0)?;
        let at_start = kept.settings.share()?;
        Ok(Keeper {
            rt,
            alloc,
            kept: Mutex::new(kept),
            unsettled: Mutex::new(None),
            settled: Condvar::new(),
            at_start,
            changed: Condvar::new(),
            salts,
            source,
        })
    }
}

impl<R: Wait, F: Source> Keeper<R, F> {
    /// The settings and users of a client that comes now.
    pub fn share(&self) -> Result<(Arc<Settings>, Arc<Users>), AllocError>
        ensures { IfOk result (λ p. AreWithinBounds (arc_value p.0)) }
    {
        let kept = self.kept.lock(&self.rt);
        Ok((kept.settings.share()?, Arc::try_clone(&kept.users)?))
    }

    /// What is there for a client that comes now, with this key word. The only error is that an allocation failed.
    pub(crate) fn arrival(&self, word: KeyWord) -> Result<Arrival, AllocError>
        ensures { IfOk result (λ a. IsNewLogin word a.login) }
    {
        let (settings, users) = self.share()?;
        Ok(Arrival {
            settings: Arc::try_clone(&settings)?,
            users: Arc::try_clone(&users)?,
            login: Login::new(self.alloc, settings, users, word)?,
        })
    }

    /// Of how many seconds the log's figures are, and whether it is told of them.
    pub(crate) fn stats(&self) -> (u32, bool) {
        let kept = self.kept.lock(&self.rt);
        let settings = &kept.settings.settings;
        (settings.stats_period(), settings.log_stats())
    }

    /// Whether such a note is logged, by the settings of later clients.
    pub(crate) fn tells(&self, note: &Note<'_>) -> bool {
        self.kept.lock(&self.rt).settings.tells(note)
    }

    /// How a connection that is made now is kept alive, if it is.
    pub(crate) fn keepalive(&self) -> Option<Keepalive> {
        keepalive_of(&self.kept.lock(&self.rt).settings.settings)
    }

    /// The pool is about to listen no more.
    pub(crate) fn stops_listening(&self) {
        self.source.stops_listening();
    }

    /// Reads the files again. What was derived of a password is kept where it is still the user's. The error is that a file has a fault, or
    /// that an allocation failed.
    fn read(&self) -> Result<Reread, ReloadError>
        ensures { IfOk result (λ r. arc_value r.limits ≡ limits_in r.kept.settings) }
    {
        let (settings, table) = self.source.read()?;
        let limits = shared_limits(self.alloc, &settings)?;
        let users = Users::new(table, self.salts);
        let earlier = self.underived()?;
        let kept = InForce::new(self.alloc, settings, users, earlier.reloads.wrapping_add(1))?;
        if kept.wants_keys() {
            kept.users.take_over(self.alloc, &earlier.users);
        }
        Ok(Reread { limits, kept })
    }

    /// Waits until nothing is unsettled that was read before.
    fn wait_settled(&self) -> MutexGuard<'_, Option<InForce>> {
        let mut unsettled = self.unsettled.lock(&self.rt);
        for _ in self.rt.forever() {
            if unsettled.is_none() {
                return unsettled;
            }
            unsettled = self.settled.wait(&self.rt, unsettled);
        }
        unreachable!()
    }

    /// Reads the files again, once nothing is unsettled that was read before; the limits of the settings. Where they can't be read nothing
    /// is unsettled.
    fn read_in_turn(&self) -> Result<Arc<Limits>, ReloadError> {
        let mut unsettled = self.wait_settled();
        let Reread { limits, kept } = self.read()?;
        *unsettled = Some(kept);
        Ok(limits)
    }

    /// This holds for later clients from now on.
    fn put_in_force(&self, read: InForce) {
        *self.kept.lock(&self.rt) = read;
        self.changed.notify_all();
    }

    /// The users of later clients.
    fn underived(&self) -> Result<Underived, AllocError> {
        let kept = self.kept.lock(&self.rt);
        Ok(Underived {
            users: Arc::try_clone(&kept.users)?,
            reloads: kept.reloads,
        })
    }

    /// The pool has ended.
    pub(crate) fn end(&self) {
        self.kept.lock(&self.rt).has_ended = true;
        self.changed.notify_all();
    }

    /// Waits for users whose keys aren't derived yet, and who weren't read at this reload, which was gone through. None once the pool has
    /// ended.
    fn next_underived(&self, done: Option<u64>) -> Option<Underived> {
        let mut kept = self.kept.lock(&self.rt);
        for _ in self.rt.forever() {
            if kept.has_ended {
                return None;
            }
            if kept.wants_keys() && done != Some(kept.reloads) {
                return Some(Underived {
                    users: Arc::try_clone(&kept.users).ok()?,
                    reloads: kept.reloads,
                });
            }
            kept = self.changed.wait(&self.rt, kept);
        }
        unreachable!()
    }

    /// Whether these users are still those of later clients.
    fn are_current(&self, underived: &Underived) -> bool {
        let kept = self.kept.lock(&self.rt);
        kept.reloads == underived.reloads && !kept.has_ended
    }

    /// Derives the users' keys, one after the other, as long as later clients have these users.
    fn derive(&self, underived: &Underived) {
        for place in 0..underived.users.len() {
            if !self.are_current(underived) {
                return;
            }
            underived.users.derive(self.alloc, place);
        }
        underived.users.look_derived();
    }

    /// Derives the keys of users who are asked for SCRAM, at the start and behind each reload, until the pool has ended: so no client waits
    /// for its own, and how long one waits tells nobody which names there are.
    pub(crate) fn derive_keys(&self) {
        let mut done = None;
        for _ in self.rt.forever() {
            let Some(underived) = self.next_underived(done) else {
                return;
            };
            self.derive(&underived);
            done = Some(underived.reloads);
        }
    }
}

impl<R: Wait + Clock, F: Source> Keeper<R, F> {
    /// Reads the files again, once what was read before is settled; the limits of the settings. Nothing of what was read holds before it is
    /// settled. `None` where a file has a fault or an allocation fails, which is logged; nothing is to be settled then.
    pub fn reload(&self, log: &PoolLog<R>) -> Option<Arc<Limits>> {
        match self.read_in_turn() {
            Ok(limits) => Some(limits),
            Err(ReloadError::Fault(fault)) => {
                log.not_reloaded(fault.as_bytes());
                None
            }
            Err(ReloadError::Memory) => {
                log.not_reloaded(b"memory");
                None
            }
        }
    }

    /// So the book answered to the limits that were read. Where it keeps them, all that was read holds for later clients from now on, and
    /// the log says so; else it is forgotten.
    pub fn settle(&self, log: &PoolLog<R>, changed: Changed) {
        let mut unsettled = self.unsettled.lock(&self.rt);
        match (unsettled.take(), changed) {
            (Some(read), Changed::Done) => {
                self.put_in_force(read);
                self.tell_reloaded(log);
            }
            (Some(_), Changed::Last) => log.not_reloaded(Refusal::LastDecision.code()),
            (None, _) => {}
        }
        // all, since one that then reads in vain wakes no other
        self.settled.notify_all();
    }

    /// Logs that the files were read again, and what of them isn't as they say.
    fn tell_reloaded(&self, log: &PoolLog<R>) {
        log.reloaded();
        self.tell_users(log);
        self.tell_staying(log);
    }

    /// Logs secrets by which no later client can log in.
    pub(crate) fn tell_users(&self, log: &PoolLog<R>) {
        if let Ok((settings, users)) = self.share() {
            log.users(settings.auth_type(), &users);
        }
    }

    /// Logs settings that the files say anew, and that are as they were at the start.
    fn tell_staying(&self, log: &PoolLog<R>) {
        let Ok((settings, _)) = self.share() else {
            return;
        };
        for (setting, has_changed) in of_listeners(&self.at_start, &settings) {
            if has_changed {
                log.as_at_start(setting);
            }
        }
        for (setting, has_changed) in of_clients(&self.at_start, &settings) {
            if has_changed {
                log.as_at_start(setting);
            }
        }
    }
}
