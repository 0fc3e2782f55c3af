//! The pool's log, as its threads write to it. No contract says what is logged; tests/program/console.py shows it.

use crate::surroundings::is_short_of_files;
use ini_config::AuthType;
use log_lines::events::{Event, Heard, Rates, Totals};
use log_lines::notes::{Client, Note};
use log_writer::limiter::Limiter;
use log_writer::log::Log;
use pool_figures::figures::Figures;
use pool_serve::secrets::uselessness;
use std::alloc::Global;
use std::io;
use std::rt::Clock;
use std::sync::atomic::{AtomicBool, Ordering};
use std::sync::{Arc, Mutex, Wait};
use std::time::Instant;
use user_file::Users;

/// A log, and the connections that weren't served since it was told of some.
pub struct PoolLog<R> {
    rt: R,
    alloc: Global,
    log: Arc<Log>,
    unserved: Mutex<Limiter>,
    late: Mutex<Limiter>,
    /// The clock could be read when it was tried last.
    has_clock: AtomicBool,
}

impl<R: Drop> Drop for PoolLog<R> {
    fn drop(self) {
        let PoolLog {
            rt: _,
            alloc: _,
            log: _,
            unserved: _,
            late: _,
            has_clock: _,
        } = self;
    }
}

impl<R> PoolLog<R> {
    pub fn new(rt: R, alloc: Global, log: Arc<Log>) -> PoolLog<R> {
        PoolLog {
            rt,
            alloc,
            log,
            unserved: Mutex::new(Limiter::new()),
            late: Mutex::new(Limiter::new()),
            has_clock: AtomicBool::new(true),
        }
    }
}

/// What went through in so many seconds, as it is told.
fn rates_of(figures: Figures, seconds: u64) -> Rates {
    let [
        transactions,
        queries,
        received,
        sent,
        transaction_time,
        query_time,
        wait_time,
    ] = figures.averages(seconds);
    Rates {
        transactions,
        queries,
        received,
        sent,
        transaction_time,
        query_time,
        wait_time,
    }
}

impl<R: Wait + Clock> PoolLog<R> {
    /// So many milliseconds have passed since then; `None` where the clock can't be read.
    fn age(&self, since: Option<Instant>) -> Option<u64> {
        let passed = since?.elapsed(&self.rt).ok()?;
        u64::try_from(passed.as_millis()).ok()
    }

    /// Tells of a client.
    pub(crate) fn note(&self, client: &Client<'_>, note: &Note<'_>) {
        let age = self.age(client.visit.since);
        self.log.note(&self.rt, self.alloc, client, *note, age);
    }

    fn event(&self, event: Event<'_>) {
        self.log.event(&self.rt, self.alloc, event);
    }

    /// The pool listens at this address or folder, and port.
    pub(crate) fn listening(&self, host: &[u8], port: u16) {
        self.event(Event::Listening(host, port));
    }

    /// It doesn't listen there, because of this.
    pub(crate) fn not_listening(&self, host: &[u8], port: u16, why: &io::Error) {
        if let Ok(text) = format!(in self.alloc; "{why}") {
            self.event(Event::NotListening(host, port, text.as_bytes()));
        }
    }

    /// A server couldn't be reached, because of this, which may be that no file is left here.
    pub(crate) fn unreached(&self, host: &[u8], port: u16, why: &io::Error) {
        let Ok(text) = format!(in self.alloc; "{why}") else {
            return;
        };
        let text = text.as_bytes();
        if is_short_of_files(why) {
            self.event(Event::NoFile(host, port, text));
        } else {
            self.event(Event::Unreached(host, port, text));
        }
    }

    /// An idle link was closed, to what came from its server.
    pub(crate) fn idle_closed(&self, number: u64, heard: Heard<'_>) {
        self.event(Event::IdleClosed(number, heard));
    }

    /// The files were read again, and hold for later clients.
    pub(crate) fn reloaded(&self) {
        self.event(Event::Reloaded);
    }

    /// These are the users of later clients, who are asked so: tells of secrets by which nobody can log in.
    pub(crate) fn users(&self, auth_type: AuthType, users: &Users) {
        let mut count = 0u64;
        let mut first: &[u8] = b"";
        for place in 0..users.len() {
            match users.at(place) {
                Some(user) if uselessness(auth_type, &user.secret).is_some() => {
                    if count == 0 {
                        first = user.name.as_bytes();
                    }
                    count = count.saturating_add(1);
                }
                _ => {}
            }
        }
        if count > 0 {
            self.event(Event::NoPasswords(count, first));
        }
    }

    /// The files say this setting anew, which is as it was at the start.
    pub(crate) fn as_at_start(&self, setting: &[u8]) {
        self.event(Event::AsAtStart(setting));
    }

    /// What the files say doesn't hold, because of this.
    pub(crate) fn not_reloaded(&self, why: &[u8]) {
        self.event(Event::NotReloaded(why));
    }

    /// A connection can't be served, or had. It is told with the next second.
    pub(crate) fn unserved(&self) {
        self.unserved.lock(&self.rt).add();
    }

    /// A connection was closed whose client hadn't said in time who it is. It is told with the next second.
    pub(crate) fn late(&self) {
        self.late.lock(&self.rt).add();
    }

    /// Whether the clock can be read now; where it can't be any more, that is told.
    pub(crate) fn clock(&self, is_read: bool) {
        if self.has_clock.swap(is_read, Ordering::SeqCst) && !is_read {
            self.event(Event::NoClock);
        }
    }

    /// The clock has reached this second: tells of connections that weren't served, and of those that were late.
    pub(crate) fn tell_unserved(&self, second: u64) {
        let due = self.unserved.lock(&self.rt).due(second);
        if let Some(count) = due {
            self.event(Event::Wanting(count));
        }
        let due = self.late.lock(&self.rt).due(second);
        if let Some(count) = due {
            self.event(Event::Late(count));
        }
    }

    /// So much went through the pool in a period of so many seconds.
    pub(crate) fn figures(&self, figures: Figures, period: u32) {
        self.event(Event::Stats(rates_of(figures, period as u64)));
    }

    /// The pool's figures are had at this address and port.
    pub(crate) fn listening_for_metrics(&self, host: &[u8], port: u16) {
        self.event(Event::ListeningForMetrics(host, port));
    }

    /// They aren't had there, because of this.
    pub(crate) fn not_listening_for_metrics(&self, host: &[u8], port: u16, why: &io::Error) {
        if let Ok(text) = format!(in self.alloc; "{why}") {
            self.event(Event::NotListeningForMetrics(host, port, text.as_bytes()));
        }
    }

    /// The pool has ended, with these totals if they are known.
    pub(crate) fn ended(&self, totals: &Option<Totals>) {
        self.tell_unserved(u64::MAX);
        if let Some(totals) = totals {
            self.event(Event::Ended(*totals));
        }
    }
}
