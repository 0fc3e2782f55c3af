//! The connections of those who ask for metrics.

use crate::exchange::Exchange;
use mio::net::{TcpListener, TcpStream};
use mio::{Events, Interest, Poll, Token};
use std::alloc::Global;
use std::io;
use std::net::Net;
use std::rt::Clock;
use std::sync::Wait;
use time_limits::METRICS_TURN;

/// So many connections are served at once. Others wait until one of them is done, which takes at most [`METRICS_EXCHANGE`].
const MAX_AT_ONCE: usize = 4;

/// Who asks some listeners for metrics. Four connections are served at a time, and each for at most [`METRICS_EXCHANGE`], whatever the
/// other side does; one for which there is no memory is closed.
#[derive(Drop)]
pub struct MetricsServer {
    alloc: Global,
    listeners: Vec<TcpListener>,
    /// The listener that is looked at first.
    next: usize,
    /// All are addresses of this machine alone.
    is_local: bool,
    places: Vec<Option<Exchange>>,
    poll: Poll,
    events: Events<Global>,
}

impl MetricsServer {
    /// Nobody has asked yet. At listeners of this machine alone (`is_local`) a request that names another host is refused. The error is that
    /// the system has no more polls, or that an allocation failed.
    pub fn new<R: Net>(
        rt: &R,
        alloc: Global,
        listeners: Vec<TcpListener>,
        is_local: bool,
    ) -> io::Result<MetricsServer> {
        let poll = Poll::new(rt)?;
        let mut listeners = listeners;
        for listener in listeners.iter_mut() {
            poll.registry()
                .register(listener, Token(MAX_AT_ONCE), Interest::READABLE)?;
        }
        let mut places = Vec::new(alloc);
        for _ in 0..MAX_AT_ONCE {
            places.push(None)?;
        }
        Ok(MetricsServer {
            alloc,
            listeners,
            next: 0,
            is_local,
            places,
            poll,
            events: Events::with_capacity(alloc, MAX_AT_ONCE + 1)?,
        })
    }

    /// The next connection, of any listener.
    fn accept(&mut self) -> Option<TcpStream> {
        let count = self.listeners.len();
        for turn in 0..count {
            let place = self.next.wrapping_add(turn) % count;
            let Some(listener) = self.listeners.get(place) else {
                return None;
            };
            if let Ok((stream, _)) = listener.accept() {
                self.next = place.saturating_add(1);
                return Some(stream);
            }
        }
        None
    }

    /// Takes the connections that wait, where there are places for them.
    fn fill<R: Clock>(&mut self, rt: &R) {
        for place in 0..MAX_AT_ONCE {
            if !matches!(self.places.get(place), Some(None)) {
                continue;
            }
            let Some(stream) = self.accept() else {
                return;
            };
            let taken = Exchange::new(rt, self.alloc, &self.poll, stream, Token(place));
            if let Some(free) = self.places.get_mut(place) {
                *free = taken.ok();
            }
        }
    }

    /// Goes on with each connection as far as it can at this time. Whether one was done, so that there is a place for another.
    fn go_on<R: Clock>(&mut self, rt: &R) -> bool {
        let alloc = self.alloc;
        let is_local = self.is_local;
        let mut has_place = false;
        for place in self.places.iter_mut() {
            let Some(exchange) = place else {
                continue;
            };
            if exchange.is_done(rt, alloc, is_local) {
                *place = None;
                has_place = true;
            }
        }
        has_place
    }

    /// Whether one asks for the metrics, and hasn't been answered.
    fn has_due(&self) -> bool {
        for place in self.places.iter() {
            if let Some(exchange) = place {
                if exchange.is_due() {
                    return true;
                }
            }
        }
        false
    }

    /// Waits for an event. That the poll can't is as if none came: all is tried again at each turn.
    fn wait(&mut self) {
        let _ = self
            .poll
            .poll(&mut self.events, Some(METRICS_TURN.duration()));
    }

    /// Takes who has come, and goes on with each as far as it can at this time; where nothing was done, it then waits for at most
    /// [`METRICS_TURN`]. Whether one asks for the metrics, who is answered by [`MetricsServer::answer`].
    pub fn is_asked<R: Wait + Clock>(&mut self, rt: &R) -> bool {
        self.fill(rt);
        let has_place = self.go_on(rt);
        let is_asked = self.has_due();
        if !has_place && !is_asked {
            self.wait();
        }
        is_asked
    }

    /// Answers all who ask for the metrics by this text of them; where there is none (503), that they can't be had at this time.
    pub fn answer(&mut self, text: Option<&[u8]>) {
        let alloc = self.alloc;
        for place in self.places.iter_mut() {
            let Some(exchange) = place else {
                continue;
            };
            if exchange.is_due() && exchange.answer(alloc, text).is_err() {
                *place = None;
            }
        }
    }
}
