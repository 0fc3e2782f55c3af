//! What a pool's desk reaches outside: servers, the files, the log.
ghost use Rattle.std.specs.Prelude.{◌≡◌, [], ◌∷◌, All, IfOk, IfSome, MatchOption, Some, false};
ghost use Rattle.pool_run.specs.Reaching.{IsCancelOf, request_of};
ghost use Rattle.tcp_end.specs.Connections.{new_connection};
ghost use Rattle.tcp_reach.specs.Places.{IsPlaceOf};
ghost use Rattle.tcp_reach.specs.Streams.{own_place};

use crate::keeping::{Keeper, Source};
use crate::log::PoolLog;
use crate::places::Places;
use crate::pool::MAX_CUT;
use crate::runtime::PoolRuntime;
use book_model::limits::Limits;
use bytes::BytesMut;
use credentials::Credential;
use keep_alive::Keepalive;
use link_desk::answers::{Changed, Strike};
use log_lines::notes::{Client, Note};
use message_view::put_cancel_request;
use pool_desk::outside::Outside;
use pool_watch::watch::Watch;
use start_keys::StartKey;
use std::alloc::{AllocError, Global};
use std::net::{self, Net};
use std::rt::Clock;
use std::sync::{Arc, Mutex, Wait};
use std::thread::Threads;
use std::{io, thread};
use tcp_end::connection::TcpEnd;
use tcp_end::dial::dial;
use tcp_end::idle::Minder;
use tcp_reach::message::send_to_hosts;
use tcp_reach::places::Place;
use tcp_reach::stream::Sent;
use time_limits::{CANCEL_SECONDS, GIVING_WAY};

/// The CancelRequest for the session of a link's server. The only error is that an allocation failed.
fn request_of(alloc: Global, strike: &Strike) -> Result<BytesMut, AllocError>
    ensures { IfOk result (λ b. b.items ≡ request_of strike.now) }
{
    let mut request = BytesMut::new(alloc);
    put_cancel_request(&mut request, strike.server.pid, strike.server.secret)?;
    Ok(request)
}

/// Sends a cancel where its link leads, if that is a place of its row; else, as where it isn't remembered, to each place of its host.
fn send<R: Net>(
    rt: &R,
    alloc: Global,
    known: Option<Place>,
    strike: &Strike,
) -> io::Result<Vec<Sent>>
    ensures own { IfOk result (λ v. All (IsCancelOf strike.now) v.items) }
    ensures known { IfOk result (λ v. IfSome (own_place known strike.now.host strike.now.port) (λ p. v.items ≡ record { place = p; sent = request_of strike.now } ∷ [])) }
{
    let request = request_of(alloc, strike)?;
    send_to_hosts(
        rt,
        alloc,
        known,
        strike.host.as_bytes(),
        strike.port,
        request.as_slice(),
        CANCEL_SECONDS,
    )
}

/// Whether the system has no file left: for this process (24, EMFILE), or for all (23, ENFILE).
pub(crate) fn is_short_of_files(error: &io::Error) -> bool {
    matches!(error.raw_os_error(), Some(23 | 24))
}

/// Reaches a key's server at its host and port, the files where they are kept, and the log.
pub struct Surroundings<R: PoolRuntime, F: Source> {
    pub(crate) rt: R,
    pub(crate) alloc: Global,
    pub(crate) keeper: Arc<Keeper<R, F>>,
    pub(crate) log: Arc<PoolLog<R>>,
    pub(crate) places: Mutex<Places>,
    pub(crate) minder: Minder,
    pub(crate) watch: Arc<Watch<R>>,
}

impl<R: PoolRuntime, F: Source> Drop for Surroundings<R, F> {
    fn drop(self) {
        let Surroundings {
            rt: _,
            alloc: _,
            keeper: _,
            log: _,
            places: _,
            minder: _,
            watch: _,
        } = self;
    }
}

/// A connection to a server. Where the system has no file left for it, the oldest connection whose client hasn't said who it is gives
/// way.
fn reach<R: Threads + Wait + Clock + Net<Listener = net::TcpListener, Stream = net::TcpStream>>(
    rt: &R,
    alloc: Global,
    host: &[u8],
    port: u16,
    number: u64,
    seconds: u32,
    keepalive: &Option<Keepalive>,
    watch: &Watch<R>,
) -> io::Result<(TcpEnd, Place)>
    ensures { IfOk result (λ p. (p.0 ≡ new_connection (Some p.1)) × IsPlaceOf host.now port p.1) }
{
    for _ in 0..MAX_CUT {
        match dial(rt, alloc, host, port, number, seconds, keepalive) {
            Err(error) if is_short_of_files(&error) && watch.cut_oldest() => {
                thread::sleep(rt, GIVING_WAY.duration())
            }
            reached => return reached,
        }
    }
    dial(rt, alloc, host, port, number, seconds, keepalive)
}

impl<R: PoolRuntime, F: Source> Outside for Surroundings<R, F> {
    ghost use Rattle.link_desk.specs.Homes.{IsDialled, unknown_home};
    ghost use Rattle.pool_run.specs.Reaching.{IsReached};
    ghost use Rattle.session_values.specs.State.{address_of};
    ghost use Rattle.tcp_end.specs.Connections.{standing_of};

    type End = TcpEnd;

    ghost home = { unknown_home };

    fn dial(
        &self,
        number: u64,
        key: &StartKey,
        _credential: &Credential<'_>,
        seconds: u32,
    ) -> Option<TcpEnd>
        ensures dialled { MatchOption result (unknown_home.reaches (address_of key.now) ≡ false) (λ e. IsDialled unknown_home key.now _credential.now (standing_of e)) }
        ensures reached { IfSome result (λ e. IsReached key.now e) }
    {
        let Some(host) = &key.host else {
            return None;
        };
        let keepalive = self.keeper.keepalive();
        match reach(
            &self.rt,
            self.alloc,
            host.as_bytes(),
            key.port,
            number,
            seconds,
            &keepalive,
            &self.watch,
        ) {
            Ok((end, place)) => {
                // one that isn't remembered is looked for again where it is to be cancelled
                let _ = self.places.lock(&self.rt).put(number, place);
                Some(end)
            }
            Err(error) => {
                self.log.unreached(host.as_bytes(), key.port, &error);
                None
            }
        }
    }

    fn mind(&self, number: u64, end: &mut TcpEnd) {
        end.mind(&self.minder, number);
    }

    fn release(&self, end: &mut TcpEnd) {
        end.release(&self.minder);
    }

    fn strike(&self, strike: &Strike) {
        let known = self.places.lock(&self.rt).of(strike.link);
        // whether the server took it nobody is told: the link isn't lent again in any case
        let _ = send(&self.rt, self.alloc, known, strike);
    }

    fn reload(&self) -> Option<Arc<Limits>> {
        self.keeper.reload(&self.log)
    }

    fn settle(&self, changed: Changed) {
        self.keeper.settle(&self.log, changed);
    }

    fn note(&self, client: &Client<'_>, note: &Note<'_>) {
        if self.keeper.tells(note) {
            self.log.note(client, note);
        }
    }
}
