//! The connection to a server.
ghost use Rattle.std.specs.Prelude.{◌≡◌, ◌==◌, Contains, IfOk, if◌then◌else◌};
ghost use Rattle.tcp_reach.specs.Places.{IsPlaceOf};
ghost use Rattle.tcp_reach.specs.Streams.{new_stream};
ghost use Rattle.time_limits.specs.declared.TheConstants.{CONNECT_SECONDS};

use crate::places::{Address, Place, places_of};
use crate::stream::{Connecting, Stream};
use keep_alive::Keepalive;
use mio::{Events, Interest, Poll};
use std::alloc::Global;
use std::io;
use std::io::ErrorKind;
use std::net::Net;
use time_limits::{CONNECT_SECONDS, LOOK, LOOKS_A_SECOND, UNIX_SECONDS};

/// The time that is left for a connection: so many looks, each of at most [`LOOK`].
#[derive(Drop)]
struct Left {
    poll: Poll,
    events: Events<Global>,
    looks: u64,
}

impl Left {
    fn new<R: Net>(rt: &R, alloc: Global, seconds: u32) -> io::Result<Left> {
        Ok(Left {
            poll: Poll::new(rt)?,
            events: Events::with_capacity(alloc, 1)?,
            looks: seconds as u64 * LOOKS_A_SECOND,
        })
    }

    /// Waits for an event, for one look.
    fn look(&mut self) -> io::Result<()> {
        self.looks = self.looks.saturating_sub(1);
        self.poll.poll(&mut self.events, Some(LOOK.duration()))
    }

    /// Waits until the stream is connected, for at most so many looks.
    fn wait_for(&mut self, stream: &mut Stream, looks: u64) -> io::Result<()>
        ensures { stream.new ≡ stream.old }
    {
        stream.register(&self.poll, Interest::WRITABLE)?;
        for _ in 0..looks {
            self.look()?;
            match stream.progress() {
                Connecting::Connected => return Ok(()),
                Connecting::Failed(error) => return Err(error),
                Connecting::Underway => {}
            }
        }
        Err(io::Error::from(ErrorKind::TimedOut))
    }

    /// A stream to this place once it is connected, in at most so many looks.
    fn connect<R: Net>(
        &mut self,
        rt: &R,
        alloc: Global,
        place: &Place,
        looks: u64,
    ) -> io::Result<Stream>
        ensures { IfOk result (λ s. s ≡ new_stream place.now) }
    {
        if let Address::Ip(_) = place.address() {
            let mut stream = Stream::to(rt, alloc, place)?;
            self.wait_for(&mut stream, looks)?;
            return Ok(stream);
        }
        // a Unix socket is connected at once, or its listener has no room at the time
        for _ in 0..looks {
            match Stream::to(rt, alloc, place) {
                Err(error) if error.kind() == ErrorKind::WouldBlock => self.look()?,
                other => return other,
            }
        }
        Err(io::Error::from(ErrorKind::TimedOut))
    }
}

/// A stream to this place, once it is connected; an error where it can't be had, or not in so many seconds: of a Unix socket, not in one.
pub(crate) fn connect<R: Net>(
    rt: &R,
    alloc: Global,
    place: &Place,
    seconds: u32,
) -> io::Result<Stream>
    ensures { IfOk result (λ s. s ≡ new_stream place.now) }
{
    let seconds = match place.address() {
        Address::Ip(_) => seconds,
        Address::Unix => seconds.min(UNIX_SECONDS),
    };
    let mut left = Left::new(rt, alloc, seconds)?;
    let looks = left.looks;
    left.connect(rt, alloc, place, looks)
}

/// Whether somebody listens at this place: a connection to it can be had, and is closed at once, or isn't had in a second. The error
/// says that this can't be told.
pub fn is_listened_at<R: Net>(rt: &R, alloc: Global, place: &Place) -> io::Result<bool> {
    match connect(rt, alloc, place, UNIX_SECONDS) {
        Ok(_) => Ok(true),
        Err(error) => match error.kind() {
            ErrorKind::TimedOut => Ok(true),
            ErrorKind::ConnectionRefused => Ok(false),
            _ => Err(error),
        },
    }
}

/// A stream to the first of these places that can be had, from the one at this turn on. Each that is still to be
/// tried has an equal share of the seconds that are left. The error is the last place's.
fn connect_any<R: Net>(
    rt: &R,
    alloc: Global,
    places: &[Place],
    turn: u64,
    seconds: u32,
) -> io::Result<Stream>
    ensures { IfOk result (λ s. (s ≡ new_stream s.place) × Contains places.now s.place) }
{
    let mut left = Left::new(rt, alloc, seconds)?;
    let count = places.len();
    let mut last = io::Error::from(ErrorKind::NotFound);
    for tried in 0..count {
        let at = ((turn % count as u64) as usize + tried) % count;
        let place = &places[at];
        let looks = left.looks.div_ceil((count - tried) as u64);
        match left.connect(rt, alloc, place, looks) {
            Ok(stream) => return Ok(stream),
            Err(error) => last = error,
        }
    }
    Err(last)
}

/// So many seconds, or as many as a connection may take where none are asked for.
fn seconds_of(seconds: u32) -> u32
    ensures { result ≡ (if seconds == 0 then CONNECT_SECONDS else seconds) }
{
    if seconds == 0 {
        CONNECT_SECONDS
    } else {
        seconds
    }
}

/// A stream to a server of this host and port. Where the host has several places, the one at this turn is tried first, and the others after
/// it. Over IP it is kept alive, where it is said how. The error says that none could be had, or not in so many seconds (0: in
/// [`CONNECT_SECONDS`]) besides what a look-up of names takes; or that an allocation failed.
pub fn connect_to<R: Net>(
    rt: &R,
    alloc: Global,
    host: &[u8],
    port: u16,
    turn: u64,
    seconds: u32,
    keepalive: &Option<Keepalive>,
) -> io::Result<Stream>
    ensures { IfOk result (λ s. (s ≡ new_stream s.place) × IsPlaceOf host.now port s.place) }
{
    let places = places_of(rt, alloc, host, port)?;
    let seconds = seconds_of(seconds);
    let stream = connect_any(rt, alloc, places.as_slice(), turn, seconds)?;
    if let (Address::Ip(_), Some(keepalive)) = (stream.place().address(), keepalive) {
        stream.keep(keepalive);
    }
    Ok(stream)
}
