//! One message on a connection of its own.
ghost use Rattle.std.specs.Prelude.{◌≡◌, [], ◌∷◌, All, IfOk, IfSome};
ghost use Rattle.tcp_reach.specs.Places.{IsPlaceOf};
ghost use Rattle.tcp_reach.specs.Streams as spec;
ghost use Rattle.tcp_reach.specs.Streams.{IsSentTo};

use crate::connect::connect;
use crate::places::{Place, places_of};
use crate::stream::{Sent, Stream};
use mio::{Events, Interest, Poll};
use std::alloc::Global;
use std::io;
use std::io::ErrorKind;
use std::net::Net;
use time_limits::{LOOK, LOOKS_A_SECOND};

/// Waits until the other side has closed the stream, for at most so many seconds.
fn wait_for_close<R: Net>(
    rt: &R,
    alloc: Global,
    stream: &mut Stream,
    seconds: u32,
) -> io::Result<()>
    ensures { stream.new ≡ stream.old }
{
    let mut poll = Poll::new(rt)?;
    let mut events = Events::with_capacity(alloc, 1)?;
    stream.register(&poll, Interest::READABLE)?;
    for _ in 0..seconds as u64 * LOOKS_A_SECOND {
        if stream.is_closed() {
            return Ok(());
        }
        poll.poll(&mut events, Some(LOOK.duration()))?;
    }
    Err(io::Error::from(ErrorKind::TimedOut))
}

/// Writes this message, which is short, to a new connection to this place, and waits until the other side has closed
/// it; what was sent, and where. At most so many seconds are for the connection, and as many for its close; the error says that they
/// were over, that the connection couldn't be had or failed, or that an allocation failed.
pub fn send_alone<R: Net>(
    rt: &R,
    alloc: Global,
    place: &Place,
    message: &[u8],
    seconds: u32,
) -> io::Result<Sent>
    ensures { IfOk result (λ s. s ≡ record { place = place.now; sent = message.now }) }
{
    let mut stream = connect(rt, alloc, place, seconds)?;
    stream.send(message)?;
    wait_for_close(rt, alloc, &mut stream, seconds)?;
    Ok(stream.close())
}

/// This place, if it is one of these hosts', which have commas between, at this port.
fn own_place(known: Option<Place>, hosts: &[u8], port: u16) -> Option<Place>
    ensures value { result ≡ spec.own_place known hosts.now port }
    ensures own { IfSome result (λ p. IsPlaceOf hosts.now port p) }
{
    let place = known?;
    if place.is_of(hosts, port) {
        Some(place)
    } else {
        None
    }
}

/// Sends this message to each place of these hosts, one after the other, as [`send_alone`] does. One that can't be reached is passed over.
fn send_to_each<R: Net>(
    rt: &R,
    alloc: Global,
    hosts: &[u8],
    port: u16,
    message: &[u8],
    seconds: u32,
) -> io::Result<Vec<Sent>>
    ensures { IfOk result (λ v. All (IsSentTo hosts.now port message.now) v.items) }
{
    let mut all = Vec::new(alloc);
    for place in places_of(rt, alloc, hosts, port)?.as_slice() {
        let Ok(sent) = send_alone(rt, alloc, place, message, seconds) else {
            continue;
        };
        all.push(sent)?;
    }
    Ok(all)
}

/// Sends this message, as [`send_alone`] does, where a link leads to one of these hosts, which have commas between, at this port: to that place,
/// where it is known and one of theirs; else to each place of theirs. All that was sent, and where. The errors are those of [`send_alone`],
/// of the one place that is known, or that no host is known, or that an allocation failed.
pub fn send_to_hosts<R: Net>(
    rt: &R,
    alloc: Global,
    known: Option<Place>,
    hosts: &[u8],
    port: u16,
    message: &[u8],
    seconds: u32,
) -> io::Result<Vec<Sent>>
    ensures own { IfOk result (λ v. All (IsSentTo hosts.now port message.now) v.items) }
    ensures known { IfOk result (λ v. IfSome (spec.own_place known hosts.now port) (λ p. v.items ≡ record { place = p; sent = message.now } ∷ [])) }
{
    let Some(place) = own_place(known, hosts, port) else {
        return send_to_each(rt, alloc, hosts, port, message, seconds);
    };
    let sent = send_alone(rt, alloc, &place, message, seconds)?;
    let mut all = Vec::new(alloc);
    all.push(sent)?;
    Ok(all)
}
