//! The listeners at several addresses and names.
ghost use Rattle.std.specs.Prelude.{◌≡◌, All, Contains, IfOk, IfSome};
ghost use Rattle.tcp_listen.specs.Listening.{IsListenedAt};
ghost use Rattle.tcp_reach.specs.Places.{IsPlaceOf};

use crate::listener::Listener;
use std::alloc::{AllocError, Global};
use std::io;
use std::io::ErrorKind;
use std::net::Net;
use tcp_reach::places::{Address, Place, places_of};
use text_lines::Text;

/// Whether it is at the address of all, of IPv6 and, as systems have it unless they are told otherwise, of IPv4.
fn is_at_all(place: &Place) -> bool {
    match place.address() {
        Address::Ip(address) => address.is_ipv6() && address.ip().is_unspecified(),
        Address::Unix => false,
    }
}

/// Whether it is at an address of IPv4.
fn is_at_ipv4(place: &Place) -> bool {
    match place.address() {
        Address::Ip(address) => address.is_ipv4(),
        Address::Unix => false,
    }
}

/// The places of all these names, at this port.
fn places_of_all<R: Net>(rt: &R, alloc: Global, names: &[Text], port: u16) -> io::Result<Vec<Place>>
    ensures { IfOk result (λ v. All (IsListenedAt names.now port) v.items) }
{
    let mut places = Vec::new(alloc);
    for name in names {
        let mut found = places_of(rt, alloc, name.as_bytes(), port)?;
        places.append(&mut found)?;
    }
    Ok(places)
}

/// Those of these places which are at the address of all, or those which aren't.
fn those(alloc: Global, places: &[Place], are_at_all: bool) -> Result<Vec<Place>, AllocError>
    ensures { IfOk result (λ v. All (Contains places.now) v.items) }
{
    let mut found = Vec::new(alloc);
    for place in places {
        if is_at_all(place) != are_at_all {
            continue;
        }
        found.push(*place)?;
    }
    Ok(found)
}

/// The same places, those at the address of all first.
fn in_order(alloc: Global, places: &[Place]) -> Result<Vec<Place>, AllocError>
    ensures { IfOk result (λ v. All (Contains places.now) v.items) }
{
    let mut ordered = those(alloc, places, true)?;
    let mut others = those(alloc, places, false)?;
    ordered.append(&mut others)?;
    Ok(ordered)
}

/// Listens at this place; none where it is of IPv4 and taken, and all of both is listened on: then it is a part of that.
fn listen_beside<R: Net>(rt: &R, place: &Place, has_all: bool) -> io::Result<Option<Listener>>
    ensures { IfOk result (λ l. IfSome l (λ l. l ≡ place.now)) }
{
    match Listener::bind(rt, place) {
        Ok(listener) => Ok(Some(listener)),
        Err(error) if error.kind() == ErrorKind::AddrInUse && has_all && is_at_ipv4(place) => {
            Ok(None)
        }
        Err(error) => Err(error),
    }
}

/// Listens at each of these addresses and names, at this port: first at all of IPv6. One of IPv4 that is taken beside that is a part of it,
/// where the system has it so (`is_for_both`). The error is the system's, or that an allocation failed.
pub fn listen_at<R: Net>(
    rt: &R,
    alloc: Global,
    names: &[Text],
    port: u16,
    is_for_both: bool,
) -> io::Result<Vec<Listener>>
    ensures { IfOk result (λ v. All (IsListenedAt names.now port) v.items) }
{
    let mut listeners = Vec::new(alloc);
    let places = places_of_all(rt, alloc, names, port)?;
    let has_all = is_for_both && places.as_slice().iter().any(is_at_all);
    for place in in_order(alloc, places.as_slice())?.as_slice() {
        let Some(listener) = listen_beside(rt, place, has_all)? else {
            continue;
        };
        listeners.push(listener)?;
    }
    Ok(listeners)
}

/// Listens at the first place of this address or name, at this port; at one that is free, where it is 0. The error is the system's, or that an
/// allocation failed.
pub fn listen_at_name<R: Net>(rt: &R, alloc: Global, name: &[u8], port: u16) -> io::Result<Listener>
    ensures { IfOk result (λ l. IsPlaceOf name.now port l) }
{
    let places = places_of(rt, alloc, name, port)?;
    if places.is_empty() {
        return Err(io::Error::from(ErrorKind::NotFound));
    }
    Listener::bind(rt, &places[0])
}
