//! The end of a connection to a server.
ghost use Rattle.std.specs.Prelude.{◌≡◌, IfOk, Some};
ghost use Rattle.tcp_end.specs.Connections.{new_connection};
ghost use Rattle.tcp_reach.specs.Places.{IsPlaceOf};

use crate::connection::TcpEnd;
use keep_alive::Keepalive;
use std::alloc::Global;
use std::io;
use std::net::Net;
use tcp_reach::connect::connect_to;
use tcp_reach::places::Place;

/// The end of a new connection to a server of this host and port, and the place where it is. Where the host has several places, the
/// one at this turn is tried first, and the others after it. Over IP it is kept alive, where it is said how. The error says that none
/// could be had, or not in so many seconds (0: in [`time_limits::CONNECT_SECONDS`]) besides what a look-up of names takes; or that an allocation failed.
pub fn dial<R: Net>(
    rt: &R,
    alloc: Global,
    host: &[u8],
    port: u16,
    turn: u64,
    seconds: u32,
    keepalive: &Option<Keepalive>,
) -> io::Result<(TcpEnd, Place)>
    ensures { IfOk result (λ p. (p.0 ≡ new_connection (Some p.1)) × IsPlaceOf host.now port p.1) }
{
    let stream = connect_to(rt, alloc, host, port, turn, seconds, keepalive)?;
    let place = stream.place();
    Ok((TcpEnd::dialled(alloc, stream)?, place))
}
