//! Keepalives of TCP connections.
//!
//! Public: `Keepalive`, which `pool_run` makes of the settings, and its `keep`, by which `tcp_reach` sets it on connections to servers
//! and `tcp_listen` on listeners; `tcp_end` hands it on. The bytes of an option's value are proved; of `keep` no contract says anything,
//! so which options it sets, and in which order, is free to change.
#![tactic(auto)]

ghost use Rattle.std.specs.Prelude.{◌≡◌};
ghost use Rattle.libc.specs.Net.{SockOption};
ghost use Rattle.keep_alive.specs.Options as spec;

use libc::net as c;
use std::os::fd::AsRawFd;

/// As many bytes as an option's value has.
const VALUE: u32 = 4;

/// How the system looks whether an idle connection's other side is still there. Where a number is 0, or the system refuses it, the
/// system's own is kept.
#[derive(Clone, Copy, Drop)]
pub struct Keepalive {
    /// After so many seconds in which nothing came, it asks for the first time.
    pub idle: u32,
    /// So many seconds after that for the next time.
    pub interval: u32,
    /// After so many that nobody answers the connection is broken.
    pub count: u32,
    /// And so it is where nobody has acknowledged what was sent for so many milliseconds.
    pub user_timeout: u32,
}

/// An option's value as the system reads it, a number in its own order of bytes; none where it is 0, or isn't such a number.
fn option_value(number: u32) -> Option<[u8; 16]>
    ensures { result ≡ spec.option_value number }
{
    if number == 0 || number > i32::MAX as u32 {
        return None;
    }
    let mut value = [0u8; 16];
    value[..4].copy_from_slice(&number.to_ne_bytes());
    Some(value)
}

/// Sets an option of a socket to this number, where it is one. That it can't be set is ignored.
fn set<S: AsRawFd>(socket: &S, level: i32, name: i32, number: u32)
    requires { SockOption level name }
{
    if let Some(value) = option_value(number) {
        let _ = unsafe { c::setsockopt(socket.as_raw_fd(), level, name, &value, VALUE) };
    }
}

impl Keepalive {
    /// Has the system keep the connection of this socket alive so. That it can't is ignored.
    pub fn keep<S: AsRawFd>(&self, socket: &S) {
        set(socket, c::SOL_SOCKET, c::SO_KEEPALIVE, 1);
        set(socket, c::IPPROTO_TCP, c::TCP_KEEPIDLE, self.idle);
        set(socket, c::IPPROTO_TCP, c::TCP_KEEPINTVL, self.interval);
        set(socket, c::IPPROTO_TCP, c::TCP_KEEPCNT, self.count);
        set(
            socket,
            c::IPPROTO_TCP,
            c::TCP_USER_TIMEOUT,
            self.user_timeout,
        );
    }
}
