//! The settings that a pool has from its start on, whatever the files say at a RELOAD.
ghost use Rattle.std.specs.Prelude.{◌≡◌, map};
ghost use Rattle.pool_run.specs.Telling as spec;

use ini_config::{Names, Settings};

/// Whether each of these names is among others.
fn are_among(names: &Names, others: &Names) -> bool
    ensures { result ≡ spec.are_among names.now others.now }
{
    names.as_slice().iter().all(|n| others.has(n.as_bytes()))
}

/// Whether one has a name that the other hasn't.
fn names_differ(one: &Names, other: &Names) -> bool
    ensures { result ≡ spec.names_differ one.now other.now }
{
    !are_among(one, other) || !are_among(other, one)
}

/// The settings by which a pool listens and makes its keys, and whether those of now are others than those of its start.
pub(crate) fn of_listeners(start: &Settings, now: &Settings) -> [(&'static [u8], bool); 8]
    ensures { map spec.setting_view result ≡ spec.of_listeners start.now now.now }
{
    [
        (
            b"listen_addr",
            names_differ(start.listen_addr(), now.listen_addr()),
        ),
        (b"listen_port", start.listen_port() != now.listen_port()),
        (
            b"unix_socket_dir",
            start.unix_socket_dir() != now.unix_socket_dir(),
        ),
        (
            b"unix_socket_mode",
            start.unix_socket_mode() != now.unix_socket_mode(),
        ),
        (
            b"unix_socket_group",
            start.unix_socket_group() != now.unix_socket_group(),
        ),
        (b"peer_id", start.peer_id() != now.peer_id()),
        (
            b"metrics_addr",
            names_differ(start.metrics_addr(), now.metrics_addr()),
        ),
        (b"metrics_port", start.metrics_port() != now.metrics_port()),
    ]
}

/// The settings by which clients' connections are kept alive, and whether those of now are others than those of the start. Connections to
/// servers have those of now.
pub(crate) fn of_clients(start: &Settings, now: &Settings) -> [(&'static [u8], bool); 5]
    ensures { map spec.setting_view result ≡ spec.of_clients start.now now.now }
{
    [
        (
            b"tcp_keepalive of clients' connections",
            start.tcp_keepalive() != now.tcp_keepalive(),
        ),
        (
            b"tcp_keepidle of clients' connections",
            start.tcp_keepidle() != now.tcp_keepidle(),
        ),
        (
            b"tcp_keepintvl of clients' connections",
            start.tcp_keepintvl() != now.tcp_keepintvl(),
        ),
        (
            b"tcp_keepcnt of clients' connections",
            start.tcp_keepcnt() != now.tcp_keepcnt(),
        ),
        (
            b"tcp_user_timeout of clients' connections",
            start.tcp_user_timeout() != now.tcp_user_timeout(),
        ),
    ]
}
