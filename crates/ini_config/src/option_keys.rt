//! The keys of the section `[pgbouncer]` and what their values say.
ghost use Rattle.std.specs.Prelude.{◌≡◌, option_map, bytes_eq};
ghost use Rattle.std.specs.List.{find};
ghost use Rattle.ini_config.specs.OptionValues as spec;

use crate::always_followed::untracked;
use crate::faults::IniCause;
use crate::hosts::listen_addresses;
use crate::option_values::{AuthType, ConsoleStyle};
use crate::values::{mode, number, port};
use neutral_keys::is_read_over;

/// A key that the file may have.
#[derive(Clone, Copy)]
pub(crate) enum Key {
    ListenAddr,
    ListenPort,
    AuthType,
    AdminUsers,
    PoolMode,
    ServerResetQuery,
    MaxClientConn,
    DefaultPoolSize,
    MaxLinks,
    QueryWaitTimeout,
    ServerLifetime,
    ServerIdleTimeout,
    MaxPacketSize,
    IgnoreStartupParameters,
    TrackExtraParameters,
    LogConnections,
    LogDisconnections,
    UntrackParameters,
    UnixSocketDir,
    UnixSocketMode,
    UnixSocketGroup,
    PeerId,
    TcpKeepalive,
    TcpKeepidle,
    TcpKeepintvl,
    TcpKeepcnt,
    TcpUserTimeout,
    ServerConnectTimeout,
    ClientLoginTimeout,
    StatsUsers,
    StatsPeriod,
    LogStats,
    ConsoleStyle,
    MetricsAddr,
    MetricsPort,
    /// A key of PgBouncer that is read over at its value.
    Unused,
}

/// What a value changes.
#[derive(Clone, Copy)]
pub(crate) enum Setting<'a> {
    ListenAddr(&'a [u8]),
    ListenPort(u16),
    AuthType(AuthType),
    AdminUsers(&'a [u8]),
    MaxClientConn(u32),
    DefaultPoolSize(u32),
    MaxLinks(u32),
    QueryWaitTimeout(u32),
    ServerLifetime(u32),
    ServerIdleTimeout(u32),
    MaxPacketSize(u32),
    IgnoreStartupParameters(&'a [u8]),
    TrackExtraParameters(&'a [u8]),
    LogConnections(bool),
    LogDisconnections(bool),
    UntrackParameters(&'a [u8]),
    UnixSocketDir(&'a [u8]),
    UnixSocketMode(u32),
    UnixSocketGroup(&'a [u8]),
    PeerId(u32),
    TcpKeepalive(bool),
    TcpKeepidle(u32),
    TcpKeepintvl(u32),
    TcpKeepcnt(u32),
    TcpUserTimeout(u32),
    ServerConnectTimeout(u32),
    ClientLoginTimeout(u32),
    StatsUsers(&'a [u8]),
    StatsPeriod(u32),
    LogStats(bool),
    ConsoleStyle(ConsoleStyle),
    MetricsAddr(&'a [u8]),
    MetricsPort(u16),
    Nothing,
}

static SERVED: [(&str, Key); 35] = [
    ("listen_addr", Key::ListenAddr),
    ("listen_port", Key::ListenPort),
    ("auth_type", Key::AuthType),
    ("admin_users", Key::AdminUsers),
    ("pool_mode", Key::PoolMode),
    ("server_reset_query", Key::ServerResetQuery),
    ("max_client_conn", Key::MaxClientConn),
    ("default_pool_size", Key::DefaultPoolSize),
    ("max_links", Key::MaxLinks),
    ("query_wait_timeout", Key::QueryWaitTimeout),
    ("server_lifetime", Key::ServerLifetime),
    ("server_idle_timeout", Key::ServerIdleTimeout),
    ("max_packet_size", Key::MaxPacketSize),
    ("ignore_startup_parameters", Key::IgnoreStartupParameters),
    ("track_extra_parameters", Key::TrackExtraParameters),
    ("log_connections", Key::LogConnections),
    ("log_disconnections", Key::LogDisconnections),
    ("untrack_parameters", Key::UntrackParameters),
    ("unix_socket_dir", Key::UnixSocketDir),
    ("unix_socket_mode", Key::UnixSocketMode),
    ("unix_socket_group", Key::UnixSocketGroup),
    ("peer_id", Key::PeerId),
    ("tcp_keepalive", Key::TcpKeepalive),
    ("tcp_keepidle", Key::TcpKeepidle),
    ("tcp_keepintvl", Key::TcpKeepintvl),
    ("tcp_keepcnt", Key::TcpKeepcnt),
    ("tcp_user_timeout", Key::TcpUserTimeout),
    ("server_connect_timeout", Key::ServerConnectTimeout),
    ("client_login_timeout", Key::ClientLoginTimeout),
    ("stats_users", Key::StatsUsers),
    ("stats_period", Key::StatsPeriod),
    ("log_stats", Key::LogStats),
    ("console_style", Key::ConsoleStyle),
    ("metrics_addr", Key::MetricsAddr),
    ("metrics_port", Key::MetricsPort),
];

const MAX_LINKS: u32 = 10_000;

const MAX_SECONDS: u32 = 2_147_483_647;

/// The first byte of a process number, whose top bit stays clear.
const MAX_PEER_ID: u32 = 127;

const SMALLEST_PACKET: u32 = 1024;

const LARGEST_PACKET: u32 = 2_147_483_647;

/// The key at the name in a table.
fn find_key(table: &[(&str, Key)], name: &[u8]) -> Option<Key>
    ensures { result ≡ option_map (λ e. e.1) (find (λ e. bytes_eq e.0.now name.now) table.now) }
{
    for (text, key) in table {
        if text.as_bytes() == name {
            return Some(*key);
        }
    }
    None
}

/// The key of a line. None where it is neither read over at this value nor served.
#[tactic(auto, unfolding(crate::specs::OptionValues::key_of))]
pub(crate) fn key_of(name: &[u8], value: &[u8]) -> Option<Key>
    ensures { result ≡ spec.key_of name.now value.now }
{
    if is_read_over(name, value) {
        return Some(Key::Unused);
    }
    find_key(SERVED.as_slice(), name)
}

#[tactic(auto, unfolding(crate::specs::OptionValues::auth_type))]
fn auth_type(value: &[u8]) -> Option<AuthType>
    ensures { result ≡ spec.auth_type value.now }
{
    if value == b"trust".as_slice() {
        return Some(AuthType::Trust);
    }
    if value == b"plain".as_slice() {
        return Some(AuthType::Plain);
    }
    if value == b"md5".as_slice() {
        return Some(AuthType::Md5);
    }
    if value == b"scram-sha-256".as_slice() {
        return Some(AuthType::ScramSha256);
    }
    None
}

#[tactic(auto, unfolding(crate::specs::OptionValues::console_style))]
fn console_style(value: &[u8]) -> Option<ConsoleStyle>
    ensures { result ≡ spec.console_style value.now }
{
    if value == b"pgsess".as_slice() {
        return Some(ConsoleStyle::Own);
    }
    if value == b"pgbouncer".as_slice() {
        return Some(ConsoleStyle::PgBouncer);
    }
    None
}

/// Whether a switch is on.
fn is_one(value: &[u8]) -> bool
    ensures { result ≡ spec.is_one value.now }
{
    value == b"1".as_slice()
}

/// Whether a switch is off. At any other value it is on, as it is where it isn't named.
fn is_zero(value: &[u8]) -> bool
    ensures { result ≡ spec.is_zero value.now }
{
    value == b"0".as_slice()
}

/// What a key's value says. None where it isn't a value of the key.
#[tactic(auto, unfolding(crate::specs::OptionValues::change_of))]
pub(crate) fn read_setting(key: Key, value: &[u8]) -> Option<Setting<'_>>
    ensures { option_map spec.changed_by result ≡ spec.change_of key value.now }
{
    match key {
        Key::ListenAddr => Some(Setting::ListenAddr(listen_addresses(value)?)),
        Key::ListenPort => Some(Setting::ListenPort(port(value)?)),
        Key::AuthType => Some(Setting::AuthType(auth_type(value)?)),
        Key::AdminUsers => Some(Setting::AdminUsers(value)),
        Key::PoolMode | Key::ServerResetQuery | Key::Unused => Some(Setting::Nothing),
        Key::MaxClientConn => Some(Setting::MaxClientConn(number(value, 1, MAX_LINKS)?)),
        Key::DefaultPoolSize => Some(Setting::DefaultPoolSize(number(value, 1, MAX_LINKS)?)),
        Key::MaxLinks => Some(Setting::MaxLinks(number(value, 1, MAX_LINKS)?)),
        Key::QueryWaitTimeout => Some(Setting::QueryWaitTimeout(number(value, 0, MAX_SECONDS)?)),
        Key::ServerLifetime => Some(Setting::ServerLifetime(number(value, 0, MAX_SECONDS)?)),
        Key::ServerIdleTimeout => Some(Setting::ServerIdleTimeout(number(value, 0, MAX_SECONDS)?)),
        Key::MaxPacketSize => Some(Setting::MaxPacketSize(number(
            value,
            SMALLEST_PACKET,
            LARGEST_PACKET,
        )?)),
        Key::IgnoreStartupParameters => Some(Setting::IgnoreStartupParameters(value)),
        Key::TrackExtraParameters => Some(Setting::TrackExtraParameters(value)),
        Key::LogConnections => Some(Setting::LogConnections(is_one(value))),
        Key::LogDisconnections => Some(Setting::LogDisconnections(is_one(value))),
        Key::UntrackParameters => Some(Setting::UntrackParameters(untracked(value)?)),
        Key::UnixSocketDir => Some(Setting::UnixSocketDir(value)),
        Key::UnixSocketMode => Some(Setting::UnixSocketMode(mode(value)?)),
        Key::UnixSocketGroup => Some(Setting::UnixSocketGroup(value)),
        Key::PeerId => Some(Setting::PeerId(number(value, 0, MAX_PEER_ID)?)),
        Key::TcpKeepalive => Some(Setting::TcpKeepalive(!is_zero(value))),
        Key::TcpKeepidle => Some(Setting::TcpKeepidle(number(value, 0, MAX_SECONDS)?)),
        Key::TcpKeepintvl => Some(Setting::TcpKeepintvl(number(value, 0, MAX_SECONDS)?)),
        Key::TcpKeepcnt => Some(Setting::TcpKeepcnt(number(value, 0, MAX_SECONDS)?)),
        Key::TcpUserTimeout => Some(Setting::TcpUserTimeout(number(value, 0, MAX_SECONDS)?)),
        Key::ServerConnectTimeout => {
            Some(Setting::ServerConnectTimeout(number(value, 0, MAX_SECONDS)?))
        }
        Key::ClientLoginTimeout => {
            Some(Setting::ClientLoginTimeout(number(value, 0, MAX_SECONDS)?))
        }
        Key::StatsUsers => Some(Setting::StatsUsers(value)),
        Key::StatsPeriod => Some(Setting::StatsPeriod(number(value, 1, MAX_SECONDS)?)),
        Key::LogStats => Some(Setting::LogStats(!is_zero(value))),
        Key::ConsoleStyle => Some(Setting::ConsoleStyle(console_style(value)?)),
        Key::MetricsAddr => Some(Setting::MetricsAddr(listen_addresses(value)?)),
        Key::MetricsPort => Some(Setting::MetricsPort(port(value)?)),
    }
}

/// Whether the query is the one reset that is served. It may end with a semicolon.
fn is_discard_all(query: &[u8]) -> bool
    ensures { result ≡ spec.is_discard_all query.now }
{
    query.eq_ignore_ascii_case(b"discard all") || query.eq_ignore_ascii_case(b"discard all;")
}

/// What a value asks for that isn't served: another way of pooling, another reset query.
#[tactic(auto, unfolding(crate::specs::OptionValues::refusal))]
pub(crate) fn refusal(key: Key, value: &[u8]) -> Option<IniCause>
    ensures { result ≡ spec.refusal key value.now }
{
    match key {
        Key::PoolMode => {
            if value == b"session".as_slice() {
                return None;
            }
            Some(IniCause::PoolMode)
        }
        Key::ServerResetQuery => {
            if is_discard_all(value) {
                return None;
            }
            Some(IniCause::ResetQuery)
        }
        _ => None,
    }
}
