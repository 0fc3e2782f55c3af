//! What every setting is in an empty file, and in one that has them all: `tools/settings.py` writes this from the table.
use ini_config::{Settings, read_settings};
use std::test::Fail;

/// A file with every setting.
pub(crate) const FILE: &[u8] =
    b"[pgbouncer]\nlisten_addr = * , ::1\nlisten_port = 00001\nauth_type = plain\nadmin_users = root , ,\"a b\",\xe9\npool_mode = session\nserver_reset_query = Discard All\nmax_client_conn = 10000\ndefault_pool_size = 3\nmax_links = 4\nquery_wait_timeout = 0\nserver_lifetime = 005\nserver_idle_timeout = 2147483647\nmax_packet_size = 1024\nignore_startup_parameters = extra_float_digits,  Options\ntrack_extra_parameters =\nlog_connections = 1\nlog_disconnections = 1\nuntrack_parameters = TimeZone, application_name\nunix_socket_dir = /run/pool\nunix_socket_mode = 660\nunix_socket_group = www\npeer_id = 127\ntcp_keepalive = 0\ntcp_keepidle = 60\ntcp_keepintvl = 10\ntcp_keepcnt = 5\ntcp_user_timeout = 2147483647\nserver_connect_timeout = 00\nclient_login_timeout = 2147483647\nstats_users = mon ,, \"a b\"\nstats_period = 001\nlog_stats = 0\nconsole_style = pgbouncer\nmetrics_addr = localhost, ::1\nmetrics_port = 65535\n";

/// What `SHOW CONFIG` shows of an empty file.
pub(crate) const DEFAULTS: &[&[u8]] = &[
    b"D\0\0\0\x22\0\x02\0\0\0\x0blisten_addr\0\0\0\x09127.0.0.1",
    b"D\0\0\0\x1d\0\x02\0\0\0\x0blisten_port\0\0\0\x046432",
    b"D\0\0\0\x1a\0\x02\0\0\0\x09auth_type\0\0\0\x03md5",
    b"D\0\0\0\x19\0\x02\0\0\0\x0badmin_users\0\0\0\0",
    b"D\0\0\0\x1e\0\x02\0\0\0\x09pool_mode\0\0\0\x07session",
    b"D\0\0\0\x2b\0\x02\0\0\0\x12server_reset_query\0\0\0\x0bDISCARD ALL",
    b"D\0\0\0\x20\0\x02\0\0\0\x0fmax_client_conn\0\0\0\x03100",
    b"D\0\0\0\x21\0\x02\0\0\0\x11default_pool_size\0\0\0\x0220",
    b"D\0\0\0\x1b\0\x02\0\0\0\x09max_links\0\0\0\x041000",
    b"D\0\0\0\x23\0\x02\0\0\0\x12query_wait_timeout\0\0\0\x03120",
    b"D\0\0\0\x21\0\x02\0\0\0\x0fserver_lifetime\0\0\0\x043600",
    b"D\0\0\0\x24\0\x02\0\0\0\x13server_idle_timeout\0\0\0\x03600",
    b"D\0\0\0\x27\0\x02\0\0\0\x0fmax_packet_size\0\0\0\x0a2147483647",
    b"D\0\0\0\x27\0\x02\0\0\0\x19ignore_startup_parameters\0\0\0\0",
    b"D\0\0\0\x31\0\x02\0\0\0\x16track_extra_parameters\0\0\0\x0dIntervalStyle",
    b"D\0\0\0\x20\0\x02\0\0\0\x12untrack_parameters\0\0\0\0",
    b"D\0\0\0\x1d\0\x02\0\0\0\x0funix_socket_dir\0\0\0\0",
    b"D\0\0\0\x22\0\x02\0\0\0\x10unix_socket_mode\0\0\0\x040777",
    b"D\0\0\0\x1f\0\x02\0\0\0\x11unix_socket_group\0\0\0\0",
    b"D\0\0\0\x16\0\x02\0\0\0\x07peer_id\0\0\0\x010",
    b"D\0\0\0\x1c\0\x02\0\0\0\x0dtcp_keepalive\0\0\0\x011",
    b"D\0\0\0\x1b\0\x02\0\0\0\x0ctcp_keepidle\0\0\0\x010",
    b"D\0\0\0\x1c\0\x02\0\0\0\x0dtcp_keepintvl\0\0\0\x010",
    b"D\0\0\0\x1a\0\x02\0\0\0\x0btcp_keepcnt\0\0\0\x010",
    b"D\0\0\0\x1f\0\x02\0\0\0\x10tcp_user_timeout\0\0\0\x010",
    b"D\0\0\0\x26\0\x02\0\0\0\x16server_connect_timeout\0\0\0\x0215",
    b"D\0\0\0\x24\0\x02\0\0\0\x14client_login_timeout\0\0\0\x0260",
    b"D\0\0\0\x19\0\x02\0\0\0\x0bstats_users\0\0\0\0",
    b"D\0\0\0\x1c\0\x02\0\0\0\x0cstats_period\0\0\0\x0260",
    b"D\0\0\0\x18\0\x02\0\0\0\x09log_stats\0\0\0\x011",
    b"D\0\0\0\x1a\0\x02\0\0\0\x0cmetrics_addr\0\0\0\0",
    b"D\0\0\0\x1e\0\x02\0\0\0\x0cmetrics_port\0\0\0\x049127",
    b"D\0\0\0\x21\0\x02\0\0\0\x0dconsole_style\0\0\0\x06pgsess",
];

/// And of the file with every setting.
pub(crate) const CHANGED: &[&[u8]] = &[
    b"D\0\0\0\x24\0\x02\0\0\0\x0blisten_addr\0\0\0\x0b0.0.0.0,::1",
    b"D\0\0\0\x1a\0\x02\0\0\0\x0blisten_port\0\0\0\x011",
    b"D\0\0\0\x1c\0\x02\0\0\0\x09auth_type\0\0\0\x05plain",
    b"D\0\0\0\x25\0\x02\0\0\0\x0badmin_users\0\0\0\x0croot,\"a b\",\xe9",
    b"D\0\0\0\x1e\0\x02\0\0\0\x09pool_mode\0\0\0\x07session",
    b"D\0\0\0\x2b\0\x02\0\0\0\x12server_reset_query\0\0\0\x0bDISCARD ALL",
    b"D\0\0\0\x22\0\x02\0\0\0\x0fmax_client_conn\0\0\0\x0510000",
    b"D\0\0\0\x20\0\x02\0\0\0\x11default_pool_size\0\0\0\x013",
    b"D\0\0\0\x18\0\x02\0\0\0\x09max_links\0\0\0\x014",
    b"D\0\0\0\x21\0\x02\0\0\0\x12query_wait_timeout\0\0\0\x010",
    b"D\0\0\0\x1e\0\x02\0\0\0\x0fserver_lifetime\0\0\0\x015",
    b"D\0\0\0\x2b\0\x02\0\0\0\x13server_idle_timeout\0\0\0\x0a2147483647",
    b"D\0\0\0\x21\0\x02\0\0\0\x0fmax_packet_size\0\0\0\x041024",
    b"D\0\0\0\x41\0\x02\0\0\0\x19ignore_startup_parameters\0\0\0\x1aextra_float_digits,Options",
    b"D\0\0\0\x24\0\x02\0\0\0\x16track_extra_parameters\0\0\0\0",
    b"D\0\0\0\x39\0\x02\0\0\0\x12untrack_parameters\0\0\0\x19TimeZone,application_name",
    b"D\0\0\0\x26\0\x02\0\0\0\x0funix_socket_dir\0\0\0\x09/run/pool",
    b"D\0\0\0\x22\0\x02\0\0\0\x10unix_socket_mode\0\0\0\x040660",
    b"D\0\0\0\x22\0\x02\0\0\0\x11unix_socket_group\0\0\0\x03www",
    b"D\0\0\0\x18\0\x02\0\0\0\x07peer_id\0\0\0\x03127",
    b"D\0\0\0\x1c\0\x02\0\0\0\x0dtcp_keepalive\0\0\0\x010",
    b"D\0\0\0\x1c\0\x02\0\0\0\x0ctcp_keepidle\0\0\0\x0260",
    b"D\0\0\0\x1d\0\x02\0\0\0\x0dtcp_keepintvl\0\0\0\x0210",
    b"D\0\0\0\x1a\0\x02\0\0\0\x0btcp_keepcnt\0\0\0\x015",
    b"D\0\0\0\x28\0\x02\0\0\0\x10tcp_user_timeout\0\0\0\x0a2147483647",
    b"D\0\0\0\x25\0\x02\0\0\0\x16server_connect_timeout\0\0\0\x010",
    b"D\0\0\0\x2c\0\x02\0\0\0\x14client_login_timeout\0\0\0\x0a2147483647",
    b"D\0\0\0\x22\0\x02\0\0\0\x0bstats_users\0\0\0\x09mon,\"a b\"",
    b"D\0\0\0\x1b\0\x02\0\0\0\x0cstats_period\0\0\0\x011",
    b"D\0\0\0\x18\0\x02\0\0\0\x09log_stats\0\0\0\x010",
    b"D\0\0\0\x27\0\x02\0\0\0\x0cmetrics_addr\0\0\0\x0d127.0.0.1,::1",
    b"D\0\0\0\x1f\0\x02\0\0\0\x0cmetrics_port\0\0\0\x0565535",
    b"D\0\0\0\x24\0\x02\0\0\0\x0dconsole_style\0\0\0\x09pgbouncer",
];

pub(crate) const NUMBERS_AT_FIRST: [u32; 18] = [
    6432,
    100,
    20,
    1000,
    120,
    3600,
    600,
    2_147_483_647,
    0o777,
    0,
    0,
    0,
    0,
    0,
    15,
    60,
    60,
    9127,
];

pub(crate) const NUMBERS_CHANGED: [u32; 18] = [
    1,
    10_000,
    3,
    4,
    0,
    5,
    2_147_483_647,
    1024,
    0o660,
    127,
    60,
    10,
    5,
    2_147_483_647,
    0,
    2_147_483_647,
    1,
    65_535,
];

/// Those that are a number each.
pub(crate) fn numbers(settings: &Settings) -> [u32; 18] {
    [
        u32::from(settings.listen_port()),
        settings.max_client_conn(),
        settings.default_pool_size(),
        settings.max_links(),
        settings.query_wait_timeout(),
        settings.server_lifetime(),
        settings.server_idle_timeout(),
        settings.max_packet_size(),
        settings.unix_socket_mode(),
        settings.peer_id(),
        settings.tcp_keepidle(),
        settings.tcp_keepintvl(),
        settings.tcp_keepcnt(),
        settings.tcp_user_timeout(),
        settings.server_connect_timeout(),
        settings.client_login_timeout(),
        settings.stats_period(),
        u32::from(settings.metrics_port()),
    ]
}

pub(crate) const SWITCHES_AT_FIRST: [bool; 4] = [false, false, true, true];

pub(crate) const SWITCHES_CHANGED: [bool; 4] = [true, true, false, false];

/// Those that are on or off.
pub(crate) fn switches(settings: &Settings) -> [bool; 4] {
    [
        settings.log_connections(),
        settings.log_disconnections(),
        settings.tcp_keepalive(),
        settings.log_stats(),
    ]
}

#[test]
fn every_number_and_switch(rt: HostRuntime) -> Result<(), Fail> {
    let first = read_settings(rt.alloc(), b"")?;
    assert!(rt; numbers(&first) == NUMBERS_AT_FIRST);
    assert!(rt; switches(&first) == SWITCHES_AT_FIRST);
    let changed = read_settings(rt.alloc(), FILE)?;
    assert!(rt; numbers(&changed) == NUMBERS_CHANGED);
    assert!(rt; switches(&changed) == SWITCHES_CHANGED);
    Ok(())
}
