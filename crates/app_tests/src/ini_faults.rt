//! Faults of the settings file and the lines that they are told with.
use ini_config::{IniCause, IniError, read_settings};
use std::alloc::Global;
use std::process::Abort;
use std::test::Fail;

fn fault(alloc: Global, text: &[u8]) -> Option<(IniCause, usize)> {
    match read_settings(alloc, text) {
        Ok(_) => None,
        Err(fault) => Some((fault.cause, fault.line)),
    }
}

fn check<A: Abort>(rt: &A, alloc: Global, rows: &[(&[u8], IniCause, usize)]) -> Result<(), Fail> {
    for (text, cause, line) in rows {
        assert!(rt; fault(alloc, text) == Some((*cause, *line)));
    }
    Ok(())
}

#[test]
fn faults_of_lines(rt: HostRuntime) -> Result<(), Fail> {
    let rows: &[(&[u8], IniCause, usize)] = &[
        (b"%include x", IniCause::NotALine, 1),
        (b"[pgbouncer]\n%include x", IniCause::NotALine, 2),
        (b"[PgBouncer]", IniCause::UnknownSection, 1),
        (b"[ users ]", IniCause::UnknownSection, 1),
        (b"\n; c\n# c\n[users]\nann = x", IniCause::UnknownSection, 5),
        (b"[peers]\nwords", IniCause::UnknownSection, 2),
        (b"listen_port = 1", IniCause::NotALine, 1),
        (b"[pgbouncer]\n[x", IniCause::NotALine, 2),
        (b"[pgbouncer]\n[x = y", IniCause::UnknownKey, 2),
        (b"[pgbouncer]\n= x", IniCause::UnknownKey, 2),
        (b"[pgbouncer]\nListen_port = 1", IniCause::UnknownKey, 2),
    ];
    check(&rt, rt.alloc(), rows)
}

// At these values they ask for what isn't done; the last but one is the default of another key.
#[test]
fn keys_that_ask_for_something(rt: HostRuntime) -> Result<(), Fail> {
    let rows: &[(&[u8], IniCause, usize)] = &[
        (b"[pgbouncer]\nmin_pool_size = 5", IniCause::UnknownKey, 2),
        (b"[pgbouncer]\nmin_pool_size =", IniCause::UnknownKey, 2),
        (b"[pgbouncer]\nmin_pool_size = 00", IniCause::UnknownKey, 2),
        (
            b"[pgbouncer]\nclient_tls_sslmode = prefer",
            IniCause::UnknownKey,
            2,
        ),
        (
            b"[pgbouncer]\nserver_tls_sslmode = require",
            IniCause::UnknownKey,
            2,
        ),
        (
            b"[pgbouncer]\nserver_tls_ca_file = f",
            IniCause::UnknownKey,
            2,
        ),
        (b"[pgbouncer]\nuser = postgres", IniCause::UnknownKey, 2),
        (
            b"[pgbouncer]\nmax_prepared_statement = 0",
            IniCause::UnknownKey,
            2,
        ),
        (
            b"[pgbouncer]\nso_reuseport = 1\nso_reuseport = 0",
            IniCause::KeyTwice,
            3,
        ),
        (
            b"[databases]\nx = host=a pool_mode=transaction",
            IniCause::BadValue,
            2,
        ),
        (
            b"[databases]\nx = host=a max_db_connections=1",
            IniCause::BadValue,
            2,
        ),
    ];
    check(&rt, rt.alloc(), rows)
}

#[test]
fn faults_of_keys(rt: HostRuntime) -> Result<(), Fail> {
    let rows: &[(&[u8], IniCause, usize)] = &[
        (
            b"[pgbouncer]\npool_mode = transaction",
            IniCause::PoolMode,
            2,
        ),
        (b"[pgbouncer]\nlisten_port = 70000", IniCause::BadValue, 2),
        (
            b"[pgbouncer]\nlisten_port = 1\nlisten_port = 2",
            IniCause::KeyTwice,
            3,
        ),
        (b"[pgbouncer]\nauth_type = MD5", IniCause::BadValue, 2),
        (b"[pgbouncer]\nauth_type = scram", IniCause::BadValue, 2),
        (
            b"[pgbouncer]\nlisten_port = 1\nlisten_port = 0",
            IniCause::BadValue,
            3,
        ),
        (
            b"[pgbouncer]\npool_mode = session\npool_mode = statement",
            IniCause::KeyTwice,
            3,
        ),
        (
            b"[pgbouncer]\nserver_reset_query = DISCARD  ALL",
            IniCause::ResetQuery,
            2,
        ),
        (
            b"[pgbouncer]\nlogfile = a\n[databases]\n[pgbouncer]\nlogfile = b",
            IniCause::KeyTwice,
            5,
        ),
        (
            b"[pgbouncer]\nmax_packet_size = 1023",
            IniCause::BadValue,
            2,
        ),
        (
            b"[pgbouncer]\nlisten_addr = 1.2.3.04",
            IniCause::BadValue,
            2,
        ),
        (b"[pgbouncer]\nmax_links = 10001", IniCause::BadValue, 2),
        (b"[pgbouncer]\nserver_lifetime = -1", IniCause::BadValue, 2),
        (
            b"[pgbouncer]\nlogfile = a\nuntrack_parameters = TimeZone, IntervalStyle",
            IniCause::BadValue,
            3,
        ),
        (
            b"[pgbouncer]\nuntrack_parameters = time zone",
            IniCause::BadValue,
            2,
        ),
        (
            b"[pgbouncer]\nuntrack_parameters =\nuntrack_parameters =",
            IniCause::KeyTwice,
            3,
        ),
    ];
    check(&rt, rt.alloc(), rows)
}

#[test]
fn faults_of_rows(rt: HostRuntime) -> Result<(), Fail> {
    let rows: &[(&[u8], IniCause, usize)] = &[
        (b"[databases]\nshop = port=1", IniCause::BadValue, 2),
        (
            b"[databases]\npgbouncer = host=127.0.0.1",
            IniCause::BadValue,
            2,
        ),
        (
            b"[databases]\na = host=127.0.0.1 password='x'",
            IniCause::BadValue,
            2,
        ),
        (b"[databases]\na = host='127.0.0.1'", IniCause::BadValue, 2),
        (
            b"[databases]\na = host=127.0.0.1 host=127.0.0.1",
            IniCause::BadValue,
            2,
        ),
        (
            b"[databases]\na = host=127.0.0.1 dbname=",
            IniCause::BadValue,
            2,
        ),
    ];
    check(&rt, rt.alloc(), rows)
}

#[test]
fn faults_of_names_and_separators(rt: HostRuntime) -> Result<(), Fail> {
    let rows: &[(&[u8], IniCause, usize)] = &[
        (b"[databases]\n= host=127.0.0.1", IniCause::BadValue, 2),
        (
            b"[databases]\na = host=127.0.0.1\nb = host=127.0.0.1\na = host=127.0.0.1",
            IniCause::KeyTwice,
            4,
        ),
        (
            b"[databases]\na = host=127.0.0.1\na = host=-x",
            IniCause::BadValue,
            3,
        ),
        (
            b"[databases]\na = host=127.0.0.1\tport=1",
            IniCause::BadValue,
            2,
        ),
    ];
    check(&rt, rt.alloc(), rows)
}

/// A label of 64 bytes, a folder of 93 and a list of 256: a byte too long.
const LONG_LABEL: &str = "aaaaaaaaaaaaaaaaaaaaaaaaaaaaaaaaaaaaaaaaaaaaaaaaaaaaaaaaaaaaaaaa";

const LONG_FOLDER: &str =
    "/ffffffffffffffffffffffffffffffffffffffffffffffffffffffffffffffffffffffffffffffffffffffffffff";

const LONG_LIST: &str =
    "a,a,a,a,a,a,a,a,a,a,a,a,a,a,a,a,a,a,a,a,a,a,a,a,a,a,a,a,a,a,a,a,a,a,a,a,a,a,a,a,a,a,a,a,a,a,a,a,a,a,a,a,a,a,a,a,a,a,a,a,a,a,a,a,a,a,a,a,a,a,a,a,a,a,a,a,a,a,a,a,a,a,a,a,a,a,a,a,a,a,a,a,a,a,a,a,a,a,a,a,a,a,a,a,a,a,a,a,a,a,a,a,a,a,a,a,a,a,a,a,a,a,a,a,a,a,a,ab";

#[test]
fn no_hosts(rt: HostRuntime) -> Result<(), Fail> {
    let hosts: &[&str] = &[
        "",
        "a,",
        "a,,b",
        "10.0.0.256",
        "1.2.3",
        "1.2.3.4.",
        "1..2",
        ".",
        "a..b",
        "a.",
        "-a",
        "[::1]",
        "::1::",
        ":",
        ":::",
        "1:2",
        "1:2:3:4:5:6:7:8:9",
        "1::2:3:4:5:6:7:8",
        "12345::",
        "::ffff:1.2.3.4",
        "@abstract",
        "run/pool",
        LONG_LABEL,
        LONG_FOLDER,
        LONG_LIST,
    ];
    for &host in hosts {
        let text = format!(in rt.alloc(); "[databases]\nx = host={host}")?;
        assert!(rt; fault(rt.alloc(), text.as_bytes()) == Some((IniCause::BadValue, 2)));
    }
    Ok(())
}

#[test]
fn no_values_of_sockets(rt: HostRuntime) -> Result<(), Fail> {
    let rows: &[(&str, &str)] = &[
        ("listen_addr", ""),
        ("listen_addr", " , "),
        ("listen_addr", "/run/pool"),
        ("listen_addr", "::1,*,12345::"),
        ("unix_socket_mode", ""),
        ("unix_socket_mode", "77"),
        ("unix_socket_mode", "778"),
        ("unix_socket_mode", "1777"),
        ("unix_socket_mode", "00777"),
        ("unix_socket_mode", "-77"),
        ("peer_id", ""),
        ("peer_id", "-1"),
        ("peer_id", "128"),
        ("tcp_keepidle", "2147483648"),
        ("tcp_keepidle", "1s"),
        ("tcp_keepintvl", "2147483648"),
        ("tcp_keepcnt", "2147483648"),
        ("tcp_user_timeout", "2147483648"),
        ("tcp_user_timeout", "-1"),
    ];
    for &(key, value) in rows {
        let text = format!(in rt.alloc(); "[pgbouncer]\n{key} = {value}")?;
        assert!(rt; fault(rt.alloc(), text.as_bytes()) == Some((IniCause::BadValue, 2)));
    }
    Ok(())
}

#[test]
fn no_values_of_figures(rt: HostRuntime) -> Result<(), Fail> {
    let rows: &[(&str, &str)] = &[
        ("console_style", ""),
        ("console_style", "PgBouncer"),
        ("console_style", "own"),
        ("stats_period", "0"),
        ("stats_period", "2147483648"),
        ("server_connect_timeout", ""),
        ("server_connect_timeout", "-1"),
        ("server_connect_timeout", "2147483648"),
        ("client_login_timeout", "1s"),
        ("client_login_timeout", "2147483648"),
        ("metrics_addr", ""),
        ("metrics_addr", "/run/pool"),
        ("metrics_addr", "::1,12345::"),
        ("metrics_port", "0"),
        ("metrics_port", "65536"),
    ];
    for &(key, value) in rows {
        let text = format!(in rt.alloc(); "[pgbouncer]\n{key} = {value}")?;
        assert!(rt; fault(rt.alloc(), text.as_bytes()) == Some((IniCause::BadValue, 2)));
    }
    Ok(())
}

#[test]
fn a_fault_shows_as_code_and_line(rt: HostRuntime) -> Result<(), Fail> {
    let shown = [
        (IniCause::UnknownSection, "C1 line 7"),
        (IniCause::UnknownKey, "C2 line 7"),
        (IniCause::BadValue, "C3 line 7"),
        (IniCause::KeyTwice, "C4 line 7"),
        (IniCause::PoolMode, "C5 line 7"),
        (IniCause::ResetQuery, "C6 line 7"),
        (IniCause::NotALine, "C7 line 7"),
        (IniCause::Memory, "C8 line 7"),
    ];
    for (cause, text) in shown {
        let fault = IniError { cause, line: 7 };
        let line = format!(in rt.alloc(); "{fault}")?;
        assert!(rt; line.as_str() == text);
    }
    Ok(())
}
