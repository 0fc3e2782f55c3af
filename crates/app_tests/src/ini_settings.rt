//! What settings files say; of every number and switch `every_setting` tells.
use crate::every_setting::{NUMBERS_AT_FIRST, numbers};
use ini_config::{AuthType, ConsoleStyle, Names, Settings, read_settings};
use std::test::Fail;

/// Whether there is a row of this name that says this.
fn has_row(settings: &Settings, name: &[u8], host: &[u8], port: u16, dbname: &[u8]) -> bool {
    match settings.row(name) {
        Some(row) => row.host.is(host) && row.port == port && row.dbname == dbname,
        None => false,
    }
}

/// Whether the row at a place has this name, and is found by it.
fn is_at(settings: &Settings, place: usize, name: &[u8]) -> bool {
    match settings.rows.at(place) {
        Some(row) => row.name.as_bytes() == name && settings.row(name).is_some(),
        None => false,
    }
}

/// The pool size of a row; 0 where there is none.
fn pool_size(settings: &Settings, name: &[u8]) -> u32 {
    match settings.rows.get(name) {
        Some(row) => settings.pool_size(row),
        None => 0,
    }
}

const ROWS: &[u8] =
    b"[databases]\r\nshop = host=localhost port=5433 pool_size=2\r\n[pgbouncer]\ndefault_pool_size = 007\n[databases]\nb=  dbname=a=b host=10.0.0.255 ";

#[test]
fn rows_in_their_order(rt: HostRuntime) -> Result<(), Fail> {
    let settings = read_settings(rt.alloc(), ROWS)?;
    assert!(rt; settings.rows.len() == 2);
    let names: [&[u8]; 2] = [b"shop", b"b"];
    for (place, name) in names.iter().enumerate() {
        assert!(rt; is_at(&settings, place, name));
    }
    Ok(())
}

#[test]
fn what_rows_say(rt: HostRuntime) -> Result<(), Fail> {
    let settings = read_settings(rt.alloc(), ROWS)?;
    let rows: &[(&[u8], &[u8], u16, &[u8])] = &[
        (b"shop", b"127.0.0.1", 5433, b"shop"),
        (b"b", b"10.0.0.255", 5432, b"a=b"),
    ];
    for &(name, host, port, dbname) in rows {
        assert!(rt; has_row(&settings, name, host, port, dbname));
    }
    Ok(())
}

#[test]
fn pool_sizes(rt: HostRuntime) -> Result<(), Fail> {
    let settings = read_settings(rt.alloc(), ROWS)?;
    let sizes: &[(&[u8], u32)] = &[(b"shop", 2), (b"b", 7), (b"Shop", 0)];
    for &(name, size) in sizes {
        assert!(rt; pool_size(&settings, name) == size);
    }
    Ok(())
}

const EVERY_KEY: &[u8] =
    b"[pgbouncer]\nlisten_addr = * , ::1,,localhost\nunix_socket_dir = /run/pool\nunix_socket_mode = 0660\nunix_socket_group = www\npeer_id = 127\ntcp_keepalive = 0\ntcp_keepidle = 60\ntcp_keepintvl = 10\ntcp_keepcnt = 5\ntcp_user_timeout = 2147483647\nlisten_port = 1\nauth_type = plain\nadmin_users = root , ,Ann\npool_mode=session\nserver_reset_query = Discard All\nmax_client_conn = 10000\ndefault_pool_size = 3\nmax_links = 4\nquery_wait_timeout = 0\nserver_lifetime = 5\nserver_idle_timeout = 2147483647\nmax_packet_size = 1024\nignore_startup_parameters = extra_float_digits,Options\ntrack_extra_parameters = search_path\nuntrack_parameters = TimeZone, application_name,\nverbose = 2\n[users]\n";

/// Whether the names are these.
fn are(names: &Names, expected: &[&[u8]]) -> bool {
    names.len() == expected.len()
        && names
            .as_slice()
            .iter()
            .zip(expected)
            .all(|(name, text)| name.as_bytes() == *text)
}

/// Settings of one value each that is no number.
fn has_choices(settings: &Settings, addresses: &[&[u8]], auth_type: AuthType) -> bool {
    are(settings.listen_addr(), addresses)
        && settings.auth_type() == auth_type
        && settings.pool_mode() == "session"
        && settings.server_reset_query() == "DISCARD ALL"
}

#[test]
fn settings_of_choices(rt: HostRuntime) -> Result<(), Fail> {
    let files: &[(&[u8], &[&[u8]], AuthType)] = &[
        (b"", &[b"127.0.0.1"], AuthType::Md5),
        (
            b"[pgbouncer]\nauth_type = scram-sha-256",
            &[b"127.0.0.1"],
            AuthType::ScramSha256,
        ),
        (
            EVERY_KEY,
            &[b"0.0.0.0", b"::1", b"127.0.0.1"],
            AuthType::Plain,
        ),
    ];
    for &(text, addresses, auth_type) in files {
        let settings = read_settings(rt.alloc(), text)?;
        assert!(rt; has_choices(&settings, addresses, auth_type));
    }
    Ok(())
}

#[test]
fn settings_of_the_log(rt: HostRuntime) -> Result<(), Fail> {
    let files: &[(&[u8], [bool; 2])] = &[
        (b"", [false, false]),
        (b"[pgbouncer]\nlog_connections = 1\n", [true, false]),
        (b"[pgbouncer]\nlog_disconnections=1\n", [false, true]),
        (
            b"[pgbouncer]\nlog_connections = yes\nlog_disconnections = 01\n",
            [false, false],
        ),
    ];
    for &(text, expected) in files {
        let settings = read_settings(rt.alloc(), text)?;
        assert!(rt; [settings.log_connections(), settings.log_disconnections()] == expected);
    }
    Ok(())
}

/// How many names each of the four lists has.
fn lengths(settings: &Settings) -> [usize; 4] {
    [
        settings.admin_users().len(),
        settings.ignore_startup_parameters().len(),
        settings.track_extra_parameters().len(),
        settings.untrack_parameters().len(),
    ]
}

#[test]
fn settings_of_names(rt: HostRuntime) -> Result<(), Fail> {
    let files: &[(&[u8], [usize; 4])] = &[
        (b"", [0, 0, 1, 0]),
        (EVERY_KEY, [2, 2, 1, 2]),
        (b"[pgbouncer]\nuntrack_parameters = ,\n", [0, 0, 1, 0]),
    ];
    for &(text, expected) in files {
        let settings = read_settings(rt.alloc(), text)?;
        assert!(rt; lengths(&settings) == expected);
    }
    Ok(())
}

/// Whether a name is an administrator's, a dropped parameter's, an extra one's that is followed, an untracked one's.
fn roles(settings: &Settings, name: &[u8]) -> [bool; 4] {
    [
        settings.is_admin(name),
        settings.ignores(name),
        settings.tracks(name),
        settings.untracks(name),
    ]
}

#[test]
fn names_are_found(rt: HostRuntime) -> Result<(), Fail> {
    let settings = read_settings(rt.alloc(), EVERY_KEY)?;
    let rows: &[(&[u8], [bool; 4])] = &[
        (b"Ann", [true, false, false, false]),
        (b"ann", [false, false, false, false]),
        (b"options", [false, true, false, false]),
        (b"Search_Path", [false, false, true, false]),
        (b"IntervalStyle", [false, false, false, false]),
        (b"Application_Name", [false, false, false, true]),
    ];
    for &(name, expected) in rows {
        assert!(rt; roles(&settings, name) == expected);
    }
    Ok(())
}

/// Whether the names are `a`, `B` and `c`.
fn is_a_b_c(names: &Names) -> bool {
    match names.as_slice() {
        [a, b, c] => a.as_bytes() == b"a".as_slice()
            && b.as_bytes() == b"B".as_slice()
            && c.as_bytes() == b"c".as_slice(),
        _ => false,
    }
}

#[test]
fn names_of_a_list(rt: HostRuntime) -> Result<(), Fail> {
    let names = Names::read(rt.alloc(), b" a,B ,, c\t")?;
    assert!(rt; is_a_b_c(&names));
    assert!(rt; names.has(b"B") && !names.has(b"b"));
    assert!(rt; names.has_folded(b"b"));
    assert!(rt; Names::new(rt.alloc()).is_empty());
    Ok(())
}

/// A label of 63 bytes, a folder of 92 and a list of 255: the longest.
const MAX_LABEL: &str = "aaaaaaaaaaaaaaaaaaaaaaaaaaaaaaaaaaaaaaaaaaaaaaaaaaaaaaaaaaaaaaa";

const MAX_FOLDER: &str =
    "/fffffffffffffffffffffffffffffffffffffffffffffffffffffffffffffffffffffffffffffffffffffffffff";

const MAX_LIST: &str =
    "a,a,a,a,a,a,a,a,a,a,a,a,a,a,a,a,a,a,a,a,a,a,a,a,a,a,a,a,a,a,a,a,a,a,a,a,a,a,a,a,a,a,a,a,a,a,a,a,a,a,a,a,a,a,a,a,a,a,a,a,a,a,a,a,a,a,a,a,a,a,a,a,a,a,a,a,a,a,a,a,a,a,a,a,a,a,a,a,a,a,a,a,a,a,a,a,a,a,a,a,a,a,a,a,a,a,a,a,a,a,a,a,a,a,a,a,a,a,a,a,a,a,a,a,a,a,a,a";

#[test]
fn hosts_of_rows(rt: HostRuntime) -> Result<(), Fail> {
    let hosts: &[(&str, &str)] = &[
        ("localhost", "127.0.0.1"),
        ("::", "::"),
        ("::1", "::1"),
        ("1:2:3:4:5:6:7:8", "1:2:3:4:5:6:7:8"),
        ("fe80::AbCd", "fe80::AbCd"),
        ("1:2:3::5:6:7:8", "1:2:3::5:6:7:8"),
        ("db", "db"),
        ("db-1.example_x.com", "db-1.example_x.com"),
        ("1und1.de", "1und1.de"),
        ("/var/run/postgresql", "/var/run/postgresql"),
        ("a,::1,/tmp,10.0.0.1", "a,::1,/tmp,10.0.0.1"),
        (MAX_LABEL, MAX_LABEL),
        (MAX_FOLDER, MAX_FOLDER),
        (MAX_LIST, MAX_LIST),
    ];
    for &(said, kept) in hosts {
        let text = format!(in rt.alloc(); "[databases]\nx = host={said}")?;
        let settings = read_settings(rt.alloc(), text.as_bytes())?;
        assert!(rt; has_row(&settings, b"x", kept.as_bytes(), 5432, b"x"));
    }
    Ok(())
}

/// The user and the password of the row `x`.
fn user_and_password<'a>(settings: &'a Settings) -> Option<(Option<&'a [u8]>, Option<&'a [u8]>)> {
    let row = settings.row(b"x")?;
    Some((row.user, row.password))
}

#[test]
fn users_of_rows(rt: HostRuntime) -> Result<(), Fail> {
    let rows: &[(&str, Option<&[u8]>, Option<&[u8]>)] = &[
        ("", None, None),
        ("user=app", Some(b"app"), None),
        ("password=a=b user=app", Some(b"app"), Some(b"a=b")),
    ];
    for &(said, user, password) in rows {
        let text = format!(in rt.alloc(); "[databases]\nx = host=db {said}")?;
        let settings = read_settings(rt.alloc(), text.as_bytes())?;
        assert!(rt; user_and_password(&settings) == Some((user, password)));
    }
    let refused = [
        "user=",
        "password=a",
        "user=app password=",
        "user=app user=bc",
        "user=a\0b",
    ];
    for said in refused {
        let text = format!(in rt.alloc(); "[databases]\nx = host=db {said}")?;
        assert!(rt; read_settings(rt.alloc(), text.as_bytes()).is_err());
    }
    Ok(())
}

// A row of the name comes first, wherever it stands; 63 bytes are the longest name that PostgreSQL has.
#[test]
fn the_row_of_a_star(rt: HostRuntime) -> Result<(), Fail> {
    let text = b"[databases]\n* = host=db port=6000\nshop = host=::1";
    let settings = read_settings(rt.alloc(), text)?;
    let label = MAX_LABEL.as_bytes();
    assert!(rt; has_row(&settings, b"shop", b"::1", 5432, b"shop"));
    assert!(rt; has_row(&settings, label, b"db", 6000, label));
    let others: &[&[u8]] = &[b"", b"a\0b", &MAX_LIST.as_bytes()[..64]];
    for &name in others {
        assert!(rt; settings.row(name).is_none());
    }
    let named = read_settings(rt.alloc(), b"[databases]\n* = host=db dbname=press")?;
    assert!(rt; has_row(&named, b"news", b"db", 5432, b"press"));
    Ok(())
}

#[test]
fn addresses_that_are_listened_on(rt: HostRuntime) -> Result<(), Fail> {
    let rows: &[(&str, &[&[u8]])] = &[
        ("*", &[b"0.0.0.0"]),
        ("::", &[b"::"]),
        ("localhost", &[b"127.0.0.1"]),
        ("pool-1.example", &[b"pool-1.example"]),
        (" ::1 ,,10.0.0.1", &[b"::1", b"10.0.0.1"]),
    ];
    for &(said, kept) in rows {
        let text = format!(in rt.alloc(); "[pgbouncer]\nlisten_addr = {said}")?;
        let settings = read_settings(rt.alloc(), text.as_bytes())?;
        assert!(rt; are(settings.listen_addr(), kept));
    }
    Ok(())
}

#[test]
fn settings_of_sockets(rt: HostRuntime) -> Result<(), Fail> {
    let files: &[(&[u8], u32, bool)] = &[
        (EVERY_KEY, 0o660, false),
        (
            b"[pgbouncer]\ntcp_keepalive = 1\nunix_socket_mode = 0777",
            0o777,
            true,
        ),
        (
            b"[pgbouncer]\ntcp_keepalive = no\nunix_socket_mode = 770",
            0o770,
            true,
        ),
    ];
    for &(text, mode, keeps_alive) in files {
        let settings = read_settings(rt.alloc(), text)?;
        assert!(rt; settings.unix_socket_mode() == mode);
        assert!(rt; settings.tcp_keepalive() == keeps_alive);
    }
    Ok(())
}

#[test]
fn the_unix_socket(rt: HostRuntime) -> Result<(), Fail> {
    let files: &[(&[u8], &[u8], &[u8])] = &[
        (b"", b"", b""),
        (EVERY_KEY, b"/run/pool", b"www"),
        (
            b"[pgbouncer]\nunix_socket_dir = a b\nunix_socket_group =",
            b"a b",
            b"",
        ),
    ];
    for &(text, folder, group) in files {
        let settings = read_settings(rt.alloc(), text)?;
        assert!(rt; settings.unix_socket_dir() == folder);
        assert!(rt; settings.unix_socket_group() == group);
    }
    Ok(())
}

const FIGURES: &[u8] =
    b"[pgbouncer]\nserver_connect_timeout = 0\nclient_login_timeout = 2147483647\nstats_users = Mon, ,\"a b\"\nstats_period = 1\nlog_stats = 0\nconsole_style = pgbouncer\nmetrics_addr = localhost, ::1\nmetrics_port = 65535\n";

#[test]
fn settings_of_figures(rt: HostRuntime) -> Result<(), Fail> {
    let files: &[(&[u8], bool, ConsoleStyle)] = &[
        (b"", true, ConsoleStyle::Own),
        (FIGURES, false, ConsoleStyle::PgBouncer),
        (
            b"[pgbouncer]\nlog_stats = no\nconsole_style = pgsess",
            true,
            ConsoleStyle::Own,
        ),
    ];
    for &(text, is_logged, style) in files {
        let settings = read_settings(rt.alloc(), text)?;
        assert!(rt; settings.log_stats() == is_logged);
        assert!(rt; settings.console_style() == style);
    }
    Ok(())
}

#[test]
fn addresses_of_figures(rt: HostRuntime) -> Result<(), Fail> {
    let files: &[(&[u8], &[&[u8]], usize)] = &[
        (b"", &[], 0),
        (FIGURES, &[b"127.0.0.1", b"::1"], 2),
    ];
    for &(text, addresses, users) in files {
        let settings = read_settings(rt.alloc(), text)?;
        assert!(rt; are(settings.metrics_addr(), addresses));
        assert!(rt; settings.stats_users().len() == users);
    }
    Ok(())
}

// Byte for byte, as admin users are; who may look is none of these.
#[test]
fn who_may_look(rt: HostRuntime) -> Result<(), Fail> {
    let settings = read_settings(rt.alloc(), FIGURES)?;
    let rows: &[(&[u8], bool)] = &[
        (b"Mon", true),
        (b"mon", false),
        (b"\"a b\"", true),
        (b"", false),
    ];
    for &(user, looks) in rows {
        assert!(rt; settings.may_look(user) == looks);
        assert!(rt; !settings.is_admin(user));
    }
    Ok(())
}

/// Keys of PgBouncer at the values that ask for nothing: its defaults, and what tunes its own works.
const NEUTRAL: &[u8] =
    b"[databases]\nx = host=db pool_mode=session min_pool_size=0 reserve_pool=0 reserve_pool_size=0 max_db_connections=0\n[pgbouncer]\nmin_pool_size = 0\nreserve_pool_size = 0\nreserve_pool_timeout = 5.0\nclient_idle_timeout = 0\nserver_check_query = select 1\nmax_prepared_statements = 200\nso_reuseport = 1\nclient_tls_sslmode = disable\nclient_tls_key_file = k\nserver_tls_sslmode = prefer\nauth_query =\nuser =\nserver_reset_query = DISCARD ALL;\n";

#[test]
fn keys_that_ask_for_nothing(rt: HostRuntime) -> Result<(), Fail> {
    let settings = read_settings(rt.alloc(), NEUTRAL)?;
    assert!(rt; has_row(&settings, b"x", b"db", 5432, b"x"));
    assert!(rt; numbers(&settings) == NUMBERS_AT_FIRST);
    Ok(())
}
