//! What a report says of settings and users, and what the start does.
use settings_check::notices::notices;
use settings_check::options::value_given;
use settings_check::report::{UserFile, report_on};
use std::test::Fail;
use text_lines::Text;

/// Whether the lines are these.
fn are(lines: &[Text], expected: &[&[u8]]) -> bool {
    lines.len() == expected.len()
        && lines
            .iter()
            .zip(expected)
            .all(|(line, text)| line.as_bytes() == *text)
}

const SETTINGS: &[u8] =
    b"\"ann\" \"x=y\"\n[databases]\na = host=x auth_user=app\nb = port=1\nc = host=x PassWord=y\n[pgbouncer]\nuser = root\nlisten_port = 0\x07\nlogfile = l\nlogfile = m\nauth_file = f\nserver_tls_sslmode = prefer\n%include y\nlisten_addr = *\nunix_socket_dir =\nlog_connections = 1\nlog_disconnections = 1\n";

const LINES: &[&[u8]] = &[
    b"i line 1: C7: neither a header nor a key and its value below one",
    b"i line 3: a = host=x auth_user=app: C3: auth_user is not served in a row, or not at this value",
    b"i line 4: b = port=1: C3: no host; with PgBouncer it is the folder of its Unix sockets: write it, as host=/var/run/postgresql",
    b"i line 5: c = host=x PassWord..: C3: PassWord is not served in a row, or not at this value",
    b"i line 7: user = root: C2: asks for what is not done; no value is read over",
    b"i line 8: listen_port = 0\\x07: C3: takes a number from 1 to 65535",
    b"i line 10: logfile = m: C4: given above already",
    b"i line 13: C7: no file is included: its lines belong here",
    b"no user file: neither --users nor auth_file names one",
    b"i: read over: logfile, auth_file, server_tls_sslmode",
];

#[test]
fn every_fault_of_the_settings(rt: HostRuntime) -> Result<(), Fail> {
    let report = report_on(rt.alloc(), b"i", SETTINGS, UserFile::Unnamed, false)?;
    assert!(rt; report.is_faulty);
    let [lines @ .., tls] = report.lines.as_slice() else {
        assert!(rt; false);
        return Ok(());
    };
    assert!(rt; are(lines, LINES));
    assert!(rt; tls.as_bytes() == b"i: no TLS to servers (server_tls_sslmode = prefer)".as_slice());
    Ok(())
}

#[test]
fn every_fault_of_the_users(rt: HostRuntime) -> Result<(), Fail> {
    let users = b"; c\n\"ann\" \"a\"\nbob b\n\"ann\" \"b\"\n";
    let report = report_on(rt.alloc(), b"i", b"", UserFile::Read(b"u", users), true)?;
    let expected: [&[u8]; 2] = [
        b"u line 3: U1: not a name that is not empty and a secret, each in double quotes",
        b"u line 4: \"ann\": U2: given above already",
    ];
    assert!(rt; report.is_faulty);
    assert!(rt; report.lines.len() == 7);
    assert!(rt; are(&report.lines.as_slice()[..2], expected.as_slice()));
    Ok(())
}

#[test]
fn what_the_start_says(rt: HostRuntime) -> Result<(), Fail> {
    let text = b"[pgbouncer]\nauth_file = u\nso_reuseport = 1\nserver_tls_sslmode = disable\n";
    let files: &[(bool, &[u8])] = &[
        (true, b"read over: so_reuseport, server_tls_sslmode"),
        (
            false,
            b"read over: auth_file, so_reuseport, server_tls_sslmode",
        ),
    ];
    for &(uses_auth_file, said) in files {
        let lines = notices(rt.alloc(), uses_auth_file, text)?;
        assert!(rt; are(lines.as_slice(), &[said]));
    }
    assert!(rt; notices(rt.alloc(), true, b"[pgbouncer]\nauth_file = u\n")?.is_empty());
    assert!(rt; value_given(text, b"auth_file") == Some(b"u".as_slice()));
    Ok(())
}
