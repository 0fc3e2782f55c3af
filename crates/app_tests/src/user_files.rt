//! Faults of the user file, the users that it names, and what shows of them.
use std::alloc::Global;
use std::fmt::Debug;
use std::test::Fail;
use user_file::{Secret, UserCause, UserError, UserRow, UserTable, read_users};

fn fault(alloc: Global, text: &[u8]) -> Option<(UserCause, usize)> {
    match read_users(alloc, text) {
        Ok(_) => None,
        Err(fault) => Some((fault.cause, fault.line)),
    }
}

#[test]
fn faults_and_their_lines(rt: HostRuntime) -> Result<(), Fail> {
    let rows: &[(&[u8], UserCause, usize)] = &[
        (b"\"x\" \"y\"\n\"a\" \"b", UserCause::BadQuoting, 2),
        (b"\"a\" \"b", UserCause::BadQuoting, 1),
        (b"\"a\"", UserCause::BadQuoting, 1),
        (b"\"a\" ", UserCause::BadQuoting, 1),
        (b"a \"b\"", UserCause::BadQuoting, 1),
        (b"\"a\" b", UserCause::BadQuoting, 1),
        (b"\"\" \"b\"", UserCause::BadQuoting, 1),
        (b"\"a\"\"b\"", UserCause::BadQuoting, 1),
        (b"\"a\"x\"b\"", UserCause::BadQuoting, 1),
        (b"\"a\" \"x\"\n\n; c\n\"a\" \"y\"", UserCause::NameTwice, 4),
        (b"\"a\"\"\" \"x\"\n\"a\"\"\" \"y\"", UserCause::NameTwice, 2),
        (b"\"a\" \"x\"\n\"a\" \"y", UserCause::BadQuoting, 2),
    ];
    for &(text, cause, line) in rows {
        assert!(rt; fault(rt.alloc(), text) == Some((cause, line)));
    }
    Ok(())
}

/// Whether the secret is this password, as it stands in the file.
fn is_plain(row: &UserRow, password: &[u8]) -> bool {
    match &row.secret {
        Secret::Plain(text) => text.as_bytes() == password,
        Secret::Md5(_) | Secret::Scram(_) | Secret::Unusable => false,
    }
}

/// Whether the file has this user with this password.
fn has_user(users: &UserTable, name: &[u8], password: &[u8]) -> bool {
    match users.row(name) {
        Some(user) => user.name.as_bytes() == name && is_plain(user, password),
        None => false,
    }
}

#[test]
fn users_of_a_file(rt: HostRuntime) -> Result<(), Fail> {
    let text = b"# users\r\n\"a\"\"b\" \"c d\" rest\r\n \"e\"\t\"f\"x\n\"Ann\" \"\"\"\"\n";
    let users = read_users(rt.alloc(), text)?;
    assert!(rt; users.len() == 3);
    let rows: &[(&[u8], &[u8], bool)] = &[
        (b"a\"b", b"c d", true),
        (b"e", b"f", true),
        (b"Ann", b"\"", true),
        (b"ann", b"\"", false),
    ];
    for &(name, password, expected) in rows {
        assert!(rt; has_user(&users, name, password) == expected);
    }
    Ok(())
}

fn shows<D: Debug>(alloc: Global, value: &D, expected: &str) -> Result<bool, Fail> {
    let shown = format!(in alloc; "{:?}", value)?;
    Ok(shown.as_str() == expected)
}

#[test]
fn users_show_no_secret(rt: HostRuntime) -> Result<(), Fail> {
    let users = read_users(rt.alloc(), b"\"ann\" \"hunter2\"")?;
    assert!(rt; shows(rt.alloc(), &users, "UserTable(..)")?);
    let user = users.row(b"ann").ok_or("no row")?;
    assert!(rt; shows(rt.alloc(), user, "UserRow(..)")?);
    Ok(())
}

#[test]
fn secrets_show_their_kind_alone(rt: HostRuntime) -> Result<(), Fail> {
    let rows: &[(&[u8], &str)] = &[
        (b"hunter2", "Plain(..)"),
        (b"", "Unusable"),
        (b"SCRAM-SHA-256$4096", "Unusable"),
        (
            b"SCRAM-SHA-256$1:AA==$AAAAAAAAAAAAAAAAAAAAAAAAAAAAAAAAAAAAAAAAAAA=:AAAAAAAAAAAAAAAAAAAAAAAAAAAAAAAAAAAAAAAAAAA=",
            "Scram(..)",
        ),
        (b"md5900150983cd24fb0d6963f7d28e17f72", "Md5(..)"),
    ];
    for &(text, expected) in rows {
        let secret = Secret::read(rt.alloc(), text)?;
        assert!(rt; shows(rt.alloc(), &secret, expected)?);
    }
    Ok(())
}

#[test]
fn a_fault_shows_as_code_and_line(rt: HostRuntime) -> Result<(), Fail> {
    let rows = [
        (UserCause::BadQuoting, "U1 line 7"),
        (UserCause::NameTwice, "U2 line 7"),
        (UserCause::Memory, "U3 line 7"),
    ];
    for (cause, text) in rows {
        let fault = UserError { cause, line: 7 };
        let line = format!(in rt.alloc(); "{fault}")?;
        assert!(rt; line.as_str() == text);
    }
    Ok(())
}
