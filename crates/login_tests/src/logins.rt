//! Worked logins, each cut at every byte.
use crate::login_parts::{
    ANN, ARRIVES, BC, End, MALFORMED, OK, ROOT_AT_CONSOLE, WRONG, ZED, cut_at, is_login, joined,
    login,
};
use login_core::LoginStep;
use std::alloc::Global;
use std::test::Fail;

const SHOP: &[u8] =
    b"[databases]\nshop = host=127.0.0.1 port=5432 dbname=shop\n[pgbouncer]\nauth_type = trust\nadmin_users = root\n";

const SHOP_PLAIN: &[u8] =
    b"[databases]\nshop = host=127.0.0.1 port=5432 dbname=shop\n[pgbouncer]\nauth_type = plain\nadmin_users = root\n";

const SHOP_MD5: &[u8] =
    b"[databases]\nshop = host=127.0.0.1 port=5432 dbname=shop\n[pgbouncer]\nadmin_users = root\n";

const LOOKED_AT: &[u8] =
    b"[databases]\nshop = host=127.0.0.1\n[pgbouncer]\nauth_type = plain\nadmin_users = root\nstats_users = bc\n";

const OF_APP: &[u8] =
    b"[databases]\nshop = host=127.0.0.1 user=app\n[pgbouncer]\nauth_type = plain\nadmin_users = root\n";

const CLEARTEXT: &[u8] = b"R\0\0\0\x08\0\0\0\x03";

const SALTED: &[u8] = b"R\0\0\0\x0c\0\0\0\x05\x01\x02\x03\x04";

const NOWHERE: &[u8] = b"E\0\0\0\x33SFATAL\0VFATAL\0C3D000\0Mdatabase does not exist\0\0";

const VERSION: &[u8] = b"E\0\0\0\x38SFATAL\0VFATAL\0C0A000\0Munsupported protocol version\0\0";

const PARAMETER: &[u8] = b"E\0\0\0\x39SFATAL\0VFATAL\0C0A000\0Munsupported startup parameter\0\0";

const SSL: &[u8] = b"\0\0\0\x08\x04\xd2\x16\x2f";

const GSS: &[u8] = b"\0\0\0\x08\x04\xd2\x16\x30";

/// Whether the login of these packets passes with ann's key on shop, and with this `application_name` alone, if one is named.
fn has_key(
    alloc: Global,
    packets: &[&[u8]],
    cut: usize,
    name: Option<&[u8]>,
) -> Result<bool, Fail> {
    let seen = cut_at(alloc, SHOP, joined(alloc, packets)?.as_slice(), cut)?;
    let key = seen.key.ok_or("no key")?;
    let is_named = match (key.parameters.as_slice(), name) {
        ([], None) => true,
        ([parameter], Some(name)) => parameter.0.as_slice() == b"application_name".as_slice()
            && parameter.1.as_slice() == name,
        _ => false,
    };
    let is_anns = key.row.as_slice() == b"shop".as_slice()
        && key.user.as_slice() == b"ann".as_slice()
        && key.port == 5432;
    Ok(is_named && is_anns)
}

/// Whether the login of these packets passes with a key of this user.
fn passes_as(alloc: Global, ini: &[u8], packets: &[&[u8]], user: &[u8]) -> Result<bool, Fail> {
    let seen = cut_at(alloc, ini, joined(alloc, packets)?.as_slice(), 0)?;
    let key = seen.key.ok_or("no key")?;
    Ok(seen.end == End::Passed && key.user.as_slice() == user)
}

#[test]
fn a_rows_user_is_that_of_the_link(rt: HostRuntime) -> Result<(), Fail> {
    let alloc = rt.alloc();
    let anns: &[&[u8]] = &[ANN, b"p\0\0\0\x0bsecret\0"];
    assert!(rt;
        is_login(
            alloc,
            OF_APP,
            anns,
            &[ARRIVES, CLEARTEXT, OK],
            End::Passed,
            0
        )?
    );
    assert!(rt; passes_as(alloc, OF_APP, anns, b"app")?);
    assert!(rt; passes_as(alloc, SHOP_PLAIN, anns, b"ann")?);
    let others: &[&[u8]] = &[ANN, b"p\0\0\0\x08app\0"];
    assert!(rt;
        is_login(
            alloc,
            OF_APP,
            others,
            &[ARRIVES, CLEARTEXT, WRONG],
            End::Closed,
            0
        )?
    );
    Ok(())
}

#[test]
fn a_start_is_let_in(rt: HostRuntime) -> Result<(), Fail> {
    let alloc = rt.alloc();
    assert!(rt; is_login(alloc, SHOP, &[ANN], &[ARRIVES, OK], End::Passed, 0)?);
    assert!(rt; has_key(alloc, &[ANN], 0, None)?);
    Ok(())
}

#[test]
fn encryption_is_refused_once_each(rt: HostRuntime) -> Result<(), Fail> {
    let alloc = rt.alloc();
    let rows: &[(&[&[u8]], &[&[u8]], End, usize)] = &[
        (&[SSL, ANN], &[b"N", ARRIVES, OK], End::Passed, 0),
        (&[SSL, SSL, ANN], &[b"N", MALFORMED], End::Closed, ANN.len()),
        (&[GSS, SSL, ANN], &[b"N", b"N", ARRIVES, OK], End::Passed, 0),
        (&[SSL, GSS, GSS], &[b"N", b"N", MALFORMED], End::Closed, 0),
    ];
    for &(packets, out, end, left) in rows {
        assert!(rt; is_login(alloc, SHOP, packets, out, end, left)?);
    }
    Ok(())
}

/// Also behind a request for encryption. What follows it isn't read.
#[test]
fn a_cancel_request_tells_its_key(rt: HostRuntime) -> Result<(), Fail> {
    let alloc = rt.alloc();
    let cancel = b"\0\0\0\x10\x04\xd2\x16\x2e\0\0\0\x01\xff\0\0\x02";
    let end = End::Cancel {
        pid: 1,
        secret: 0xff00_0002,
    };
    assert!(rt; is_login(alloc, SHOP, &[cancel], &[], end, 0)?);
    assert!(rt; is_login(alloc, SHOP, &[SSL, cancel, ANN], &[b"N"], end, ANN.len())?);
    Ok(())
}

#[test]
fn what_follows_is_left(rt: HostRuntime) -> Result<(), Fail> {
    let alloc = rt.alloc();
    let start = b"\0\0\0\x33\0\x03\0\0user\0ann\0database\0shop\0application_name\0b\0\0";
    let query = b"Q\0\0\0\x20SET application_name TO 'z'\0";
    let out: [&[u8]; 2] = [ARRIVES, OK];
    assert!(rt; is_login(alloc, SHOP, &[start, query], &out, End::Passed, query.len())?);
    assert!(rt; has_key(alloc, &[start, query], 7, Some(b"b"))?);
    Ok(())
}

#[test]
fn the_last_of_equal_names_counts(rt: HostRuntime) -> Result<(), Fail> {
    let start =
        b"\0\0\0\x46\0\x03\0\0user\0ann\0database\0shop\0application_name\0a\0Application_Name\0b\0\0";
    assert!(rt; has_key(rt.alloc(), &[start], 40, Some(b"b"))?);
    Ok(())
}

#[test]
fn plain_passwords(rt: HostRuntime) -> Result<(), Fail> {
    let alloc = rt.alloc();
    let rows: &[(&[u8], &[u8], &[u8], End, usize)] = &[
        (BC, b"p\0\0\0\x06a\0", OK, End::Passed, 0),
        (ANN, b"p\0\0\0\x0bsecret\0Q", OK, End::Passed, 1),
        (BC, b"p\0\0\0\x06b\0", WRONG, End::Closed, 0),
        (ZED, b"p\0\0\0\x06b\0", WRONG, End::Closed, 0),
    ];
    for &(start, password, told, end, left) in rows {
        let out: [&[u8]; 3] = [ARRIVES, CLEARTEXT, told];
        assert!(rt; is_login(alloc, SHOP_PLAIN, &[start, password], &out, end, left)?);
    }
    Ok(())
}

#[test]
fn salted_passwords(rt: HostRuntime) -> Result<(), Fail> {
    let alloc = rt.alloc();
    let rows: &[(&[u8], &[u8], &[u8], End)] = &[
        (
            ANN,
            b"p\0\0\0\x28md59009ce60b9ca97f1e752376843d1309e\0",
            OK,
            End::Passed,
        ),
        (
            BC,
            b"p\0\0\0\x28md596838e208aad1ff8fc396693d03e488d\0",
            OK,
            End::Passed,
        ),
        (
            ANN,
            b"p\0\0\0\x28md59009ce60b9ca97f1e752376843d13090\0",
            WRONG,
            End::Closed,
        ),
    ];
    for &(start, answer, told, end) in rows {
        let out: [&[u8]; 3] = [ARRIVES, SALTED, told];
        assert!(rt; is_login(alloc, SHOP_MD5, &[start, answer], &out, end, 0)?);
    }
    Ok(())
}

#[test]
fn in_the_stead_of_a_password(rt: HostRuntime) -> Result<(), Fail> {
    let alloc = rt.alloc();
    let rows: &[(&[u8], &[&[u8]], usize)] = &[
        (b"X\0\0\0\x04", &[ARRIVES, CLEARTEXT], 0),
        (b"Q\0\0\0\x05\0", &[ARRIVES, CLEARTEXT, MALFORMED], 0),
        (
            b"p\0\0\0\x0dsecret\0\0\0",
            &[ARRIVES, CLEARTEXT, MALFORMED],
            0,
        ),
        (b"p\0\0\0\x0asecret", &[ARRIVES, CLEARTEXT, MALFORMED], 0),
        (b"p\0\0\x27\x11", &[ARRIVES, CLEARTEXT, MALFORMED], 0),
        (b"?\0\0\0\x04", &[ARRIVES, CLEARTEXT, MALFORMED], 0),
    ];
    for &(message, out, left) in rows {
        assert!(rt; is_login(alloc, SHOP_PLAIN, &[ANN, message], out, End::Closed, left)?);
    }
    Ok(())
}

#[test]
fn users_databases_and_the_console(rt: HostRuntime) -> Result<(), Fail> {
    let rows: &[(&[u8], &[&[u8]], End)] = &[
        (
            b"\0\0\0\x23\0\x03\0\0user\0ann\0database\0nowhere\0\0",
            &[ARRIVES, NOWHERE],
            End::Closed,
        ),
        (
            b"\0\0\0\x26\0\x03\0\0user\0root\0database\0pgbouncer\0\0",
            &[ARRIVES],
            End::Console,
        ),
        (
            b"\0\0\0\x25\0\x03\0\0user\0ann\0database\0pgbouncer\0\0",
            &[ARRIVES, WRONG],
            End::Closed,
        ),
        (
            b"\0\0\0\x23\0\x03\0\0user\0zed\0database\0nowhere\0\0",
            &[ARRIVES, WRONG],
            End::Closed,
        ),
        (ZED, &[ARRIVES, WRONG], End::Closed),
        (
            b"\0\0\0\x30\0\x03\0\0user\0ann\0database\0shop\0DateStyle\0bogus\0\0",
            &[ARRIVES, OK],
            End::Passed,
        ),
    ];
    for &(start, out, end) in rows {
        assert!(rt; is_login(rt.alloc(), SHOP, &[start], out, end, 0)?);
    }
    Ok(())
}

const BC_AT_CONSOLE: &[u8] = b"\0\0\0\x24\0\x03\0\0user\0bc\0database\0pgbouncer\0\0";

const ANN_AT_CONSOLE: &[u8] = b"\0\0\0\x25\0\x03\0\0user\0ann\0database\0pgbouncer\0\0";

const ROOT: &[u8] = b"\0\0\0\x21\0\x03\0\0user\0root\0database\0shop\0\0";

// One of `stats_users` enters the console as one of `admin_users` does, by its own password.
#[test]
fn who_may_look_enters_the_console(rt: HostRuntime) -> Result<(), Fail> {
    let rows: &[(&[u8], &[u8], &[&[u8]], End)] = &[
        (
            BC_AT_CONSOLE,
            b"p\0\0\0\x06a\0",
            &[ARRIVES, CLEARTEXT],
            End::Console,
        ),
        (
            BC_AT_CONSOLE,
            b"p\0\0\0\x06b\0",
            &[ARRIVES, CLEARTEXT, WRONG],
            End::Closed,
        ),
        (
            ROOT_AT_CONSOLE,
            b"p\0\0\0\x06r\0",
            &[ARRIVES, CLEARTEXT],
            End::Console,
        ),
        (
            ANN_AT_CONSOLE,
            b"p\0\0\0\x0bsecret\0",
            &[ARRIVES, CLEARTEXT, WRONG],
            End::Closed,
        ),
    ];
    for &(start, password, out, end) in rows {
        assert!(rt; is_login(rt.alloc(), LOOKED_AT, &[start, password], out, end, 0)?);
    }
    Ok(())
}

/// Whether the client of this StartupMessage arrives at the console; `false` where it doesn't arrive, or is there before.
fn arrives_at_console(alloc: Global, start: &[u8]) -> Result<bool, Fail> {
    let mut login = login(alloc, LOOKED_AT)?;
    let mut rest = start;
    for _ in 0..4 {
        if login.arrives_at_console() {
            return Ok(false);
        }
        let (used, step) = login.on_bytes(alloc, rest);
        rest = &rest[used..];
        if matches!(&step, LoginStep::Arrived(_)) {
            return Ok(login.arrives_at_console());
        }
    }
    Ok(false)
}

#[test]
fn who_arrives_at_the_console(rt: HostRuntime) -> Result<(), Fail> {
    let rows: &[(&[u8], bool)] = &[
        (ROOT_AT_CONSOLE, true),
        (BC_AT_CONSOLE, true),
        (ANN_AT_CONSOLE, false),
        (ROOT, false),
        (BC, false),
    ];
    for &(start, wanted) in rows {
        assert!(rt; arrives_at_console(rt.alloc(), start)? == wanted);
    }
    Ok(())
}

#[test]
fn faulty_first_packets(rt: HostRuntime) -> Result<(), Fail> {
    let alloc = rt.alloc();
    let rows: &[(&[u8], &[&[u8]])] = &[
        (b"\0\0\0\x08\0\x02\0\0", &[VERSION]),
        (b"\0\0\0\x07", &[MALFORMED]),
        (b"\0\0\x27\x11", &[MALFORMED]),
        (b"\0\0\0\x09\0\x03\0\0\0", &[MALFORMED]),
        (b"\0\0\0\x0a\0\x03\0\0us", &[MALFORMED]),
        (
            b"\0\0\0\x1d\0\x03\0\0user\0ann\0options\0-c\0\0",
            &[PARAMETER],
        ),
    ];
    for &(input, out) in rows {
        assert!(rt; is_login(alloc, SHOP, &[input], out, End::Closed, 0)?);
    }
    Ok(())
}

/// A StartupMessage of ann with an application_name of so many bytes.
fn long_start(alloc: Global, size: usize) -> Result<Vec<u8>, Fail> {
    let mut input: Vec<u8> = Vec::new(alloc);
    let length = (size.min(20_000) as u32 + 50).to_be_bytes();
    input.extend_from_slice(&length)?;
    input.extend_from_slice(b"\0\x03\0\0user\0ann\0database\0shop\0application_name\0")?;
    for _ in 0..size {
        input.push(b'a')?;
    }
    input.extend_from_slice(b"\0\0")?;
    Ok(input)
}

/// Whether a first packet with a name of so many bytes, cut there, gives the client this, and all of it is taken where it passes.
fn is_long_login(alloc: Global, size: usize, cut: usize, out: &[&[u8]]) -> Result<bool, Fail> {
    let input = long_start(alloc, size)?;
    let wanted = joined(alloc, out)?;
    let seen = cut_at(alloc, SHOP, input.as_slice(), cut)?;
    let is_taken = seen.end != End::Passed || seen.taken == input.len();
    Ok(
        seen.out.as_slice() == wanted.as_slice()
            && is_taken
            && input.len() == size.saturating_add(50),
    )
}

/// Of 10,000 bytes; one more is too many.
#[test]
fn the_longest_first_packet(rt: HostRuntime) -> Result<(), Fail> {
    let alloc = rt.alloc();
    for cut in [1, 4, 9, 5_000, 9_999] {
        assert!(rt; is_long_login(alloc, 9_950, cut, &[ARRIVES, OK])?, "{cut}");
    }
    assert!(rt; is_long_login(alloc, 9_951, 3, &[MALFORMED])?);
    Ok(())
}

#[test]
fn a_login_tells_what_it_wants(rt: HostRuntime) -> Result<(), Fail> {
    let alloc = rt.alloc();
    let mut login = login(alloc, SHOP_PLAIN)?;
    assert!(rt; login.wants() == 8);
    let (used, _) = login.on_bytes(alloc, &ANN[..8]);
    assert!(rt; used == 8);
    assert!(rt; login.wants() == 24);
    assert!(rt; login.users().len() == 4);
    assert!(rt; login.settings().listen_port() == 6432);
    Ok(())
}
