//! Clients' StartupMessages under settings.
use crate::key_parts::{has_parameters, is_at, is_of};
use ini_config::read_settings;
use message_view::StartupView;
use param_track::{StartKeyError, start_key};
use start_keys::{Host, StartKey};
use std::alloc::Global;
use std::test::Fail;

const SETTINGS: &[u8] =
    b"[databases]\nshop = host=127.0.0.1 port=5432 dbname=shop\nnews = host=10.1.2.3 port=6000 dbname=press\n\
[pgbouncer]\ntrack_extra_parameters = IntervalStyle, Search_Path, USER\nignore_startup_parameters = Extra_Float_Digits, Database, intervalstyle\n";

/// A client that wants to replicate.
const REPLICATION: &[u8] = b"user\0ann\0Replication\0database\0\0";

fn key(alloc: Global, text: &[u8], body: &[u8]) -> Result<Result<StartKey, StartKeyError>, Fail> {
    let settings = read_settings(alloc, text)?;
    let view = StartupView::read(body)?;
    Ok(start_key(alloc, &settings, &view))
}

fn fault(alloc: Global, text: &[u8], body: &[u8]) -> Result<Option<StartKeyError>, Fail> {
    Ok(key(alloc, text, body)?.err())
}

#[test]
fn of_a_row(rt: HostRuntime) -> Result<(), Fail> {
    let key = key(rt.alloc(), SETTINGS, b"user\0ann\0database\0news\0\0")??;
    assert!(rt; is_of(&key, b"news", b"press", b"ann"));
    assert!(rt; is_at(&key, Host::new(b"10.1.2.3"), 6000));
    assert!(rt; has_parameters(&key, &[]));
    Ok(())
}

#[test]
fn of_no_row(rt: HostRuntime) -> Result<(), Fail> {
    let key = key(rt.alloc(), SETTINGS, b"user\0ann\0database\0\0\0")??;
    assert!(rt; is_of(&key, b"ann", b"", b"ann"));
    assert!(rt; is_at(&key, None, 0));
    Ok(())
}

// `*` serves what no other row names, on a server's database of the same name or of its own dbname (PgBouncer manual, "Section [databases]").
#[test]
fn of_the_row_of_a_star(rt: HostRuntime) -> Result<(), Fail> {
    let rows: &[(&[u8], &[u8])] = &[
        (
            b"[databases]\n* = host=db port=6000\nshop = host=127.0.0.1\n",
            b"news",
        ),
        (
            b"[databases]\n* = host=db port=6000 dbname=press\n",
            b"press",
        ),
    ];
    for &(text, dbname) in rows {
        let key = key(rt.alloc(), text, b"user\0ann\0database\0news\0\0")??;
        assert!(rt; is_of(&key, b"news", dbname, b"ann"));
        assert!(rt; is_at(&key, Host::new(b"db"), 6000));
    }
    Ok(())
}

#[test]
fn parameters_by_name(rt: HostRuntime) -> Result<(), Fail> {
    let body =
        b"user\0bob\0TimeZone\0UTC\0application_name\0a\0user\0ann\0Application_Name\0b\0extra_float_digits\x002\0search_path\0x\0INTERVALSTYLE\0iso_8601\0\0";
    let key = key(rt.alloc(), SETTINGS, body)??;
    let wanted: [(&[u8], &[u8]); 4] = [
        (b"application_name", b"b"),
        (b"intervalstyle", b"iso_8601"),
        (b"search_path", b"x"),
        (b"timezone", b"UTC"),
    ];
    assert!(rt; key.user.is(b"ann"));
    assert!(rt; has_parameters(&key, &wanted));
    Ok(())
}

#[test]
fn faults(rt: HostRuntime) -> Result<(), Fail> {
    let rows: &[(&[u8], StartKeyError)] = &[
        (b"\0", StartKeyError::NoUser),
        (b"database\0shop\0\0", StartKeyError::NoUser),
        (b"user\0ann\0user\0\0options\0x\0\0", StartKeyError::NoUser),
        (b"User\0ann\0\0", StartKeyError::NoUser),
        (
            b"user\0ann\0options\0-c x=y\0\0",
            StartKeyError::UnsupportedParameter,
        ),
        (
            b"user\0ann\0USER\0bob\0\0",
            StartKeyError::UnsupportedParameter,
        ),
        (
            b"user\0ann\0_pq_.x\0\0\0",
            StartKeyError::UnsupportedParameter,
        ),
        (
            b"user\0ann\0replication\0true\0\0",
            StartKeyError::Replication,
        ),
        (
            b"Replication\0\0user\0ann\0options\0\0\0",
            StartKeyError::UnsupportedParameter,
        ),
    ];
    for &(body, wanted) in rows {
        assert!(rt; fault(rt.alloc(), SETTINGS, body)? == Some(wanted));
    }
    Ok(())
}

#[test]
fn replication_that_is_tracked(rt: HostRuntime) -> Result<(), Fail> {
    let tracked = b"[pgbouncer]\ntrack_extra_parameters = replication\n";
    assert!(rt; fault(rt.alloc(), tracked, REPLICATION)? == Some(StartKeyError::Replication));
    Ok(())
}

#[test]
fn replication_that_is_ignored(rt: HostRuntime) -> Result<(), Fail> {
    let ignored = b"[pgbouncer]\nignore_startup_parameters = replication\n";
    let key = key(rt.alloc(), ignored, REPLICATION)??;
    assert!(rt; has_parameters(&key, &[]));
    Ok(())
}

#[test]
fn replication_that_is_both(rt: HostRuntime) -> Result<(), Fail> {
    let both =
        b"[pgbouncer]\ntrack_extra_parameters = replication\nignore_startup_parameters = replication\n";
    let key = key(rt.alloc(), both, REPLICATION)??;
    assert!(rt; has_parameters(&key, &[(b"replication", b"database")]));
    Ok(())
}

/// A client with a name of its own.
const NAMED: &[u8] = b"user\0ann\0timezone\0UTC\0Application_Name\0one\0\0";

#[test]
fn untracked_and_ignored_is_dropped(rt: HostRuntime) -> Result<(), Fail> {
    let dropped =
        b"[pgbouncer]\nuntrack_parameters = Application_Name\nignore_startup_parameters = application_name\n";
    let one = key(rt.alloc(), dropped, NAMED)??;
    assert!(rt; has_parameters(&one, &[(b"timezone", b"UTC")]));
    let other = b"user\0ann\0application_name\0another\0timezone\0UTC\0\0";
    let other = key(rt.alloc(), dropped, other)??;
    assert!(rt; one == other);
    Ok(())
}

#[test]
fn untracked_alone_is_refused(rt: HostRuntime) -> Result<(), Fail> {
    let untracked = b"[pgbouncer]\nuntrack_parameters = application_name\n";
    let told = fault(rt.alloc(), untracked, NAMED)?;
    assert!(rt; told == Some(StartKeyError::UnsupportedParameter));
    Ok(())
}

#[test]
fn untracked_and_extra_is_followed(rt: HostRuntime) -> Result<(), Fail> {
    let both =
        b"[pgbouncer]\nuntrack_parameters = timezone, application_name\ntrack_extra_parameters = TimeZone\nignore_startup_parameters = application_name\n";
    let key = key(rt.alloc(), both, NAMED)??;
    assert!(rt; has_parameters(&key, &[(b"timezone", b"UTC")]));
    Ok(())
}

#[test]
fn folded_to_identity_is_dropped(rt: HostRuntime) -> Result<(), Fail> {
    let key = key(rt.alloc(), SETTINGS, b"user\0ann\0DataBase\0news\0\0")??;
    assert!(rt; key.row.is(b"ann"));
    assert!(rt; has_parameters(&key, &[]));
    Ok(())
}
