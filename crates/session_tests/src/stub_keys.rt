//! The keys by which stand-in servers start their own sessions, and keys that are compared.
use crate::key_parts::{has_parameters, is_at, is_of};
use message_view::StartupView;
use session_values::cause::Cause;
use session_values::stop::Stop;
use start_keys::{Host, StartKey, stub_key};
use std::alloc::Global;
use std::hash::{DefaultHasher, Hash, Hasher};
use std::test::Fail;

fn key(alloc: Global, body: &[u8]) -> Result<Result<StartKey, Stop>, Fail> {
    let view = StartupView::read(body)?;
    Ok(stub_key(alloc, &view))
}

fn hash_of(key: &StartKey) -> u64 {
    let mut state = DefaultHasher::new();
    key.hash(&mut state);
    state.finish()
}

#[test]
fn of_a_message(rt: HostRuntime) -> Result<(), Fail> {
    let body =
        b"TimeZone\0UTC\0user\0ann\0options\0-c x=y\0Application_Name\0a\0application_name\0b\0database\0shop\0\0";
    let key = key(rt.alloc(), body)??;
    let wanted: [(&[u8], &[u8]); 3] = [
        (b"application_name", b"b"),
        (b"options", b"-c x=y"),
        (b"timezone", b"UTC"),
    ];
    assert!(rt; is_of(&key, b"shop", b"shop", b"ann"));
    assert!(rt; has_parameters(&key, &wanted));
    Ok(())
}

#[test]
fn where_the_server_is(rt: HostRuntime) -> Result<(), Fail> {
    let key = key(rt.alloc(), b"user\0ann\0\0")??;
    assert!(rt; is_of(&key, b"ann", b"ann", b"ann"));
    assert!(rt; is_at(&key, Some(Host::local()), 0));
    Ok(())
}

#[test]
fn without_a_user(rt: HostRuntime) -> Result<(), Fail> {
    let bodies: &[&[u8]] = &[b"\0", b"database\0shop\0\0", b"user\0ann\0user\0\0\0"];
    for &body in bodies {
        let fault = key(rt.alloc(), body)?.err();
        assert!(rt; fault == Some(Stop::Refused(Cause::MalformedMessage)));
    }
    Ok(())
}

#[test]
fn keys_that_are_equal(rt: HostRuntime) -> Result<(), Fail> {
    let left = key(rt.alloc(), b"user\0ann\0timezone\0UTC\0options\0a\0\0")??;
    let right = key(
        rt.alloc(),
        b"options\0b\0TIMEZONE\0UTC\0OPTIONS\0a\0user\0ann\0\0",
    )??;
    assert!(rt; left == right);
    assert!(rt; hash_of(&left) == hash_of(&right));
    Ok(())
}

#[test]
fn keys_that_differ(rt: HostRuntime) -> Result<(), Fail> {
    let ann = key(rt.alloc(), b"user\0ann\0database\0shop\0timezone\0UTC\0\0")??;
    let bodies: &[&[u8]] = &[
        b"user\0bob\0database\0shop\0timezone\0UTC\0\0",
        b"user\0ann\0database\0news\0timezone\0UTC\0\0",
        b"user\0ann\0database\0shop\0timezone\0GMT\0\0",
        b"user\0ann\0database\0shop\0\0",
        b"user\0ann\0database\0shop\0timezone\0UTC\0options\0a\0\0",
    ];
    for &body in bodies {
        let other = key(rt.alloc(), body)??;
        assert!(rt; ann != other);
    }
    Ok(())
}
