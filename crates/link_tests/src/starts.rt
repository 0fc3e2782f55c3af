//! Starts over servers in memory (PostgreSQL manual, "Message Flow", "Start-up").
ghost use Rattle.std.specs.Prelude.{◌<◌};
ghost use Rattle.link_start.specs.Starts.{CanStartAll};
ghost use Rattle.memory_start_laws.specs.Starts.{HasSalt};

use crate::making::{SHOP, Start, begin_by, failing_at, server};
use crate::short_gate::ShortGate;
use link_run::welcome::welcome_over;
use link_start::start::{StartCause, StartError};
use memory_ends::memory_server::ServerAuth;
use message_view::{KeyView, KeyWord};
use server_end::ServerEnd;
use server_end::gate::{Gate, OpenGate};
use std::alloc::Global;
use std::test::Fail;

/// The digest of ann's password and the salt 1, 2, 3, 4 (manual, "AuthenticationMD5Password").
fn digest() -> [u8; 35] {
    *b"md59009ce60b9ca97f1e752376843d1309e"
}

/// What is told of a started link.
#[derive(Clone, Copy, PartialEq, Drop)]
struct Begun {
    number: u64,
    started_at: u64,
    welcome: usize,
    server_key: Option<KeyView>,
}

/// The link of number 5 and birth 9 to the server whose words are 7 and 8.
const BEGUN: Begun = Begun {
    number: 5,
    started_at: 9,
    welcome: 251,
    server_key: Some(KeyView { pid: 7, secret: 8 }),
};

fn wrong_password() -> &'static [u8] {
    b"E\0\0\0\x3aSFATAL\0VFATAL\0C28P01\0Mpassword authentication failed\0\0"
}

fn no_database() -> &'static [u8] {
    b"E\0\0\0\x33SFATAL\0VFATAL\0C3D000\0Mdatabase does not exist\0\0"
}

/// Of a link that is started by this gate its number and birth, the length of what its client is given first, and its server's key; or why
/// there is none.
fn told_by<E: ServerEnd, G: Gate<E>>(
    alloc: Global,
    end: E,
    how: Start,
    gate: &mut G,
) -> Result<Result<Begun, StartCause>, Fail>
    requires { CanStartAll (E.standing end) }
{
    let word = KeyWord {
        pid: 1,
        secret: 2,
        salt: [0; 4],
    };
    match begin_by(alloc, end, how, gate)? {
        Ok(link) => {
            let welcome = welcome_over(alloc, &link, word)?;
            Ok(Ok(Begun {
                number: link.number(),
                started_at: link.started_at(),
                welcome: welcome.len(),
                server_key: link.server_key(),
            }))
        }
        Err(cause) => Ok(Err(cause)),
    }
}

/// The same by a gate that is never late.
fn told<E: ServerEnd>(alloc: Global, end: E, how: Start) -> Result<Result<Begun, StartCause>, Fail>
    requires { CanStartAll (E.standing end) }
{
    told_by(alloc, end, how, &mut OpenGate::new())
}

/// What a start over a server comes to that asks this.
fn asked(alloc: Global, auth: ServerAuth<'_>, how: Start) -> Result<Result<Begun, StartCause>, Fail>
    requires { HasSalt auth }
{
    told(alloc, server(alloc, auth, 100, None)?, how)
}

#[test]
fn each_question_is_answered(rt: HostRuntime) -> Result<(), Fail> {
    let alloc = rt.alloc();
    let md5 = ServerAuth::Md5 {
        salt: [1, 2, 3, 4],
        answer: digest(),
    };
    assert!(rt; asked(alloc, ServerAuth::Trust, SHOP)?.is_ok_and(|told| told == BEGUN));
    assert!(rt; asked(alloc, ServerAuth::Plain(b"secret"), SHOP)?.is_ok_and(|told| told == BEGUN));
    assert!(rt; asked(alloc, md5, SHOP)?.is_ok_and(|told| told == BEGUN));
    Ok(())
}

/// The error by which a server that asks this refuses a start.
fn refusal(alloc: Global, auth: ServerAuth<'_>, how: Start) -> Result<StartError, Fail>
    requires { HasSalt auth }
{
    match asked(alloc, auth, how)? {
        Err(StartCause::Refused(error)) => Ok(error),
        _ => Err("not refused")?,
    }
}

#[test]
fn a_start_is_refused(rt: HostRuntime) -> Result<(), Fail> {
    let alloc = rt.alloc();
    let open = Start {
        password: b"open",
        ..SHOP
    };
    let error = refusal(alloc, ServerAuth::Plain(b"secret"), open)?;
    assert!(rt; error.as_bytes() == wrong_password());
    let nowhere = Start {
        is_there: false,
        ..SHOP
    };
    let error = refusal(alloc, ServerAuth::Trust, nowhere)?;
    assert!(rt; error.as_bytes() == no_database());
    Ok(())
}

/// Of a password the secret keeps only the digest, which answers no question for the password itself.
#[test]
fn a_digest_is_no_password(rt: HostRuntime) -> Result<(), Fail> {
    let digest = Start {
        password: b"md500000000000000000000000000000000",
        ..SHOP
    };
    let started = asked(rt.alloc(), ServerAuth::Plain(b"secret"), digest)?;
    assert!(rt; matches!(started, Err(StartCause::Unanswerable(_))));
    Ok(())
}

/// Turns are for waiting: a welcome of 260 bytes that comes byte by byte uses up none of them.
#[test]
fn only_idle_turns_are_used_up(rt: HostRuntime) -> Result<(), Fail> {
    let alloc = rt.alloc();
    let started = asked(alloc, ServerAuth::Trust, Start { turns: 0, ..SHOP })?;
    assert!(rt; matches!(started, Err(StartCause::Turns)));
    let bytewise = server(alloc, ServerAuth::Trust, 1, None)?;
    let started = told(alloc, bytewise, Start { turns: 1, ..SHOP })?;
    assert!(rt; started.is_ok_and(|told| told == BEGUN));
    Ok(())
}

/// What a start comes to over a server that moves so many bytes a call, by a gate that is late after so many turns.
fn hurried(
    alloc: Global,
    cut: usize,
    how: Start,
    turns: u32,
) -> Result<Result<Begun, StartCause>, Fail>
    requires { 0 < cut }
{
    let end = server(alloc, ServerAuth::Trust, cut, None)?;
    told_by(alloc, end, how, &mut ShortGate::of(turns))
}

/// A welcome that comes byte by byte is given up once the gate is late, though each turn moves a byte. What came in the last turn counts.
#[test]
fn a_gate_is_late(rt: HostRuntime) -> Result<(), Fail> {
    let alloc = rt.alloc();
    assert!(rt; matches!(hurried(alloc, 1, SHOP, 0)?, Err(StartCause::Late)));
    assert!(rt; matches!(hurried(alloc, 1, SHOP, 100)?, Err(StartCause::Late)));
    assert!(rt; hurried(alloc, 1, SHOP, 10_000)?.is_ok_and(|told| told == BEGUN));
    let nowhere = Start {
        is_there: false,
        ..SHOP
    };
    assert!(rt;
        matches!(
            hurried(alloc, 1_000, nowhere, 1)?,
            Err(StartCause::Refused(_))
        )
    );
    Ok(())
}

/// Whether a server is lost that dies after so many bytes.
fn is_lost_after(alloc: Global, bytes: u64) -> Result<bool, Fail> {
    let end = server(alloc, ServerAuth::Trust, 100, Some(bytes))?;
    Ok(matches!(told(alloc, end, SHOP)?, Err(StartCause::Lost)))
}

/// A server that dies behind the last byte of its welcome is a link still.
#[test]
fn a_server_dies(rt: HostRuntime) -> Result<(), Fail> {
    let alloc = rt.alloc();
    assert!(rt; is_lost_after(alloc, 0)?);
    assert!(rt; is_lost_after(alloc, 259)?);
    assert!(rt; !is_lost_after(alloc, 260)?);
    Ok(())
}

/// Whether a server is lost whose end fails at this call.
fn is_lost_at(alloc: Global, nth: u64) -> Result<bool, Fail>
    requires { 0 < nth }
{
    let end = failing_at(alloc, 100, nth)?;
    Ok(matches!(told(alloc, end, SHOP)?, Err(StartCause::Lost)))
}

/// The first call of an end is the write of the StartupMessage, the second a read.
#[test]
fn an_end_fails(rt: HostRuntime) -> Result<(), Fail> {
    let alloc = rt.alloc();
    assert!(rt; is_lost_at(alloc, 1)?);
    assert!(rt; is_lost_at(alloc, 2)?);
    Ok(())
}
