//! Leases of one link to clients, and its reset between them (PostgreSQL manual, "Message Flow" and "Message Formats").
ghost use Rattle.std.specs.Prelude.{◌<◌};
ghost use Rattle.link_start.specs.Starts.{CanStartAll};

use crate::making::{SHOP, begin, failing_at, server};
use link_run::links::{CleanLink, UsedLink};
use link_run::reset::{ResetError, reset_link};
use memory_ends::memory_server::ServerAuth;
use message_view::KeyWord;
use paced_client::PacedClient;
use relay_core::relay::{Relay, Returned};
use relay_model::Next;
use server_end::ServerEnd;
use server_end::gate::{OpenGate, Ready};
use std::alloc::Global;
use std::test::Fail;

/// The Query `SET application_name TO 'x'`.
fn set() -> &'static [u8] {
    b"Q\0\0\0\x20SET application_name TO 'x'\0"
}

/// The Query `SHOW application_name`.
fn show() -> &'static [u8] {
    b"Q\0\0\0\x1aSHOW application_name\0"
}

/// The reports of a welcome.
pub fn reports() -> &'static [u8] {
    b"S\0\0\0\x16application_name\0\0\
      S\0\0\0\x19client_encoding\0UTF8\0\
      S\0\0\0\x17DateStyle\0ISO, MDY\0\
      S\0\0\0\x19integer_datetimes\0on\0\
      S\0\0\0\x1bIntervalStyle\0postgres\0\
      S\0\0\0\x19server_encoding\0UTF8\0\
      S\0\0\0\x18server_version\016.0\0\
      S\0\0\0#standard_conforming_strings\0on\0\
      S\0\0\0\x11TimeZone\0UTC\0"
}

/// The rest of the first client's welcome, and the answer to its Query.
fn told_first() -> &'static [u8] {
    b"K\0\0\0\x0c\0\0\0\x01\0\0\0\x02Z\0\0\0\x05I\
      C\0\0\0\x08SET\0S\0\0\0\x17application_name\0x\0Z\0\0\0\x05I"
}

/// The rest of the second client's welcome, and the answer to its Query: the empty value.
fn told_second() -> &'static [u8] {
    b"K\0\0\0\x0c\0\0\0\x03\0\0\0\x02Z\0\0\0\x05I\
      T\0\0\0\x29\0\x01application_name\0\0\0\0\0\0\0\0\0\0\x19\xff\xff\xff\xff\xff\xff\0\0\
      D\0\0\0\x0a\0\x01\0\0\0\0C\0\0\0\x09SHOW\0Z\0\0\0\x05I"
}

/// A client that sends these packets, each once the one before it is answered, and then ends. Its login is over.
fn client(alloc: Global, packets: &[u8]) -> Result<PacedClient, Fail> {
    let mut startup = *b"\0\0\0\x12\0\x03\0\0user\0ann\0\0";
    let mut input = Vec::new(alloc);
    input.extend_from_slice(&startup)?;
    input.extend_from_slice(packets)?;
    let mut client = PacedClient::new(alloc, input.as_slice(), 100)?;
    let _ = client.read(&mut startup);
    Ok(client)
}

/// A lease of the link to such a client, until the client is done: the client, and what becomes of the link.
fn lease<E: ServerEnd>(
    alloc: Global,
    link: CleanLink<E>,
    pid: u32,
    packets: &[u8],
) -> Result<(PacedClient, Returned<E>), Fail> {
    let word = KeyWord {
        pid,
        secret: 2,
        salt: [0; 4],
    };
    let both = Ready {
        client: true,
        server: true,
    };
    let client = client(alloc, packets)?;
    let Ok(mut relay) = Relay::begin(alloc, client, link, word, 1000) else {
        return Err("no lease")?;
    };
    for _ in 0..200 {
        if relay.pump(both) == Next::ClientDone {
            return Ok(relay.close());
        }
    }
    Err("the client isn't done")?
}

/// A link over this end.
pub fn link<E: ServerEnd>(alloc: Global, end: E) -> Result<CleanLink<E>, Fail>
    requires { CanStartAll (E.standing end) }
{
    let Ok(link) = begin(alloc, end, SHOP)? else {
        return Err("not started")?;
    };
    Ok(link)
}

/// A link over this end after its first lease, and what its client was given.
fn used<E: ServerEnd>(alloc: Global, end: E) -> Result<(PacedClient, UsedLink<E>), Fail>
    requires { CanStartAll (E.standing end) }
{
    let (client, Returned::Used(link)) = lease(alloc, link(alloc, end)?, 1, set())? else {
        return Err("not used")?;
    };
    Ok((client, link))
}

/// Whether the second client of a link is given nothing of the first.
fn is_clean<E: ServerEnd>(alloc: Global, end: E) -> Result<bool, Fail>
    requires { CanStartAll (E.standing end) }
{
    let (first, link) = used(alloc, end)?;
    let Ok(link) = reset_link(alloc, link, &mut OpenGate::new(), 20) else {
        return Err("not reset")?;
    };
    let (second, _) = lease(alloc, link, 3, show())?;
    Ok(
        first.given().strip_prefix(reports()) == Some(told_first())
            && second.given().strip_prefix(reports()) == Some(told_second()),
    )
}

#[test]
fn a_second_client_is_given_nothing_of_the_first(rt: HostRuntime) -> Result<(), Fail> {
    let alloc = rt.alloc();
    assert!(rt; is_clean(alloc, server(alloc, ServerAuth::Trust, 100, None)?)?);
    Ok(())
}

/// Why a used link isn't reset in so many turns.
fn fault<E: ServerEnd>(alloc: Global, end: E, turns: u32) -> Result<Option<ResetError>, Fail>
    requires { CanStartAll (E.standing end) }
{
    let (_, link) = used(alloc, end)?;
    match reset_link(alloc, link, &mut OpenGate::new(), turns) {
        Ok(_) => Ok(None),
        Err(disposed) => Ok(Some(disposed.cause)),
    }
}

/// Of an end that moves 100 bytes a call the start takes four calls and the lease two.
#[test]
fn a_reset_fails(rt: HostRuntime) -> Result<(), Fail> {
    let alloc = rt.alloc();
    let slow = server(alloc, ServerAuth::Trust, 1, None)?;
    assert!(rt; fault(alloc, slow, 1)? == Some(ResetError::Turns));
    assert!(rt; fault(alloc, failing_at(alloc, 100, 7)?, 20)? == Some(ResetError::Lost));
    Ok(())
}
