//! One link serves two clients, one after the other, over ends that move few bytes a call.
ghost use Rattle.std.specs.Prelude.{◌<◌};
ghost use Rattle.link_start.specs.Starts.{CanStartAll};

use crate::making::server;
use crate::resets::{link, reports};
use crate::verdicts::lease;
use link_run::reset::reset_link;
use memory_ends::memory_client::MemoryClient;
use memory_ends::memory_server::ServerAuth;
use relay_core::relay::Returned;
use server_end::ServerEnd;
use server_end::gate::OpenGate;
use std::alloc::Global;
use std::test::Fail;

/// What the first client leaves behind: a value, a temporary table and a prepared statement.
const FIRST: &[u8] =
    b"Q\0\0\0 SET DateStyle TO 'SQL, DMY'\0Q\0\0\0!CREATE TEMP TABLE t (a text)\0P\0\0\0\x16s\0SHOW TimeZone\0\0\0S\0\0\0\x04";

/// What the second client asks for: a value, such a table, and such a statement.
const SECOND: &[u8] =
    b"Q\0\0\0\x1aSHOW application_name\0Q\0\0\0\x14SELECT * FROM t\0B\0\0\0\x0d\0s\0\0\0\0\0\0\0S\0\0\0\x04";

/// What a fresh server gives it behind the reports of its welcome: its own key word, the empty value, 42P01, and 26000.
const FRESH: &[u8] =
    b"K\0\0\0\x0c\0\0\0\x03\0\0\0\x02Z\0\0\0\x05IT\0\0\0)\0\x01application_name\0\0\0\0\0\0\0\0\0\0\x19\xff\xff\xff\xff\xff\xff\0\0D\0\0\0\x0a\0\x01\0\0\0\0C\0\0\0\x09SHOW\0Z\0\0\0\x05IE\0\0\03SERROR\0VERROR\0C42P01\0Mrelation does not exist\0\0Z\0\0\0\x05IE\0\0\0=SERROR\0VERROR\0C26000\0Mprepared statement does not exist\0\0Z\0\0\0\x05I";

/// The second client of a link, which was reset behind the first; their ends move so many bytes a call.
fn second<E: ServerEnd>(alloc: Global, end: E, cut: usize) -> Result<MemoryClient, Fail>
    requires can_start { CanStartAll (E.standing end) }
    requires cut { 0 < cut }
{
    let (_, returned) = lease(alloc, link(alloc, end)?, cut, 1, &[FIRST])?;
    let Returned::Used(link) = returned else {
        return Err("not used")?;
    };
    let Ok(link) = reset_link(alloc, link, &mut OpenGate::new(), 100) else {
        return Err("not reset")?;
    };
    let (client, _) = lease(alloc, link, cut, 3, &[SECOND])?;
    Ok(client)
}

/// Whether the second client is given what a fresh server gives it, where each end moves so many bytes a call.
fn is_fresh(alloc: Global, cut: usize) -> Result<bool, Fail>
    requires { 0 < cut }
{
    let client = second(alloc, server(alloc, ServerAuth::Trust, cut, None)?, cut)?;
    Ok(client.given().strip_prefix(reports()) == Some(FRESH))
}

#[test]
fn a_link_is_handed_over(rt: HostRuntime) -> Result<(), Fail> {
    let alloc = rt.alloc();
    assert!(rt; is_fresh(alloc, 1)?);
    assert!(rt; is_fresh(alloc, 7)?);
    assert!(rt; is_fresh(alloc, 8_192)?);
    Ok(())
}
