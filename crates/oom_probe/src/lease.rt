//! Leases. One that isn't begun, for want of memory, hands both its ends back as they were.

use crate::KEY_WORD;
use crate::links::link;
use crate::making::{CUT, server};
use crate::told::{put_bytes, put_unless};
use link_run::links::CleanLink;
use memory_ends::memory_client::MemoryClient;
use relay_core::relay::{Relay, Returned};
use relay_model::Next;
use server_end::gate::Ready;
use server_end::{ClientEnd, ServerEnd};
use std::alloc::{AllocError, Global};

/// The greatest length of a frame.
pub const LIMIT: u32 = 1_000;

/// A client sets a name and makes a table.
pub const TALK: &[u8] =
    b"Q\0\0\0\x20SET application_name TO 'x'\0Q\0\0\0\x21CREATE TEMP TABLE t (a text)\0";

/// Bytes move fewer times than this.
const MAX_MOVES: u64 = 2_000;

/// Whether nothing was taken from the client or given to it, and no call of it failed.
fn is_untouched(client: &MemoryClient) -> bool {
    client.taken().is_empty() && client.given().is_empty() && client.faults() == 0
}

/// A lease of this link to this client, which begins once more with what is handed back; none, which is told, where that fails too.
fn begun<E: ServerEnd>(
    alloc: Global,
    client: MemoryClient,
    link: CleanLink<E>,
    out: &mut Vec<u8>,
) -> Result<Option<Relay<MemoryClient, E>>, AllocError> {
    let number = link.number();
    let (client, link) = match Relay::begin(alloc, client, link, KEY_WORD, LIMIT) {
        Ok(relay) => return Ok(Some(relay)),
        Err(back) => back,
    };
    let is_back = is_untouched(&client) && link.number() == number;
    put_unless(is_back, b"a lease hands other ends back", out)?;
    match Relay::begin(alloc, client, link, KEY_WORD, LIMIT) {
        Ok(relay) => Ok(Some(relay)),
        Err(_) => {
            put_unless(false, b"a lease isn't begun twice", out)?;
            Ok(None)
        }
    }
}

/// The lease until nothing moves any more.
pub fn pumped<E: ServerEnd>(relay: Relay<MemoryClient, E>) -> (MemoryClient, Returned<E>) {
    let both = Ready {
        client: true,
        server: true,
    };
    let mut relay = relay;
    for _ in 0..MAX_MOVES {
        if relay.pump(both) != Next::Again {
            break;
        }
    }
    relay.close()
}

/// How many faults the end of a link has counted.
fn faults_of<E: ServerEnd>(link: Returned<E>) -> u64 {
    match link {
        Returned::Unused(link) => link.lend().end.faults(),
        Returned::Used(link) => link.lend().end.faults(),
        Returned::Gone(parts, _) => parts.end.faults(),
    }
}

/// Appends what a client is given over this link. An end of it may be refused memory meanwhile, which isn't asked again.
fn put_lease<E: ServerEnd>(
    alloc: Global,
    link: CleanLink<E>,
    out: &mut Vec<u8>,
) -> Result<(), AllocError> {
    let client = MemoryClient::new(alloc, TALK, CUT)?;
    let Some(relay) = begun(alloc, client, link, out)? else {
        return Ok(());
    };
    let (client, link) = pumped(relay);
    if client.faults() > 0 || faults_of(link) > 0 {
        return Err(AllocError);
    }
    put_bytes(alloc, b"given", client.given(), out)
}

/// A lease over a link of its own.
pub fn told(alloc: Global, out: &mut Vec<u8>) -> Result<(), AllocError> {
    let link = link(alloc, server(alloc)?, out)?;
    put_lease(alloc, link, out)
}
