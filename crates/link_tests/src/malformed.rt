//! Frames of a server that can't be: the client is refused as `MalformedServerMessage`, and the link isn't used again.

use crate::saying_end::saying_link;
use disposal::Verdict;
use memory_ends::memory_client::MemoryClient;
use message_view::{KeyWord, Refusal};
use relay_core::relay::{GoneCause, Relay, Returned};
use relay_model::Next;
use server_end::gate::Ready;
use std::alloc::Global;
use std::test::Fail;

/// The welcome of a link that reports nothing: the client's own key word, and ReadyForQuery.
const WELCOME: &[u8] = b"K\0\0\0\x0c\0\0\0\x01\0\0\0\x02Z\0\0\0\x05I";

/// The Query `SHOW TimeZone`, and the tag of its answer.
const SHOW: &[u8] = b"Q\0\0\0\x12SHOW TimeZone\0";

const TAG: &[u8] = b"C\0\0\0\x09SHOW\0";

/// What a server says: these words, of which so many bytes go on to the client.
#[derive(Clone, Copy)]
struct Said {
    words: &'static [u8],
    goes_on: usize,
}

/// Frames of a length below 4 or above 2,147,483,647, alone and behind a whole one.
const SAID: [Said; 6] = [
    Said {
        words: b"Z\0\0\0\x03",
        goes_on: 0,
    },
    Said {
        words: b"D\0\0\0\x03",
        goes_on: 0,
    },
    Said {
        words: b"C\0\0\0\x09SHOW\0Z\0\0\0\x03",
        goes_on: 10,
    },
    Said {
        words: b"Z\0\0\0\x03Z\0\0\0\x05I",
        goes_on: 0,
    },
    Said {
        words: b"T\0\0\0\0",
        goes_on: 0,
    },
    Said {
        words: b"D\x80\0\0\0",
        goes_on: 0,
    },
];

/// Whether a client that asks once is given no more than that, and refused; and the verdict on what went over the link is Broken.
fn is_broken(alloc: Global, said: Said, sent: &[u8], cut: usize) -> Result<bool, Fail> {
    let word = KeyWord {
        pid: 1,
        secret: 2,
        salt: [0; 4],
    };
    let both = Ready {
        client: true,
        server: true,
    };
    let link = saying_link(alloc, said.words, cut)?;
    let client = MemoryClient::new(alloc, sent, 100)?;
    let Ok(mut relay) = Relay::begin(alloc, client, link, word, 1_000) else {
        return Err("no lease")?;
    };
    let mut next = Next::Again;
    for _ in 0..100 {
        next = relay.pump(both);
        if next != Next::Again {
            break;
        }
    }
    let (client, link) = relay.close();
    let is_gone = matches!(link, Returned::Gone(_, GoneCause::Left(Verdict::Broken)));
    let is_refused = next == Next::Refuse(Refusal::MalformedServerMessage);
    let is_given = match client.given().strip_prefix(WELCOME) {
        Some(given) => given.len() == said.goes_on && TAG.starts_with(given),
        None => false,
    };
    Ok(is_gone && is_refused && is_given)
}

#[test]
fn a_malformed_server_message_breaks_its_link(rt: HostRuntime) -> Result<(), Fail> {
    for said in SAID {
        for cut in [1, 3, 100] {
            assert!(rt; is_broken(rt.alloc(), said, SHOW, cut)?);
            assert!(rt; is_broken(rt.alloc(), said, b"", cut)?);
        }
    }
    Ok(())
}
