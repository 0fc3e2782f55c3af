//! What `replay` answers.
use message_view::{Refusal, refusal_bytes};
use replay_run::replay::{Unended, replay, replies};
use std::alloc::Global;
use std::test::Fail;

/// The first packet of the user ann for the database shop.
const START: &[u8] = b"\0\0\0\x20\0\x03\0\0user\0ann\0database\0shop\0\0";

const WELCOME: &[u8] =
    b"R\0\0\0\x08\0\0\0\0S\0\0\0\x16application_name\0\0S\0\0\0\x19client_encoding\0UTF8\0S\0\0\0\x17DateStyle\0ISO, MDY\0S\0\0\0\x19integer_datetimes\0on\0S\0\0\0\x1bIntervalStyle\0postgres\0S\0\0\0\x19server_encoding\0UTF8\0S\0\0\0\x18server_version\016.0\0S\0\0\0\x23standard_conforming_strings\0on\0S\0\0\0\x11TimeZone\0UTC\0K\0\0\0\x0c\0\0\0\x01\0\0\0\x02Z\0\0\0\x05I";

#[test]
fn replays_one_client(rt: HostRuntime) -> Result<(), Fail> {
    let mut output = Vec::new(rt.alloc());
    assert!(rt; replay(rt.alloc(), START, &mut output).is_ok());
    assert!(rt; output.as_slice() == WELCOME);
    Ok(())
}

#[test]
fn first_packets(rt: HostRuntime) -> Result<(), Fail> {
    let rows: &[(&[u8], &[u8])] = &[
        (START, WELCOME),
        (b"\0\0\0\x08\x04\xd2\x16\x2f", b"N"),
        (
            b"\0\0\0\x08\0\x02\0\0",
            refusal_bytes(Refusal::UnsupportedProtocol),
        ),
        (b"\0\0\0", b""),
    ];
    for &(input, wanted) in rows {
        assert!(rt; replies(rt.alloc(), 8_192, None, Unended::Failed, input)?.as_slice() == wanted);
    }
    Ok(())
}

/// ann's StartupMessage for shop, with a DateStyle that the server refuses.
const BAD_START: &[u8] = b"\0\0\0\x30\0\x03\0\0user\0ann\0database\0shop\0DateStyle\0bogus\0\0";

/// AuthenticationOk, and the server's FATAL 22023.
const REFUSED_START: &[u8] =
    b"R\0\0\0\x08\0\0\0\0E\0\0\0\x29SFATAL\0VFATAL\0C22023\0Minvalid value\0\0";

/// What comes behind these bytes in one buffer.
fn joined(alloc: Global, first: &[u8], second: &[u8]) -> Result<Vec<u8>, Fail> {
    let mut all: Vec<u8> = Vec::new(alloc);
    all.extend_from_slice(first)?;
    all.extend_from_slice(second)?;
    Ok(all)
}

#[test]
fn nothing_follows_a_refused_start(rt: HostRuntime) -> Result<(), Fail> {
    let rows: &[&[u8]] = &[b"", b"Q\0\0\0\x05\0", b"?\0\0\0\x04", b"Q\xff\xff\xff\xff"];
    for &behind in rows {
        let input = joined(rt.alloc(), BAD_START, behind)?;
        assert!(rt;
            replies(rt.alloc(), 8_192, None, Unended::Failed, input.as_slice())?.as_slice()
                == REFUSED_START
        );
    }
    Ok(())
}
