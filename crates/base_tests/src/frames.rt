//! Frames and first packets, cut out of bytes.
use frame_view::{FirstStep, Frame, FrameError, Side, Step, first_packet, next_frame};

/// A client's first packet: user ann, database shop.
const STARTUP: [u8; 32] = *b"\0\0\0\x20\0\x03\0\0user\0ann\0database\0shop\0\0";

/// A CancelRequest with the process number 1 and the secret 2.
const CANCEL: [u8; 16] = *b"\0\0\0\x10\x04\xd2\x16\x2e\0\0\0\x01\0\0\0\x02";

/// The Query of an empty text, then the first three bytes of a Sync.
const QUERY: [u8; 9] = *b"Q\0\0\0\x05\0S\0\0";

#[test]
fn cuts_a_frame_out(rt: HostRuntime) {
    let whole = Step::Whole(Frame {
        kind: b'Q',
        body: &QUERY[5..6],
        whole: &QUERY[..6],
    });
    for (from, limit, step) in [
        (0, 5, whole),
        (6, 5, Step::Need(2)),
        (9, 5, Step::Need(5)),
        (0, 4, Step::Bad(FrameError::TooLong)),
    ] {
        assert!(rt;
            next_frame(&QUERY, from, limit, Side::Client) == step,
            "from {from}"
        );
    }
}

#[test]
fn asks_for_what_is_missing(rt: HostRuntime) {
    let bytes = b"p\0\0\0\x0aab";
    for (have, missing) in [(0, 5), (1, 4), (4, 1), (5, 6), (7, 4)] {
        assert!(rt; next_frame(&bytes[..have], 0, 10_000, Side::Client) == Step::Need(missing));
    }
}

/// A type of the server's alone, on either side, under the limit 10.
#[test]
fn tells_the_first_fault(rt: HostRuntime) {
    for (length, step) in [
        (3, Step::Bad(FrameError::TooShort)),
        (11, Step::Bad(FrameError::TooLong)),
        (10, Step::Need(6)),
    ] {
        let bytes = [b'Z', 0, 0, 0, length];
        assert!(rt; next_frame(&bytes, 0, 10, Side::Client) == Step::Bad(FrameError::UnknownType));
        assert!(rt; next_frame(&bytes, 0, 10, Side::Server) == step);
    }
    // a length that is too short is told first, where the limit is lower still
    let fault = Step::Bad(FrameError::TooShort);
    assert!(rt; next_frame(b"Q\0\0\0\x03", 0, 2, Side::Client) == fault);
    // nothing is told below five bytes
    assert!(rt; next_frame(b"Z\0\0\0", 0, 10, Side::Client) == Step::Need(1));
}

#[test]
fn reads_first_packets(rt: HostRuntime) {
    for (packet, step) in [
        (&STARTUP[..], FirstStep::Startup(&STARTUP[8..])),
        (&CANCEL[..], FirstStep::Cancel { pid: 1, secret: 2 }),
        (&CANCEL[..8], FirstStep::Need(8)),
        (&b"\0\0\0\x08\x04\xd2\x16\x2f"[..], FirstStep::Tls),
        (&b"\0\0\0\x08\x04\xd2\x16\x30"[..], FirstStep::Gss),
    ] {
        assert!(rt; first_packet(packet) == step);
    }
}

#[test]
fn asks_for_the_rest_of_a_first_packet(rt: HostRuntime) {
    for (have, missing) in [(0, 8), (3, 5), (4, 4), (7, 1), (8, 24), (31, 1)] {
        assert!(rt; first_packet(&STARTUP[..have]) == FirstStep::Need(missing));
    }
}

#[test]
fn refuses_first_packets(rt: HostRuntime) {
    // lengths 7, 10,001 and 10,000, told from four bytes on
    for (length, step) in [
        (7_u32, FirstStep::Bad(FrameError::TooShort)),
        (10_001, FirstStep::Bad(FrameError::TooLong)),
        (10_000, FirstStep::Need(4)),
    ] {
        assert!(rt; first_packet(&length.to_be_bytes()) == step);
    }
    // a wrong length for its code, and protocol 2.0, told from eight on
    for (packet, fault) in [
        (b"\0\0\0\x09\x04\xd2\x16\x2f", FrameError::TooShort),
        (b"\0\0\0\x09\x04\xd2\x16\x30", FrameError::TooShort),
        (b"\0\0\0\x11\x04\xd2\x16\x2e", FrameError::TooShort),
        (b"\0\0\0\x20\0\x02\0\0", FrameError::UnknownCode),
    ] {
        assert!(rt; first_packet(&packet[..7]) == FirstStep::Need(1));
        assert!(rt; first_packet(packet) == FirstStep::Bad(fault));
    }
}
