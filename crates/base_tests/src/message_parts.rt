//! Streams of frames in parts, cut into pieces.
use frame_view::{FrameError, Part, PartCursor, Side};

/// A Query of the text `ABC`, and a Flush, which has no body.
const STREAM: [u8; 14] = *b"Q\0\0\0\x08ABC\0H\0\0\0\x04";

const QUERY: Part<'static> = Part::Head {
    kind: b'Q',
    length: 8,
};

const FLUSH: Part<'static> = Part::Head {
    kind: b'H',
    length: 4,
};

/// Whether calls with these pieces use so many bytes and give these parts.
fn gives(cursor: &mut PartCursor, calls: &[(&[u8], usize, Part<'_>)]) -> bool {
    for (piece, used, part) in calls {
        let next = cursor.next(piece);
        if next.0 != *used || next.1 != *part {
            return false;
        }
    }
    true
}

#[test]
fn gives_the_parts_of_one_piece(rt: HostRuntime) {
    let mut cursor = PartCursor::new(8, Side::Client);
    assert!(rt;
        gives(
            &mut cursor,
            &[
                (&STREAM, 5, QUERY),
                (&STREAM[5..], 4, Part::Body(b"ABC\0", true)),
                (&STREAM[9..], 5, FLUSH),
                (b"", 0, Part::Body(b"", true)),
                (b"", 0, Part::End),
            ]
        )
    );
    assert!(rt; cursor.at_border());
}

/// The stream cut behind its first, third, seventh and last bytes.
#[test]
fn goes_on_from_piece_to_piece(rt: HostRuntime) {
    let mut cursor = PartCursor::new(8, Side::Client);
    assert!(rt;
        gives(
            &mut cursor,
            &[
                (&STREAM[..1], 1, Part::End),
                (&STREAM[1..3], 2, Part::End),
                (&STREAM[3..7], 2, QUERY),
                (&STREAM[5..7], 2, Part::Body(b"AB", false)),
                (b"", 0, Part::End),
                (&STREAM[7..], 2, Part::Body(b"C\0", true)),
                (&STREAM[9..], 5, FLUSH),
                (b"S", 0, Part::Body(b"", true)),
                (b"S", 1, Part::End),
            ]
        )
    );
}

#[test]
fn tells_borders(rt: HostRuntime) {
    let mut cursor = PartCursor::new(8, Side::Client);
    assert!(rt; cursor.at_border());
    // after each call with a piece: whether a border is there, and the bytes of the body to come
    for (piece, border, rest) in [
        (&STREAM[..0], true, 0),
        (&STREAM[..1], false, 0),
        (&STREAM[1..5], false, 4),
        (&STREAM[5..8], false, 1),
        (&STREAM[8..9], true, 0),
        (&STREAM[9..14], false, 0),
        (&STREAM[14..], true, 0),
    ] {
        let _ = cursor.next(piece);
        assert!(rt; cursor.at_border() == border);
        assert!(rt; cursor.rest() == rest);
    }
}

/// Whether a head with this type and length, whose bytes come in one piece and in two, is this fault
/// under the limit 8, then and for ever.
fn is_faulty(side: Side, kind: u8, length: u8, fault: FrameError) -> bool {
    let head = [kind, 0, 0, 0, length];
    let bad = Part::Bad(fault);
    let mut whole = PartCursor::new(8, side);
    let mut cut = PartCursor::new(8, side);
    gives(&mut whole, &[(&head, 0, bad), (&STREAM, 0, bad)])
        && whole.at_border()
        && gives(
            &mut cut,
            &[
                (&head[..4], 4, Part::End),
                (&head[4..], 0, bad),
                (b"", 0, bad),
            ],
        )
        && !cut.at_border()
}

#[test]
fn tells_faults(rt: HostRuntime) {
    assert!(rt; is_faulty(Side::Client, b'Q', 3, FrameError::TooShort));
    assert!(rt; is_faulty(Side::Client, b'Q', 9, FrameError::TooLong));
    assert!(rt; is_faulty(Side::Client, b'Z', 3, FrameError::UnknownType));
    assert!(rt; is_faulty(Side::Server, b'Z', 3, FrameError::TooShort));
}
