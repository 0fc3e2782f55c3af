//! The pooler's refusals, read as the notes that they are.
use message_view::{NoteView, Refusal, refusal_bytes};

fn slice(bytes: &[u8]) -> &[u8] {
    bytes
}

/// The ErrorResponse of a client too many: 56 bytes.
const TOO_MANY: [u8; 56] = *b"E\0\0\0\x37SFATAL\0VFATAL\0C53300\0Mtoo many client connections\0\0";

#[test]
fn refusals_are_errors(rt: HostRuntime) {
    assert!(rt; refusal_bytes(Refusal::TooManyClients) == slice(&TOO_MANY));
    assert!(rt; Refusal::WaitedTooLong.code() == slice(b"P5"));
    let Some(body) = refusal_bytes(Refusal::ServerFailed).get(5..) else {
        panic!(rt; "too short");
    };
    let Ok(view) = NoteView::read(body) else {
        panic!(rt; "refused");
    };
    let mut fields = view.fields();
    for (code, text) in [
        (b'S', slice(b"FATAL")),
        (b'V', slice(b"FATAL")),
        (b'C', slice(b"08006")),
        (b'M', slice(b"server connection failed")),
    ] {
        assert!(rt; fields.next() == Some((code, text)));
    }
    assert!(rt; fields.next().is_none());
}
