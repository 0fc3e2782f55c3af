//! The CancelRequest that a strike sends. One that isn't written, for want of memory, leaves the buffer as it was.

use crate::KEY_WORD;
use crate::making::server;
use crate::told::{put_bytes, put_numbers, put_unless};
use bytes::BytesMut;
use message_view::put_cancel_request;
use std::alloc::{AllocError, Global};

/// The request behind other bytes.
fn put_request(alloc: Global, out: &mut Vec<u8>) -> Result<(), AllocError> {
    let mut request = BytesMut::copy_from_slice(alloc, b"x")?;
    if put_cancel_request(&mut request, KEY_WORD.pid, KEY_WORD.secret).is_err() {
        put_unless(
            request.as_slice() == b"x".as_slice(),
            b"bytes are left of a request",
            out,
        )?;
        put_cancel_request(&mut request, KEY_WORD.pid, KEY_WORD.secret)?;
    }
    put_bytes(alloc, b"request", request.as_slice(), out)
}

/// The request, and whether a server in memory takes its words as its own.
pub fn told(alloc: Global, out: &mut Vec<u8>) -> Result<(), AllocError> {
    put_request(alloc, out)?;
    let server = server(alloc)?;
    let striker = server.striker()?;
    let is_struck = striker.cancel(KEY_WORD.pid, KEY_WORD.secret);
    let is_other = striker.cancel(KEY_WORD.pid, 3);
    put_numbers(b"struck", &[u64::from(is_struck), u64::from(is_other)], out)
}
