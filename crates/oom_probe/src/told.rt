//! Lines of text. Of each the only error is that memory was refused.

use itoa::Buffer;
use std::alloc::{AllocError, Global};

/// Appends a line of a name and bytes in lower-case hex.
pub fn put_bytes(
    alloc: Global,
    name: &[u8],
    bytes: &[u8],
    out: &mut Vec<u8>,
) -> Result<(), AllocError> {
    let text = hex::encode(alloc, bytes)?;
    out.extend_from_slice(name)?;
    out.push(b' ')?;
    out.extend_from_slice(text.as_bytes())?;
    out.extend_from_slice(b"\n")
}

/// Appends a line of a name and numbers.
pub fn put_numbers(name: &[u8], numbers: &[u64], out: &mut Vec<u8>) -> Result<(), AllocError> {
    out.extend_from_slice(name)?;
    for number in numbers {
        let mut digits = Buffer::new();
        out.push(b' ')?;
        out.extend_from_slice(digits.format(*number).as_bytes())?;
    }
    out.extend_from_slice(b"\n")
}

/// Appends what is wrong, where something doesn't hold that is promised.
pub fn put_unless(holds: bool, wrong: &[u8], out: &mut Vec<u8>) -> Result<(), AllocError> {
    if holds {
        return Ok(());
    }
    out.extend_from_slice(b"wrong: ")?;
    out.extend_from_slice(wrong)?;
    out.extend_from_slice(b"\n")
}
