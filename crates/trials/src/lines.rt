//! Lines of text.
ghost use Rattle.std.specs.Prelude.{◌≡◌, ◌++◌, ◌∷◌, [], OnOk};
ghost use Rattle.hex.specs.Hex.{encode_lower};

use itoa::Buffer;
use std::alloc::{AllocError, Global};

/// Appends a line of bytes in lower-case hex.
pub fn put_hex_line(alloc: Global, bytes: &[u8], out: &mut Vec<u8>) -> Result<(), AllocError>
    ensures { OnOk result (out.new.items ≡ out.old.items ++ encode_lower bytes.now ++ 10 ∷ []) }
{
    let text = hex::encode(alloc, bytes)?;
    out.extend_from_slice(text.as_bytes())?;
    out.extend_from_slice(b"\n")
}

/// Appends a number in decimal digits.
pub fn put_number(number: usize, out: &mut Vec<u8>) -> Result<(), AllocError> {
    let mut digits = Buffer::new();
    out.extend_from_slice(digits.format(number).as_bytes())
}

/// A number in decimal digits, in a line of its own.
pub fn number_line(alloc: Global, number: u64) -> Result<Vec<u8>, AllocError> {
    let mut line = Vec::new(alloc);
    let mut digits = Buffer::new();
    line.extend_from_slice(digits.format(number).as_bytes())?;
    line.extend_from_slice(b"\n")?;
    Ok(line)
}
