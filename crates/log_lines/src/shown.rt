//! Texts of others, numbers and addresses, as a line shows them.
ghost use Rattle.std.specs.Prelude.{◌≡◌, ◌++◌, ◌==◌, ◌&&◌, [], codes, not, nat_lt, take, decimal, if◌then◌else◌, OnOk};
ghost use Rattle.std.specs.List.{flat_map};
ghost use Rattle.log_lines.specs.Shown as spec;

use itoa::Buffer;
use std::alloc::AllocError;

/// How many bytes of a text are shown.
const MAX_TEXT: usize = 200;

/// The last hexadecimal digit of a number.
fn hex_digit(n: u8) -> u8
    ensures { result ≡ spec.hex_digit n }
{
    let digit = n % 16;
    if digit < 10 { 48 + digit } else { 87 + digit }
}

fn is_shown(mark: u8, b: u8) -> bool
    ensures { result ≡ (spec.is_printing b && (not (b == 92) && not (b == mark))) }
{
    32 <= b && b <= 126 && b != b'\\' && b != mark
}

fn put_byte(line: &mut Vec<u8>, mark: u8, b: u8) -> Result<(), AllocError>
    ensures { OnOk result (line.new.items ≡ line.old.items ++ spec.shown_byte mark b) }
{
    if is_shown(mark, b) {
        line.push(b)?;
        return Ok(());
    }
    line.extend_from_slice(&[b'\\', b'x', hex_digit(b / 16), hex_digit(b)])
}

/// The bytes of a text, each as it is shown.
fn put_bytes(line: &mut Vec<u8>, mark: u8, text: &[u8]) -> Result<(), AllocError>
    ensures { OnOk result (line.new.items ≡ line.old.items ++ flat_map (spec.shown_byte mark) text.now) }
{
    for b in text {
        put_byte(line, mark, *b)?;
    }
    Ok(())
}

/// So many bytes of a text, or all.
pub fn start_of(text: &[u8], count: usize) -> &[u8]
    ensures { result.now ≡ take count text.now }
{
    if count < text.len() {
        return &text[..count];
    }
    text
}

/// What follows the bytes that are shown of a text so long.
fn ending_of(length: usize) -> &'static [u8]
    ensures { result.now ≡ (if nat_lt 200 length then codes "..." else []) }
{
    if MAX_TEXT < length { b"..." } else { b"" }
}

fn put_shown(line: &mut Vec<u8>, mark: u8, text: &[u8]) -> Result<(), AllocError>
    ensures { OnOk result (line.new.items ≡ line.old.items ++ spec.shown mark text.now) }
{
    put_bytes(line, mark, start_of(text, MAX_TEXT))?;
    line.extend_from_slice(ending_of(text.len()))
}

/// A text without spaces.
pub(crate) fn put_name(line: &mut Vec<u8>, name: &[u8]) -> Result<(), AllocError>
    ensures { OnOk result (line.new.items ≡ line.old.items ++ spec.shown_name name.now) }
{
    put_shown(line, b' ', name)
}

/// Puts a text between quotation marks: its first 200 bytes, and three dots where it is longer. A byte that isn't printing ASCII, `\` and `"` are
/// shown as `\xNN`.
///
/// `AllocError` where memory is refused; the line then holds a part of it.
pub fn put_quoted(line: &mut Vec<u8>, text: &[u8]) -> Result<(), AllocError>
    ensures { OnOk result (line.new.items ≡ line.old.items ++ spec.quoted text.now) }
{
    line.push(b'"')?;
    put_shown(line, b'"', text)?;
    line.push(b'"')?;
    Ok(())
}

/// Puts a text that ends where the line does: its first 200 bytes, and three dots where it is longer. A byte that isn't printing ASCII and `\` are
/// shown as `\xNN`.
///
/// `AllocError` where memory is refused; the line then holds a part of it.
pub fn put_text(line: &mut Vec<u8>, text: &[u8]) -> Result<(), AllocError>
    ensures { OnOk result (line.new.items ≡ line.old.items ++ spec.shown_text text.now) }
{
    put_shown(line, b'\\', text)
}

pub(crate) fn put_number(line: &mut Vec<u8>, n: u64) -> Result<(), AllocError>
    ensures { OnOk result (line.new.items ≡ line.old.items ++ decimal n) }
{
    let mut digits = Buffer::new();
    line.extend_from_slice(digits.format(n).as_bytes())
}

/// A host and its port, with brackets round what has colons.
pub(crate) fn put_address(line: &mut Vec<u8>, host: &[u8], port: u16) -> Result<(), AllocError>
    ensures { OnOk result (line.new.items ≡ line.old.items ++ spec.address host.now port) }
{
    if host.contains(&b':') {
        line.push(b'[')?;
        put_name(line, host)?;
        line.push(b']')?;
    } else {
        put_name(line, host)?;
    }
    line.push(b':')?;
    put_number(line, port as u64)
}

/// How long it took, in seconds and tenths.
pub(crate) fn put_after(line: &mut Vec<u8>, ms: Option<u64>) -> Result<(), AllocError>
    ensures { OnOk result (line.new.items ≡ line.old.items ++ spec.after ms) }
{
    let Some(ms) = ms else {
        return Ok(());
    };
    line.extend_from_slice(b" after ")?;
    put_number(line, ms / 1000)?;
    line.push(b'.')?;
    put_number(line, ms % 1000 / 100)?;
    line.extend_from_slice(b" s")
}
