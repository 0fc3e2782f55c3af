//! The labels of a row, as a text.
ghost use Rattle.std.specs.Prelude.{◌≡◌, ◌++◌, ◌∷◌, ◌==◌, ◌&&◌, [], map, not, OnOk};
ghost use Rattle.std.specs.List.{flat_map};
ghost use Rattle.log_lines.specs.Shown as log;
ghost use Rattle.metrics_text.specs.Labels as spec;
ghost use Rattle.metrics_text.specs.Views.{label_view};

use std::alloc::AllocError;

/// A label's name and value. The value may have any bytes.
pub(crate) type Label<'a> = (&'a str, &'a [u8]);

/// The last hexadecimal digit of a number.
fn hex_digit(n: u8) -> u8
    ensures { result ≡ log.hex_digit n }
{
    let digit = n % 16;
    if digit < 10 { 48 + digit } else { 87 + digit }
}

/// Whether a byte is shown as it is.
fn is_shown(b: u8) -> bool
    ensures { result ≡ (log.is_printing b && not (b == 92)) }
{
    32 <= b && b <= 126 && b != b'\\'
}

fn put_byte(text: &mut Vec<u8>, b: u8) -> Result<(), AllocError>
    ensures { OnOk result (text.new.items ≡ text.old.items ++ spec.value_byte b) }
{
    if b == b'"' {
        return text.extend_from_slice(b"\\\"");
    }
    if is_shown(b) {
        text.push(b)?;
        return Ok(());
    }
    text.extend_from_slice(&[b'\\', b'\\', b'x', hex_digit(b / 16), hex_digit(b)])
}

fn put_value(text: &mut Vec<u8>, value: &[u8]) -> Result<(), AllocError>
    ensures { OnOk result (text.new.items ≡ text.old.items ++ spec.value_text value.now) }
{
    for b in value {
        put_byte(text, *b)?;
    }
    Ok(())
}

fn put_label(text: &mut Vec<u8>, name: &str, value: &[u8]) -> Result<(), AllocError>
    ensures { OnOk result (text.new.items ≡ text.old.items ++ spec.label_text (name.now, value.now)) }
{
    text.extend_from_slice(name.as_bytes())?;
    text.extend_from_slice(b"=\"")?;
    put_value(text, value)?;
    text.push(b'"')?;
    Ok(())
}

/// A label behind another.
fn put_behind_comma(text: &mut Vec<u8>, name: &str, value: &[u8]) -> Result<(), AllocError>
    ensures { OnOk result (text.new.items ≡ text.old.items ++ spec.behind_comma (name.now, value.now)) }
{
    text.push(b',')?;
    put_label(text, name, value)
}

/// Labels with commas between.
fn put_joined(text: &mut Vec<u8>, labels: &[Label<'_>]) -> Result<(), AllocError>
    ensures { OnOk result (text.new.items ≡ text.old.items ++ spec.joined (map label_view labels.now)) }
{
    let [(first, first_value), others @ ..] = labels else {
        return Ok(());
    };
    put_label(text, first, first_value)?;
    for (name, value) in others {
        put_behind_comma(text, name, value)?;
    }
    Ok(())
}

/// The labels of a row. The only error is that an allocation failed: then the text has a part of them.
pub(crate) fn put_labels(text: &mut Vec<u8>, labels: &[Label<'_>]) -> Result<(), AllocError>
    ensures { OnOk result (text.new.items ≡ text.old.items ++ spec.labels_text (map label_view labels.now)) }
{
    text.push(b'{')?;
    put_joined(text, labels)?;
    text.push(b'}')?;
    Ok(())
}
