//! What a report shows of a line.
ghost use Rattle.std.specs.Prelude.{◌≡◌, ◌≤◌, ◌++◌, [], codes, nat_lt, drop, length, if◌then◌else◌, OnOk};
ghost use Rattle.ini_config.specs.Lines.{said_of};
ghost use Rattle.settings_check.specs.Shown as spec;

use ini_config::{Line, Section};
use log_lines::shown::{put_text, start_of};
use std::alloc::{AllocError, Global};

/// Whether the text begins with the word `password`, in any case of letters.
fn begins_password(text: &[u8]) -> bool
    ensures { result ≡ spec.begins_password text.now }
{
    start_of(text, 8).eq_ignore_ascii_case(b"password")
}

/// What follows so many bytes of a text.
fn rest_of(text: &[u8], count: usize) -> &[u8]
    requires { count ≤ length text.now }
    ensures { result.now ≡ drop count text.now }
{
    &text[count..]
}

/// How many bytes of a text are shown: up to the first word `password`, and the word.
fn shown_length(text: &[u8]) -> usize
    ensures { result ≡ spec.shown_length text.now }
{
    for at in 0..text.len() {
        if begins_password(rest_of(text, at)) {
            return at + 8;
        }
    }
    text.len()
}

/// What follows a text of which so much is shown.
fn dots_of(shown: usize, length: usize) -> &'static [u8]
    ensures { result.now ≡ (if nat_lt shown length then codes ".." else []) }
{
    if shown < length { b".." } else { b"" }
}

/// A text without what follows the word `password` in it.
fn put_visible(line: &mut Vec<u8>, text: &[u8]) -> Result<(), AllocError>
    ensures { OnOk result (line.new.items ≡ line.old.items ++ spec.visible text.now) }
{
    let shown = shown_length(text);
    put_text(line, start_of(text, shown))?;
    line.extend_from_slice(dots_of(shown, text.len()))
}

/// A key and its value.
fn put_pair(line: &mut Vec<u8>, alloc: Global, name: &[u8], value: &[u8]) -> Result<(), AllocError>
    ensures { OnOk result (line.new.items ≡ line.old.items ++ (spec.visible (name.now ++ codes " = " ++ value.now) ++ codes ": ")) }
{
    let mut pair = Vec::from_slice(alloc, name)?;
    pair.extend_from_slice(b" = ")?;
    pair.extend_from_slice(value)?;
    put_visible(line, pair.as_slice())?;
    line.extend_from_slice(b": ")
}

/// The key and the value of a line in `[databases]` or `[pgbouncer]`. Of any other line nothing: it might be a user's.
pub(crate) fn put_pair_in(
    line: &mut Vec<u8>,
    alloc: Global,
    section: Section,
    faulty: Line<'_>,
) -> Result<(), AllocError>
    ensures { OnOk result (line.new.items ≡ line.old.items ++ spec.pair_in section (said_of faulty.entry)) }
{
    match (section, faulty) {
        (Section::Databases | Section::Pgbouncer, Line::Pair(name, value)) => {
            put_pair(line, alloc, name, value)
        }
        _ => Ok(()),
    }
}
