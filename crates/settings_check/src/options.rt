//! The keys of `[pgbouncer]` as a file has them, and which of them are read over.
ghost use Rattle.std.specs.Prelude.{◌≡◌, IfOk, map, option_map, bytes_eq};
ghost use Rattle.std.specs.List.{list_any};
ghost use Rattle.text_lines.specs.Lines.{lines as lines_of_file};
ghost use Rattle.ini_config.specs.Lines.{said_of};
ghost use Rattle.settings_check.specs.Options as spec;

use bstr::ByteSlice;
use ini_config::{Line, Section, read_line};
use neutral_keys::is_read_over;
use std::alloc::{AllocError, Global};
use text_lines::{Text, trimmed};

/// The section behind a line.
pub(crate) fn section_after(section: Section, line: Line<'_>) -> Section
    ensures { result ≡ spec.section_after section (said_of line.entry) }
{
    match line {
        Line::Header(next) => next,
        _ => section,
    }
}

/// The key and the value that a line gives in `[pgbouncer]`.
fn option_in<'a>(section: Section, line: Line<'a>) -> Option<(&'a [u8], &'a [u8])>
    ensures { option_map (λ o. (o.0.now, o.1.now)) result ≡ spec.option_in section (said_of line.entry) }
{
    match (section, line) {
        (Section::Pgbouncer, Line::Pair(name, value)) => Some((name, value)),
        _ => None,
    }
}

/// The value that a file gives a key of `[pgbouncer]`: the first, if it has several.
pub fn value_given<'a>(text: &'a [u8], key: &[u8]) -> Option<&'a [u8]>
    ensures { option_map (λ v. v.now) result ≡ spec.value_given key.now (lines_of_file text.entry.now) }
{
    let mut section = Section::Preamble;
    for raw in text.lines() {
        let line = read_line(trimmed(raw));
        if let Some((name, value)) = option_in(section, line) {
            if name == key {
                return Some(value);
            }
        }
        section = section_after(section, line);
    }
    None
}

/// Whether the name is among them.
fn has_name(names: &[Text], name: &[u8]) -> bool
    ensures { result ≡ list_any (λ n. bytes_eq n name.now) names.now }
{
    names.iter().any(|n| n.as_bytes() == name)
}

/// Adds a name, unless it is among them. The only error is out of memory.
fn add_once(names: &mut Vec<Text>, alloc: Global, name: &[u8]) -> Result<(), AllocError>
    ensures { IfOk result (λ done. names.new.items ≡ spec.with_name names.old.items name.now) }
{
    if !has_name(names.as_slice(), name) {
        names.push(Text::copy(alloc, name)?)?;
    }
    Ok(())
}

/// Whether a key is read over at this value. `auth_file` isn't where it names the user file.
fn is_over(uses_auth_file: bool, name: &[u8], value: &[u8]) -> bool
    ensures { result ≡ spec.is_over uses_auth_file name.now value.now }
{
    is_read_over(name, value) && !(uses_auth_file && name == b"auth_file".as_slice())
}

/// The keys of `[pgbouncer]` that the settings read over, in the order of the file, each once; without `auth_file` where it names the
/// user file. The only error is out of memory.
pub fn read_over(alloc: Global, uses_auth_file: bool, text: &[u8]) -> Result<Vec<Text>, AllocError>
    ensures { IfOk result (λ v. v.items ≡ spec.read_over uses_auth_file (lines_of_file text.now)) }
{
    let mut names = Vec::new(alloc);
    let mut section = Section::Preamble;
    for raw in text.lines() {
        let line = read_line(trimmed(raw));
        if let Some((name, value)) = option_in(section, line) {
            if is_over(uses_auth_file, name, value) {
                add_once(&mut names, alloc, name)?;
            }
        }
        section = section_after(section, line);
    }
    Ok(names)
}
