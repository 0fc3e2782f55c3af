//! What a line of the settings file says.
ghost use Rattle.std.specs.Prelude.{◌≡◌};
ghost use Rattle.ini_config.specs.Lines as spec;

use crate::values::split_at_first;
use text_lines::{is_ignored, trimmed};

/// The section that a line stands in.
#[derive(Clone, Copy)]
pub enum Section {
    /// Before the first header.
    Preamble,
    Databases,
    Pgbouncer,
    Users,
    Peers,
}

/// A trimmed line.
#[derive(Clone, Copy)]
pub enum Line<'a> {
    /// An empty line or a comment.
    Ignored,
    /// The header of a section.
    Header(Section),
    /// A text in brackets that is the header of no section.
    UnknownHeader,
    /// A key and its value, both trimmed.
    Pair(&'a [u8], &'a [u8]),
    Other,
}

fn header(line: &[u8]) -> Option<Section>
    ensures { result ≡ spec.header_of line.now }
{
    if line == b"[databases]".as_slice() {
        return Some(Section::Databases);
    }
    if line == b"[pgbouncer]".as_slice() {
        return Some(Section::Pgbouncer);
    }
    if line == b"[users]".as_slice() {
        return Some(Section::Users);
    }
    if line == b"[peers]".as_slice() {
        return Some(Section::Peers);
    }
    None
}

fn pair(line: &[u8]) -> Line<'_>
    ensures { spec.said_of result ≡ spec.pair_said (spec.split_at_first 61 line.now) }
{
    match split_at_first(line, b'=') {
        Some((key, value)) => Line::Pair(trimmed(key), trimmed(value)),
        None => Line::Other,
    }
}

/// What a trimmed line says.
#[tactic(auto, unfolding(crate::specs::Lines::said))]
pub fn read_line(line: &[u8]) -> Line<'_>
    ensures { spec.said_of result ≡ spec.said line.now }
{
    if is_ignored(line) {
        return Line::Ignored;
    }
    if let Some(section) = header(line) {
        return Line::Header(section);
    }
    if line.starts_with(b"[") && line.ends_with(b"]") {
        return Line::UnknownHeader;
    }
    pair(line)
}
