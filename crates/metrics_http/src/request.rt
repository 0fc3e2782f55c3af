//! What a request asks for.
ghost use Rattle.std.specs.Prelude.{◌≡◌, ◌↔◌, length, map, All, IsTrue};
ghost use Rattle.std.specs.List.{list_any};
ghost use Rattle.httparse.specs.Grammar.{RequestHead};
ghost use Rattle.httparse.specs.Spans.{IsHeaderWithin, IsRequestAt, IsRequestWithin, header_bytes};
ghost use Rattle.metrics_http.specs.Requests as spec;

use crate::host::{is_here, is_same_word};
use httparse::Status;
use httparse::spans::{EMPTY_HEADER_SPAN, HeaderSpan, RequestSpans, parse_request};

/// The most bytes that the head of a request may have.
pub const MAX_HEAD: usize = 4096;

/// The most fields that it may have.
pub const MAX_FIELDS: usize = 64;

/// What a request asks for, and is answered by.
#[derive(Clone, Copy, PartialEq, Eq, Drop)]
pub enum Asked {
    /// The metrics.
    Metrics,
    /// It is no request, or its head is too long: 400.
    Malformed,
    /// Something that isn't there: 404.
    NotFound,
    /// The metrics, by another method than GET: 405.
    NotAllowed,
    /// It was meant for another machine: 421.
    Misdirected,
}

fn is_text(text: &[u8], wanted: &[u8]) -> bool
    ensures { IsTrue result ↔ (text.now ≡ wanted.now) }
{
    text == wanted
}

/// Whether a field is a Host.
fn is_host(bytes: &[u8], field: HeaderSpan) -> bool
    requires { IsHeaderWithin (length bytes.now) field }
    ensures { result ≡ spec.is_host (header_bytes bytes.now field) }
{
    is_same_word(field.name.of(bytes), b"host")
}

/// Whether a field isn't a Host, or is one that names this machine.
fn names_no_other(bytes: &[u8], field: HeaderSpan) -> bool
    requires { IsHeaderWithin (length bytes.now) field }
    ensures { IsTrue result ↔ spec.NamesNoOther (header_bytes bytes.now field) }
{
    if !is_host(bytes, field) {
        return true;
    }
    is_here(field.value.of(bytes))
}

/// Whether no field is a Host that names another machine.
fn name_no_other(bytes: &[u8], fields: &[HeaderSpan]) -> bool
    requires { All (IsHeaderWithin (length bytes.now)) fields.now }
    ensures { IsTrue result ↔ All spec.NamesNoOther (map (header_bytes bytes.now) fields.now) }
{
    for field in fields {
        if !names_no_other(bytes, *field) {
            return false;
        }
    }
    true
}

/// Whether one is a Host.
fn has_host(bytes: &[u8], fields: &[HeaderSpan]) -> bool
    requires { All (IsHeaderWithin (length bytes.now)) fields.now }
    ensures { result ≡ list_any spec.is_host (map (header_bytes bytes.now) fields.now) }
{
    for field in fields {
        if is_host(bytes, *field) {
            return true;
        }
    }
    false
}

/// Whether the Hosts name this machine, and there is one, which HTTP/1.0 doesn't ask for.
fn is_welcome(bytes: &[u8], fields: &[HeaderSpan], minor: u8) -> bool
    requires { All (IsHeaderWithin (length bytes.now)) fields.now }
    ensures { IsTrue result ↔ spec.IsWelcome minor (map (header_bytes bytes.now) fields.now) }
{
    if !name_no_other(bytes, fields) {
        return false;
    }
    if minor == 0 {
        return true;
    }
    has_host(bytes, fields)
}

/// The same, where it was asked at an address of this machine alone.
fn is_welcomed(bytes: &[u8], fields: &[HeaderSpan], minor: u8, is_local: bool) -> bool
    requires { All (IsHeaderWithin (length bytes.now)) fields.now }
    ensures { IsTrue result ↔ spec.Welcomes is_local minor (map (header_bytes bytes.now) fields.now) }
{
    if !is_local {
        return true;
    }
    is_welcome(bytes, fields, minor)
}

/// What a head asks for that is taken.
fn asked_by(bytes: &[u8], fields: &[HeaderSpan], head: RequestSpans, is_local: bool) -> Asked
    requires { IsRequestWithin bytes.now fields.now head }
    ensures { (h : RequestHead) → IsRequestAt bytes.now fields.now head h → spec.IsTaken h → spec.Answers is_local bytes.now result }
{
    let named = &fields[..head.headers];
    if !is_welcomed(bytes, named, head.version, is_local) {
        return Asked::Misdirected;
    }
    if !is_text(head.path.of(bytes), b"/metrics") {
        return Asked::NotFound;
    }
    if !is_text(head.method.of(bytes), b"GET") {
        return Asked::NotAllowed;
    }
    Asked::Metrics
}

/// What is asked by the bytes that have come of a request, at an address of this machine alone or at another. `None` where more may have to
/// come: then they are fewer than [`MAX_HEAD`]. It takes no memory.
pub fn read_request(bytes: &[u8], is_local: bool) -> Option<Asked>
    ensures { spec.Tells is_local bytes.now result }
{
    let mut fields = [EMPTY_HEADER_SPAN; MAX_FIELDS];
    match parse_request(bytes, &mut fields) {
        Ok(Status::Partial) if bytes.len() >= MAX_HEAD => Some(Asked::Malformed),
        Ok(Status::Partial) => None,
        Ok(Status::Complete(head)) if head.len > MAX_HEAD => Some(Asked::Malformed),
        Ok(Status::Complete(head)) => Some(asked_by(bytes, &fields, head, is_local)),
        Err(_) => Some(Asked::Malformed),
    }
}
