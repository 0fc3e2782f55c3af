//! What a request is answered.
ghost use Rattle.std.specs.Prelude.{◌≡◌, ◌++◌, decimal, length, IfOk, OnOk};
ghost use Rattle.metrics_http.specs.Responses as spec;

use crate::request::Asked;
use itoa::Buffer;
use std::alloc::{AllocError, Global};

/// The response to a request that isn't answered by metrics; to one for them, where there are none at the time.
pub fn without_metrics(asked: Asked) -> &'static [u8]
    ensures { result.now ≡ spec.without_metrics asked }
{
    match asked {
        Asked::Metrics =>
            b"HTTP/1.1 503 Service Unavailable\r\nContent-Length: 0\r\nConnection: close\r\n\r\n",
        Asked::Malformed =>
            b"HTTP/1.1 400 Bad Request\r\nContent-Length: 0\r\nConnection: close\r\n\r\n",
        Asked::NotFound =>
            b"HTTP/1.1 404 Not Found\r\nContent-Length: 0\r\nConnection: close\r\n\r\n",
        Asked::NotAllowed =>
            b"HTTP/1.1 405 Method Not Allowed\r\nAllow: GET\r\nContent-Length: 0\r\nConnection: close\r\n\r\n",
        Asked::Misdirected =>
            b"HTTP/1.1 421 Misdirected Request\r\nContent-Length: 0\r\nConnection: close\r\n\r\n",
    }
}

/// What stands before the length of the metrics.
#[tactic(auto, unfolding(crate::specs::Responses::front))]
fn front() -> &'static [u8]
    ensures { result.now ≡ spec.front }
{
    b"HTTP/1.1 200 OK\r\nContent-Type: application/openmetrics-text; version=1.0.0; charset=utf-8\r\nContent-Length: "
}

/// What stands behind it.
#[tactic(auto, unfolding(crate::specs::Responses::behind))]
fn behind() -> &'static [u8]
    ensures { result.now ≡ spec.behind }
{
    b"\r\nConnection: close\r\n\r\n"
}

fn put_length(response: &mut Vec<u8>, n: usize) -> Result<(), AllocError>
    ensures { OnOk result (response.new.items ≡ response.old.items ++ decimal n) }
{
    let mut digits = Buffer::new();
    response.extend_from_slice(digits.format(n).as_bytes())
}

/// The response that tells these metrics. The only error is that an allocation failed.
pub fn with_metrics(alloc: Global, text: &[u8]) -> Result<Vec<u8>, AllocError>
    ensures { IfOk result (λ v. v.items ≡ spec.with_metrics text.now) }
{
    let mut response = Vec::from_slice(alloc, front())?;
    put_length(&mut response, text.len())?;
    response.extend_from_slice(behind())?;
    response.extend_from_slice(text)?;
    Ok(response)
}
