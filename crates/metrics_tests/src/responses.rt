//! What requests are answered.
use metrics_http::request::Asked;
use metrics_http::response::{with_metrics, without_metrics};
use std::test::Fail;

#[test]
fn metrics(rt: HostRuntime) -> Result<(), Fail> {
    let rows: &[(&[u8], &[u8])] = &[
        (
            b"a 1\n# EOF\n",
            b"HTTP/1.1 200 OK\r\nContent-Type: application/openmetrics-text; version=1.0.0; charset=utf-8\r\nContent-Length: 10\r\nConnection: close\r\n\r\na 1\n# EOF\n",
        ),
        (
            b"",
            b"HTTP/1.1 200 OK\r\nContent-Type: application/openmetrics-text; version=1.0.0; charset=utf-8\r\nContent-Length: 0\r\nConnection: close\r\n\r\n",
        ),
    ];
    for &(text, wanted) in rows {
        let response = with_metrics(rt.alloc(), text)?;
        assert!(rt; response.as_slice() == wanted);
    }
    Ok(())
}

#[test]
fn refusals(rt: HostRuntime) {
    let rows: &[(Asked, &[u8])] = &[
        (
            Asked::Metrics,
            b"HTTP/1.1 503 Service Unavailable\r\nContent-Length: 0\r\nConnection: close\r\n\r\n",
        ),
        (
            Asked::Malformed,
            b"HTTP/1.1 400 Bad Request\r\nContent-Length: 0\r\nConnection: close\r\n\r\n",
        ),
        (
            Asked::NotFound,
            b"HTTP/1.1 404 Not Found\r\nContent-Length: 0\r\nConnection: close\r\n\r\n",
        ),
        (
            Asked::NotAllowed,
            b"HTTP/1.1 405 Method Not Allowed\r\nAllow: GET\r\nContent-Length: 0\r\nConnection: close\r\n\r\n",
        ),
        (
            Asked::Misdirected,
            b"HTTP/1.1 421 Misdirected Request\r\nContent-Length: 0\r\nConnection: close\r\n\r\n",
        ),
    ];
    for &(asked, wanted) in rows {
        assert!(rt; without_metrics(asked) == wanted);
    }
}
