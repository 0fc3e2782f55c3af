//! What is asked by the bytes of a request.
use metrics_http::request::{Asked, MAX_HEAD, read_request};
use std::alloc::{AllocError, Global};
use std::test::Fail;

/// Requests at an address of this machine alone, and what they ask for.
const ROWS: &[(&[u8], Option<Asked>)] = &[
    // hosts that are this machine, or an address
    (
        b"GET /metrics HTTP/1.1\r\nHost: localhost\r\n\r\n",
        Some(Asked::Metrics),
    ),
    (
        b"GET /metrics HTTP/1.1\r\nHost: localhost:9127\r\n\r\n",
        Some(Asked::Metrics),
    ),
    (
        b"GET /metrics HTTP/1.1\r\nHost: LocalHost:\r\n\r\n",
        Some(Asked::Metrics),
    ),
    (
        b"GET /metrics HTTP/1.1\r\nHost: 127.0.0.1:9127\r\n\r\n",
        Some(Asked::Metrics),
    ),
    (
        b"GET /metrics HTTP/1.1\r\nHost: 10.0.0.7\r\n\r\n",
        Some(Asked::Metrics),
    ),
    (
        b"GET /metrics HTTP/1.1\r\nHost: [::1]:9127\r\n\r\n",
        Some(Asked::Metrics),
    ),
    (
        b"GET /metrics HTTP/1.1\r\nHost: [2001:DB8::7]\r\n\r\n",
        Some(Asked::Metrics),
    ),
    (
        b"GET /metrics HTTP/1.1\r\nHost: [::ffff:10.0.0.7]:1\r\n\r\n",
        Some(Asked::Metrics),
    ),
    (
        b"GET /metrics HTTP/1.1\r\nAccept: */*\r\nhOST:\t192.168.0.1:80 \r\nX: y\r\n\r\n",
        Some(Asked::Metrics),
    ),
    (
        b"GET /metrics HTTP/1.1\r\nHost: localhost\r\nHost: [::1]\r\n\r\n",
        Some(Asked::Metrics),
    ),
    // an older client says none
    (b"GET /metrics HTTP/1.0\r\n\r\n", Some(Asked::Metrics)),
    // lines may end in a line feed alone, and bytes may follow
    (
        b"GET /metrics HTTP/1.1\nHost: localhost\n\n",
        Some(Asked::Metrics),
    ),
    (
        b"\r\nGET /metrics HTTP/1.1\r\nHost: localhost\r\n\r\nGET / HTTP/1.1",
        Some(Asked::Metrics),
    ),
    // hosts that are another machine, or nothing
    (
        b"GET /metrics HTTP/1.1\r\nHost: evil.example\r\n\r\n",
        Some(Asked::Misdirected),
    ),
    (
        b"GET /metrics HTTP/1.1\r\nHost: evil.example:9127\r\n\r\n",
        Some(Asked::Misdirected),
    ),
    (
        b"GET /metrics HTTP/1.1\r\nHost: localhost.evil.example\r\n\r\n",
        Some(Asked::Misdirected),
    ),
    (
        b"GET /metrics HTTP/1.1\r\nHost: localhost.\r\n\r\n",
        Some(Asked::Misdirected),
    ),
    (
        b"GET /metrics HTTP/1.1\r\nHost: \r\n\r\n",
        Some(Asked::Misdirected),
    ),
    (
        b"GET /metrics HTTP/1.1\r\nHost: :9127\r\n\r\n",
        Some(Asked::Misdirected),
    ),
    (
        b"GET /metrics HTTP/1.1\r\nHost: localhost:80x\r\n\r\n",
        Some(Asked::Misdirected),
    ),
    (
        b"GET /metrics HTTP/1.1\r\nHost: localhost:80:80\r\n\r\n",
        Some(Asked::Misdirected),
    ),
    (
        b"GET /metrics HTTP/1.1\r\nHost: 127.1\r\n\r\n",
        Some(Asked::Misdirected),
    ),
    (
        b"GET /metrics HTTP/1.1\r\nHost: 127.0.0.01\r\n\r\n",
        Some(Asked::Misdirected),
    ),
    (
        b"GET /metrics HTTP/1.1\r\nHost: 127.0.0.256\r\n\r\n",
        Some(Asked::Misdirected),
    ),
    (
        b"GET /metrics HTTP/1.1\r\nHost: 127.0.0.1.\r\n\r\n",
        Some(Asked::Misdirected),
    ),
    (
        b"GET /metrics HTTP/1.1\r\nHost: ::1\r\n\r\n",
        Some(Asked::Misdirected),
    ),
    (
        b"GET /metrics HTTP/1.1\r\nHost: [::1\r\n\r\n",
        Some(Asked::Misdirected),
    ),
    (
        b"GET /metrics HTTP/1.1\r\nHost: [::1]9127\r\n\r\n",
        Some(Asked::Misdirected),
    ),
    (
        b"GET /metrics HTTP/1.1\r\nHost: [::1]]\r\n\r\n",
        Some(Asked::Misdirected),
    ),
    (
        b"GET /metrics HTTP/1.1\r\nHost: [127.0.0.1]\r\n\r\n",
        Some(Asked::Misdirected),
    ),
    (
        b"GET /metrics HTTP/1.1\r\nHost: [localhost]\r\n\r\n",
        Some(Asked::Misdirected),
    ),
    (
        b"GET /metrics HTTP/1.1\r\nHost: [::1%25lo]\r\n\r\n",
        Some(Asked::Misdirected),
    ),
    (
        b"GET /metrics HTTP/1.1\r\nHost: a@localhost\r\n\r\n",
        Some(Asked::Misdirected),
    ),
    (b"GET /metrics HTTP/1.1\r\n\r\n", Some(Asked::Misdirected)),
    (
        b"GET /metrics HTTP/1.1\r\nHost: localhost\r\nHost: evil.example\r\n\r\n",
        Some(Asked::Misdirected),
    ),
    (
        b"GET /metrics HTTP/1.0\r\nHost: evil.example\r\n\r\n",
        Some(Asked::Misdirected),
    ),
    (
        b"POST / HTTP/1.1\r\nHost: evil.example\r\n\r\n",
        Some(Asked::Misdirected),
    ),
    // other paths
    (
        b"GET / HTTP/1.1\r\nHost: localhost\r\n\r\n",
        Some(Asked::NotFound),
    ),
    (
        b"GET /metrics/ HTTP/1.1\r\nHost: localhost\r\n\r\n",
        Some(Asked::NotFound),
    ),
    (
        b"GET /metrics?x=1 HTTP/1.1\r\nHost: localhost\r\n\r\n",
        Some(Asked::NotFound),
    ),
    (
        b"GET /Metrics HTTP/1.1\r\nHost: localhost\r\n\r\n",
        Some(Asked::NotFound),
    ),
    (
        b"GET /%6detrics HTTP/1.1\r\nHost: localhost\r\n\r\n",
        Some(Asked::NotFound),
    ),
    (
        b"GET http://localhost/metrics HTTP/1.1\r\nHost: localhost\r\n\r\n",
        Some(Asked::NotFound),
    ),
    (
        b"OPTIONS * HTTP/1.1\r\nHost: localhost\r\n\r\n",
        Some(Asked::NotFound),
    ),
    (
        b"POST / HTTP/1.1\r\nHost: localhost\r\n\r\n",
        Some(Asked::NotFound),
    ),
    // other methods
    (
        b"POST /metrics HTTP/1.1\r\nHost: localhost\r\n\r\n",
        Some(Asked::NotAllowed),
    ),
    (
        b"HEAD /metrics HTTP/1.1\r\nHost: localhost\r\n\r\n",
        Some(Asked::NotAllowed),
    ),
    (
        b"get /metrics HTTP/1.1\r\nHost: localhost\r\n\r\n",
        Some(Asked::NotAllowed),
    ),
    (
        b"GETS /metrics HTTP/1.1\r\nHost: localhost\r\n\r\n",
        Some(Asked::NotAllowed),
    ),
    // no requests
    (b"GET /metrics\r\n\r\n", Some(Asked::Malformed)),
    (
        b"GET /metrics HTTP/2.0\r\nHost: localhost\r\n\r\n",
        Some(Asked::Malformed),
    ),
    (
        b"GET  /metrics HTTP/1.1\r\nHost: localhost\r\n\r\n",
        Some(Asked::Malformed),
    ),
    (
        b"GET /metrics HTTP/1.1\r\nHost localhost\r\n\r\n",
        Some(Asked::Malformed),
    ),
    (
        b"GET /metrics HTTP/1.1\r\nHost : localhost\r\n\r\n",
        Some(Asked::Malformed),
    ),
    (
        b"GET /metrics HTTP/1.1\r\nHost: local\0host\r\n\r\n",
        Some(Asked::Malformed),
    ),
    (
        b"GET /metrics HTTP/1.1\r\nHost: localhost\r\n X: y\r\n\r\n",
        Some(Asked::Malformed),
    ),
    (b"\x16\x03\x01\x02\0", Some(Asked::Malformed)),
    (b"\0\0\0\x08\x04\xd2\x16/", Some(Asked::Malformed)),
    // more may come
    (b"", None),
    (b"GE", None),
    (b"GET /metrics HTTP/1.1\r\nHost: evil.example", None),
    (b"GET /metrics HTTP/1.1\r\nHost: localhost\r\n", None),
    (b"GET /metrics HTTP/1.1\r\nHost: localhost\r\n\r", None),
];

#[test]
fn requests(rt: HostRuntime) {
    for &(request, wanted) in ROWS {
        assert!(rt; read_request(request, true) == wanted, "{request:?}");
    }
}

#[test]
fn elsewhere_any_host_is_welcome(rt: HostRuntime) {
    let rows: &[&[u8]] = &[
        b"GET /metrics HTTP/1.1\r\nHost: prometheus.example\r\n\r\n",
        b"GET /metrics HTTP/1.1\r\nHost:\r\n\r\n",
        b"GET /metrics HTTP/1.1\r\n\r\n",
    ];
    for &request in rows {
        assert!(rt;
            read_request(request, false) == Some(Asked::Metrics),
            "{request:?}"
        );
    }
    assert!(rt; read_request(b"GET / HTTP/1.1\r\n\r\n", false) == Some(Asked::NotFound));
}

/// A request with so many fields, the last of so many bytes, without the line that ends it.
fn front(alloc: Global, fields: usize, length: usize) -> Result<Vec<u8>, AllocError> {
    let mut request = Vec::from_slice(alloc, b"GET /metrics HTTP/1.1\r\nHost: localhost\r\n")?;
    for _ in 2..fields {
        request.extend_from_slice(b"X: y\r\n")?;
    }
    request.extend_from_slice(b"X: ")?;
    for _ in 0..length {
        request.push(b'y')?;
    }
    request.extend_from_slice(b"\r\n")?;
    Ok(request)
}

/// The bytes of such a front with two fields, besides those.
const FRONT: usize = 45;

#[test]
fn long_requests(rt: HostRuntime) -> Result<(), Fail> {
    let rows: &[(usize, bool, Option<Asked>)] = &[
        // a head of 4,096 bytes, and one of 4,097
        (MAX_HEAD - FRONT - 2, true, Some(Asked::Metrics)),
        (MAX_HEAD - FRONT - 1, true, Some(Asked::Malformed)),
        // 4,095 bytes that may become one, and 4,096 that can't
        (MAX_HEAD - FRONT - 1, false, None),
        (MAX_HEAD - FRONT, false, Some(Asked::Malformed)),
        (2 * MAX_HEAD, false, Some(Asked::Malformed)),
        (2 * MAX_HEAD, true, Some(Asked::Malformed)),
    ];
    for &(length, is_whole, wanted) in rows {
        let mut request = front(rt.alloc(), 2, length)?;
        if is_whole {
            request.extend_from_slice(b"\r\n")?;
        }
        assert!(rt; read_request(&request, true) == wanted, "{length}");
    }
    Ok(())
}

#[test]
fn many_fields(rt: HostRuntime) -> Result<(), Fail> {
    for (fields, wanted) in [(64, Asked::Metrics), (65, Asked::Malformed)] {
        let mut request = front(rt.alloc(), fields, 1)?;
        request.extend_from_slice(b"\r\n")?;
        assert!(rt; read_request(&request, true) == Some(wanted));
    }
    Ok(())
}
