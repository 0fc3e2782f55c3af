//! Metrics over HTTP (RFC 9112): `GET /metrics`, and nothing else. What a request asks is told by its bytes alone; the sockets are at the
//! edge.
//!
//! Public: `MetricsServer`, for a thread of `pool_run`; `read_request`, `without_metrics` and `with_metrics`, by which it answers, whose
//! contracts say what a request asks for and what it is answered. `metrics_tests` calls all of them. Free to change: how many connections
//! are served at once, and how much one turn moves, of which no contract speaks.
#![tactic(auto)]

mod exchange;
mod host;
pub mod request;
pub mod response;
pub mod serving;
