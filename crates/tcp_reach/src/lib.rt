//! Where the servers of a host are, the connections to them, and one message on a connection of its own.
//!
//! Public: `connect_to`, by which `tcp_end` dials; `send_to_hosts`, by which `pool_run` sends cancels; `Place` and `places_of`, by which
//! the listeners of `tcp_listen` and `pgsess` have places too; `is_listened_at` and `socket_path`, for the Unix socket of `pgsess`.
//! Contracts of `tcp_end`, `tcp_listen` and `pool_run` cite places. What a `Stream` and a `Sent` note of the bytes that were sent is
//! there for the law. Free to change: in which order the places of a host are tried, and how the seconds are shared among them.
#![tactic(auto)]

pub mod connect;
pub mod message;
pub mod places;
pub mod stream;
