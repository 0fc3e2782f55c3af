//! What a pool asks of its runtime.

use std::net::{self, Net};
use std::rt::Clock;
use std::sync::Wait;
use std::thread::Threads;

/// A runtime that a pool runs on: threads that wait, a clock and the network. Each thread has a copy of it.
pub trait PoolRuntime: Threads
    + Wait
    + Clock
    + Net<Listener = net::TcpListener, Stream = net::TcpStream>
    + Copy
    + Send
    + Sync {}

impl<
    R: Threads
        + Wait
        + Clock
        + Net<Listener = net::TcpListener, Stream = net::TcpStream>
        + Copy
        + Send
        + Sync,
> PoolRuntime for R {}
