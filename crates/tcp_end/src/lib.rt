//! A TCP connection as an end of a lease, and the gate at which a worker waits for the bytes of two such ends.
//!
//! Public: `TcpEnd`, `GatePoll` and `TcpGate`, for `pool_run` and `stub_server`; `dial`, by which `pool_run` reaches servers; `IdlePoll`
//! and `Minder`, by which its clock hears of idle links. `tcp_listen` makes the ends of clients. `Destination`, and the bytes behind an
//! end's counts, are there for the law. Free to change: which calls of the system are spared and how long a turn waits, of which no
//! contract of a `TcpEnd` or a `TcpGate` speaks: a try that is left out counts as one that came to nothing.
//!
//! What readiness is remembered, and why. The system tells of a connection only when it changes (an edge), so bytes that were
//! there before, and weren't all read, are told of no more. An end therefore notes of each read whether it may have left more, and of
//! each read and write whether a further one would come to nothing until the next edge: that one isn't tried. A [`gate::TcpGate`] that
//! finds that there may be more since its last turn doesn't wait at this turn; otherwise the next bytes make an edge, and the wait ends
//! there. Each turn forgets that note, so no two turns in a row go without a wait unless bytes were read between them. A peer that has
//! sent its last byte, or a socket with an error, makes its edge but once, so from then on reads are tried in any case. A turn always
//! names both sides, and nothing is claimed of edges: after a wait without one both ends are tried again. Bytes that a client's end has
//! read ahead are as bytes that its socket still has, of which an event told before. The system is asked to tell of room to write only once
//! a write has found too little: a socket nearly always has room, and told so it would end a wait for bytes that haven't come.
#![tactic(auto)]

mod ahead;
pub mod connection;
mod counted;
mod deferred;
pub mod destination;
pub mod dial;
pub mod gate;
pub mod idle;
mod socket;
mod watched;
