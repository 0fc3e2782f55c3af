//! One connection: a request, its response and the close.

use crate::request::{Asked, read_request};
use crate::response::{with_metrics, without_metrics};
use mio::net::TcpStream;
use mio::{Interest, Poll, Token};
use std::alloc::{AllocError, Global};
use std::io;
use std::io::{ErrorKind, Read, Write};
use std::net::Shutdown;
use std::rt::Clock;
use std::time::Instant;
use time_limits::METRICS_EXCHANGE;

/// As many bytes as one read takes at most.
const ROOM: usize = 1024;

/// So many moves are made in one turn at most, so that one connection doesn't keep the others waiting.
const MAX_MOVES: u32 = 64;

/// What is done next over a connection.
#[derive(Clone, Copy, PartialEq, Eq, Drop)]
enum Stage {
    /// The request is read.
    Asking,
    /// The metrics are asked for.
    Due,
    /// The response is written.
    Answering,
    /// What still comes is dropped until the other side has closed. A close before that could cost it the response.
    Leaving,
}

/// What a move came to.
#[derive(Clone, Copy, PartialEq, Eq, Drop)]
enum Move {
    Made,
    /// None could be made at this time.
    NotNow,
    /// The connection is done.
    Last,
}

fn move_at(kind: ErrorKind) -> Move {
    match kind {
        ErrorKind::WouldBlock => Move::NotNow,
        ErrorKind::Interrupted => Move::Made,
        _ => Move::Last,
    }
}

/// Reads some bytes behind those that are there.
fn read_some(stream: &mut TcpStream, head: &mut Vec<u8>) -> Move {
    let mut room = [0u8; ROOM];
    match stream.read(&mut room) {
        Ok(0) => Move::Last,
        Ok(count) => match head.extend_from_slice(&room[..count]) {
            Ok(()) => Move::Made,
            Err(_) => Move::Last,
        },
        Err(error) => move_at(error.kind()),
    }
}

/// A connection, and how far its exchange has come.
#[derive(Drop)]
pub(crate) struct Exchange {
    stream: TcpStream,
    /// When it came.
    since: Instant,
    stage: Stage,
    head: Vec<u8>,
    response: Vec<u8>,
    /// So many bytes of the response are written.
    written: usize,
}

impl Exchange {
    /// A connection that came now. The error is that the clock can't be read, or that the poll has no room for it.
    pub(crate) fn new<R: Clock>(
        rt: &R,
        alloc: Global,
        poll: &Poll,
        stream: TcpStream,
        token: Token,
    ) -> io::Result<Exchange> {
        let mut stream = stream;
        poll.registry().register(&mut stream, token, Interest::READABLE | Interest::WRITABLE)?;
        Ok(Exchange {
            stream,
            since: Instant::now(rt)?,
            stage: Stage::Asking,
            head: Vec::new(alloc),
            response: Vec::new(alloc),
            written: 0,
        })
    }

    /// Whether its time is over. Where the clock can't be read it is.
    fn is_late<R: Clock>(&self, rt: &R) -> bool {
        match self.since.elapsed(rt) {
            Ok(age) => age >= METRICS_EXCHANGE.duration(),
            Err(_) => true,
        }
    }

    /// Reads of the request; where it asks for anything but the metrics, it makes the response once it is there.
    fn ask(&mut self, alloc: Global, is_local: bool) -> Move {
        let Exchange { stream, head, .. } = self;
        let made = read_some(stream, head);
        if made != Move::Made {
            return made;
        }
        let Some(asked) = read_request(&self.head, is_local) else {
            return Move::Made;
        };
        if asked == Asked::Metrics {
            self.stage = Stage::Due;
            return Move::Made;
        }
        let Ok(response) = Vec::from_slice(alloc, without_metrics(asked)) else {
            return Move::Last;
        };
        self.response = response;
        self.stage = Stage::Answering;
        Move::Made
    }

    /// Whether the metrics are asked for.
    pub(crate) fn is_due(&self) -> bool {
        self.stage == Stage::Due
    }

    /// Answers by this text of the metrics, or that there is none. The only error is that an allocation failed.
    pub(crate) fn answer(&mut self, alloc: Global, text: Option<&[u8]>) -> Result<(), AllocError> {
        self.response = match text {
            Some(text) => with_metrics(alloc, text)?,
            None => Vec::from_slice(alloc, without_metrics(Asked::Metrics))?,
        };
        self.stage = Stage::Answering;
        Ok(())
    }

    /// Writes of the response, and then that it was all.
    fn write(&mut self) -> Move {
        let Exchange {
            stream,
            stage,
            response,
            written,
            ..
        } = self;
        let from = (*written).min(response.len());
        let rest = &response[from..];
        if rest.is_empty() {
            *stage = Stage::Leaving;
            let _ = stream.shutdown(Shutdown::Write);
            return Move::Made;
        }
        match stream.write(rest) {
            Ok(0) => Move::Last,
            Ok(count) => {
                *written = from.saturating_add(count);
                Move::Made
            }
            Err(error) => move_at(error.kind()),
        }
    }

    /// Drops what still comes.
    fn leave(&mut self) -> Move {
        let mut dropped = [0u8; ROOM];
        match self.stream.read(&mut dropped) {
            Ok(0) => Move::Last,
            Ok(_) => Move::Made,
            Err(error) => move_at(error.kind()),
        }
    }

    /// Goes on as far as it can at this time; whether it is done, or its time is over.
    pub(crate) fn is_done<R: Clock>(&mut self, rt: &R, alloc: Global, is_local: bool) -> bool {
        for _ in 0..MAX_MOVES {
            let made = match self.stage {
                Stage::Asking => self.ask(alloc, is_local),
                Stage::Due => Move::NotNow,
                Stage::Answering => self.write(),
                Stage::Leaving => self.leave(),
            };
            match made {
                Move::Made => {}
                Move::NotNow => break,
                Move::Last => return true,
            }
        }
        self.is_late(rt)
    }
}
