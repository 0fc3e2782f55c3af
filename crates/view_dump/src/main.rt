//! A tool for this repository's tests: the parts of the messages on standard input, as the views of `message_view` read them, in a line
//! for each; what a view doesn't read is told by the name of its fault.
//!
//! Nothing is public, it isn't installed, and nothing is proved of it but its safety. `tests/program/views.py` compares its lines with
//! those of a plain reader, so the lines and that script change together; all else is free to change.
#![tactic(auto)]

mod lines;

use frame_view::Side;
use lines::{Messages, lines_of};
use std::alloc::{AllocError, Global};
use std::io::{Read, Write};
use std::process::ExitCode;
use std::{env, io};

/// The line that a wrong command line is answered by.
const USAGE: &str = "usage: view_dump first | client | server (such messages on standard input)";

/// Why nothing is told.
enum Fault {
    Usage,
    Memory,
    Io,
}

impl From<AllocError> for Fault {
    fn from(_error: AllocError) -> Fault {
        Fault::Memory
    }
}

impl From<io::Error> for Fault {
    fn from(_error: io::Error) -> Fault {
        Fault::Io
    }
}

/// The messages of a command line, whose first word is the program's name.
fn messages_of(words: &[String]) -> Option<Messages> {
    match words.get(1)?.as_str() {
        "first" => Some(Messages::First),
        "client" => Some(Messages::Of(Side::Client)),
        "server" => Some(Messages::Of(Side::Server)),
        _ => None,
    }
}

fn words_of(rt: &HostRuntime) -> io::Result<Vec<String>> {
    Ok(env::args(rt)?.collect(rt.alloc())?)
}

/// Nothing is written before all is there.
fn run<R: Input + Print>(rt: &R, alloc: Global, words: &[String]) -> Result<(), Fault> {
    let Some(messages) = messages_of(words) else {
        return Err(Fault::Usage);
    };
    let mut bytes = Vec::new(alloc);
    rt.reader().read_to_end(&mut bytes)?;
    let lines = lines_of(alloc, messages, bytes.as_slice())?;
    let mut output = io::writer(rt);
    output.write_all(lines.as_slice())?;
    output.flush()?;
    Ok(())
}

/// What the words ask for.
fn job(rt: &HostRuntime) -> Result<(), Fault> {
    let words = words_of(rt)?;
    run(rt, rt.alloc(), words.as_slice())
}

fn main(rt: HostRuntime) -> ExitCode {
    let (told, status) = match job(&rt) {
        Ok(()) => return ExitCode::SUCCESS,
        Err(Fault::Usage) => (USAGE, 2),
        Err(Fault::Memory) => ("view_dump: memory", 1),
        Err(Fault::Io) => ("view_dump: standard streams", 1),
    };
    let _ = eprintln!(rt; "{}", told);
    ExitCode::from(status)
}
