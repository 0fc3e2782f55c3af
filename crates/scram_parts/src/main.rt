//! A tool for this repository's tests: what `scram` and `sasl_prep` answer to the lines on standard input, in a line for each. The first
//! word of a line says what is asked; the others are bytes in hex, with one space between.
//!
//! Nothing is public, it isn't installed, and nothing is proved of it but its safety. `tests/program/scram.py` compares its lines with
//! what Python's libraries make of the same, so the lines and that script change together; all else is free to change.
#![tactic(auto)]

mod answers;

use answers::answers_of;
use std::alloc::{AllocError, Global};
use std::io;
use std::io::{Read, Write};
use std::process::ExitCode;

/// Why nothing is told.
enum Fault {
    Memory,
    Io,
}

impl From<AllocError> for Fault {
    fn from(_error: AllocError) -> Fault {
        Fault::Memory
    }
}

impl From<io::Error> for Fault {
    fn from(_error: io::Error) -> Fault {
        Fault::Io
    }
}

/// Nothing is written before all is there.
fn run<R: Input + Print>(rt: &R, alloc: Global) -> Result<(), Fault> {
    let mut lines = Vec::new(alloc);
    rt.reader().read_to_end(&mut lines)?;
    let answers = answers_of(alloc, lines.as_slice())?;
    let mut output = io::writer(rt);
    output.write_all(answers.as_slice())?;
    output.flush()?;
    Ok(())
}

fn main(rt: HostRuntime) -> ExitCode {
    match run(&rt, rt.alloc()) {
        Ok(()) => ExitCode::SUCCESS,
        Err(Fault::Memory) => ExitCode::from(3),
        Err(Fault::Io) => ExitCode::from(1),
    }
}
