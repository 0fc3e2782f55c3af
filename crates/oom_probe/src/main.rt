//! A tool for this repository's tests: what takes memory is asked once more where a growth of it is refused, and what the refusal left is
//! looked at. So the answer of a run in which one growth is refused is that of a run in which none is, or the run is out of memory.
//!
//! Nothing is public, it isn't installed, and nothing is proved of it but its safety, and that its key and its server can start a link.
//! `tests/program/refuse-growth.sh` runs it with the word of each of its `kinds`, and compares one run with another: so what it tells is
//! free to change, but not those words, nor how it ends where memory was refused.
#![tactic(auto)]

mod book;
mod console;
mod desk;
mod ends;
mod files;
mod kinds;
mod lease;
mod links;
mod login;
mod making;
mod strike;
mod told;

use kinds::{Kind, USAGE, kind_of};
use message_view::KeyWord;
use std::alloc::{AllocError, Global};
use std::io::Write;
use std::process::ExitCode;
use std::rt::Clock;
use std::sync::Wait;
use std::{env, io};

/// The key word of every client and server.
const KEY_WORD: KeyWord = KeyWord {
    pid: 1,
    secret: 2,
    salt: [1, 2, 3, 4],
};

/// What is told of a kind, line by line. The only error is that memory was refused where nothing is asked again.
fn lines_of<R: Wait + Clock + Drop>(
    rt: R,
    alloc: Global,
    kind: Kind,
) -> Result<Vec<u8>, AllocError> {
    let mut out = Vec::new(alloc);
    match kind {
        Kind::Login => login::told(alloc, &mut out)?,
        Kind::Start => links::told_of_starts(alloc, &mut out)?,
        Kind::Reset => links::told_of_resets(alloc, &mut out)?,
        Kind::End => ends::told(alloc, &mut out)?,
        Kind::Relay => lease::told(alloc, &mut out)?,
        Kind::Book => book::told(alloc, &mut out)?,
        Kind::View => desk::told(rt, alloc, &mut out)?,
        Kind::Console => console::told(alloc, &mut out)?,
        Kind::Strike => strike::told(alloc, &mut out)?,
    }
    Ok(out)
}

fn words_of(rt: &HostRuntime) -> io::Result<Vec<String>> {
    Ok(env::args(rt)?.collect(rt.alloc())?)
}

/// Writes the lines. Nothing is written before all is there.
fn write<R: Print>(rt: &R, lines: &[u8]) -> io::Result<()> {
    let mut output = io::writer(rt);
    output.write_all(lines)?;
    output.flush()
}

fn main(rt: HostRuntime) -> ExitCode {
    let words = match words_of(&rt) {
        Ok(words) => words,
        Err(_) => {
            let _ = eprintln!(rt; "oom_probe: memory");
            return ExitCode::from(1);
        }
    };
    let Some(kind) = kind_of(words.as_slice()) else {
        let _ = eprintln!(rt; "{}", USAGE);
        return ExitCode::from(2);
    };
    let Ok(lines) = lines_of(rt, rt.alloc(), kind) else {
        let _ = eprintln!(rt; "oom_probe: memory");
        return ExitCode::from(1);
    };
    match write(&rt, lines.as_slice()) {
        Ok(()) => ExitCode::SUCCESS,
        Err(_) => {
            let _ = eprintln!(rt; "oom_probe: stdout");
            ExitCode::from(1)
        }
    }
}
