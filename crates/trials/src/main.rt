//! A tool for this repository's tests and measurements: a login fed with its bytes in pieces, what a session alone answers, what a lease
//! gives; rows through a relay, and events and seconds of a lease book.
//!
//! Nothing is public, it isn't installed, and nothing is proved of it but its safety. Scripts of `tests/program` and `bench` run it by
//! the words of `job` and read what it prints, so these change together; all else is free to change. The clauses of its ends (`rows`,
//! `links`) are there so that a link over them is a clean one without a start.
#![tactic(auto)]

mod book;
mod fault;
mod input;
mod job;
mod keys;
mod lease;
mod lines;
mod links;
mod login;
mod relay;
mod rows;
mod solo;
mod ticks;

use job::Job;
use lines::number_line;
use message_view::KeyWord;
use pool_app::fault::AppError;
use std::alloc::{AllocError, Global};
use std::io::Write;
use std::process::ExitCode;
use std::rt::Files;
use std::{env, io};

/// The key word of every trial, which is that of `pgsess replay` too.
const KEY_WORD: KeyWord = KeyWord {
    pid: 1,
    secret: 2,
    salt: [1, 2, 3, 4],
};

/// A count, as a line.
fn line_of<'a>(alloc: Global, count: Result<u64, AllocError>) -> Result<Vec<u8>, AppError<'a>> {
    let Ok(count) = count else {
        return Err(AppError::Memory);
    };
    match number_line(alloc, count) {
        Ok(line) => Ok(line),
        Err(_) => Err(AppError::Memory),
    }
}

fn answer<'a, R: Files + Input>(
    rt: &R,
    alloc: Global,
    job: Job<'a>,
) -> Result<Vec<u8>, AppError<'a>> {
    match job {
        Job::Login { ini, users, cut } => login::answer(rt, alloc, ini, users, cut),
        Job::Solo {
            catalogue,
            user,
            cancelled,
        } => solo::answer(rt, alloc, catalogue, user, cancelled),
        Job::Lease { cut, dies_after } => lease::answer(rt, alloc, cut, dies_after),
        Job::Relay { size, total } => line_of(alloc, relay::relayed(alloc, size.max(11), total)),
        Job::Book {
            clients,
            pools,
            events,
        } => line_of(alloc, book::events(alloc, clients, pools, events)),
        Job::Ticks {
            links,
            rows,
            seconds,
        } => line_of(alloc, ticks::quiet(alloc, links, rows, seconds)),
    }
}

/// Does the job. Nothing is written before all of the answer is there.
fn run<'a, R: Files + Input + Print>(
    rt: &R,
    alloc: Global,
    job: Job<'a>,
) -> Result<(), AppError<'a>> {
    let answer = answer(rt, alloc, job)?;
    let mut output = io::writer(rt);
    if output.write_all(answer.as_slice()).is_err() || output.flush().is_err() {
        return Err(AppError::Stdout);
    }
    Ok(())
}

fn words_of(rt: &HostRuntime) -> io::Result<Vec<String>> {
    Ok(env::args(rt)?.collect(rt.alloc())?)
}

fn main(rt: HostRuntime) -> ExitCode {
    let words = match words_of(&rt) {
        Ok(words) => words,
        Err(_) => {
            let _ = eprintln!(rt; "trials: memory");
            return ExitCode::from(1);
        }
    };
    let Some(job) = job::job_of(words.as_slice()) else {
        let _ = eprintln!(rt; "{}", job::USAGE);
        return ExitCode::from(2);
    };
    match run(&rt, rt.alloc(), job) {
        Ok(()) => ExitCode::SUCCESS,
        Err(fault) => {
            let _ = fault::tell(&rt, &fault);
            ExitCode::from(1)
        }
    }
}
