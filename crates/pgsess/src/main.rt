//! The program `pgsess`: it reads its words, does the job that they name, and ends with the status of what came of that.
//!
//! Nothing is public. The jobs themselves are below: `pool_run` serves, `replay_run` replays, `stub_server` is the stand-in server, and
//! `pool_app` reads words and files and tells faults. The contracts here say which status the program ends with. Where it listens, and
//! what becomes of the file of its Unix socket, tests of the program alone show.
#![tactic(auto)]

ghost use Rattle.std.specs.Prelude.{◌≡◌};
ghost use Rattle.ini_config.specs.Bounds.{AreWithinBounds};
ghost use Rattle.pgsess.specs.Statuses as spec;

mod listeners;
mod socket_file;

use crate::listeners::{listen_at_addresses, listen_for_metrics, listen_in_folder};
use crate::socket_file::SocketFile;
use ini_config::Settings;
use pool_app::fault::{self, AppError};
use pool_app::files::{self, Inputs};
use pool_app::line::{self, Job};
use pool_run::keeping::{ReloadError, Source};
use pool_run::listening::Listening;
use pool_run::pool::serve_on;
use pool_run::runtime::PoolRuntime;
use replay_run::replay::replay;
use session_catalogue::Catalogue;
use std::alloc::{AllocError, Global};
use std::io::Write;
use std::net::Net;
use std::process::ExitCode;
use std::rt::{Clock, Files};
use std::sync::Wait;
use std::thread::Threads;
use std::{env, io, net};
use stub_server::server::stub_on;
use tcp_listen::binding::listen_at_name;
use text_lines::Text;
use user_file::UserTable;

/// The files that the command line names, which are read again where the console is told so.
#[derive(Drop)]
struct NamedFiles {
    rt: HostRuntime,
    alloc: Global,
    ini: String,
    /// None: the settings name it.
    users: Option<String>,
    /// That of the Unix socket, where there is one.
    socket: Option<SocketFile>,
}

/// The files at these paths. The only error is that an allocation failed.
fn named_files(
    rt: HostRuntime,
    alloc: Global,
    ini: &str,
    users: Option<&str>,
) -> Result<NamedFiles, AllocError> {
    let users = match users {
        Some(path) => Some(String::from_str(alloc, path)?),
        None => None,
    };
    Ok(NamedFiles {
        rt,
        alloc,
        ini: String::from_str(alloc, ini)?,
        users,
        socket: None,
    })
}

impl Source for NamedFiles {
    fn read(&self) -> Result<(Settings, UserTable), ReloadError> {
        let users = match &self.users {
            Some(path) => Some(path.as_str()),
            None => None,
        };
        let fault = match files::read_again(&self.rt, self.alloc, &self.ini, users) {
            Ok(read) => return Ok(read),
            Err(fault) => fault,
        };
        // a fault of its lines tells the setting that names the file
        let users = users.unwrap_or("auth_file");
        match fault::again_text(self.alloc, &fault, &self.ini, users) {
            Ok(text) => Err(ReloadError::Fault(text)),
            Err(_) => Err(ReloadError::Memory),
        }
    }

    fn stops_listening(&self) {
        if let Some(socket) = &self.socket {
            socket.remove(&self.rt);
        }
    }
}

/// What a job that had no fault of its own came to.
#[derive(Clone, Copy)]
enum Done {
    Well,
    /// The report tells a fault.
    Faulty,
}

/// Says what is to be said of the settings, a line each.
fn say<W: Write>(log: &mut W, notices: &[Text]) -> io::Result<()> {
    for notice in notices {
        log.write_all(b"pgsess: ")?;
        log.write_all(notice.as_bytes())?;
        log.write_all(b"\n")?;
    }
    Ok(())
}

/// Prints the lines of a report.
fn print_lines<W: Write>(output: &mut W, lines: &[Text]) -> io::Result<()> {
    for line in lines {
        output.write_all(line.as_bytes())?;
        output.write_all(b"\n")?;
    }
    output.flush()
}

/// Prints the report on these files.
fn check<'a, R: Files + Print>(
    rt: &R,
    alloc: Global,
    ini: &'a str,
    users: Option<&'a str>,
) -> Result<Done, AppError<'a>> {
    let report = files::check(rt, alloc, ini, users)?;
    print_lines(&mut io::writer(rt), report.lines.as_slice()).map_err(|_| AppError::Stdout)?;
    if report.is_faulty {
        return Ok(Done::Faulty);
    }
    Ok(Done::Well)
}

/// Serves clients as the settings say, from when its line tells where, until the console ends it. Its log goes to standard error.
fn serve<'a, R: Print + PoolRuntime + 'static>(
    rt: R,
    host: HostRuntime,
    alloc: Global,
    inputs: Inputs,
    source: NamedFiles,
) -> Result<Done, AppError<'a>>
    requires { AreWithinBounds inputs.settings }
{
    let port = inputs.settings.listen_port();
    let mut listening = Listening::new(alloc);
    listen_at_addresses(&rt, &host, alloc, &inputs.settings, &mut listening).map_err(
        |_| AppError::Port(port),
    )?;
    let mut source = source;
    source.socket = listen_in_folder(&host, alloc, &inputs.settings, &mut listening).map_err(
        |_| AppError::Memory,
    )?;
    listen_for_metrics(&rt, alloc, &inputs.settings, &mut listening).map_err(|_| AppError::Memory)?;
    // that nobody reads it is no reason not to serve
    let _ = listening.print(&rt);
    let Inputs {
        settings,
        users,
        seed,
        notices,
    } = inputs;
    let mut log = host.stderr();
    let _ = say(&mut log, notices.as_slice());
    match serve_on(
        rt, alloc, listening, settings, users, source, log, seed, None,
    ) {
        Ok(Some(_)) => Ok(Done::Well),
        Ok(None) => Err(AppError::Totals),
        Err(_) => Err(AppError::Memory),
    }
}

/// Where the stand-in server listens.
const HERE: &[u8] = b"127.0.0.1";

/// Serves as the stand-in server of this catalogue.
fn stub<
    'a,
    R: Threads
        + Wait
        + Clock
        + Net<Listener = net::TcpListener, Stream = net::TcpStream>
        + Copy
        + Send
        + 'static,
>(rt: R, alloc: Global, port: u16, catalogue: Catalogue) -> Result<Done, AppError<'a>> {
    let Ok(listener) = listen_at_name(&rt, alloc, HERE, port) else {
        return Err(AppError::Port(port));
    };
    match stub_on(rt, alloc, listener, catalogue, None) {
        Ok(()) => Ok(Done::Well),
        Err(_) => Err(AppError::Memory),
    }
}

/// Does the job. `host` is the same runtime, whose files and standard error a pool's threads use.
fn run<
    'a,
    R: Files
        + Input
        + Print
        + Threads
        + Wait
        + Clock
        + Net<Listener = net::TcpListener, Stream = net::TcpStream>
        + Copy
        + Send
        + Sync
        + 'static,
>(rt: R, host: HostRuntime, alloc: Global, job: Job<'a>) -> Result<Done, AppError<'a>> {
    match job {
        Job::Replay => {
            replay(alloc, rt.reader(), &mut io::writer(&rt))?;
            Ok(Done::Well)
        }
        Job::Serve {
            ini,
            users,
            key_seed,
        } => {
            let inputs = files::read_inputs(&rt, alloc, ini, users, key_seed)?;
            let source = named_files(host, alloc, ini, users).map_err(|_| AppError::Memory)?;
            serve(rt, host, alloc, inputs, source)
        }
        Job::Check { ini, users } => check(&rt, alloc, ini, users),
        Job::Stub { port, catalogue } => {
            let catalogue = files::read_catalogue(&rt, alloc, catalogue)?;
            stub(rt, alloc, port, catalogue)
        }
    }
}

/// The status that the program ends with after its job: 0 where nothing failed, 1 after a report that tells a fault, else that of the
/// fault.
fn status_after(done: &Result<Done, AppError<'_>>) -> u8
    ensures { result ≡ spec.status_after done.now }
{
    match done {
        Ok(Done::Well) => 0,
        Ok(Done::Faulty) => 1,
        Err(fault) => fault::status(fault),
    }
}

/// The status that the program ends with where its words can't be had: 2 where one isn't UTF-8, 1 where an allocation failed.
fn status_without_words(kind: io::ErrorKind) -> u8
    ensures { result ≡ spec.status_without_words kind }
{
    match kind {
        io::ErrorKind::InvalidData => 2,
        _ => 1,
    }
}

/// Tells why the program's words can't be had.
fn tell_without_words<R: Eprint>(rt: &R, kind: io::ErrorKind) -> io::Result<()> {
    match kind {
        io::ErrorKind::InvalidData => eprintln!(rt;
            "error: a word of the command line isn't UTF-8"
        ),
        _ => eprintln!(rt; "pgsess: memory"),
    }
}

fn words_of(rt: &HostRuntime) -> io::Result<Vec<String>> {
    Ok(env::args(rt)?.collect(rt.alloc())?)
}

fn main(rt: HostRuntime) -> ExitCode {
    let words = match words_of(&rt) {
        Ok(words) => words,
        Err(error) => {
            let kind = error.kind();
            let _ = tell_without_words(&rt, kind);
            return ExitCode::from(status_without_words(kind));
        }
    };
    match line::read_line(rt.alloc(), words.as_slice()) {
        Ok(job) => {
            let done = run(rt, rt, rt.alloc(), job);
            if let Err(fault) = &done {
                let _ = fault::tell(&rt, rt.alloc(), fault);
            }
            ExitCode::from(status_after(&done))
        }
        Err(fault) => {
            let status = fault.status();
            let _ = fault.print(&rt);
            ExitCode::from(status)
        }
    }
}
