//! The command line.
ghost use Rattle.std.specs.Prelude.{◌≡◌, IfErr, IfOk, IfSome, None, codes, map, true, false, string_bytes};
ghost use Rattle.clap.specs.Takes.{takes};
ghost use Rattle.clap.specs.Values.{kind_of};
ghost use Rattle.clap.specs.declared.error.kind.ErrorKind.TheVariants as kinds;
ghost use Rattle.clap.specs.Words.{app_of, found_of, rows_of, rule_of, subcommand_of, subcommand_rows_of, with_rule, with_subcommand};
ghost use Rattle.clap.specs.declared.builder.command.Command.TheViews.{out-Command as fields_of};
ghost use Rattle.pool_app.specs.Line as spec;

use crate::help;
use clap::error::ErrorKind;
use clap::{Arg, ArgMatches, Command, Error};
use std::alloc::{AllocError, Global};
use std::io;

const INI: &str = "The settings, in the format of pgbouncer.ini";

const USERS: &str =
    "The users and their secrets, in the format of userlist.txt; the file that auth_file names, where none is named";

/// What `--version` tells behind the program's name.
const VERSION: &str = "1.1";

/// What a command line asks for. Its texts are those of the words.
#[derive(Drop, PartialEq, Eq)]
pub enum Job<'a> {
    /// One client's bytes on standard input, its replies on standard output.
    Replay,
    /// The pooler. Each text is the path of a file; where none is named for the users, the settings name it, and where none is named for
    /// the key seed, the system makes it.
    Serve {
        ini: &'a str,
        users: Option<&'a str>,
        key_seed: Option<&'a str>,
    },
    /// A report on the settings and users in these files.
    Check {
        ini: &'a str,
        users: Option<&'a str>,
    },
    /// The stand-in server on a port from 1 to 65,535. The text is the path of its catalogue.
    Stub {
        port: u16,
        catalogue: &'a str,
    },
}

/// A command line that asks for no job: for help or the version, or a faulty one.
#[derive(Drop)]
pub enum LineError {
    /// What clap says: help, the version, a fault of the words, or that an allocation failed.
    Refused(Error),
    /// Words that clap accepts and that name no job.
    NoJob,
}

impl LineError {
    /// The status that the program ends with: 0 after help and the version, 1 where an allocation failed, 2 for every other fault.
    pub fn status(&self) -> u8
        ensures { result ≡ spec.status self.now }
    {
        match self {
            LineError::Refused(error) => match error.kind() {
                ErrorKind::DisplayHelp | ErrorKind::DisplayVersion => 0,
                ErrorKind::OutOfMemory => 1,
                _ => 2,
            },
            LineError::NoJob => 2,
        }
    }

    /// Prints help and the version on standard output, and every fault on standard error.
    pub fn print<R: Print + Eprint>(&self, rt: &R) -> io::Result<()> {
        match self {
            LineError::Refused(error) => match error.kind() {
                ErrorKind::OutOfMemory => eprintln!(rt; "pgsess: memory"),
                _ => error.print(rt),
            },
            LineError::NoJob => eprintln!(rt; "pgsess: no job"),
        }
    }
}

/// A required option whose value is the path of a file.
fn file_option<'a>(alloc: Global, name: &'a str, help: &'a str) -> Arg<'a>
    ensures rule { rule_of result ≡ spec.needed name.entry.now }
    ensures local { result.global ≡ false }
{
    Arg::new(alloc, name)
        .long(name)
        .required(true)
        .value_name("FILE")
        .help(help)
}

/// An option whose value is the path of a file, and which may be left out.
fn optional_file<'a>(alloc: Global, name: &'a str, help: &'a str) -> Arg<'a>
    ensures rule { rule_of result ≡ spec.optional name.entry.now }
    ensures local { result.global ≡ false }
{
    Arg::new(alloc, name)
        .long(name)
        .value_name("FILE")
        .help(help)
}

/// The option that names a port.
fn port_option<'a>(alloc: Global) -> Arg<'a>
    ensures rule { rule_of result ≡ spec.port_option }
    ensures local { result.global ≡ false }
{
    Arg::new(alloc, "port")
        .long("port")
        .required(true)
        .value_name("N")
        .help("The port of 127.0.0.1 to listen on, from 1 to 65535")
        .value_parser(clap::value_parser!(u16).range(1..))
}

/// The command with the option that names a port.
fn with_port<'a>(alloc: Global, command: Command<'a>) -> Result<Command<'a>, AllocError>
    ensures app { IfOk result (λ c. app_of c ≡ with_rule (app_of command.entry) spec.port_option) }
    ensures local { (fields_of command.entry).has_globals ≡ false → IfOk result (λ c. (fields_of c).has_globals ≡ false) }
{
    command.arg(port_option(alloc))
}

/// The subcommand `replay`.
fn replay_command<'a>(alloc: Global) -> Command<'a>
    ensures app { app_of result ≡ spec.replay }
    ensures local { (fields_of result).has_globals ≡ false }
{
    Command::new(alloc, "replay")
        .about("Serve one client: its bytes from standard input, the replies to standard output")
        .after_help(help::REPLAY)
}

/// The command with one more option that names a file.
fn with_file<'a>(
    alloc: Global,
    command: Command<'a>,
    name: &'a str,
    help: &'a str,
) -> Result<Command<'a>, AllocError>
    ensures app { IfOk result (λ c. app_of c ≡ with_rule (app_of command.entry) (spec.needed name.entry.now)) }
    ensures local { (fields_of command.entry).has_globals ≡ false → IfOk result (λ c. (fields_of c).has_globals ≡ false) }
{
    command.arg(file_option(alloc, name, help))
}

/// The command with one more option that names a file and may be left out.
fn with_optional<'a>(
    alloc: Global,
    command: Command<'a>,
    name: &'a str,
    help: &'a str,
) -> Result<Command<'a>, AllocError>
    ensures app { IfOk result (λ c. app_of c ≡ with_rule (app_of command.entry) (spec.optional name.entry.now)) }
    ensures local { (fields_of command.entry).has_globals ≡ false → IfOk result (λ c. (fields_of c).has_globals ≡ false) }
{
    command.arg(optional_file(alloc, name, help))
}

/// The subcommand `serve`.
fn serve_command<'a>(alloc: Global) -> Result<Command<'a>, AllocError>
    ensures app { IfOk result (λ c. app_of c ≡ spec.serve) }
    ensures local { IfOk result (λ c. (fields_of c).has_globals ≡ false) }
{
    let command = Command::new(alloc, "serve")
        .about("Pool the sessions of PostgreSQL servers")
        .after_help(help::SERVE);
    let command = with_file(alloc, command, "ini", INI)?;
    let command = with_optional(alloc, command, "users", USERS)?;
    let seed =
        "32 random bytes, from which the clients' cancel keys and salts are made; the system's, where none is named";
    with_optional(alloc, command, "key-seed", seed)
}

/// The subcommand `check`.
fn check_command<'a>(alloc: Global) -> Result<Command<'a>, AllocError>
    ensures app { IfOk result (λ c. app_of c ≡ spec.check) }
    ensures local { IfOk result (λ c. (fields_of c).has_globals ≡ false) }
{
    let command = Command::new(alloc, "check")
        .about("Tell every fault of the settings and the users, and serve nothing")
        .after_help(help::CHECK);
    let command = with_file(alloc, command, "ini", INI)?;
    with_optional(alloc, command, "users", USERS)
}

/// The subcommand `stub`.
fn stub_command<'a>(alloc: Global) -> Result<Command<'a>, AllocError>
    ensures app { IfOk result (λ c. app_of c ≡ spec.stub) }
    ensures local { IfOk result (λ c. (fields_of c).has_globals ≡ false) }
{
    let command = Command::new(alloc, "stub")
        .about("Stand in for a PostgreSQL server, for tests: any user is let in")
        .after_help(help::STUB);
    let command = with_port(alloc, command)?;
    let catalogue = "The version, databases, tables and rows that the server has";
    with_file(alloc, command, "catalogue", catalogue)
}

/// The program without its subcommands, of which a line must name one.
fn program<'a>(alloc: Global) -> Command<'a>
    ensures app { app_of result ≡ spec.program }
    ensures local { (fields_of result).has_globals ≡ false }
{
    Command::new(alloc, "pgsess")
        .about("A session-mode PostgreSQL connection pooler with clean hand-over")
        .version(VERSION)
        .subcommand_required(true)
}

/// The program with the subcommand `serve`. This step and the next two stand apart from [`command`] for the prover's sake: each way out
/// of a function that holds a command is shown with the drop of all its parts.
fn with_serve<'a>(alloc: Global, program: Command<'a>) -> Result<Command<'a>, AllocError>
    ensures { IfOk result (λ c. app_of c ≡ with_subcommand (app_of program.entry) spec.serve.top) }
{
    program.subcommand(serve_command(alloc)?)
}

/// The program with the subcommand `check`.
fn with_check<'a>(alloc: Global, program: Command<'a>) -> Result<Command<'a>, AllocError>
    ensures { IfOk result (λ c. app_of c ≡ with_subcommand (app_of program.entry) spec.check.top) }
{
    program.subcommand(check_command(alloc)?)
}

/// The program with the subcommand `stub`.
fn with_stub<'a>(alloc: Global, program: Command<'a>) -> Result<Command<'a>, AllocError>
    ensures { IfOk result (λ c. app_of c ≡ with_subcommand (app_of program.entry) spec.stub.top) }
{
    program.subcommand(stub_command(alloc)?)
}

/// The whole command line.
fn command<'a>(alloc: Global) -> Result<Command<'a>, AllocError>
    ensures { IfOk result (λ c. app_of c ≡ spec.pgsess) }
{
    let program = program(alloc).subcommand(replay_command(alloc))?;
    let program = with_serve(alloc, program)?;
    let program = with_check(alloc, program)?;
    with_stub(alloc, program)
}

/// The matches of the words, of which the subcommand's are a function of the words.
fn matches_of_line<'a>(alloc: Global, words: &'a [String]) -> Result<ArgMatches<'a>, Error>
    ensures rows { IfOk result (λ m. subcommand_rows_of m ≡ subcommand_of spec.pgsess (map string_bytes words.entry.now)) }
    ensures refused { IfErr result (λ e. takes spec.pgsess (map string_bytes words.entry.now) ≡ true → kind_of e ≡ kinds.OutOfMemory) }
{
    let command = command(alloc)?;
    command.try_get_matches_from(words)
}

/// The pooler's job, of the options of `serve`.
fn serve_job<'a>(options: &ArgMatches<'a>) -> Option<Job<'a>>
    ensures job { IfSome result (λ job. spec.IsJobBy (codes "serve") (rows_of (found_of options.now)) job) }
    ensures none { result ≡ None → spec.IsNoJob (codes "serve") (rows_of (found_of options.now)) }
{
    let ini = options.get_str("ini")?;
    let users = options.get_str("users");
    let key_seed = options.get_str("key-seed");
    Some(Job::Serve {
        ini,
        users,
        key_seed,
    })
}

/// The job of a report, of the options of `check`.
fn check_job<'a>(options: &ArgMatches<'a>) -> Option<Job<'a>>
    ensures job { IfSome result (λ job. spec.IsJobBy (codes "check") (rows_of (found_of options.now)) job) }
    ensures none { result ≡ None → spec.IsNoJob (codes "check") (rows_of (found_of options.now)) }
{
    let ini = options.get_str("ini")?;
    let users = options.get_str("users");
    Some(Job::Check { ini, users })
}

/// The stand-in server's job, of the options of `stub`.
fn stub_job<'a>(options: &ArgMatches<'a>) -> Option<Job<'a>>
    ensures job { IfSome result (λ job. spec.IsJobBy (codes "stub") (rows_of (found_of options.now)) job) }
    ensures none { result ≡ None → spec.IsNoJob (codes "stub") (rows_of (found_of options.now)) }
{
    let port = options.get_one::<u16>("port")?;
    let catalogue = options.get_str("catalogue")?;
    Some(Job::Stub { port, catalogue })
}

/// The job of the matches.
fn job_of<'a>(matches: &ArgMatches<'a>) -> Option<Job<'a>>
    ensures job { IfSome result (λ job. spec.IsJobOf (subcommand_rows_of matches.now) job) }
    ensures none { result ≡ None → spec.NamesNone (subcommand_rows_of matches.now) }
{
    let (name, options) = matches.subcommand()?;
    if name == "replay" {
        return Some(Job::Replay);
    }
    if name == "serve" {
        return serve_job(options);
    }
    if name == "check" {
        return check_job(options);
    }
    if name == "stub" {
        return stub_job(options);
    }
    None
}

/// The job that the words name, the first of which is the program's own name.
pub fn read_line<'a>(alloc: Global, words: &'a [String]) -> Result<Job<'a>, LineError>
    ensures job { IfOk result (λ job. spec.IsJobOf (subcommand_of spec.pgsess (map string_bytes words.entry.now)) job) }
    ensures refused { IfErr result (λ fault. spec.IsFaultOf (map string_bytes words.entry.now) fault) }
{
    match matches_of_line(alloc, words) {
        Ok(matches) => match job_of(&matches) {
            Some(job) => Ok(job),
            None => Err(LineError::NoJob),
        },
        Err(error) => Err(LineError::Refused(error)),
    }
}
