//! The faults that end the program, as it tells them.
ghost use Rattle.std.specs.Prelude.{◌≡◌, IfOk, string_bytes};
ghost use Rattle.pool_app.specs.Faults as spec;

use itoa::Buffer;
use session_catalogue::CatalogueError;
use settings_check::codes::{ini_code, users_code};
use std::alloc::{AllocError, Global};
use std::io;

/// A fault that ends the program. Its texts are those of the command line.
#[derive(Drop, PartialEq, Eq)]
pub enum AppError<'a> {
    /// The file can't be read, is too long, or is a key seed that isn't 32 bytes long.
    File(&'a str),
    /// A faulty line of the settings.
    Ini(ini_config::IniError),
    /// A faulty line of the user file.
    Users(user_file::UserError),
    /// A faulty line of the catalogue.
    Catalogue(CatalogueError),
    /// Standard input can't be read, or is too long.
    Stdin,
    /// Standard output can't be written.
    Stdout,
    /// No memory was left.
    Memory,
    /// The port can't be had.
    Port(u16),
    /// The pooler has ended, and what was decided isn't known: a worker's count is missing.
    Totals,
    /// The user file that the settings name can't be read, or is too long. The text is its path.
    AuthFile(String),
    /// Neither the command line nor the settings name a user file.
    NoUserFile,
}

/// A text, and one that follows it.
fn joined(alloc: Global, first: &str, second: &str) -> Result<String, AllocError>
    ensures { IfOk result (λ t. string_bytes t ≡ spec.joined first.now second.now) }
{
    let mut text = String::from_str(alloc, first)?;
    text.push_str(second)?;
    Ok(text)
}

/// A fault of a file's text.
fn line_fault(alloc: Global, code: &str, line: usize) -> Result<String, AllocError>
    ensures { IfOk result (λ t. string_bytes t ≡ spec.line_fault code.now line) }
{
    let mut text = joined(alloc, "pgsess: ", code)?;
    text.push_str(" line ")?;
    let mut digits = Buffer::new();
    text.push_str(digits.format(line))?;
    Ok(text)
}

/// The line that tells a fault, without its end. The only error is that an allocation failed.
pub fn fault_line(alloc: Global, fault: &AppError<'_>) -> Result<String, AllocError>
    ensures { IfOk result (λ t. string_bytes t ≡ spec.fault_line fault.now) }
{
    match fault {
        AppError::File(path) => joined(alloc, "pgsess: file ", path),
        AppError::Ini(fault) => line_fault(alloc, ini_code(fault.cause), fault.line),
        AppError::Users(fault) => line_fault(alloc, users_code(fault.cause), fault.line),
        AppError::Catalogue(fault) => line_fault(alloc, fault.cause.code(), fault.line),
        AppError::Stdin => String::from_str(alloc, "pgsess: stdin"),
        AppError::Stdout => String::from_str(alloc, "pgsess: stdout"),
        AppError::Memory => String::from_str(alloc, "pgsess: memory"),
        AppError::Port(port) => {
            let mut digits = Buffer::new();
            joined(alloc, "pgsess: port ", digits.format(*port))
        }
        AppError::Totals => String::from_str(alloc, "pgsess: totals"),
        AppError::AuthFile(path) => joined(alloc, "pgsess: file ", path.as_str()),
        AppError::NoUserFile => String::from_str(alloc, "pgsess: no user file"),
    }
}

/// A fault of a text in the file at this path.
fn fault_in(alloc: Global, code: &str, line: usize, path: &str) -> Result<String, AllocError>
    ensures { IfOk result (λ t. string_bytes t ≡ spec.fault_in code.now line path.now) }
{
    let mut text = joined(alloc, code, " line ")?;
    let mut digits = Buffer::new();
    text.push_str(digits.format(line))?;
    text.push_str(" of ")?;
    text.push_str(path)?;
    Ok(text)
}

/// What the log is told of a fault of the files that are read again, which are at these paths: the code and the line, and of which
/// file; or the file that can't be read; or that memory was refused. The only error is that an allocation failed.
pub fn again_text(
    alloc: Global,
    fault: &AppError<'_>,
    ini: &str,
    users: &str,
) -> Result<String, AllocError>
    ensures { IfOk result (λ t. string_bytes t ≡ spec.again_text ini.now users.now fault.now) }
{
    match fault {
        AppError::File(path) => joined(alloc, "file ", path),
        AppError::Ini(fault) => fault_in(alloc, ini_code(fault.cause), fault.line, ini),
        AppError::Users(fault) => fault_in(alloc, users_code(fault.cause), fault.line, users),
        AppError::AuthFile(path) => joined(alloc, "file ", path.as_str()),
        AppError::NoUserFile => String::from_str(alloc, "no user file"),
        _ => String::from_str(alloc, "memory"),
    }
}

/// The status that the program ends with: 3 where the port can't be had, 2 where no user file is named, as for other faults of the
/// command line, and 1 for every other fault.
pub fn status(fault: &AppError<'_>) -> u8
    ensures { result ≡ spec.status fault.now }
{
    match fault {
        AppError::Port(_) => 3,
        AppError::NoUserFile => 2,
        _ => 1,
    }
}

/// Tells a fault on standard error. Where there is no memory for its line, it tells that.
pub fn tell<R: Eprint>(rt: &R, alloc: Global, fault: &AppError<'_>) -> io::Result<()> {
    match fault_line(alloc, fault) {
        Ok(line) => eprintln!(rt; "{line}"),
        Err(_) => eprintln!(rt; "pgsess: memory"),
    }
}
