//! The faults that end a trial, as it tells them.

use ini_config::IniCause as IniCause;
use pool_app::fault::AppError;
use session_machine::CatalogueCause;
use std::io;
use user_file::UserCause as UsersCause;

/// Whether it is out of memory, wherever that came.
fn is_memory(fault: &AppError<'_>) -> bool {
    match fault {
        AppError::Memory => true,
        AppError::Ini(fault) => fault.cause == IniCause::Memory,
        AppError::Users(fault) => fault.cause == UsersCause::Memory,
        AppError::Catalogue(fault) => fault.cause == CatalogueCause::Memory,
        _ => false,
    }
}

/// Tells a fault on standard error, in one line.
pub fn tell<R: Eprint>(rt: &R, fault: &AppError<'_>) -> io::Result<()> {
    if is_memory(fault) {
        return eprintln!(rt; "trials: memory");
    }
    match fault {
        AppError::File(path) => eprintln!(rt; "trials: file {path}"),
        AppError::Ini(fault) => eprintln!(rt; "trials: settings, line {}", fault.line),
        AppError::Users(fault) => eprintln!(rt; "trials: users, line {}", fault.line),
        AppError::Catalogue(fault) => eprintln!(rt; "trials: catalogue, line {}", fault.line),
        AppError::Stdin => eprintln!(rt; "trials: stdin"),
        _ => eprintln!(rt; "trials: stdout"),
    }
}
