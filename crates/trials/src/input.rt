//! Standard input.
use pool_app::fault::AppError;
use pool_app::files::{MAX_BYTES, ReadError, read_all};
use std::alloc::Global;
use std::io::ErrorKind;

/// A client's bytes.
pub fn read_input<'a, R: Input>(rt: &R, alloc: Global) -> Result<Vec<u8>, AppError<'a>> {
    match read_all(alloc, rt.reader(), MAX_BYTES) {
        Ok(bytes) => Ok(bytes),
        Err(ReadError::Io(error)) if error.kind() == ErrorKind::OutOfMemory => Err(
            AppError::Memory,
        ),
        Err(_) => Err(AppError::Stdin),
    }
}
