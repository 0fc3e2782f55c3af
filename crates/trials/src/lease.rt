//! `trials lease`: what a client is given by its login and its lease, over ends that move few bytes a call and a server that dies.
use crate::input::read_input;
use pool_app::fault::AppError;
use replay_run::replay::{Unended, replies};
use std::alloc::Global;

/// The answer of the subcommand.
pub fn answer<'a, R: Input>(
    rt: &R,
    alloc: Global,
    cut: usize,
    dies_after: Option<u64>,
) -> Result<Vec<u8>, AppError<'a>> {
    let bytes = read_input(rt, alloc)?;
    let Ok(answer) = replies(
        alloc,
        cut.max(1),
        dies_after,
        Unended::Failed,
        bytes.as_slice(),
    ) else {
        return Err(AppError::Memory);
    };
    match Vec::from_slice(alloc, answer.as_slice()) {
        Ok(answer) => Ok(answer),
        Err(_) => Err(AppError::Memory),
    }
}
