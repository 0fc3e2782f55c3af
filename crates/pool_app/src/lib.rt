//! What each job of the program `pgsess` begins with: the command line, the files that it names, and the faults that end it.
//!
//! Public: `read_line` and the job that it gives, for `pgsess`; `files`, for `pgsess`, and of it `read_all` for `replay_run` too;
//! `AppError`, the faults of both, with its line and status. `pgsess` cites `Faults`. Tests alone, and their tool `trials`, call
//! `seed_of`, `settings_of` and `users_of` from outside. Free to change: the texts of help, of which contracts say nothing, and in which
//! pieces a file is read.
#![tactic(auto)]

pub mod fault;
pub mod files;
mod help;
pub mod line;
