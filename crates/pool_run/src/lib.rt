//! The running pool: the connections of a listener, each served by a thread of its own over one desk, and the clock.
//!
//! Public: `serve_on`, which `pgsess` calls, with what it is handed; `running_tests` tries the keeper of settings and the log alone. Of
//! sockets, files and the clock contracts say little, so what is changed here is shown by tests of the program.
#![tactic(auto)]

mod figures;
pub mod keeping;
pub mod listening;
pub mod log;
mod places;
pub mod pool;
pub mod runtime;
mod staying;
mod surroundings;
