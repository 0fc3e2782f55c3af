//! What `pgsess check` and the start of the pool say of the files: every fault in words, what is read over, and what differs from
//! PgBouncer.
//!
//! Public: `report_on`, `notices`, `value_given` and the codes of faults (`codes`), for `pool_app`; what else is public (`faulty_lines`,
//! `faulty_users`, `differences`, `read_over`) is called within the crate alone. The definitions say every line, and that nothing of a
//! password is shown; `pool_app` cites `Codes` and `Options`. Free to change, each with its definition: the words of a report (`Words`,
//! `Notices`, `Report`), which no other crate cites and `app_tests` compares.
#![tactic(auto)]

pub mod codes;
pub mod faults;
pub mod notices;
pub mod options;
pub mod report;
mod shown;
pub mod users;
mod words;
