//! The settings file of the pooler: an ini file as PgBouncer has it, read whole or refused by the first faulty line.
//!
//! Public: `read_settings`, for `pool_app` and `replay_run`; `Settings` and what it has (`Rows`, `DbRow`, `Names`, `AuthType`,
//! `ConsoleStyle`), by which the book (`book_model`), the login (`param_track`, `login_core`), the console and the running pool go; for
//! `settings_check`, which goes on after a fault, `Reading`, `read_line`, `takes_item` and `IniCause`; for `param_track`
//! `is_always_followed`. `laws` does nothing: its one function, that what was read is within its bounds, is called by `pool_app`. Free to
//! change: how rows are found by name, and how the keys that a file has given are kept.
#![tactic(auto)]

mod always_followed;
mod database_rows;
mod database_values;
mod faults;
mod hosts;
pub mod laws;
mod lines;
mod name_lists;
mod option_keys;
mod option_values;
mod reading;
mod row_table;
mod seen_keys;
mod values;

pub use always_followed::is_always_followed;
pub use database_rows::{DbRow, ServedRow};
pub use database_values::takes_item;
pub use faults::{IniCause, IniError};
pub use lines::{Line, Section, read_line};
pub use name_lists::Names;
pub use option_values::{AuthType, ConsoleStyle, Settings};
pub use reading::{Reading, read_settings};
pub use row_table::Rows;
pub use server_host::Host;
