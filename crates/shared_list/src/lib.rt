//! Lists whose copies share their items: a copy costs one count, and a change makes a new list that
//! shares what it leaves alone.
//!
//! Public: `AppendList`, for the rows of a table, and `Shared`, for every other list of a session's state. The stand-in server alone has
//! them (`session_values`, `session_catalogue`, `session_state`, `session_statements`, `session_machine`): nothing that serves a pool's
//! clients does. Contracts see plain lists: what copies share, and how many items a chunk has, is free to change.
#![tactic(auto)]

mod append_list;
mod shared;

pub use append_list::AppendList;
pub use shared::Shared;
