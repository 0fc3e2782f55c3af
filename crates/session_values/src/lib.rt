//! What a session's state is made of: texts, rows, tables, run-time parameters and their values, errors; and the definitions of the whole
//! session.
//!
//! Public: `text::Text`, which the whole pool has for names; `cause` and `error_responses`, by which the console answers too, and
//! `parameter`, for `monitor_core`; the rest is for the stand-in server alone (`session_catalogue`, `session_state`,
//! `session_statements`, `session_machine`, and what runs a session of it). The definitions (`State`, `Step`, `Service`, `Lawful`) say
//! what any server's session answers: links, leases, laws and worlds cite them; the stand-in server's code alone does what they say. Free
//! to change: how texts, rows and tables keep what contracts see as lists.
#![tactic(auto)]

pub mod block;
pub mod cause;
pub mod error_responses;
pub mod names;
pub mod naming;
pub mod parameter;
pub mod row;
pub mod setting;
pub mod stop;
pub mod table;
pub mod text;
pub mod values;

pub use message_view::{Pairs, StartupView};
