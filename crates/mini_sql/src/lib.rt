//! The statements of a small SQL, read from a text without taking memory.
//!
//! Public: `read_statement` and what it gives (`Stmt` and its parts, by slices of the text), by which the stand-in server
//! (`session_statements`, `session_machine`) runs statements, and `monitor_core` knows SHOW and SET; `is_same_word`, for
//! `session_values`, `console_core` and `monitor_core`. The definitions (`Words`, `Tokens`, `Statements`) are cited by laws of sessions
//! and by `world_story`. `laws` does nothing: `session_statements` calls `statement_is_derived`; the other two, by which the grammar
//! derives that statement alone, are there for the law. Free to change: how tokens are cut, and in which order forms are tried.
#![tactic(auto)]

mod forms;
pub mod laws;
mod lists;
mod literal;
mod parts;
mod reader;
mod stmt;
mod token;

pub use lists::{Columns, Operands};
pub use literal::{Literal, LiteralBytes};
pub use parts::is_same_word;
pub use reader::read_statement;
pub use stmt::{Filter, Operand, Setting, Stmt};

/// Why a text is no statement.
#[derive(Clone, Copy, Drop)]
pub enum SqlError {
    Syntax,
}
