//! The laws of streams that are handed out in parts: any cutting gives the frames of the definition.
//!
//! Public: eight laws over the definitions of `frame_view`, contracts of functions that do nothing. They are there for the law alone:
//! nothing calls them, and no crate stands on this one. The proofs are free to change; the statements, and the definitions of parts that
//! are joined again (`Joined`), are what is promised of a cursor.
#![tactic(auto)]

pub mod laws;
