//! Rows that bear numbers of their own, in the order in which they came, each found at once by its number.
//!
//! Public: `Numbered` and `NumberedRows`, for `book_rows` alone, whose clients, tickets and links stand in such lists. Contracts see the
//! rows in their order, and that there are fewer slots than 16,384; `slots` shows these, the empty ones too. Definitions of places and of
//! what may be given up (`Places`, `Indexes`) are cited by `book_rows` and `book_register`. Free to change: how a row's slot is found
//! (`row_notes`), and when empty slots go.
#![tactic(auto)]

pub mod numbered;
mod row_notes;
