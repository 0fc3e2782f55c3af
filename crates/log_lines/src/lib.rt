//! The pool's log: what is logged, and the lines that are made of it.
//!
//! Public: `notes`, which `pool_serve`, `console_run` and desks tell, and `events`, which `pool_run` tells; `put_note` and `put_event`,
//! by which `log_writer` makes their lines; `sqlstate` and `ends_session`, for `pool_serve`; and `shown`, for `settings_check`. `laws`
//! does nothing, and nobody calls it: each line is printing ASCII. `metrics_text` and `settings_check` cite how texts are shown
//! (`Shown`), `pool_serve` `sqlstate`. Free to change, each with its definition: the words of a line, which no other crate cites and
//! `app_tests` compares.
#![tactic(auto)]

pub mod events;
pub mod laws;
pub mod lines;
pub mod notes;
pub mod shown;
