//! The login of a client: its first packet, its start key, the dialogue of `auth_type`, and what they lead to (PostgreSQL manual,
//! "Message Flow", "Start-up").
//!
//! Public: `Login` and what its calls answer (`LoginStep`, `Question`, `Authenticated`, `LoginRefusal`): `login_run` feeds one over a
//! client's end, `play` and `replay_run` in memory; `pool_run` and `memory_pool` make them. The definitions (`Dialogue`, `Talk`,
//! `Logins`, `Solo`) are cited by these, by `pool_serve`, `login_laws` and `login_before`, and by the worlds. `laws` does nothing:
//! `login_run`, `play`, `replay_run` and `pool_serve` call five of its functions; the other three nobody outside does. Free to change:
//! how a packet's bytes are held, and what `unsupported_parameter` keeps for the log, of which no contract speaks.
#![tactic(auto)]

mod dialogue;
pub mod laws;
mod login;
mod scram_dialogue;
mod steps;

pub use login::Login;
pub use message_view::KeyWord;
pub use steps::{Authenticated, LoginRefusal, LoginStep, Question};
