//! The user file of the pooler: names and secrets as PgBouncer's `auth_file` has them, and what a client must answer to a question.
//!
//! Public: `read_users` and its `UserTable`, for `pool_app` and `replay_run` (`settings_check` reads lines by it); `Users`, the table
//! under a key of salts, which `pool_run` makes and derives keys in, `login_core` asks, and `monitor_core` lists; `Secret`, by which
//! `login_core` judges a client, and `credentials`, `link_start` and `pool_serve` answer servers. Contracts see names, secrets and the
//! key of the salts, and nothing of the derived keys that are kept: how many, and when, is free to change, but for what `Users::judging`
//! says of time, which no contract holds.
#![tactic(auto)]

mod faults;
mod fields;
mod password;
mod reading;
mod salts;
mod secrets;
mod user_table;
mod users;

pub use faults::{UserCause, UserError};
pub use password::Password;
pub use reading::read_users;
pub use salts::{Judging, ROUNDS, Salting};
pub use secrets::Secret;
pub use user_table::{UserRow, UserTable};
pub use users::Users;
