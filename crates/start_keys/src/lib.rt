//! Start keys: which database, user and parameters a session is started for, and what a StartupMessage asks for.
//!
//! Public: `StartKey`, by which links are lent: `param_track` makes it of a client's StartupMessage, the login, desks and links hand it
//! on, and the book compares it; `pairs`, for `param_track`; `stub_key`, for the stand-in server (`memory_ends`). The definitions
//! (`Keys`, `SameKeys`, `StartPairs`) are cited by the book, by `link_start`, `link_run` and `pool_serve`, and by `key_laws` and
//! `login_laws`. Free to change: what of a key is hashed, as long as keys that are equal hash alike.
#![tactic(auto)]

pub mod key;
pub mod pairs;
pub mod stub;

pub use key::{StartKey, StartParameter};
pub use server_host::Host;
pub use session_values::{cause, text};
pub use stub::stub_key;
