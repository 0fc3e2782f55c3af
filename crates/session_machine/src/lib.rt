//! The stand-in server's session: one frame in, the next state and the reply frames out.
//!
//! Public: `Session`, of which `memory_ends` and `stub_server` have one for each connection, and `solo_bytes`, the answer to all bytes of
//! one client, for `replay_run` and `trials`; beside these it passes on what they need of the crates below, definitions too. Its
//! contracts say that it is the session of `session_values` (`Step`, `Service`), by which laws speak of any server: to a pool that serves
//! it is a model, and is never called. Free to change: whatever leaves states and replies as they are, as on which copy a frame is
//! answered.
#![tactic(auto)]

mod bind;
mod close;
mod describe;
mod execute;
mod parse;
mod query;
mod service;
mod session;
mod step;

pub use service::solo_bytes;
pub use session::{Session, StartError};
pub use session_catalogue::{Catalogue, CatalogueCause, CatalogueError};
pub use session_values::block::Block;
pub use session_values::cause::Cause;
pub use session_values::parameter::Parameter;
pub use session_values::text::Text;
pub use start_keys::key::{StartKey, StartParameter};
pub use start_keys::stub_key;
