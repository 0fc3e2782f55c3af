//! Start keys: which database, user and parameters a client asks for, and so which links it may be lent. And what a link's server
//! reported of its parameters.
//!
//! Public: `start_key` and `unsupported_name`, for `login_core`; and `Reported`, which `link_start` fills, `link_run` keeps with each
//! link, and which `relay_core`, in a lease, and `link_run`, in the reset, tell of later reports. The definitions (`StartKeys`,
//! `Reports`, `KeptReports`) are cited by `login_core`, `link_start` and `link_run`, by `relay_model`, `login_laws` and `login_before`,
//! and by `world_story`. `laws` does nothing, and nobody calls it: it says that what a `Reported` keeps tells of all reports. Free to
//! change: how a report is found by its name.
#![tactic(auto)]

mod key;
pub mod laws;
mod reported;
mod uses;

ghost use Rattle.std.specs.Prelude.{◌≡◌};
ghost use Rattle.param_track.specs.declared.StartKeyError.TheVariants.{Memory};

pub use key::start_key;
pub use reported::{MAX_NAMES, ReportError, Reported, StartReport};
use std::alloc::AllocError;
pub use uses::unsupported_name;

/// Why a StartupMessage gives no start key. The first of these that holds is told, wherever they stand in the message.
#[derive(Clone, Copy, Debug, PartialEq, Eq, Drop)]
pub enum StartKeyError {
    /// No user, or an empty one.
    NoUser,
    /// A parameter that is neither followed nor ignored.
    UnsupportedParameter,
    /// The parameter `replication`, where the settings don't ignore it.
    Replication,
    /// An allocation failed.
    Memory,
}

impl From<AllocError> for StartKeyError {
    ghost from_gives = { λ _ fault. fault ≡ Memory };

    fn from(_error: AllocError) -> StartKeyError {
        StartKeyError::Memory
    }
}
