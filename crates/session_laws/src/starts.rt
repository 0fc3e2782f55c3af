//! What a pooler knows of a session's start and its resets, proved over the definitions alone. Each is the contract of a function that does nothing.

ghost use Rattle.session_laws.specs.Starts.{DiscardAllIsFrame, FreshByNames, FreshIsReached, ReachedHasKey, ReportsAreRead, ResetsAreRead, StartErrorIsFrame, StartErrorIsShort, WelcomeIsFrames, WelcomeIsRead};

/// A fresh session of a lawful catalogue and key is reached.
#[tactic(auto, using(crate::proofs::ByName::fresh_is_reached))]
pub fn fresh_is_reached()
    ensures { FreshIsReached }
{}

/// Whatever a session reaches, it has its key.
#[tactic(auto, using(crate::proofs::ByName::reached_has_key))]
pub fn reached_has_key()
    ensures { ReachedHasKey }
{}

/// A fresh session depends on the key's database and parameters alone.
#[tactic(auto, using(crate::proofs::ByName::fresh_by_names))]
pub fn fresh_by_names()
    ensures { FreshByNames }
{}

/// The welcome of a session is whole frames.
#[tactic(auto, using(crate::proofs::ByName::welcome_is_frames))]
pub fn welcome_is_frames()
    ensures { WelcomeIsFrames }
{}

/// The error of a refused start is a whole frame.
#[tactic(auto, using(crate::proofs::ByName::start_error_is_frame))]
pub fn start_error_is_frame()
    ensures { StartErrorIsFrame }
{}

/// `DISCARD ALL` is a whole frame of a client.
#[tactic(auto, using(crate::proofs::ByName::discard_all_is_frame))]
pub fn discard_all_is_frame()
    ensures { DiscardAllIsFrame }
{}

/// A report can be read: it names its parameter and tells its value, in at most 4,096 bytes.
pub fn reports_are_read()
    ensures { ReportsAreRead }
{}

/// A welcome has one report for each of the nine reported parameters, in frames of at most 65,536 bytes.
pub fn welcome_is_read()
    ensures { WelcomeIsRead }
{}

/// The error of a refused start has at most 65,536 bytes.
#[tactic(auto, using(crate::proofs::ByName::start_error_is_short))]
pub fn start_error_is_short()
    ensures { StartErrorIsShort }
{}

/// From a session at rest, the replies to DISCARD ALL have at most 65,536 bytes each, and give back the
/// reported values of the start.
#[tactic(auto, using(crate::proofs::ByName::resets_are_read))]
pub fn resets_are_read()
    ensures { ResetsAreRead }
{}
