//! What a pooler knows of a session's runs, proved over the definitions alone. Each is the contract of a function that does
//! nothing.

ghost use Rattle.session_run_laws.specs.Runs.{ClientFramesAreSent, RunRepliesAreFrames, RunReportsTellValues, RunsByMarks, RunsEnd, RunsGoOn, RunsStayReached};
ghost use Rattle.session_run_laws.specs.Settling.{SettledIsQuiet};

/// A list of frames is answered frame by frame: the replies to a front are a front of the replies, and the rest is answered by the
/// marks that are left.
#[tactic(auto, using(crate::proofs::ByName::runs_go_on))]
pub fn runs_go_on()
    ensures { RunsGoOn }
{}

/// One frame more, with its mark, is one step more.
#[tactic(auto, using(crate::proofs::ByName::runs_end))]
pub fn runs_end()
    ensures { RunsEnd }
{}

/// Which frames cancels struck is all that a run has of its marks.
#[tactic(auto, using(crate::proofs::ByName::runs_by_marks))]
pub fn runs_by_marks()
    ensures { RunsByMarks }
{}

/// What a session reached leads, by frames of its client, to what it reaches.
#[tactic(auto, using(crate::proofs::ByName::runs_stay_reached))]
pub fn runs_stay_reached()
    ensures { RunsStayReached }
{}

/// The frames that a client's bytes begin with are whole frames of bytes.
#[tactic(auto, using(crate::proofs::ByName::client_frames_are_sent))]
pub fn client_frames_are_sent()
    ensures { ClientFramesAreSent }
{}

/// What a session that began fresh replies to a list of frames is whole frames.
#[tactic(auto, using(crate::proofs::ByName::run_replies_are_frames))]
pub fn run_replies_are_frames()
    ensures { RunRepliesAreFrames }
{}

/// After a list of frames the reported values are those before, changed by the reports sent.
#[tactic(auto, using(crate::proofs::ByName::run_reports_tell_values))]
pub fn run_reports_tell_values()
    ensures { RunReportsTellValues }
{}

/// Where as many ReadyForQuery came as closing messages were sent, the last frame sent is one, and the last
/// status is `I`, the session has taken and answered all, and is at rest.
pub fn settled_is_quiet()
    ensures { SettledIsQuiet }
{}
