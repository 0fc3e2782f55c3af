//! What a pooler knows of one step of a session, proved over the definitions alone. Each is the contract of a function that does nothing.

ghost use Rattle.session_laws.specs.Laws.{DiscardAllGivesFresh, EachStepEnds, FreshHasKey, FreshIsAtRest, OnlyStatementsAreStruck, RepliesAreFrames, ReportsTellValues, StatusesAreReports, StepKeepsKey, StruckDiscardAllIsRefused};

/// At most one reply is a ReadyForQuery, the last one, only after a closing message; with status `I`
/// the session is at rest, and the reported values are the current ones.
#[tactic(auto, using(crate::proofs::ByName::each_step_ends))]
pub fn each_step_ends()
    ensures { EachStepEnds }
{}

/// A fresh session has its own key.
#[tactic(auto, using(crate::proofs::ByName::fresh_has_key))]
pub fn fresh_has_key()
    ensures { FreshHasKey }
{}

/// A fresh session is at rest.
pub fn fresh_is_at_rest()
    ensures { FreshIsAtRest }
{}

/// No frame changes the key of a session.
#[tactic(auto, using(crate::proofs::ByName::step_keeps_key))]
pub fn step_keeps_key()
    ensures { StepKeepsKey }
{}

/// From a session at rest, DISCARD ALL that no cancel struck gives the fresh session of its key.
pub fn discard_all_gives_fresh()
    ensures { DiscardAllGivesFresh }
{}

/// From a session at rest, DISCARD ALL that a cancel struck is answered by an error, and then as any Query that fails.
#[tactic(auto, using(crate::proofs::ByName::struck_discard_all_is_refused))]
pub fn struck_discard_all_is_refused()
    ensures { StruckDiscardAllIsRefused }
{}

/// A cancel changes the answer to a Query or an Execute that isn't skipped, and to nothing else.
#[tactic(auto, using(crate::proofs::ByName::only_statements_are_struck))]
pub fn only_statements_are_struck()
    ensures { OnlyStatementsAreStruck }
{}

/// What a session that began fresh replies is whole frames.
#[tactic(auto, using(crate::proofs::ByName::replies_are_frames))]
pub fn replies_are_frames()
    ensures { RepliesAreFrames }
{}

/// Each ParameterStatus of a session that began fresh names a reported parameter and is short.
#[tactic(auto, using(crate::proofs::ByName::statuses_are_reports))]
pub fn statuses_are_reports()
    ensures { StatusesAreReports }
{}

/// The reported values are those before the frame, changed by the reports sent.
#[tactic(auto, using(crate::proofs::ByName::reports_tell_values))]
pub fn reports_tell_values()
    ensures { ReportsTellValues }
{}
