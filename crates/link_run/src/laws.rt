//! The laws of a link's welcome and of the answer to its reset, contracts of functions that do nothing.

ghost use Rattle.link_run.specs.Links.{WelcomesAreTheSessions};
ghost use Rattle.link_run.specs.Receipts.{UntouchedIsClean};
ghost use Rattle.link_run.specs.Resets.{ResetAnswersAnswer, ResetsAreAnswered};

/// What a client is given first over a clean link is the welcome of the session that the link's server opened.
#[tactic(auto, using(crate::proofs::Reporting::welcome_is))]
pub fn welcomes_are_the_sessions()
    ensures { WelcomesAreTheSessions }
{}

/// What a session at rest answers to `DISCARD ALL` is the whole answer to a reset.
#[tactic(auto, using(crate::proofs::Told::replies_answer))]
pub fn resets_are_answered()
    ensures { ResetsAreAnswered }
{}

/// The whole answer to a reset answers its `DISCARD ALL`: one ReadyForQuery, the last, and it is idle.
pub fn reset_answers_answer()
    ensures { ResetAnswersAnswer }
{}

/// A link that nothing was sent over and nothing came from is as clean as it was.
#[tactic(auto, using(crate::proofs::Receipts::untouched_is_clean))]
pub fn untouched_is_clean()
    ensures { UntouchedIsClean }
{}
