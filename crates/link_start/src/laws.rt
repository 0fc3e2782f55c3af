//! The laws of the answer to a start, contracts of functions that do nothing.

ghost use Rattle.link_start.specs.StartReply.{EndsAreHeard, ReadyIsAnswer};

/// What is heard as a whole start is one by its grammar: a question at most, AuthenticationOk, the welcome's messages, and one
/// ReadyForQuery, which is idle and the last; with notices between (PostgreSQL manual, "Message Flow", "Start-up").
#[tactic(auto, using(crate::proofs::Grammar::start_answer))]
pub fn ready_is_answer()
    ensures { ReadyIsAnswer }
{}

/// What a start fails by, an ErrorResponse, a question that this user can't answer or something else, is heard so whatever comes
/// behind it: a cause that came stays one, wherever a server's bytes are cut.
pub fn ends_are_heard()
    ensures { EndsAreHeard }
{}
