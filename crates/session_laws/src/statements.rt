//! What a pooler knows of a statement by its text, proved over the definitions alone. It is the contract of a function that does nothing.
ghost use Rattle.session_laws.specs.Statements.{StatementsAreSpelled};

/// A statement that a text spells has no more of it than the text: a value that is set is shorter, names have
/// at most 63 bytes, lists of columns at most 64 of them, and parameters are at most 99.
#[tactic(auto, using(crate::proofs::ByName::statements_are_spelled))]
pub fn statements_are_spelled()
    ensures { StatementsAreSpelled }
{}
