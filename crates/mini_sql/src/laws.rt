//! The grammar's laws, as contracts of functions that do nothing.
ghost use Rattle.mini_sql.specs.Laws.{DerivedIsStatement, DerivesOne, StatementIsDerived};

/// A text's statement is derived from its tokens, less one last semicolon.
pub fn statement_is_derived()
    ensures { StatementIsDerived }
{}

/// What is derived from a text's tokens, less one last semicolon, is its statement.
pub fn derived_is_statement()
    ensures { DerivedIsStatement }
{}

/// Tokens spell one statement at most.
pub fn derives_one()
    ensures { DerivesOne }
{}
