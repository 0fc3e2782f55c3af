//! The law of the log's lines, as the contract of a function that does nothing.
ghost use Rattle.log_lines.specs.Laws.{LinesArePrinting};

/// Each line is printing ASCII alone.
pub fn lines_are_printing()
    ensures { LinesArePrinting }
{}
