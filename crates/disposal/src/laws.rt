//! Laws of a link's traffic, over the definitions alone, each the contract of a function that does nothing.
ghost use Rattle.disposal.specs.Laws.{CallsTell, FullIsTheGreatest, SettledExactly, VerdictsAreOfLists};

/// What tells of two lists tells, after each call, of the lists with what the call adds.
pub fn calls_tell()
    ensures { CallsTell }
{}

/// The verdict is that on each two lists that are told of.
pub fn verdicts_are_of_lists()
    ensures { VerdictsAreOfLists }
{}

/// The verdict is Settled exactly where the lists are.
pub fn settled_exactly()
    ensures { SettledExactly }
{}

/// Counting stops at the greatest number of eight bytes.
pub fn full_is_the_greatest()
    ensures { FullIsTheGreatest }
{}
