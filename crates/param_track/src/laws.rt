//! Laws of a link's reports, over the definitions alone, each the contract of a function that does nothing.
ghost use Rattle.param_track.specs.ReportLaws.{AtStartExactly, ReportsAreTold};

/// What is kept tells of the reports of the start and of those since then, through every call.
pub fn reports_are_told()
    ensures { ReportsAreTold }
{}

/// All is found to be as at the start exactly where each value last told is the start's.
pub fn at_start_exactly()
    ensures { AtStartExactly }
{}
