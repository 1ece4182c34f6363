//! The laws of reports and summaries. Each function does nothing: its contract is the law.

ghost use Rattle.bz_text.specs.RightLines.{ReportsAreRight};
ghost use Rattle.bz_text.specs.RightSummary.{CountsAreTheEnds, EachCountIsRight};
ghost use Rattle.bz_text.specs.Fates.{FatesAreRight};
ghost use Rattle.bz_text.specs.InTime.{ReportsAreInTime};

/// The report of a sound journal has a line for each End, and each line tells the call that was open then, with its right
/// reply.
pub fn reports_are_right()
    ensures { ReportsAreRight }
{}

/// The counts of a summary are together as many as the journal has Ends: each is counted once.
pub fn counts_are_the_ends()
    ensures { CountsAreTheEnds }
{}

/// Each count of a summary is the number of Ends with its reply.
pub fn each_count_is_right()
    ensures { EachCountIsRight }
{}

/// The line of a call that was open at a cut says `kept` where the journal has its Effect, and otherwise `lost`.
pub fn fates_are_right()
    ensures { FatesAreRight }
{}

/// The lines of the calls that have ended stand in the order of their moments.
pub fn reports_are_in_time()
    ensures { ReportsAreInTime }
{}
