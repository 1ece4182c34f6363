//! Laws of workloads. The function does nothing: its contract is the law.
ghost use Rattle.bz_gen.specs.Laws.{WorkloadsAreJobs};
ghost use Rattle.bz_gen.specs.Numbers.{NumbersOfFormats};

/// A workload is a script whose numbers lie in their ranges.
pub fn workloads_are_jobs()
    ensures { WorkloadsAreJobs }
{}

/// The value of each public constant of workloads.
pub fn numbers_of_formats()
    ensures { NumbersOfFormats }
{}
