//! The laws of runs. Each function does nothing: its contract is the law.

ghost use Rattle.bz_sched.specs.UndisturbedLaws.{CallsAboveEnd, CallsGoApart};
ghost use Rattle.bz_sched.specs.Numbers.{NumbersOfFormats};

/// Where each run goes one worker after the other, and no cut is armed for a run or a power on, each call that stands above a run has ended.
pub fn calls_above_end()
    ensures { CallsAboveEnd }
{}

/// Where the power comes on at most at first besides, no call has begun while another was open.
pub fn calls_go_apart()
    ensures { CallsGoApart }
{}

/// The value of each public constant of runs.
pub fn numbers_of_formats()
    ensures { NumbersOfFormats }
{}
