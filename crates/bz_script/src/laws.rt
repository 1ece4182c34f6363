//! A law of the definition of a script. The call does nothing; its contract is the law.
ghost use Rattle.bz_script.specs.FirstFault.{FaultsAreFirst};
ghost use Rattle.bz_script.specs.Numbers.{NumbersOfFormats};

/// A script breaks no rule in any line. Of other bytes the fault is the rule that its line breaks, and no
/// earlier line breaks one.
pub fn faults_are_first()
    ensures { FaultsAreFirst }
{}

/// The value of each public constant of scripts.
pub fn numbers_of_formats()
    ensures { NumbersOfFormats }
{}
