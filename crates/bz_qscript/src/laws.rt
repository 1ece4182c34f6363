//! Laws of queues' scripts. Each function does nothing: its contract is the law.
ghost use Rattle.bz_qscript.specs.ItemLaws.{ScriptsAreJobs};

/// A script's sizes are in range, its items are those that scripts have, and each may stand where it does.
pub fn scripts_are_jobs()
    ensures { ScriptsAreJobs }
{}
