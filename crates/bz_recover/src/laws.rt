//! Laws of images in a recovery. Each function does nothing: its contract is the law.

ghost use Rattle.bz_recover.specs.Knowledge.{RecoveriesKnow};

/// What every recovery knows of the memory, and what it knows after its own acts and those of others.
pub fn recoveries_know()
    ensures { RecoveriesKnow }
{}
