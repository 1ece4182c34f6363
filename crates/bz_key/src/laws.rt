//! The laws of packing and spelling. Each call does nothing; its contract is the law.
ghost use Rattle.bz_key.specs.Laws.{PackingIsSmall};

/// How many words a packing has, and that none has a bit above 55.
pub fn packing_is_small()
    ensures { PackingIsSmall }
{}
