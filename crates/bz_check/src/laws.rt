//! Laws of verdicts. Each function does nothing: its contract is the law.
ghost use Rattle.bz_check.specs.Laws.{SoundKeepsAllRules, OneVerdict, RepliesByTheMap};
ghost use Rattle.bz_check.specs.Example.{WorkedVerdicts};

/// A journal is sound exactly where it is formed and its marks keep each of the five rules.
pub fn sound_keeps_all_rules()
    ensures { SoundKeepsAllRules }
{}

/// A right reply is right as far as the map and counts tell; without a page, and without a Full of slots or of the height, the two are one.
pub fn replies_by_the_map()
    ensures { RepliesByTheMap }
{}

/// By the rules of truth and of calls, and by replies as far as the map and counts tell, one verdict is right of a journal.
pub fn one_verdict()
    ensures { OneVerdict }
{}

/// The verdicts on small journals are those worked out by hand.
pub fn worked_verdicts()
    ensures { WorkedVerdicts }
{}
