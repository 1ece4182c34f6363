//! Laws of a node's words. Each function does nothing: its contract is the law.

ghost use Rattle.bz_slotted.specs.LeafLaws.{FreezeIsQuiet};
ghost use Rattle.bz_slotted.specs.ReadingLaws.{WholeLeavesAreReadable, WholeInnersAreReadable, HighFencesAreRead, MadeLeavesAreWhole};
ghost use Rattle.bz_slotted.specs.Laws.{LeafRulesAreFacts, InnerRulesAreFacts, InnerKeysRise, LiveWordsFit};

/// A leaf breaks no rule exactly where each rule holds as a fact of its records.
pub fn leaf_rules_are_facts()
    ensures { LeafRulesAreFacts }
{}

/// An inner node breaks no rule exactly where each rule holds as a fact of its records.
pub fn inner_rules_are_facts()
    ensures { InnerRulesAreFacts }
{}

/// The keys of an inner node that breaks no rule rise between its bounds.
pub fn inner_keys_rise()
    ensures { InnerKeysRise }
{}

/// The visible records of a leaf that breaks no rule fit a node.
pub fn live_words_fit()
    ensures { LiveWordsFit }
{}

/// A freeze breaks no rule and changes no answer.
pub fn freeze_is_quiet()
    ensures { FreezeIsQuiet }
{}

/// A leaf that breaks no rule can be read as pairs, which are its records and answer as it does.
pub fn whole_leaves_are_readable()
    ensures { WholeLeavesAreReadable }
{}

/// An inner node that breaks no rule can be read as children, which are its children.
pub fn whole_inners_are_readable()
    ensures { WholeInnersAreReadable }
{}

/// The high fence of a node that breaks no rule can be read, and is its high bound.
pub fn high_fences_are_read()
    ensures { HighFencesAreRead }
{}

/// A leaf made whole breaks no rule, and says of each key what its records say.
pub fn made_leaves_are_whole()
    ensures { MadeLeavesAreWhole }
{}
