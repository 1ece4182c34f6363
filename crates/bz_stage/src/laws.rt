//! Laws of stages. Each function does nothing: its contract is the law.

ghost use Rattle.bz_stage.specs.Laws.{LackingLeavesSay};

/// So a key whose leaf has no room is two rounds away from it at least, or where the leaf is frozen one.
pub fn lacking_leaves_say()
    ensures { LackingLeavesSay }
{}
