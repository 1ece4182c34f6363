//! Acts of the swap memory as marks of a journal: what the memory keeps of the past is what the marks say of it.
#![tactic(auto)]

ghost use Rattle.std.specs.Prelude.{◌≡◌};
ghost use Rattle.bz_swap_marks.specs.Marks.{mark_of as mark_in};

use bz_mark::Mark;
use bz_swap::Act;

/// The mark of an act of worker w.
pub fn mark_of(w: u8, act: Act) -> Mark
    ensures { result ≡ mark_in w act }
{
    match act {
        Act::Load { a, v } => Mark::Load { w, a, v },
        Act::Store { a, v } => Mark::Store { w, a, v },
        Act::Cas { a, old, new, found } => Mark::Cas {
            w,
            a,
            old,
            new,
            found,
        },
        Act::Ask { line } => Mark::Ask { w, line },
        Act::Fence => Mark::Fence { w },
    }
}
