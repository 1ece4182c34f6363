//! What a judge answers.
ghost use Rattle.std.specs.Prelude.{◌≡◌};
ghost use Rattle.bz_check.specs.Verdicts.{place_of, first_of};

/// A rule of sound journals. The earlier one is told where two are broken at one moment.
#[derive(Clone, Copy, Debug, PartialEq, Eq, Hash)]
pub enum JudgeRule {
    /// Loads and compare-and-swaps found what stood there.
    Truth,

    /// Calls stand once, and each mark is one that may follow those before it.
    Calls,

    /// Replies are right.
    Reply,

    /// The durable words are well formed.
    Shape,

    /// They hold the map.
    Content,
}

/// Whether a journal is sound. If not, the least moment, those before an Effect left out, up to which it is not, and the first rule
/// that is broken there. A moment is a number of marks.
#[derive(Clone, Copy, Debug, PartialEq, Eq, Hash)]
pub enum Verdict {
    Sound,
    Broken { rule: JudgeRule, moment: u32 },
}

/// The place of a rule in the order of rules.
fn place(rule: JudgeRule) -> u8
    ensures { result ≡ place_of rule }
{
    match rule {
        JudgeRule::Truth => 0,
        JudgeRule::Calls => 1,
        JudgeRule::Reply => 2,
        JudgeRule::Shape => 3,
        JudgeRule::Content => 4,
    }
}

/// The first one of two rules that are broken, if any are.
pub fn first(one: Option<JudgeRule>, other: Option<JudgeRule>) -> Option<JudgeRule>
    ensures { result ≡ first_of one other }
{
    let Some(a) = one else {
        return other;
    };
    let Some(b) = other else {
        return one;
    };
    if place(a) <= place(b) { one } else { other }
}
