//! Where a line may stand.
ghost use Rattle.std.specs.Prelude.{◌≡◌};
ghost use Rattle.bz_script.specs.Order.{at_first as first, takes_no_cut as refuses_cut, kind_of as kind_in, may_come as comes, may_stand as stands, after_kind, after as following};

use crate::item::{Item, Plan};

/// What the lines so far leave for the next one.
#[derive(Clone, Copy, PartialEq, Eq)]
pub struct Standing {
    /// A cut is armed, and no run and no power on has used it up.
    pub armed: bool,

    /// A cut was used up, and no power on without one has come since: no run may follow.
    pub used: bool,
}

/// What a line is, as far as where it may stand.
#[derive(Clone, Copy, PartialEq, Eq)]
pub enum LineKind {
    /// It queues a call.
    Call,

    /// It arms a cut.
    Cut,

    /// It runs the calls that wait, and takes a cut or none.
    Run(bool),

    /// It turns the power on.
    Power,
}

/// No cut is armed, and none was used up.
pub fn at_first() -> Standing
    ensures { result ≡ first }
{
    Standing {
        armed: false,
        used: false,
    }
}

fn takes_no_cut(plan: &Plan) -> bool
    ensures { result ≡ refuses_cut plan.now }
{
    match plan {
        Plan::Alone => false,
        Plan::List(_) => false,
        Plan::Turns(_) => false,
        Plan::Threads => true,
    }
}

fn kind_of(item: &Item) -> LineKind
    ensures { result ≡ kind_in item.now }
{
    match item {
        Item::Queue(_, _) => LineKind::Call,
        Item::Arm { flush: _, seed: _ } => LineKind::Cut,
        Item::Run(plan) => LineKind::Run(!takes_no_cut(plan)),
        Item::Power => LineKind::Power,
    }
}

/// Whether a line may stand here.
pub fn may_come(standing: Standing, kind: LineKind) -> bool
    ensures { result ≡ comes standing kind }
{
    match kind {
        LineKind::Call => true,
        LineKind::Cut => !standing.armed,
        LineKind::Run(takes_cut) => !standing.used && !(standing.armed && !takes_cut),
        LineKind::Power => true,
    }
}

/// What it leaves for the next one.
pub fn follow_kind(standing: Standing, kind: LineKind) -> Standing
    ensures { result ≡ after_kind standing kind }
{
    match kind {
        LineKind::Call => standing,
        LineKind::Cut => Standing {
            armed: true,
            used: standing.used,
        },
        LineKind::Run(_) => Standing {
            armed: false,
            used: standing.armed,
        },
        LineKind::Power => Standing {
            armed: false,
            used: standing.armed,
        },
    }
}

/// Whether an item may stand here.
pub(crate) fn may_stand(standing: Standing, item: &Item) -> bool
    ensures { result ≡ stands standing item.now }
{
    may_come(standing, kind_of(item))
}

/// What it leaves for the next one.
pub(crate) fn follow(standing: Standing, item: &Item) -> Standing
    ensures { result ≡ following standing item.now }
{
    follow_kind(standing, kind_of(item))
}
