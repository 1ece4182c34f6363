//! The draws of a call.
ghost use Rattle.std.specs.Prelude.{◌≡◌};
ghost use Rattle.bz_gen.specs.Workload.{behind, draws_from};

use bz_script::next_draw;

/// What is drawn for one call, in the order of the draws.
#[derive(Clone, Copy)]
pub(crate) struct Draws {
    pub(crate) worker: u32,
    pub(crate) kind: u32,
    pub(crate) key: u32,
}

/// Draws for one call.
#[tactic(auto, unfolding(crate::specs::Workload::behind, crate::specs::Workload::draws_from))]
pub(crate) fn draw_call(x: &mut u64) -> Draws
    ensures state { x.new ≡ behind x.old }
    ensures draws { result ≡ draws_from x.old }
{
    let worker = next_draw(x);
    let kind = next_draw(x);
    let key = next_draw(x);
    Draws { worker, kind, key }
}
