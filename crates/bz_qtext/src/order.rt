//! The order of the lines.
ghost use Rattle.std.specs.Prelude.{◌≡◌, OnOk};
ghost use Rattle.bz_qtext.specs.Report.{rank as rank_of, in_order};

use crate::ended::QEnded;
use bz_oom::Memory;

fn rank(ended: &QEnded) -> u64
    ensures { result ≡ rank_of ended.now }
{
    ended.at as u64 * 256 + ended.worker as u64
}

/// Puts the calls in the order of their moments, and of their workers at one moment.
pub(crate) fn sort_calls(calls: &mut Vec<QEnded>) -> Result<(), Memory>
    ensures { OnOk result (calls.new.items ≡ in_order calls.old.items) }
{
    calls.sort_by_key(|ended| rank(ended))?;
    Ok(())
}
