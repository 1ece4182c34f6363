//! When a frozen leaf may be made anew.

ghost use Rattle.bz_layout.specs.declared.thresholds.TheConstants.{MAX_LEVELS};
ghost use Rattle.std.specs.Prelude.{◌≡◌, ◌↔◌, ◌≤◌, ◌<◌, ◌^◌, true, IfSome, IsSome, IsTrue};
ghost use Rattle.bz_word.specs.Statuses.{status};
ghost use Rattle.bz_renew.specs.Due.{LeadsTo, IsDue, IsDueBy, IsStatusOf};

use crate::links::last_link;
use bz_task::{LeafView, Link, Path};
use bz_word::Status;

/// Whether the view shows a frozen leaf, the path leads to it, and the guard of its last link was no frozen node's.
pub fn is_due(path: &Path, view: &LeafView) -> bool
    requires some { 1 ≤ path.now.depth }
    requires few { path.now.depth ≤ MAX_LEVELS }
    ensures due { IsTrue result ↔ IsDue path.now view.now }
    ensures frozen { result ≡ true → (status view.now.status).frozen ≡ true }
    ensures leads { result ≡ true → LeadsTo path.now view.now.slot }
{
    is_due_by(&last_link(path), view)
}

// The same of the last link alone.
fn is_due_by(link: &Link, view: &LeafView) -> bool
    ensures { IsTrue result ↔ IsDueBy link.now view.now }
{
    match (frozen_in(view.status), frozen_in(link.status)) {
        (Some(true), Some(false)) => link.slot == view.slot,
        _ => false,
    }
}

// Whether a status word is a frozen node's: none where the word is no status.
fn frozen_in(word: u64) -> Option<bool>
    ensures status { IsSome result ↔ (word < 2 ^ 61) }
    ensures frozen { IfSome result (λ frozen. (status word).frozen ≡ frozen) }
{
    bz_word::laws::statuses();
    let status = Status::unpack(word)?;
    Some(status.frozen)
}
