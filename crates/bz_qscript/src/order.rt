//! Where a line may stand.
ghost use Rattle.std.specs.Prelude.{◌≡◌};
ghost use Rattle.bz_qscript.specs.Script.{kind_of as kind_in};

use crate::item::QItem;
use bz_script::LineKind;

/// What an item's line is, as far as where it may stand: each run takes a cut.
pub(crate) fn kind_of(item: &QItem) -> LineKind
    ensures { result ≡ kind_in item.now }
{
    match item {
        QItem::Queue(_, _) => LineKind::Call,
        QItem::Arm(_) => LineKind::Cut,
        QItem::Run(_) => LineKind::Run(true),
        QItem::Power => LineKind::Power,
    }
}
