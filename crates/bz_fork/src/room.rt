//! Whether a parent has room for a child more at all.

ghost use Rattle.std.specs.Prelude.{◌↔◌, ◌<◌, ◌^◌, IsTrue};
ghost use Rattle.bz_fork.specs.Facts.{TakesNoChild};

use bz_layout::{LEAST_RECORD_WORDS, SHARED_WORDS};
use bz_word::Status;

// The fewest words of a child below a separator: those of one without a key, and one of the key, which is never empty.
const LEAST_CHILD_WORDS: u32 = LEAST_RECORD_WORDS + 1;

/// Whether an inner node with this status has room for no child more, however short the separator.
pub(crate) fn takes_no_child(word: u64) -> bool
    requires { word < 2 ^ 61 }
    ensures { IsTrue result ↔ TakesNoChild word }
{
    bz_word::laws::statuses();
    match Status::unpack(word) {
        Some(status) => SHARED_WORDS < status.count + status.block + LEAST_CHILD_WORDS,
        None => unreachable!(),
    }
}
