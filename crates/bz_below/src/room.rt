//! Whether an inner node has room for one child more, as its status tells.

ghost use Rattle.std.specs.Prelude.{◌↔◌, ◌<◌, ◌^◌, IsTrue};
ghost use Rattle.bz_below.specs.Facts.{LeavesRoom};

use bz_key::Key;
use bz_layout::SHARED_WORDS;
use bz_word::Status;

/// Whether an inner node with this status has room for one child more, below the separator.
pub fn leaves_room(word: u64, separator: &Key) -> bool
    requires { word < 2 ^ 61 }
    ensures { IsTrue result ↔ LeavesRoom word separator.now }
{
    bz_word::laws::statuses();
    bz_key::laws::packing_is_small();
    let _key = separator.bytes();
    match Status::unpack(word) {
        Some(status) => status.count + status.block + 2 + separator.words() as u32 <= SHARED_WORDS,
        None => unreachable!(),
    }
}
