//! Whether a status that was read is a frozen node's.

ghost use Rattle.std.specs.Prelude.{◌≡◌, ◌<◌, ◌^◌};
ghost use Rattle.bz_word.specs.Statuses.{status};

use bz_word::Status;

/// Whether a word is the status of a frozen node.
pub(crate) fn is_frozen(word: u64) -> bool
    ensures { word < 2 ^ 61 → result ≡ (status word).frozen }
{
    bz_word::laws::statuses();
    match Status::unpack(word) {
        Some(status) => status.frozen,
        None => false,
    }
}
