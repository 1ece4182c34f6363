//! Reading a field of a word.

ghost use Rattle.std.specs.Prelude.{◌≡◌, ◌+◌, ◌≤◌, ◌<◌};
ghost use Rattle.bz_word.specs.Fields.{field as field_of};

/// The number in the `width` bits of a word from bit `place` on.
#[inline(always)]
pub(crate) fn field(word: u64, place: u32, width: u32) -> u64
    requires place { place < 64 }
    requires width { width < 64 }
    ensures { result ≡ field_of place width word }
{
    (word >> place) % (1 << width)
}
