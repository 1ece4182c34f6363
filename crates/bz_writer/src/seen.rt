//! What a load found.

ghost use Rattle.std.specs.Prelude.{◌≡◌, ◌↔◌, ℕ, IsTrue};
ghost use Rattle.bz_task.specs.declared.todo.Seen.TheVariants.{Read as Was};

use bz_task::Seen;

/// The word that a load found.
pub fn word_in(seen: Seen) -> u64
    ensures { (v : ℕ) → seen ≡ Was v → result ≡ v }
{
    match seen {
        Seen::Read(word) => word,
        _ => 0,
    }
}

/// Whether a load found this value.
pub fn is_read(seen: Seen, value: u64) -> bool
    ensures { IsTrue result ↔ (seen ≡ Was value) }
{
    match seen {
        Seen::Read(found) => found == value,
        _ => false,
    }
}
