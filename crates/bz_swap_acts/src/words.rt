//! Acts on words outside the descriptors, and what each act was.

ghost use Rattle.std.specs.Prelude.{◌≡◌, ◌≢◌, ◌<◌, ◌^◌, ◌/◌, true, false, length, slice_index};
ghost use Rattle.bz_word.specs.Kinds.{IsKind, word};
ghost use Rattle.bz_word.specs.declared.kind.WordKind.TheVariants.{Value};
ghost use Rattle.bz_swap_machine.specs.Changes.{with_word, with_tag, with_copies, in_line, line_of, with_ask, fenced};
ghost use Rattle.bz_swap_cells.specs.Store.{Beside, IsStore, MayTag, MayAsk, kind_at, typed};
ghost use Rattle.bz_swap_acts.specs.Parts.{IsMade, IsMadeBy};
ghost use Rattle.bz_swap_acts.specs.Ready.{LiesOutside};
ghost use Rattle.bz_swap_acts.specs.Rule.{is_fence_act};
ghost use Rattle.bz_swap_acts.specs.Writes.{StaysOutside};
ghost use Rattle.bz_swap_acts.specs.declared.acted.Act.TheVariants.{Load, Store, Ask, Fence};

use crate::acted::Act;
use bz_layout::LINE_WORDS;
use bz_swap_cells::Cells;
use bz_word::{WordKind, word_of};

/// What stood at an address, and the act that found it.
#[derive(Clone, Copy)]
pub(crate) struct FoundKind {
    pub(crate) kind: WordKind,
    pub(crate) act: Act,
}

/// Loads a word.
pub(crate) fn load_word(cells: &Cells, a: u32) -> FoundKind
    requires typed { IsStore cells.now }
    requires lies { LiesOutside cells.now a }
    ensures found { result.kind ≡ kind_at cells.now.swaps cells.now.cached a }
    ensures made { IsMade cells.now result.act cells.now }
    ensures flush { is_fence_act result.act ≡ false }
    ensures writes { StaysOutside cells.now.swaps result.act }
    ensures told { result.act ≡ Load a (word result.kind) }
{
    let kind = cells.load_word(a);
    FoundKind {
        kind,
        act: Act::Load {
            a,
            v: word_of(kind),
        },
    }
}

/// Puts the new word where the old one stands.
pub(crate) fn cas_word(cells: &mut Cells, a: u32, old: WordKind, new: WordKind) -> FoundKind
    requires typed { IsStore cells.old }
    requires lies { LiesOutside cells.old a }
    requires old_kind { IsKind old }
    requires new_kind { IsKind new }
    ensures found { result.kind ≡ kind_at cells.old.swaps cells.old.cached a }
    ensures changed { result.kind ≡ old → (b : Beside) → typed cells.new b ≡ with_word (typed cells.old b) a new }
    ensures unchanged { result.kind ≢ old → cells.new ≡ cells.old }
    ensures made { IsMade cells.old result.act cells.new }
    ensures flush { is_fence_act result.act ≡ false }
    ensures writes { StaysOutside cells.old.swaps result.act }
{
    let kind = cells.cas_word(a, old, new);
    FoundKind {
        kind,
        act: Act::Cas {
            a,
            old: word_of(old),
            new: word_of(new),
            found: word_of(kind),
        },
    }
}

/// Puts the worker's next tag where the expected value stands.
pub(crate) fn cas_tag(
    cells: &mut Cells,
    a: u32,
    expected: u64,
    swap: u16,
    entry: u8,
    worker: u8,
) -> FoundKind
    requires typed { IsStore cells.old }
    requires lies { LiesOutside cells.old a }
    requires expected { expected < 2 ^ 61 }
    requires entry { entry < 4 }
    requires worker { MayTag cells.old worker }
    ensures found { result.kind ≡ kind_at cells.old.swaps cells.old.cached a }
    ensures is_kind { IsKind result.kind }
    ensures changed { result.kind ≡ Value expected → (b : Beside) → typed cells.new b ≡ with_tag (typed cells.old b) a swap entry worker }
    ensures unchanged { result.kind ≢ Value expected → cells.new ≡ cells.old }
    ensures made { IsMade cells.old result.act cells.new }
    ensures flush { is_fence_act result.act ≡ false }
    ensures writes { StaysOutside cells.old.swaps result.act }
{
    let tag = WordKind::Tag {
        swap,
        entry,
        worker,
        seq: cells.next_tag(worker),
    };
    let kind = cells.cas_tag(a, expected, swap, entry, worker);
    FoundKind {
        kind,
        act: Act::Cas {
            a,
            old: expected,
            new: word_of(tag),
            found: word_of(kind),
        },
    }
}

/// Stores a plain value.
pub(crate) fn store_value(cells: &mut Cells, a: u32, value: u64) -> Act
    requires typed { IsStore cells.old }
    requires lies { LiesOutside cells.old a }
    requires value { value < 2 ^ 61 }
    ensures changed { (b : Beside) → typed cells.new b ≡ with_word (typed cells.old b) a (Value value) }
    ensures made { IsMade cells.old result cells.new }
    ensures flush { is_fence_act result ≡ false }
    ensures told { result ≡ Store a value }
{
    cells.store_word(a, WordKind::Value(value));
    Act::Store { a, v: value }
}

/// Asks for the line of an address.
pub(crate) fn ask_word(cells: &mut Cells, w: u8, a: u32) -> Act
    requires typed { IsStore cells.old }
    requires asker { MayAsk cells.old w }
    requires lies { LiesOutside cells.old a }
    ensures changed { (b : Beside) → typed cells.new b ≡ with_ask (typed cells.old b) w (line_of a) }
    ensures made { IsMadeBy cells.old w result cells.new }
    ensures flush { is_fence_act result ≡ false }
    ensures told { result ≡ Ask (a / 8) }
{
    cells.ask_word(w, a);
    Act::Ask {
        line: a / LINE_WORDS,
    }
}

/// Makes a fence.
pub(crate) fn fence(cells: &mut Cells, w: u8) -> Act
    requires typed { IsStore cells.old }
    requires worker { w < length cells.old.next_tags }
    ensures changed { (b : Beside) → typed cells.new b ≡ fenced (typed cells.old b) w }
    ensures made { IsMadeBy cells.old w result cells.new }
    ensures flush { is_fence_act result ≡ true }
    ensures told { result ≡ Fence }
{
    cells.fence(w);
    Act::Fence
}
