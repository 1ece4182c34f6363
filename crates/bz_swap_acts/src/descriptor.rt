//! Acts on descriptors, and what each act was.

ghost use Rattle.std.specs.Prelude.{◌≡◌, ◌≢◌, ◌<◌, ◌≤◌, ◌+◌, ◌/◌, false};
ghost use Rattle.bz_layout.specs.Addresses.{swap_address};
ghost use Rattle.bz_swap_machine.specs.Changes.{with_status, with_field, head_of, tail_of, with_ask};
ghost use Rattle.bz_swap_cells.specs.Store.{Beside, IsStore, MayAsk, descriptor_word_at, field_address, status_at, status_word, typed};
ghost use Rattle.bz_swap_acts.specs.Parts.{IsMade, IsMadeBy};
ghost use Rattle.bz_swap_acts.specs.Rule.{is_fence_act};
ghost use Rattle.bz_swap_acts.specs.Writes.{StaysOutside};
ghost use Rattle.bz_swap_acts.specs.declared.acted.Act.TheVariants.{Store, Cas, Ask};

use crate::acted::Act;
use bz_layout::LINE_WORDS;
use bz_swap_cells::{Cells, field_at, swap_at, word_of_status};
use bz_swap_machine::SwapStatus;

/// The status that a descriptor had, and the act that found it.
#[derive(Clone, Copy)]
pub(crate) struct FoundStatus {
    pub(crate) status: SwapStatus,
    pub(crate) act: Act,
}

/// Loads a status.
pub(crate) fn load_status(cells: &Cells, swap: u16) -> FoundStatus
    requires typed { IsStore cells.now }
    requires descriptor { swap < cells.now.swaps }
    ensures found { result.status ≡ status_at cells.now.swaps cells.now.cached swap }
    ensures made { IsMade cells.now result.act cells.now }
    ensures flush { is_fence_act result.act ≡ false }
    ensures writes { StaysOutside cells.now.swaps result.act }
{
    let status = cells.load_status(swap);
    FoundStatus {
        status,
        act: Act::Load {
            a: swap_at(swap),
            v: word_of_status(status),
        },
    }
}

/// Puts the new status where the old one stands.
pub(crate) fn cas_status(
    cells: &mut Cells,
    swap: u16,
    old: SwapStatus,
    new: SwapStatus,
) -> FoundStatus
    requires typed { IsStore cells.old }
    requires descriptor { swap < cells.old.swaps }
    ensures found { result.status ≡ status_at cells.old.swaps cells.old.cached swap }
    ensures changed { result.status ≡ old → (b : Beside) → typed cells.new b ≡ with_status (typed cells.old b) swap new }
    ensures unchanged { result.status ≢ old → cells.new ≡ cells.old }
    ensures made { IsMade cells.old result.act cells.new }
    ensures flush { is_fence_act result.act ≡ false }
    ensures told { result.act ≡ Cas (swap_address swap) (status_word old) (status_word new) (status_word result.status) }
{
    let status = cells.cas_status(swap, old, new);
    FoundStatus {
        status,
        act: Act::Cas {
            a: swap_at(swap),
            old: word_of_status(old),
            new: word_of_status(new),
            found: word_of_status(status),
        },
    }
}

/// Stores a status.
pub(crate) fn store_status(cells: &mut Cells, swap: u16, new: SwapStatus) -> Act
    requires typed { IsStore cells.old }
    requires descriptor { swap < cells.old.swaps }
    ensures changed { (b : Beside) → typed cells.new b ≡ with_status (typed cells.old b) swap new }
    ensures made { IsMade cells.old result cells.new }
    ensures flush { is_fence_act result ≡ false }
    ensures told { result ≡ Store (swap_address swap) (status_word new) }
{
    cells.store_status(swap, new);
    Act::Store {
        a: swap_at(swap),
        v: word_of_status(new),
    }
}

/// Asks for a descriptor's first line, which holds the status.
pub(crate) fn ask_head(cells: &mut Cells, w: u8, swap: u16) -> Act
    requires typed { IsStore cells.old }
    requires asker { MayAsk cells.old w }
    requires descriptor { swap < cells.old.swaps }
    ensures changed { (b : Beside) → typed cells.new b ≡ with_ask (typed cells.old b) w (head_of swap) }
    ensures made { IsMadeBy cells.old w result cells.new }
    ensures flush { is_fence_act result ≡ false }
    ensures told { result ≡ Ask (swap_address swap / 8) }
{
    cells.ask_head(w, swap);
    Act::Ask {
        line: swap_at(swap) / LINE_WORDS,
    }
}

/// Asks for a descriptor's second line.
pub(crate) fn ask_tail(cells: &mut Cells, w: u8, swap: u16) -> Act
    requires typed { IsStore cells.old }
    requires asker { MayAsk cells.old w }
    requires descriptor { swap < cells.old.swaps }
    ensures changed { (b : Beside) → typed cells.new b ≡ with_ask (typed cells.old b) w (tail_of swap) }
    ensures made { IsMadeBy cells.old w result cells.new }
    ensures flush { is_fence_act result ≡ false }
    ensures told { result ≡ Ask (swap_address swap / 8 + 1) }
{
    cells.ask_tail(w, swap);
    Act::Ask {
        line: swap_at(swap) / LINE_WORDS + 1,
    }
}

/// Stores a word of a descriptor, counted from the number of entries.
pub(crate) fn store_field(cells: &mut Cells, swap: u16, number: u8, value: u64) -> Act
    requires typed { IsStore cells.old }
    requires descriptor { swap < cells.old.swaps }
    requires number { number ≤ 12 }
    ensures changed { (b : Beside) → typed cells.new b ≡ with_field (typed cells.old b) swap number value }
    ensures made { IsMade cells.old result cells.new }
    ensures flush { is_fence_act result ≡ false }
    ensures told { result ≡ Store (field_address swap number) value }
{
    cells.store_field(swap, number, value);
    Act::Store {
        a: field_at(swap, number),
        v: value,
    }
}

/// Loads a word of a descriptor, counted from the number of entries.
pub(crate) fn load_field(cells: &Cells, swap: u16, number: u8) -> (u64, Act)
    requires typed { IsStore cells.now }
    requires descriptor { swap < cells.now.swaps }
    requires number { number ≤ 12 }
    ensures found { result.0 ≡ descriptor_word_at cells.now.swaps cells.now.cached swap number }
    ensures made { IsMade cells.now result.1 cells.now }
    ensures flush { is_fence_act result.1 ≡ false }
    ensures writes { StaysOutside cells.now.swaps result.1 }
{
    let word = cells.load_field(swap, number);
    let act = Act::Load {
        a: field_at(swap, number),
        v: word,
    };
    (word, act)
}
