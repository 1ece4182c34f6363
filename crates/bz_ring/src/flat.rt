//! Marks as the journal keeps them: what happened to the memory stands beside the calls, and no mark inside another.
ghost use Rattle.std.specs.Prelude.{◌≡◌};
ghost use Rattle.bz_ring.specs.Journal.{IsMark, IsOfMemory};
ghost use Rattle.bz_ring.specs.Kept.{whole};
ghost use Rattle.bz_ring.specs.declared.marks.QMark.TheVariants.{Memory};

use crate::calls::{QCall, QReply};
use crate::marks::QMark;
use bz_mark::Mark;

/// A mark of at most 40 bytes.
#[derive(Clone, Copy)]
pub enum FlatMark {
    Begin {
        w: u8,
        n: u32,
        call: QCall,
    },
    End {
        w: u8,
        n: u32,
        reply: QReply,
        at: u32,
    },
    Effect {
        w: u8,
        n: u32,
    },
    Load {
        w: u8,
        a: u32,
        v: u64,
    },
    Store {
        w: u8,
        a: u32,
        v: u64,
    },
    Cas {
        w: u8,
        a: u32,
        old: u64,
        new: u64,
        found: u64,
    },
    Ask {
        w: u8,
        line: u32,
    },
    Fence {
        w: u8,
    },
    Evict {
        a: u32,
    },
    Cut,
    On,
    Ready,
}

const _: () = prove!(size_of::<FlatMark>() <= 40);

/// The mark that a flat one stands for.
pub fn whole_mark(mark: FlatMark) -> QMark
    ensures { result ≡ whole mark }
{
    match mark {
        FlatMark::Begin { w, n, call } => QMark::Begin { w, n, call },
        FlatMark::End { w, n, reply, at } => QMark::End { w, n, reply, at },
        FlatMark::Effect { w, n } => QMark::Effect { w, n },
        FlatMark::Load { w, a, v } => QMark::Memory(Mark::Load { w, a, v }),
        FlatMark::Store { w, a, v } => QMark::Memory(Mark::Store { w, a, v }),
        FlatMark::Cas {
            w,
            a,
            old,
            new,
            found,
        } => QMark::Memory(Mark::Cas {
            w,
            a,
            old,
            new,
            found,
        }),
        FlatMark::Ask { w, line } => QMark::Memory(Mark::Ask { w, line }),
        FlatMark::Fence { w } => QMark::Memory(Mark::Fence { w }),
        FlatMark::Evict { a } => QMark::Memory(Mark::Evict { a }),
        FlatMark::Cut => QMark::Memory(Mark::Cut),
        FlatMark::On => QMark::Memory(Mark::On),
        FlatMark::Ready => QMark::Memory(Mark::Ready),
    }
}

/// The flat mark that stands for what happened to the memory.
fn flat_memory(mark: Mark) -> FlatMark
    requires { IsOfMemory mark }
    ensures { whole result ≡ Memory mark }
{
    match mark {
        Mark::Load { w, a, v } => FlatMark::Load { w, a, v },
        Mark::Store { w, a, v } => FlatMark::Store { w, a, v },
        Mark::Cas {
            w,
            a,
            old,
            new,
            found,
        } => FlatMark::Cas {
            w,
            a,
            old,
            new,
            found,
        },
        Mark::Ask { w, line } => FlatMark::Ask { w, line },
        Mark::Fence { w } => FlatMark::Fence { w },
        Mark::Evict { a } => FlatMark::Evict { a },
        Mark::Cut => FlatMark::Cut,
        Mark::On => FlatMark::On,
        Mark::Ready => FlatMark::Ready,
        Mark::Begin { .. } | Mark::End { .. } | Mark::Effect { .. } => unreachable!(),
    }
}

/// The flat mark that stands for a mark.
pub fn flat_mark(mark: QMark) -> FlatMark
    requires { IsMark mark }
    ensures { whole result ≡ mark }
{
    match mark {
        QMark::Begin { w, n, call } => FlatMark::Begin { w, n, call },
        QMark::End { w, n, reply, at } => FlatMark::End { w, n, reply, at },
        QMark::Effect { w, n } => FlatMark::Effect { w, n },
        QMark::Memory(memory) => flat_memory(memory),
    }
}
