//! Marks as the journal keeps them: their calls and replies stand in tables beside them.
ghost use Rattle.std.specs.Prelude.{◌≡◌, length};
ghost use Rattle.bz_mark.specs.Tables.{whole, IsPlaced};

use crate::marks::Mark;
use bz_call::{Call, Reply};

/// A mark of at most 40 bytes. `place` is a place in the table of calls or of replies.
#[derive(Clone, Copy)]
pub enum CompactMark {
    Begin {
        w: u8,
        n: u32,
        place: u32,
    },
    End {
        w: u8,
        n: u32,
        place: u32,
        at: u32,
    },
    Load {
        w: u8,
        a: u32,
        v: u64,
    },
    Store {
        w: u8,
        a: u32,
        v: u64,
    },
    Cas {
        w: u8,
        a: u32,
        old: u64,
        new: u64,
        found: u64,
    },
    Ask {
        w: u8,
        line: u32,
    },
    Fence {
        w: u8,
    },
    Evict {
        a: u32,
    },
    Cut,
    On,
    Ready,
    Effect {
        w: u8,
        n: u32,
    },
}

const _: () = prove!(size_of::<CompactMark>() <= 40);

/// The mark that a compact one stands for.
pub fn whole_mark(calls: &[Call], replies: &[Reply], mark: CompactMark) -> Mark
    requires { IsPlaced (length calls.now) (length replies.now) mark }
    ensures { result ≡ whole calls.now replies.now mark }
{
    match mark {
        CompactMark::Begin { w, n, place } => Mark::Begin {
            w,
            n,
            call: calls[place as usize],
        },
        CompactMark::End { w, n, place, at } => Mark::End {
            w,
            n,
            reply: replies[place as usize],
            at,
        },
        CompactMark::Load { w, a, v } => Mark::Load { w, a, v },
        CompactMark::Store { w, a, v } => Mark::Store { w, a, v },
        CompactMark::Cas {
            w,
            a,
            old,
            new,
            found,
        } => Mark::Cas {
            w,
            a,
            old,
            new,
            found,
        },
        CompactMark::Ask { w, line } => Mark::Ask { w, line },
        CompactMark::Fence { w } => Mark::Fence { w },
        CompactMark::Evict { a } => Mark::Evict { a },
        CompactMark::Cut => Mark::Cut,
        CompactMark::On => Mark::On,
        CompactMark::Ready => Mark::Ready,
        CompactMark::Effect { w, n } => Mark::Effect { w, n },
    }
}
