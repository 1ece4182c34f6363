//! A node made whole from its records.
ghost use Rattle.std.specs.Prelude.{◌≡◌, ◌≤◌, ◌<◌, ◌^◌, ◌∷◌, ◌++◌, false, length, map, replicate, All, IsSome, IfSome, ◌↔◌};
ghost use Rattle.bz_node.specs.Layout.{needed as needed_of, bound_of, fence_words, node_words};
ghost use Rattle.bz_node.specs.Records.{IsBound};
ghost use Rattle.bz_word.specs.Statuses.{status_word};
ghost use Rattle.bz_word.specs.Headers.{header_word};

use crate::image::NodeImage;
use crate::record::Record;
use crate::shared::{put_records, words_needed};
use crate::writing::{bound_bytes, put_fence};
use bz_key::Key;
use bz_layout::{
    HEADER_AT, HIGH_FENCE_AT, LOW_FENCE_AT, META_AT, NODE_WORDS, SHARED_WORDS, STATUS_AT,
};
use bz_word::{Header, Status};

// Fills the words before the metadata.
fn put_front(out: &mut [u64], status: u64, header: u64, low: &Option<Key>, high: &Option<Key>)
    requires { out.old ≡ replicate META_AT 0 }
    ensures { out.new ≡ status ∷ header ∷ (fence_words low.now ++ fence_words high.now) }
{
    out[STATUS_AT as usize] = status;
    out[HEADER_AT as usize] = header;
    put_fence(low, &mut out[LOW_FENCE_AT as usize..HIGH_FENCE_AT as usize]);
    put_fence(high, &mut out[HIGH_FENCE_AT as usize..META_AT as usize]);
}

// The status word of a node made whole.
fn status_of(count: u32, block: u32) -> u64
    requires count { count < 2 ^ 8 }
    requires block { block < 2 ^ 10 }
    ensures { result ≡ status_word (record { frozen = false; count = count; block = block; dead = 0; stamp = 0 }) }
{
    let status = Status {
        frozen: false,
        count,
        block,
        dead: 0,
        stamp: 0,
    };
    status.pack()
}

// The header word of a node made whole.
fn header_of(level: u32, low: &Option<Key>, high: &Option<Key>, count: u32) -> u64
    requires level { level < 2 ^ 8 }
    requires count { count < 2 ^ 8 }
    ensures word { result ≡ header_word (record { level = level; low = length (bound_of low.now); high = length (bound_of high.now); sorted = count }) }
    ensures low { IsBound low.now }
    ensures high { IsBound high.now }
{
    let header = Header {
        level,
        low: bound_bytes(low),
        high: bound_bytes(high),
        sorted: count,
    };
    header.pack()
}

// Fills the words of a node, of which so many are needed for the records.
fn put_node<R: Record>(
    out: &mut [u64],
    records: &[R],
    needed: u32,
    low: &Option<Key>,
    high: &Option<Key>,
    level: u32,
)
    requires free { out.old ≡ replicate NODE_WORDS 0 }
    requires count { needed ≡ needed_of (map R.entry records.now) }
    requires fits { needed ≤ SHARED_WORDS }
    requires level { level < 2 ^ 8 }
    ensures words { out.new ≡ node_words level low.now high.now (map R.entry records.now) }
    ensures low { IsBound low.now }
    ensures high { IsBound high.now }
{
    let count = records.len() as u32;
    let status = status_of(count, needed - count);
    let header = header_of(level, low, high, count);
    put_front(&mut out[..META_AT as usize], status, header, low, high);
    put_records(records, &mut out[META_AT as usize..]);
}

/// The node of these records, if it has room for them.
pub(crate) fn node_of<R: Record>(
    records: &[R],
    low: Option<Key>,
    high: Option<Key>,
    level: u32,
) -> Option<NodeImage>
    requires { level < 2 ^ 8 }
    ensures fits { IsSome result ↔ (needed_of (map R.entry records.now) ≤ SHARED_WORDS) }
    ensures words { IfSome result (λ image. image.0 ≡ node_words level low high (map R.entry records.now)) }
    ensures valid { IfSome result (λ _. All R.valid records.now × IsBound low × IsBound high) }
{
    let needed = words_needed(records)?;
    let mut words = [0; NODE_WORDS as usize];
    put_node(&mut words, records, needed, &low, &high, level);
    Some(NodeImage(words))
}
