//! The words that metadata and block share.
ghost use Rattle.std.specs.Prelude.{◌≡◌, ◌≤◌, ◌<◌, map, replicate, All, IfSome, IfNone};
ghost use Rattle.bz_node.specs.Layout.{needed, shared_part};

use crate::record::Record;
use bz_layout::{META_AT, SHARED_WORDS};
use bz_word::{Extent, Meta};

/// How many words the records need, if so many can be had.
pub(crate) fn words_needed<R: Record>(records: &[R]) -> Option<u32>
    ensures none { IfNone result (SHARED_WORDS < needed (map R.entry records.now)) }
    ensures words { IfSome result (λ words. (words ≡ needed (map R.entry records.now)) × (words ≤ SHARED_WORDS)) }
    ensures valid { IfSome result (λ _. All R.valid records.now) }
{
    let mut words = 0;
    for record in records {
        words += 1 + record.sizes().words;
        if words > SHARED_WORDS {
            return None;
        }
    }
    Some(words)
}

/// Fills the shared words with the records: metadata words from the front, the block from the end.
pub(crate) fn put_records<R: Record>(records: &[R], shared: &mut [u64])
    requires free { shared.old ≡ replicate SHARED_WORDS 0 }
    requires fits { needed (map R.entry records.now) ≤ SHARED_WORDS }
    ensures { shared.new ≡ shared_part (map R.entry records.now) }
{
    let mut end = SHARED_WORDS as usize;
    for (i, record) in records.iter().enumerate() {
        let sizes = record.sizes();
        let start = end - sizes.words as usize;
        let extent = Extent {
            offset: META_AT + start as u32,
            key: sizes.key,
            total: sizes.total,
        };
        shared[i] = Meta::Visible(extent).pack();
        record.put(&mut shared[start..end]);
        end = start;
    }
}
