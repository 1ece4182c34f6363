//! The rules that are asked of all words before the tree: the superblock's, and that each word is lawful.
ghost use Rattle.std.specs.Prelude.{◌≡◌, ◌==◌, ◌-◌, ◌+◌, ◌<◌, ◌≤◌, ◌^◌, length, slice_index, true};
ghost use Rattle.bz_content.specs.Content.{is_super as super_test};
ghost use Rattle.bz_content.specs.Lawful.{first_unlawful as unlawful_from};
ghost use Rattle.bz_layout.specs.Addresses.{words_of};
ghost use Rattle.bz_layout.specs.Config.{IsConfig};
ghost use Rattle.bz_layout.specs.declared.sizes.TheConstants.{SUPERBLOCK_WORDS as SUPERBLOCK, SUPERBLOCK_USED as USED};
ghost use Rattle.bz_slotted.specs.Tests.{every};

use crate::lawful::is_lawful;
use crate::words::word;
use bz_layout::{Config, FORMAT, FORMAT_AT, NODES_AT, SUPERBLOCK_USED, SUPERBLOCK_WORDS, SWAPS_AT};

// Whether the words of the superblock that are not used are 0.
fn rest_is_blank(image: &[u64]) -> bool
    ensures { result ≡ every (SUPERBLOCK - USED) (λ i. slice_index image.now (USED + i) == 0) }
{
    for i in 0..SUPERBLOCK_WORDS - SUPERBLOCK_USED {
        if word(image, SUPERBLOCK_USED + i) != 0 {
            return false;
        }
    }
    true
}

/// Whether the superblock has the format and the two sizes, and nothing else besides the root.
#[tactic(auto, unfolding(bz_content::specs::Content::is_super))]
pub(crate) fn is_super(image: &[u64], config: &Config) -> bool
    ensures { result ≡ super_test config.now (slice_index image.now) }
{
    if word(image, FORMAT_AT) != FORMAT {
        return false;
    }
    if word(image, NODES_AT) != u64::from(config.nodes) {
        return false;
    }
    if word(image, SWAPS_AT) != u64::from(config.swaps) {
        return false;
    }
    rest_is_blank(image)
}

/// The first address whose word is unlawful.
pub(crate) fn first_unlawful(image: &[u64], config: &Config) -> Option<u32>
    requires { IsConfig config.now }
    ensures { result ≡ unlawful_from config.now (slice_index image.now) 0 (words_of config.now) }
{
    for a in 0..config.words() {
        if !is_lawful(image, config, a) {
            return Some(a);
        }
    }
    None
}
