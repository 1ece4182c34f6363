//! The page of a leaf.

ghost use Rattle.std.specs.Prelude.{◌≡◌, ℕ, List, Option, None, length};
ghost use Rattle.bz_slotted.specs.FromLayout.TheConstants.{NODE_WORDS};
ghost use Rattle.bz_slotted.specs.Page.{page as page_of};
ghost use Rattle.bz_slotted.specs.ReadingLaws.{node_of};
ghost use Rattle.bz_slotted.specs.Readers.{live_of};
ghost use Rattle.bz_slotted.specs.Records.{records as records_of};
ghost use Rattle.bz_slotted.specs.Rules.{node_fault};
ghost use Rattle.bz_task.specs.Good.{IsGood};
ghost use Rattle.bz_task.specs.Outcomes.{IsView};
ghost use Rattle.bz_task.specs.Scene.{Past};
ghost use Rattle.bz_page.specs.Pages.{IsLeafByItself, AreRecordsFrom, IsPageOf};

use bz_key::{Key, PageBuf};
use bz_slotted::NodeImage;
use bz_task::{LeafView, laws};

// An image has all the words of a node. Does nothing.
fn is_whole(image: &NodeImage)
    ensures { length image.now.0 ≡ NODE_WORDS }
{
    let _words = image.0;
}

/// Fills `out` with the pairs of a leaf from a key on, in the order of their keys and in place of what it held, and
/// answers the leaf's high fence: the key with which the next page begins, or none where no page comes next.
#[tactic(auto, using(bz_slotted::proofs::Proved::high_fences_are_read, bz_slotted::proofs::Proved::whole_leaves_are_readable))]
pub fn collect(view: &LeafView, from: &Key, out: &mut PageBuf) -> Option<Key>
    requires { IsLeafByItself view.now.image.0 }
    ensures records { AreRecordsFrom from.now (records_of (page_of (node_of view.now.image.0))) out.new }
    ensures high { (nodes : ℕ) (low high : Option (List ℕ)) → node_fault nodes (node_of view.now.image.0) (node_of view.now.image.0) 0 low high ≡ None → result ≡ high }
    // Where the view is one of this key, the page is that of the image at the view's moment.
    ensures page { (p : Past) → IsView from.now view.now p → IsGood p.config (p.at view.now.at) → IsPageOf p.config (p.at view.now.at).image from.now out.new result }
{
    is_whole(&view.image);
    bz_task::content_laws::well_formed_images_have_no_fault();
    view.image.records(out);
    out.drop_before(from);
    view.image.high()
}

/// The words of a leaf's visible records, with their metadata words.
pub fn live_words(view: &LeafView) -> u32
    requires { IsLeafByItself view.now.image.0 }
    ensures { result ≡ live_of (node_of view.now.image.0) }
{
    is_whole(&view.image);
    bz_slotted::laws::whole_leaves_are_readable();
    view.image.live_words()
}
