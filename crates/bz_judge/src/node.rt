//! One node of an image: its words, resolved, and the first rule that it breaks.
ghost use Rattle.std.specs.Prelude.{◌≡◌, ◌<◌, ◌+◌, ◌≤◌, ◌^◌, length, slice_index};
ghost use Rattle.bz_content.specs.Content.{view_in};
ghost use Rattle.bz_content.specs.Image.{node as node_in};
ghost use Rattle.bz_content.specs.Resolving.{resolve as resolve_in};
ghost use Rattle.bz_judge.specs.Inside.Nodes.{IsScanned, IsNodeOf};
ghost use Rattle.bz_layout.specs.declared.sizes.TheConstants.{NODE_WORDS as WORDS, STATUS_AT as STATUS, SHARED_WORDS as SHARED};
ghost use Rattle.bz_slotted.specs.Page.{page, meta_of, visible};
ghost use Rattle.bz_slotted.specs.ReadingLaws.{node_of};
ghost use Rattle.bz_slotted.specs.Readers.{level_of};
ghost use Rattle.bz_slotted.specs.Records.{records};

use crate::resolving::resolve;
use bz_layout::{Config, HEADER_AT, META_AT, NODE_WORDS, STATUS_AT};
use bz_node::NodeImage;
use bz_slotted::Place;
use bz_tree::ShapeRule;
use bz_word::{Meta, Status};

// What the word at a place of a slot stands for.
fn node_word(image: &[u64], config: &Config, slot: u32, i: u32) -> u64
    requires scanned { IsScanned config.now image.now }
    requires slot { slot < config.now.nodes }
    requires place { i < NODE_WORDS }
    ensures { result ≡ node_in config.now (resolve_in (slice_index image.now)) slot i }
{
    resolve(image, config.node_at(slot) + i)
}

/// The words of a slot, resolved.
pub(crate) fn node_of_slot(image: &[u64], config: &Config, slot: u32) -> NodeImage
    requires scanned { IsScanned config.now image.now }
    requires slot { slot < config.now.nodes }
    ensures node { IsNodeOf config.now image.now slot result.0 }
    ensures whole { length result.0 ≡ WORDS }
{
    let mut words = [0u64; NODE_WORDS as usize];
    for i in 0..NODE_WORDS {
        words[i as usize] = node_word(image, config, slot, i);
    }
    NodeImage(words)
}

/// The first rule that the node in a slot breaks which is to stand at a place.
pub(crate) fn fault_of_node(
    image: &[u64],
    config: &Config,
    slot: u32,
    node: &NodeImage,
    place: &Place,
) -> Option<ShapeRule>
    requires scanned { IsScanned config.now image.now }
    requires slot { slot < config.now.nodes }
    requires node { IsNodeOf config.now image.now slot node.now.0 }
    ensures { result ≡ (view_in config.now (slice_index image.now)).fault slot place.now.level place.now.low place.now.high }
{
    let start = config.node_at(slot) as usize;
    bz_slotted::node_fault(
        &image[start..start + NODE_WORDS as usize],
        &node.0,
        config.nodes,
        place,
    )
}

/// The field of the level in a header has 8 bits.
const LEVELS: u64 = 256;

/// The level that the header of a slot names.
pub(crate) fn level_of_node(image: &[u64], config: &Config, slot: u32) -> u32
    requires scanned { IsScanned config.now image.now }
    requires slot { slot < config.now.nodes }
    ensures level { result ≡ level_of (node_in config.now (resolve_in (slice_index image.now)) slot) }
    ensures small { result < 2 ^ 8 }
{
    (node_word(image, config, slot, HEADER_AT) % LEVELS) as u32
}

// Whether readers see the record that a metadata word is of.
#[tactic(auto, unfolding(bz_slotted::specs::Page::visible))]
fn is_shown(meta: Meta) -> bool
    ensures { result ≡ visible meta }
{
    match meta {
        Meta::Visible(_) => true,
        Meta::Unused => false,
        Meta::Reserved(_) => false,
        Meta::Deleted { .. } => false,
    }
}

// Whether a metadata word is that of a visible record.
fn is_visible(word: u64) -> bool
    ensures { result ≡ visible (meta_of word) }
{
    match Meta::unpack(word) {
        Some(meta) => is_shown(meta),
        None => false,
    }
}

// How many records a node has, whatever became of them.
fn count_of(node: &NodeImage) -> u32
    requires { node_of node.now.0 STATUS < 2 ^ 61 }
    ensures { result ≡ (page (node_of node.now.0)).count }
{
    match Status::unpack(node.0[STATUS_AT as usize]) {
        Some(status) => status.count,
        None => unreachable!(),
    }
}

/// Whether a node is frozen.
pub(crate) fn is_frozen(node: &NodeImage) -> bool
    requires { node_of node.now.0 STATUS < 2 ^ 61 }
    ensures { result ≡ (page (node_of node.now.0)).frozen }
{
    match Status::unpack(node.0[STATUS_AT as usize]) {
        Some(status) => status.frozen,
        None => unreachable!(),
    }
}

/// How many records of a leaf are visible.
pub(crate) fn visible_count(node: &NodeImage) -> u32
    requires status { node_of node.now.0 STATUS < 2 ^ 61 }
    requires room { (page (node_of node.now.0)).count ≤ SHARED }
    ensures count { result ≡ length (records (page (node_of node.now.0))) }
    ensures few { result ≤ SHARED }
{
    let mut count = 0;
    for j in 0..count_of(node) {
        if is_visible(node.0[(META_AT + j) as usize]) {
            count += 1;
        }
    }
    count
}
