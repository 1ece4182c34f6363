//! The layout of the memory: sizes, addresses, fresh memory, and which node slots are free.
#![tactic(auto)]

mod address_laws;
mod config;
mod error;
mod limits;
mod room_laws;
mod sizes;
mod slot_laws;
mod slots;
mod superblock;
mod swaps;
mod thresholds;

pub use address_laws::{
    addresses_are_placed, addresses_fit, descriptors_stand_apart, fresh_words_say, slots_apart,
};
pub use config::Config;
pub use error::ConfigError;
pub use limits::{
    MAX_CALLS, MAX_CAPACITY, MAX_MARKS, MAX_NODES, MAX_PAGES, MAX_SWAPS, MAX_WORKERS, MIN_CALLS,
    MIN_CAPACITY, MIN_MARKS, MIN_NODES, MIN_PAGES, MIN_SWAPS, MIN_WORKERS,
};
pub use room_laws::{
    delete_leaves_enough, descriptor_parts_follow, full_inner_is_above_limit,
    inner_splits_in_halves, inner_takes_separator, leaf_splits_in_halves, merged_leaf_takes_record,
    new_root_is_small, node_parts_follow, numbers_of_format, pairs_fit_page, records_are_bounded,
    records_lie_over_few_lines, settled_leaf_takes_record, shared_words_suffice,
    split_leaf_is_not_merged, supply_suffices,
};
pub use sizes::{
    BYTES_IN_WORD, ENTRIES_AT, ENTRY_WORDS, FENCE_WORDS, FIRST_ROOT, FORMAT, FORMAT_AT, HEADER_AT,
    HIGH_FENCE_AT, LINE_WORDS, LOW_FENCE_AT, MAX_ENTRIES, META_AT, NODE_LINES, NODE_WORDS,
    NODES_AT, ROOT_AT, ROOT_STATUS_AT, SHARED_WORDS, STATUS_AT, SUPERBLOCK_USED, SUPERBLOCK_WORDS,
    SWAP_COUNT_AT, SWAP_STATUS_AT, SWAP_WORDS, SWAPS_AT,
};
pub use slot_laws::taken_slots_are_gone;
pub use slots::Slots;
pub use superblock::fresh;
pub use swaps::{
    DELETE_SWAPS, FREEZE_SWAPS, INSERT_SWAPS, MERGE_SWAPS, RENEWAL_SWAPS, UPDATE_SWAPS,
};
pub use thresholds::{
    CONSOLIDATION_SLOTS, DESCEND_READS_AT_ROOT, DESCEND_READS_BESIDES, DESCEND_READS_PER_RECORD,
    FIND_READS_BESIDES, FIND_READS_PER_RECORD, INNER_LIMIT, INNER_RECORD_WORDS, LEAF_RECORD_WORDS,
    LEAST_RECORD_WORDS, MARKS_PER_CALL, MARKS_PER_POWER_ON, MAX_LEVELS, MAX_PAIRS, MERGE_BELOW,
    MERGE_SLOTS, PAYLOAD_WORDS, RECORD_LINES, RECORD_WORDS, RECOVERY_ACTS_PER_WORD, SLOTS_PER_CALL,
    SPLIT_ABOVE, SPLIT_SLOTS, SWAPS_PER_CALL,
};
