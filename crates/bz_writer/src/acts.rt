//! The store of one of the words of fresh nodes, and the flush of one of their lines, counted through.

ghost use Rattle.std.specs.Prelude.{◌≡◌, ◌+◌, ◌*◌, ◌/◌, ◌%◌, ◌<◌, ℕ, List, slice_index};
ghost use Rattle.bz_layout.specs.Config.{IsConfig};
ghost use Rattle.bz_layout.specs.declared.sizes.TheConstants.{NODE_LINES};
ghost use Rattle.bz_layout.specs.declared.thresholds.TheConstants.{SPLIT_SLOTS};
ghost use Rattle.bz_renew.specs.Nodes.{word_address, line_number};
ghost use Rattle.bz_task.specs.declared.todo.Todo.TheVariants.{Store as Stores_at, Flush as Flushes_line};

use bz_layout::{Config, LINE_WORDS, NODE_WORDS};
use bz_task::Todo;

const NODE_LINES: u32 = NODE_WORDS / LINE_WORDS;

/// The store of one of their words, of this value.
pub fn store_at(config: &Config, slots: &[u16; 3], j: u32, word: u64) -> Todo
    requires config { IsConfig config.now }
    requires within { j < NODE_WORDS * SPLIT_SLOTS }
    requires slot { slice_index slots.now (j / NODE_WORDS) < config.now.nodes }
    ensures { (count : ℕ) (image : ℕ → List ℕ) → result ≡ Stores_at (word_address config.now (record { count = count; slot = slice_index slots.now; image = image }) j) word }
{
    let slot = slots[(j / NODE_WORDS) as usize] as u32;
    Todo::Store(config.node_at(slot) + j % NODE_WORDS, word)
}

/// The flush of one of their lines.
pub fn flush_at(config: &Config, slots: &[u16; 3], j: u32) -> Todo
    requires config { IsConfig config.now }
    requires within { j < NODE_LINES * SPLIT_SLOTS }
    requires slot { slice_index slots.now (j / NODE_LINES) < config.now.nodes }
    ensures { (count : ℕ) (image : ℕ → List ℕ) → result ≡ Flushes_line (line_number config.now (record { count = count; slot = slice_index slots.now; image = image }) j) }
{
    let slot = slots[(j / NODE_LINES) as usize] as u32;
    Todo::Flush(config.node_at(slot) / LINE_WORDS + j % NODE_LINES)
}
