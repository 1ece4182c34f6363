//! Scripts: what the program is asked to do, and the one reader of their text.
#![tactic(auto)]

mod cut_plan;
mod draw;
mod fault;
mod forms;
mod item;
mod item_list;
pub mod laws;
mod number;
mod order;
mod power_forms;
mod read;
mod run_forms;
mod script;
mod turn_list;
mod words;

pub use cut_plan::CutPlan;
pub use draw::{EVICTED_FROM, next_draw};
pub use fault::{LineFault, ScriptFault, ScriptRule};
pub use item::{Item, Plan};
pub use item_list::ItemList;
pub use number::{number_to, read_number, read_worker};
pub use order::{LineKind, Standing, at_first, follow_kind, may_come};
pub use power_forms::{has_power_form, read_cut};
pub use read::{SCRIPT_BYTES, read_script, unended_rule};
pub use run_forms::{has_alone_form, read_list};
pub use script::Script;
pub use turn_list::{Turn, TurnList};
pub use words::{is_word, parts, word};
