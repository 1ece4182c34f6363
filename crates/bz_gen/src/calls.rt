//! The calls of a workload.
ghost use Rattle.std.specs.Prelude.{◌≡◌, ◌<◌, ◌≤◌};
ghost use Rattle.bz_gen.specs.Workload.{call_of_kind, item_drawn};

use crate::draws::Draws;
use crate::names::{key_of, payload_of};
use crate::workload::MOST_CALLS;
use bz_call::Call;
use bz_key::{Key, Payload};
use bz_layout::MAX_WORKERS;
use bz_script::Item;

// The call of one of the eight kinds.
fn call_of(kind: u32, key: Key, payload: Payload) -> Call
    requires { kind < 8 }
    ensures { result ≡ call_of_kind kind key payload }
{
    match kind {
        0 | 1 | 2 => Call::Insert(key, payload),
        3 => Call::Delete(key),
        4 => Call::Update(key, payload),
        5 => Call::Upsert(key, payload),
        6 => Call::Get(key),
        _ => Call::Page(key),
    }
}

/// The item of a call, by what was drawn for it.
#[tactic(auto, unfolding(crate::specs::Workload::item_drawn))]
pub(crate) fn item_of(calls: u32, workers: u32, number: u32, draws: Draws) -> Item
    requires calls { 0 < calls }
    requires most_calls { calls ≤ MOST_CALLS }
    requires workers { 0 < workers }
    requires most_workers { workers ≤ MAX_WORKERS }
    requires within { number ≤ calls }
    ensures { result ≡ item_drawn calls workers number draws }
{
    let worker = 1 + draws.worker % workers;
    let key = key_of(draws.key % (2 * calls));
    let payload = payload_of(number);
    Item::Queue(worker as u8, call_of(draws.kind % 8, key, payload))
}
