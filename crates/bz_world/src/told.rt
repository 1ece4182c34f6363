//! What a world tells of descriptors and slots, and what its journal shows of them.
ghost use Rattle.std.specs.Prelude.{◌≡◌, IfOk, IfErr, OnOk, length, slice_index, None};
ghost use Rattle.bz_content.specs.Content.{image_fault};
ghost use Rattle.bz_layout.specs.Addresses.{words_of};
ghost use Rattle.bz_layout.specs.Config.{IsConfig};
ghost use Rattle.bz_world.specs.Inside.Beginning.{world_view};
ghost use Rattle.bz_world.specs.Inside.Kept.{IsKept};
ghost use Rattle.bz_world.specs.Inside.Told.{IsWorld};
ghost use Rattle.bz_world.specs.Taken.{TellsAsShown};
ghost use Rattle.bz_world.specs.WorldView.{IsOpenFault, IsBootFault, new_view, image_view, begin_answer, after_begin, IsApplied};

use crate::answers::{Applied, Begun, BootError, Event, OpenError};
use crate::begin::begin;
use crate::boot::boot_parts;
use crate::open::open_parts;
use crate::parts::Parts;
use crate::power::{cut, power_on};
use crate::step::{evict, step};
use bz_call::Call;
use bz_layout::Config;
use std::alloc::Global;

/// The journal shows what is taken and left, while no call is open.
pub(crate) fn supply_is_shown(parts: &Parts)
    requires { IsKept parts.now }
    ensures { TellsAsShown (world_view parts.now) }
{
    // (free slots rise)
    let _ = parts.slots.left();
}

/// The parts of a world over fresh memory.
pub(crate) fn open_world(alloc: Global, config: &Config) -> Result<Parts, OpenError>
    ensures ok { IfOk result (λ parts. world_view parts ≡ new_view config.now) }
    ensures kept { IfOk result IsWorld }
    ensures err { IfErr result (IsOpenFault config.now) }
{
    let parts = open_parts(alloc, config)?;
    Ok(parts)
}

/// Those of a world over an image.
pub(crate) fn boot_world(alloc: Global, config: &Config, image: &[u64]) -> Result<Parts, BootError>
    requires { IsConfig config.now → length image.now ≡ words_of config.now }
    ensures kept { IfOk result IsWorld }
    ensures ok { IfOk result (λ parts. world_view parts ≡ image_view config.now image.now) }
    ensures config { OnOk result (IsConfig config.now) }
    ensures form { OnOk result (image_fault config.now (slice_index image.now) ≡ None) }
    ensures err { IfErr result (IsBootFault config.now image.now) }
{
    let parts = boot_parts(alloc, config, image)?;
    Ok(parts)
}

/// Begins a call of a worker.
pub(crate) fn begin_call(parts: &mut Parts, w: u8, call: Call) -> Begun
    requires { IsWorld parts.old }
    ensures kept { IsWorld parts.new }
    ensures answer { result ≡ begin_answer (world_view parts.old) w call }
    ensures after { world_view parts.new ≡ after_begin (world_view parts.old) w call result }
{
    supply_is_shown(parts);
    begin(parts, w, call)
}

// What comes of an event.
fn happen(parts: &mut Parts, event: Event) -> Applied
    requires { IsKept parts.old }
    ensures kept { IsKept parts.new }
    ensures applied { IsApplied (world_view parts.old) event result (world_view parts.new) }
{
    match event {
        Event::Step(w) => step(parts, w),
        Event::Evict(a) => evict(parts, a),
        Event::Cut => cut(parts),
        Event::On => power_on(parts),
    }
}

/// Makes an event happen.
pub(crate) fn apply_event(parts: &mut Parts, event: Event) -> Applied
    requires { IsWorld parts.old }
    ensures kept { IsWorld parts.new }
    ensures applied { IsApplied (world_view parts.old) event result (world_view parts.new) }
{
    let applied = happen(parts, event);
    supply_is_shown(parts);
    applied
}
