//! Openings over an image, such as a power cut leaves.
ghost use Rattle.std.specs.Prelude.{◌≡◌, ◌<◌, ◌^◌, IfOk, IfErr, OnOk, length, slice_index, None};
ghost use Rattle.std.specs.FinMap.{len};
ghost use Rattle.bz_content.specs.Content.{image_fault};
ghost use Rattle.bz_layout.specs.Addresses.{words_of};
ghost use Rattle.bz_layout.specs.Config.{IsConfig};
ghost use Rattle.bz_sound.specs.Memory.Moments.{map_at_start};
ghost use Rattle.bz_world.specs.Inside.Beginning.{world_view};
ghost use Rattle.bz_world.specs.Inside.Kept.{IsKept};
ghost use Rattle.bz_world.specs.WorldView.{IsBootFault, image_view};

use crate::answers::BootError;
use crate::open::parts_over;
use crate::parts::Parts;
use bz_content::CheckError;
use bz_judge::check;
use bz_layout::{Config, Slots};
use bz_mark::Power;
use bz_oom::Memory;
use std::alloc::Global;

// How many pairs an image holds that breaks no rule.
fn count_held(alloc: Global, config: &Config, image: &[u64]) -> Result<u64, Memory>
    requires config { IsConfig config.now }
    requires whole { length image.now ≡ words_of config.now }
    requires form { image_fault config.now (slice_index image.now) ≡ None }
    ensures counted { IfOk result (λ count. count ≡ len (map_at_start config.now image.now)) }
    ensures few { IfOk result (λ count. count < 2 ^ 63) }
{
    let held = bz_judge::pairs(alloc, image)?;
    Ok(held.len() as u64)
}

// The parts of a world over an image that breaks no rule.
fn image_parts(alloc: Global, config: &Config, image: &[u64]) -> Result<Parts, Memory>
    requires config { IsConfig config.now }
    requires whole { length image.now ≡ words_of config.now }
    requires form { image_fault config.now (slice_index image.now) ≡ None }
    ensures kept { IfOk result IsKept }
    ensures lab { IfOk result (λ parts. world_view parts ≡ image_view config.now image.now) }
{
    let count = count_held(alloc, config, image)?;
    let slots = Slots::open(alloc, config.nodes)?;
    let parts = parts_over(alloc, config, image, Power::Off, slots, count)?;
    Ok(parts)
}

/// A world over an image that breaks no rule, with its power off.
pub(crate) fn boot_parts(alloc: Global, config: &Config, image: &[u64]) -> Result<Parts, BootError>
    requires { IsConfig config.now → length image.now ≡ words_of config.now }
    ensures kept { IfOk result IsKept }
    ensures ok { IfOk result (λ parts. world_view parts ≡ image_view config.now image.now) }
    ensures config { OnOk result (IsConfig config.now) }
    ensures form { OnOk result (image_fault config.now (slice_index image.now) ≡ None) }
    ensures err { IfErr result (IsBootFault config.now image.now) }
{
    match config.check() {
        Ok(()) => {}
        Err(error) => return Err(BootError::Config(error)),
    }
    match check(alloc, image, config) {
        Ok(_) => {}
        Err(CheckError::Shape(fault)) => return Err(BootError::Shape(fault)),
        Err(CheckError::Memory) => return Err(BootError::Memory),
    }
    match image_parts(alloc, config, image) {
        Ok(parts) => Ok(parts),
        Err(Memory) => Err(BootError::Memory),
    }
}
