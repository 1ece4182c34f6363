//! Images judged by the two rules of shape and of content.
ghost use Rattle.std.specs.Prelude.{◌≡◌, ◌↔◌, IfOk, IsTrue, None, length, slice_index};
ghost use Rattle.bz_content.specs.Content.{image_fault};
ghost use Rattle.bz_layout.specs.Addresses.{words_of};
ghost use Rattle.bz_layout.specs.Config.{IsConfig};
ghost use Rattle.bz_verdict.specs.Images.{TellsImage, TellsMoment};

use crate::maps::{is_same, map_held};
use bz_check::{JudgeRule, Pass};
use bz_content::CheckError;
use bz_judge::check;
use bz_key::{Key, Payload};
use bz_layout::Config;
use bz_oom::Memory;
use std::alloc::Global;
use std::collections::BTreeMap;

/// Whether an image is well formed.
pub(crate) fn is_well_formed(alloc: Global, config: &Config, image: &[u64]) -> Result<bool, Memory>
    requires config { IsConfig config.now }
    requires whole { length image.now ≡ words_of config.now }
    ensures { IfOk result (λ yes. IsTrue yes ↔ (image_fault config.now (slice_index image.now) ≡ None)) }
{
    match check(alloc, image, config) {
        Ok(_) => Ok(true),
        Err(CheckError::Shape(_)) => Ok(false),
        Err(CheckError::Memory) => Err(Memory),
    }
}

/// The first of the two rules of images that an image breaks beside a map, if it breaks one.
fn image_rule(
    alloc: Global,
    config: &Config,
    image: &[u64],
    map: &BTreeMap<Key, Payload>,
) -> Result<Option<JudgeRule>, Memory>
    requires config { IsConfig config.now }
    requires whole { length image.now ≡ words_of config.now }
    ensures { IfOk result (λ told. TellsImage config.now (slice_index image.now) map.now.entries told) }
{
    let good = is_well_formed(alloc, config, image)?;
    if !good {
        return Ok(Some(JudgeRule::Shape));
    }
    let held = map_held(alloc, image)?;
    if is_same(&held, map) {
        Ok(None)
    } else {
        Ok(Some(JudgeRule::Content))
    }
}

/// The first rule that is broken at a moment, if one is and the moment is no inner one: what the marks broke, or else the image, which is
/// looked at where it may have changed.
pub(crate) fn moment_rule(
    alloc: Global,
    config: &Config,
    pass: &Pass,
    inner: bool,
    broken: Option<JudgeRule>,
    stale: bool,
) -> Result<Option<JudgeRule>, Memory>
    requires config { IsConfig config.now }
    requires whole { length pass.now.words.durable ≡ words_of config.now }
    ensures { IfOk result (λ told. TellsMoment config.now (slice_index pass.now.words.durable) pass.now.pairs inner broken stale told) }
{
    if inner {
        return Ok(None);
    }
    if let Some(rule) = broken {
        return Ok(Some(rule));
    }
    if !stale {
        return Ok(None);
    }
    image_rule(alloc, config, pass.durable(), pass.map())
}
