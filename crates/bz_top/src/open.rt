//! The world in which a script runs.
ghost use Rattle.std.specs.Prelude.{◌≡◌, IfOk};
ghost use Rattle.bz_judge.specs.Held.{IsImageOf};
ghost use Rattle.bz_layout.specs.Config.{IsConfig};
ghost use Rattle.bz_layout.specs.Fresh.{fresh_words};
ghost use Rattle.bz_sched.specs.FromWorld.WorldView.{view_over, new_view, image_view};
ghost use Rattle.bz_sched.specs.Sums.{IsStockedAtFirst};
ghost use Rattle.bz_top.specs.Bases.{IsBaseOf, numbers_over, power_over, words_over};

use bz_content::laws::fresh_memory_is_empty;
use bz_image::Image;
use bz_layout::Config;
use bz_oom::Memory;
use bz_sched::{BootError, OpenError, World};
use std::alloc::Global;

/// The numbers that the first line of a script has to say, where it runs over an image.
pub(crate) fn numbers_of(base: &Option<Image>) -> Option<(u32, u32)>
    ensures { result ≡ numbers_over base.now }
{
    match base {
        None => None,
        Some(image) => Some((image.nodes, image.swaps)),
    }
}

// The journal of a world over fresh memory goes on from a well-formed image. The call does nothing.
fn starts_with_an_image(world: &World)
    requires { world.now.log.start ≡ fresh_words world.now.config }
    ensures { IsImageOf world.now.config world.now.log.start }
{
    fresh_memory_is_empty();
    let _config = world.config();
    let _journal = world.journal();
}

// A world over fresh memory.
fn open_fresh(alloc: Global, config: &Config) -> Result<World, Memory>
    requires { IsConfig config.now }
    ensures made { IfOk result (λ world. world ≡ new_view config.now) }
    ensures stocked { IfOk result IsStockedAtFirst }
    ensures image { IfOk result (λ world. IsImageOf world.config world.log.start) }
{
    match World::open(alloc, config) {
        Ok(world) => {
            starts_with_an_image(&world);
            Ok(world)
        }
        Err(OpenError::Memory) => Err(Memory),
        Err(OpenError::Config(_)) => unreachable!(),
    }
}

// A world over an image that breaks no rule.
fn boot_image(alloc: Global, config: &Config, image: &[u64]) -> Result<World, Memory>
    requires { IsImageOf config.now image.now }
    ensures made { IfOk result (λ world. world ≡ image_view config.now image.now) }
    ensures stocked { IfOk result IsStockedAtFirst }
{
    match World::boot(alloc, config, image) {
        Ok(world) => Ok(world),
        Err(BootError::Memory) => Err(Memory),
        Err(BootError::Config(_)) => unreachable!(),
        Err(BootError::Shape(_)) => unreachable!(),
    }
}

/// The world in which a script runs: over fresh memory, or over an image, which is let go.
pub(crate) fn open_world(
    alloc: Global,
    config: &Config,
    base: Option<Image>,
) -> Result<World, Memory>
    requires config { IsConfig config.now }
    requires base { IsBaseOf config.now base }
    ensures made { IfOk result (λ world. world ≡ view_over config.now (words_over config.now base) (power_over base)) }
    ensures stocked { IfOk result IsStockedAtFirst }
    ensures image { IfOk result (λ world. IsImageOf world.config world.log.start) }
{
    match base {
        None => open_fresh(alloc, config),
        Some(image) => boot_image(alloc, config, image.words.words()),
    }
}
