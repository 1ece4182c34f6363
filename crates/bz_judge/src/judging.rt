//! The check of an image.
ghost use Rattle.std.specs.Prelude.{◌≡◌, length, slice_index, IfOk, IfErr};
ghost use Rattle.bz_judge.specs.Judgement.{IsShapeOf, IsFirstFault};
ghost use Rattle.bz_layout.specs.Addresses.{words_of};
ghost use Rattle.bz_layout.specs.Config.{IsConfig};

use crate::scan::{first_unlawful, is_super};
use crate::walk::walk_tree;
use bz_content::{CheckError, Shape};
use bz_layout::Config;
use bz_tree::{ShapeFault, ShapeRule};
use std::alloc::Global;

/// The shape of an image, or the first rule that it breaks. The order of the rules is that of `ShapeRule`, and
/// nodes are looked at from the root, a node before its children.
pub fn check(alloc: Global, image: &[u64], config: &Config) -> Result<Shape, CheckError>
    requires config { IsConfig config.now }
    requires whole { length image.now ≡ words_of config.now }
    ensures shape { IfOk result (IsShapeOf config.now (slice_index image.now)) }
    ensures fault { IfErr result (IsFirstFault config.now (slice_index image.now)) }
{
    if !is_super(image, config) {
        return Err(CheckError::Shape(ShapeFault {
            rule: ShapeRule::Super,
            place: 0,
        }));
    }
    if let Some(place) = first_unlawful(image, config) {
        return Err(CheckError::Shape(ShapeFault {
            rule: ShapeRule::Word,
            place,
        }));
    }
    walk_tree(alloc, image, config)
}
