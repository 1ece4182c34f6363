//! The text of a line.
ghost use Rattle.std.specs.Prelude.{◌≡◌, IfOk, false};
ghost use Rattle.serde_json.specs.Written.{compact_text, has_float};
ghost use Rattle.serde_json.specs.View.{view};
ghost use Rattle.bz_lines.specs.Lines.{head_line, line_of};

use crate::head_line::head_object;
use crate::mark_lines::mark_object;
use bz_layout::Config;
use bz_mark::{Journal, Mark};
use bz_oom::Memory;
use serde_json::Value;
use std::alloc::Global;

/// The text of an object with no fraction in it.
fn plain_text(alloc: Global, object: &Value) -> Result<Vec<u8>, Memory>
    requires { has_float (view object.now) ≡ false }
    ensures { IfOk result (λ text. text.items ≡ compact_text (view object.now)) }
{
    Ok(object.to_vec(alloc)?)
}

/// The first line, without its line feed.
pub fn head_text(alloc: Global, config: &Config, start: &[u64]) -> Result<Vec<u8>, Memory>
    ensures { IfOk result (λ line. line.items ≡ head_line config.now start.now) }
{
    let object = head_object(alloc, config, start)?;
    plain_text(alloc, &object)
}

/// The line of a mark, without its line feed.
pub fn mark_text(alloc: Global, journal: &Journal, mark: Mark) -> Result<Vec<u8>, Memory>
    ensures { IfOk result (λ line. line.items ≡ line_of journal.now.pages mark) }
{
    let object = mark_object(alloc, journal, mark)?;
    plain_text(alloc, &object)
}
