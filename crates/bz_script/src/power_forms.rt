//! The forms of a line that cuts the power, or turns it on.
ghost use Rattle.std.specs.Prelude.{◌≡◌};
ghost use Rattle.bz_script.specs.PowerForms.{cut_of, is_power};
ghost use Rattle.bz_script.specs.Words.{texts_of};

use crate::cut_plan::CutPlan;
use crate::fault::ScriptRule;
use crate::number::{number_to, read_number};
use crate::words::word;

const MOST_FENCES: u64 = 33_554_432;

/// `cut FENCE SEED`.
pub fn read_cut(words: &[&[u8]]) -> Result<CutPlan, ScriptRule>
    ensures { result ≡ cut_of (texts_of words.now) }
{
    if words.len() != 3 {
        return Err(ScriptRule::Words);
    }
    let Some(flush) = number_to(word(words, 1), MOST_FENCES) else {
        return Err(ScriptRule::Number);
    };
    let Some(seed) = read_number(word(words, 2)) else {
        return Err(ScriptRule::Number);
    };
    Ok(CutPlan {
        flush: flush as u32,
        seed,
    })
}

/// Whether a line that begins with `power` has as many words as that form.
pub fn has_power_form(words: &[&[u8]]) -> bool
    ensures { result ≡ is_power (texts_of words.now) }
{
    words.len() == 1
}
