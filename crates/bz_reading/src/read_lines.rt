//! Reading the first line.
ghost use Rattle.std.specs.Prelude.{◌≡◌, ◌↔◌, ℕ, List, IfOk, IsErrOf, IsUtf8, IsTrue};
ghost use Rattle.serde_json.specs.Read.{read};
ghost use Rattle.serde_json.specs.View.{view};
ghost use Rattle.bz_layout.specs.declared.config.Config.{Config};
ghost use Rattle.bz_reading.specs.Heads.{IsStart};
ghost use Rattle.bz_lines.specs.Lines.{head_line};
ghost use Rattle.bz_lines.specs.Objects.{head_data};

use crate::error::LineFault;
use crate::head_in::{config_in, start_in};
use bz_layout::Config;
use bz_lines::head_text;
use bz_oom::Memory;
use serde_json::Value;
use std::alloc::Global;

/// The value that a line spells.
pub fn value_of(alloc: Global, line: &[u8]) -> Result<Value, LineFault>
    ensures value { IfOk result (λ v. read line.now ≡ Some (view v)) }
    ensures broken { IsErrOf result LineFault.Broken → IsUtf8 line.now → read line.now ≡ None }
{
    match Value::from_slice(alloc, line) {
        Ok(value) => Ok(value),
        Err(error) => {
            if error.is_memory() {
                Err(LineFault::Memory)
            } else {
                Err(LineFault::Broken)
            }
        }
    }
}

/// The configuration and the start image of a value.
fn told_start(alloc: Global, value: &Value) -> Result<(Config, Vec<u64>), LineFault>
    ensures start { IfOk result (λ head. IsStart head.0 head.1.items) }
    ensures told { IfOk result (λ head. (c : Config) (start : List ℕ) → IsStart c start → view value.now ≡ head_data c start → (head.0 ≡ c) × (head.1.items ≡ start)) }
    ensures broken { IsErrOf result LineFault.Broken → (c : Config) (start : List ℕ) → IsStart c start → view value.now ≡ head_data c start → ⊥ }
{
    let Some(config) = config_in(value) else {
        return Err(LineFault::Broken);
    };
    match start_in(alloc, value, config.words()) {
        Ok(found) => match found {
            Some(start) => Ok((config, start)),
            None => Err(LineFault::Broken),
        },
        Err(Memory) => Err(LineFault::Memory),
    }
}

/// Whether a line is the first one of this configuration and image.
fn is_head(alloc: Global, config: &Config, start: &[u64], line: &[u8]) -> Result<bool, Memory>
    ensures { IfOk result (λ same. IsTrue same ↔ (line.now ≡ head_line config.now start.now)) }
{
    let text = head_text(alloc, config, start)?;
    Ok(line == text.as_slice())
}

/// The configuration and the start image of a first line, which is given without its line feed.
pub fn read_head(alloc: Global, line: &[u8]) -> Result<(Config, Vec<u64>), LineFault>
    ensures start { IfOk result (λ head. IsStart head.0 head.1.items) }
    ensures line { IfOk result (λ head. line.now ≡ head_line head.0 head.1.items) }
    ensures broken { IsErrOf result LineFault.Broken → (c : Config) (start : List ℕ) → IsStart c start → line.now ≡ head_line c start → ⊥ }
{
    let value = match value_of(alloc, line) {
        Ok(value) => value,
        Err(fault) => return Err(fault),
    };
    let (config, start) = match told_start(alloc, &value) {
        Ok(head) => head,
        Err(fault) => return Err(fault),
    };
    match is_head(alloc, &config, &start, line) {
        Ok(same) => {
            if same {
                Ok((config, start))
            } else {
                Err(LineFault::Broken)
            }
        }
        Err(Memory) => Err(LineFault::Memory),
    }
}
