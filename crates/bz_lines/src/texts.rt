//! Texts and lists of texts.
ghost use Rattle.std.specs.Prelude.{◌≡◌, ◌≤◌, ◌*◌, [], ◌∷◌, IfOk, IsUtf8, length};
ghost use Rattle.serde_json.specs.Data.{string};
ghost use Rattle.serde_json.specs.View.{view};
ghost use Rattle.bz_key.specs.Bytes.{AreBytes};
ghost use Rattle.bz_key.specs.Spelling.{spelled};
ghost use Rattle.bz_lines.specs.Objects.{list_of, spelling};

use bz_key::{Key, Payload, SPELLED_BYTES, spell};
use bz_oom::Memory;
use serde_json::{Value, json};
use std::alloc::Global;

/// A text of these bytes, which are UTF-8.
fn text(alloc: Global, bytes: &[u8]) -> Result<Value, Memory>
    requires { IsUtf8 bytes.now }
    ensures { IfOk result (λ v. view v ≡ string bytes.now) }
{
    match str::from_utf8(bytes) {
        Ok(text) => Ok(Value::try_from_str(alloc, text)?),
        Err(_) => unreachable!(),
    }
}

/// The spelling of a key's or a payload's bytes.
fn spelled_text(alloc: Global, bytes: &[u8]) -> Result<Value, Memory>
    requires few { 3 * length bytes.now ≤ SPELLED_BYTES }
    requires bytes { AreBytes bytes.now }
    ensures { IfOk result (λ v. view v ≡ spelling bytes.now) }
{
    let mut room = [0u8; SPELLED_BYTES];
    let count = spell(bytes, &mut room);
    text(alloc, &room[..count])
}

pub(crate) fn key_text(alloc: Global, key: Key) -> Result<Value, Memory>
    ensures { IfOk result (λ v. view v ≡ spelling key) }
{
    spelled_text(alloc, key.bytes())
}

pub(crate) fn payload_text(alloc: Global, payload: Payload) -> Result<Value, Memory>
    ensures { IfOk result (λ v. view v ≡ spelling payload) }
{
    spelled_text(alloc, payload.bytes())
}

/// A list of one word.
pub(crate) fn one_word(alloc: Global, word: &str) -> Result<Value, Memory>
    ensures { IfOk result (λ v. view v ≡ list_of (string word.now ∷ [])) }
{
    Ok(json!(in alloc; [word])?)
}

/// A list of two.
pub(crate) fn two(alloc: Global, first: Value, second: Value) -> Result<Value, Memory>
    ensures { IfOk result (λ v. view v ≡ list_of (view first ∷ view second ∷ [])) }
{
    Ok(json!(in alloc; [first, second])?)
}

/// A list of three.
pub(crate) fn three(
    alloc: Global,
    first: Value,
    second: Value,
    third: Value,
) -> Result<Value, Memory>
    ensures { IfOk result (λ v. view v ≡ list_of (view first ∷ view second ∷ view third ∷ [])) }
{
    Ok(json!(in alloc; [first, second, third])?)
}
