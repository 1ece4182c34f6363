//! The words of a call.
ghost use Rattle.std.specs.Prelude.{◌≡◌, [], ◌∷◌, IfOk};
ghost use Rattle.serde_json.specs.Data.{string};
ghost use Rattle.serde_json.specs.View.{view};
ghost use Rattle.bz_lines.specs.Objects.{call_data, list_of, spelling};

use crate::texts::{key_text, payload_text, three, two};
use bz_call::Call;
use bz_key::{Key, Payload};
use bz_oom::Memory;
use serde_json::Value;
use std::alloc::Global;

/// A call that puts a payload at a key.
fn putting(alloc: Global, kind: &str, key: Key, payload: Payload) -> Result<Value, Memory>
    ensures { IfOk result (λ v. view v ≡ list_of (string kind.now ∷ spelling key ∷ spelling payload ∷ [])) }
{
    let kind = Value::try_from_str(alloc, kind)?;
    let key = key_text(alloc, key)?;
    let payload = payload_text(alloc, payload)?;
    three(alloc, kind, key, payload)
}

/// A call that asks something of a key.
fn asking(alloc: Global, kind: &str, key: Key) -> Result<Value, Memory>
    ensures { IfOk result (λ v. view v ≡ list_of (string kind.now ∷ spelling key ∷ [])) }
{
    let kind = Value::try_from_str(alloc, kind)?;
    let key = key_text(alloc, key)?;
    two(alloc, kind, key)
}

/// The words of a call, from its kind on.
pub(crate) fn call_words(alloc: Global, call: Call) -> Result<Value, Memory>
    ensures { IfOk result (λ v. view v ≡ call_data call) }
{
    match call {
        Call::Insert(key, payload) => putting(alloc, "insert", key, payload),
        Call::Delete(key) => asking(alloc, "delete", key),
        Call::Update(key, payload) => putting(alloc, "update", key, payload),
        Call::Upsert(key, payload) => putting(alloc, "upsert", key, payload),
        Call::Get(key) => asking(alloc, "get", key),
        Call::Page(key) => asking(alloc, "page", key),
    }
}
