//! The object of the first line.
ghost use Rattle.std.specs.Prelude.{◌≡◌, ◌++◌, [], ◌∷◌, map, IfOk, OnOk};
ghost use Rattle.serde_json.specs.View.{view};
ghost use Rattle.bz_lines.specs.Objects.{number_data, list_of, pair_at, word_pairs, head_data};

use bz_layout::{Config, FORMAT};
use bz_oom::Memory;
use serde_json::{Value, json};
use std::alloc::Global;

/// An address and its word.
fn word_pair(alloc: Global, a: usize, word: u64) -> Result<Value, Memory>
    ensures { IfOk result (λ v. view v ≡ list_of (number_data a ∷ number_data word ∷ [])) }
{
    Ok(json!(in alloc; [a, word])?)
}

/// Adds the pair of an address and its word, if that is not 0.
fn add_word(alloc: Global, list: &mut Vec<Value>, a: usize, word: u64) -> Result<(), Memory>
    ensures { OnOk result (map view list.new.items ≡ map view list.old.items ++ pair_at a word) }
{
    if word == 0 {
        return Ok(());
    }
    let pair = word_pair(alloc, a, word)?;
    list.push(pair)?;
    Ok(())
}

/// The words that are not 0, each with its address.
fn words_list(alloc: Global, words: &[u64]) -> Result<Value, Memory>
    ensures { IfOk result (λ v. view v ≡ list_of (word_pairs 0 words.now)) }
{
    let mut list: Vec<Value> = Vec::new(alloc);
    for (a, word) in words.iter().enumerate() {
        add_word(alloc, &mut list, a, *word)?;
    }
    Ok(Value::Array(list))
}

/// The object of the first line.
pub(crate) fn head_object(alloc: Global, config: &Config, start: &[u64]) -> Result<Value, Memory>
    ensures { IfOk result (λ v. view v ≡ head_data config.now start.now) }
{
    let words = words_list(alloc, start)?;
    let nodes = config.nodes;
    let swaps = config.swaps;
    Ok(json!(in alloc; {"format": FORMAT, "nodes": nodes, "start": words, "swaps": swaps})?)
}
