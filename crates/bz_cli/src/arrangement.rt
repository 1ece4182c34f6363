//! How the words stand to what was found in them. `clap` takes some that are no command, as those with a word `--`.
ghost use Rattle.std.specs.Prelude.{◌≡◌, ◌↔◌, ◌++◌, ◌∷◌, IsTrue, map, option_map, codes};
ghost use Rattle.bz_cli.specs.Inside.Arrangement.{values_by, Say, SayFirst, IsArranged};
ghost use Rattle.bz_cli.specs.Inside.Founds.{seen_of};

use crate::command::Command;
use crate::parser::Found;

fn is_text(word: &str, text: &str) -> bool
    ensures { IsTrue result ↔ (word.now ≡ text.now) }
{
    word == text
}

// Whether the word is `--marks=` and this text.
fn joins(word: &str, text: &str) -> bool
    ensures { IsTrue result ↔ (word.now ≡ codes "--marks=" ++ text.now) }
{
    match word.as_bytes().strip_prefix(b"--marks=") {
        Some(number) => number == text.as_bytes(),
        None => false,
    }
}

// Whether the words are these texts.
fn are_texts(words: &[&str], texts: &[&str]) -> bool
    ensures { IsTrue result ↔ (map (λ word. word.now) words.now ≡ map (λ text. text.now) texts.now) }
{
    match words.split_first() {
        None => texts.is_empty(),
        Some((word, words)) => match texts.split_first() {
            None => false,
            Some((text, texts)) => is_text(word, text) && are_texts(words, texts),
        },
    }
}

// Whether the words are this text and these ones.
fn are_text_and(words: &[&str], text: &str, texts: &[&str]) -> bool
    ensures { IsTrue result ↔ (map (λ word. word.now) words.now ≡ text.now ∷ map (λ text. text.now) texts.now) }
{
    match words.split_first() {
        None => false,
        Some((word, words)) => is_text(word, text) && are_texts(words, texts),
    }
}

// Whether `--marks=` and this text come first in one word, and then these values.
fn say_joined(words: &[&str], values: &[&str], text: &str) -> bool
    ensures { IsTrue result ↔ (map (λ word. word.now) words.now ≡ (codes "--marks=" ++ text.now) ∷ map (λ value. value.now) values.now) }
{
    match words.split_first() {
        None => false,
        Some((word, words)) => joins(word, text) && are_texts(words, values),
    }
}

// Whether `--marks` and this text come first in two words, and then these values.
fn say_apart(words: &[&str], values: &[&str], text: &str) -> bool
    ensures { IsTrue result ↔ (map (λ word. word.now) words.now ≡ codes "--marks" ∷ text.now ∷ map (λ value. value.now) values.now) }
{
    match words.split_first() {
        None => false,
        Some((word, words)) => is_text(word, "--marks") && are_text_and(words, text, values),
    }
}

// Whether a limit on marks comes first, and then these values.
fn say_text_first(words: &[&str], values: &[&str], text: &str) -> bool
    ensures { IsTrue result ↔ SayFirst (map (λ word. word.now) words.now) (map (λ value. value.now) values.now) (Some text.now) }
{
    if say_joined(words, values, text) {
        return true;
    }
    say_apart(words, values, text)
}

// Whether the limit on marks comes first, where one is said, and then these values.
fn say_first(words: &[&str], values: &[&str], marks: Option<&str>) -> bool
    ensures { IsTrue result ↔ SayFirst (map (λ word. word.now) words.now) (map (λ value. value.now) values.now) (option_map (λ text. text.now) marks.entry) }
{
    match marks {
        None => are_texts(words, values),
        Some(text) => say_text_first(words, values, text),
    }
}

// Whether the words are these values in their order, and somewhere among them what says the limit on marks.
fn say(words: &[&str], values: &[&str], marks: Option<&str>) -> bool
    ensures { IsTrue result ↔ Say (map (λ word. word.now) words.now) (map (λ value. value.now) values.now) (option_map (λ text. text.now) marks.entry) }
{
    if say_first(words, values, marks) {
        return true;
    }
    match words.split_first() {
        None => false,
        Some((word, words)) => match values.split_first() {
            None => false,
            Some((value, values)) => is_text(word, value) && say(words, values, marks),
        },
    }
}

// Whether the words behind the name are what was found of a workload.
fn say_workload(words: &[&str], found: &Found) -> bool
    ensures { IsTrue result ↔ Say (map (λ word. word.now) words.now)
        (values_by (seen_of found.now).seed (seen_of found.now).calls (seen_of found.now).workers) (seen_of found.now).marks }
{
    match found.seed {
        None => say(words, &[], found.marks),
        Some(seed) => match found.calls {
            None => say(words, &[], found.marks),
            Some(calls) => match found.workers {
                None => say(words, &[], found.marks),
                Some(workers) => say(words, &[seed, calls, workers], found.marks),
            },
        },
    }
}

/// Whether the words are the name that was found, and behind it the values of this command and the limit on marks.
pub(crate) fn is_arranged(words: &[&str], command: Command, found: &Found) -> bool
    ensures { IsTrue result ↔ IsArranged (map (λ word. word.now) words.now) command (seen_of found.now) }
{
    match words.split_first() {
        None => false,
        Some((first, words)) => {
            is_text(first, found.name)
                && match command {
                    Command::Run
                    | Command::Dump
                    | Command::Load
                    | Command::Trace
                    | Command::Queue => { say(words, &[], found.marks) }
                    Command::Work {
                        seed: _,
                        calls: _,
                        workers: _,
                    } => say_workload(words, found),
                }
        }
    }
}
