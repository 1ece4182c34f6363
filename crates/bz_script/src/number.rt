//! Numbers, and the workers that they name.
ghost use Rattle.std.specs.Prelude.{◌≡◌, ◌≤◌, IfSome};
ghost use Rattle.std.specs.List.{list_all};
ghost use Rattle.bz_script.specs.Number.{number_of, within, worker_of, is_number, is_digit as digit_byte};

/// The most digits that a number has.
const MOST_DIGITS: usize = 20;

const MOST_WORKERS: u64 = 64;

fn is_digit(b: u8) -> bool
    ensures { result ≡ digit_byte b }
{
    b.is_ascii_digit()
}

fn are_digits(word: &[u8]) -> bool
    ensures { result ≡ list_all digit_byte word.now }
{
    word.iter().all(|b| is_digit(*b))
}

fn has_number_form(word: &[u8]) -> bool
    ensures { result ≡ is_number word.now }
{
    if word.is_empty() {
        return false;
    }
    if word.len() > MOST_DIGITS {
        return false;
    }
    if !are_digits(word) {
        return false;
    }
    if word.len() <= 1 {
        return true;
    }
    word[0] != b'0'
}

/// The number that a word writes: `0`, or a digit 1 to 9 and at most nineteen digits behind it.
/// There is none for another word, nor above 2^64 less 1.
#[tactic(auto, using(crate::proofs::NumberLemmas::digit_at, crate::proofs::NumberLemmas::number_grows))]
pub fn read_number(word: &[u8]) -> Option<u64>
    ensures { result ≡ number_of word.now }
{
    if !has_number_form(word) {
        return None;
    }
    let mut value = 0u64;
    for b in word {
        let digit = u64::from(*b - b'0');
        match value.checked_mul(10) {
            Some(tens) => match tens.checked_add(digit) {
                Some(next) => value = next,
                None => return None,
            },
            None => return None,
        }
    }
    Some(value)
}

/// The number of a word, from 1 to the greatest one.
pub fn number_to(text: &[u8], most: u64) -> Option<u64>
    ensures value { result ≡ within 1 most (number_of text.now) }
    ensures small { IfSome result (λ number. number ≤ most) }
{
    let Some(number) = read_number(text) else {
        return None;
    };
    if number < 1 {
        return None;
    }
    if number > most {
        return None;
    }
    Some(number)
}

/// The worker that a word names.
pub fn read_worker(text: &[u8]) -> Option<u8>
    ensures { result ≡ worker_of text.now }
{
    let Some(number) = number_to(text, MOST_WORKERS) else {
        return None;
    };
    Some(number as u8)
}
