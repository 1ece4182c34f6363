//! The keys and the payloads of a workload.
ghost use Rattle.std.specs.Prelude.{◌≡◌, ◌+◌, ◌/◌, ◌%◌, ◌<◌, ◌≤◌, ◌^◌, drop};
ghost use Rattle.std.specs.Fmt.{decimal};
ghost use Rattle.bz_gen.specs.Names.{five_digits as digits_of, key_named, payload_named};

use bz_key::{Key, Payload};

// How many digits the number in a key has.
const KEY_DIGITS: usize = 5;

// The digit at a place of a number: at 1 the last, at 10 the one before it.
fn digit_at(place: u32, number: u32) -> u8
    requires { 0 < place }
    ensures { result ≡ 48 + number / place % 10 }
{
    b'0' + (number / place % 10) as u8
}

// Five digits, with leading zeros.
fn five_digits(number: u32) -> [u8; KEY_DIGITS]
    ensures { result ≡ digits_of number }
{
    [
        digit_at(10_000, number),
        digit_at(1_000, number),
        digit_at(100, number),
        digit_at(10, number),
        digit_at(1, number),
    ]
}

// How many of the five digits are leading zeros. The last digit is none.
fn leading_zeros(number: u32) -> usize
    requires { number < 10 ^ 5 }
    ensures zeros { drop result (digits_of number) ≡ decimal number }
    ensures some { result ≤ 4 }
{
    if number < 10 {
        4
    } else if number < 100 {
        3
    } else if number < 1_000 {
        2
    } else if number < 10_000 {
        1
    } else {
        0
    }
}

/// `k` and five digits.
pub(crate) fn key_of(number: u32) -> Key
    ensures { result ≡ key_named number }
{
    let [a, b, c, d, e] = five_digits(number);
    Key::of(&[b'k', a, b, c, d, e]).unwrap()
}

/// `v` and the number.
pub(crate) fn payload_of(number: u32) -> Payload
    requires { number < 10 ^ 5 }
    ensures { result ≡ payload_named number }
{
    let [a, b, c, d, e] = five_digits(number);
    let zeros = leading_zeros(number);
    let mut text = [b'v', a, b, c, d, e];
    text[zeros] = b'v';
    Payload::of(&text[zeros..]).unwrap()
}
