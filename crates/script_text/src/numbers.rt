//! Numbers that words spell.
ghost use Rattle.std.specs.Prelude.{◌≡◌, ◌≤◌, ◌^◌, ◌<◌, ◌-◌, replicate, length, true, Some, IfOk, IfSome, IsSome};
ghost use Rattle.std.specs.List.{list_all};
ghost use Rattle.std.specs.Char.{is_digit, digit_value as plain_digit_value};
ghost use Rattle.std.specs.Str.Parse.{digits_value};
ghost use Rattle.script_text.specs.Numbers.{is_numeral, number_of, decimal_of as plain_decimal_of, count_of as plain_count_of, byte_of as plain_byte_of, mode_of as plain_mode_of};

use hs_types::{Chunk, Mode};

/// Whether the word has that many digits of the radix, and nothing else.
fn is_numeral(radix: u32, least: usize, most: usize, word: &[u8]) -> bool
    requires low { 2 ≤ radix }
    requires high { radix ≤ 16 }
    ensures { result ≡ is_numeral radix least most word.now }
{
    least <= word.len() && word.len() <= most && has_digits(radix, word)
}

fn has_digits(radix: u32, word: &[u8]) -> bool
    requires low { 2 ≤ radix }
    requires high { radix ≤ 16 }
    ensures { result ≡ list_all (λ byte. is_digit byte radix) word.now }
{
    word.iter().all(|byte| (*byte as char).is_digit(radix))
}

/// What a digit is worth.
fn digit_value(radix: u32, digit: u8) -> u64
    requires low { 2 ≤ radix }
    requires high { radix ≤ 16 }
    requires digit { is_digit digit radix ≡ true }
    ensures { result ≡ plain_digit_value digit }
{
    match (digit as char).to_digit(radix) {
        Some(value) => value as u64,
        None => unreachable!(),
    }
}

/// The number that digits of the radix spell.
fn digits_value(radix: u32, word: &[u8]) -> u64
    requires low { 2 ≤ radix }
    requires high { radix ≤ 16 }
    requires digits { list_all (λ byte. is_digit byte radix) word.now ≡ true }
    requires fits { digits_value radix word.now < 2 ^ 64 }
    ensures { result ≡ digits_value radix word.now }
{
    let mut value = 0;
    for digit in word {
        value = value * radix as u64 + digit_value(radix, *digit);
    }
    value
}

/// The number that a word of at most ten digits spells.
fn number_of(radix: u32, least: usize, most: usize, word: &[u8]) -> Option<u64>
    requires low { 2 ≤ radix }
    requires high { radix ≤ 16 }
    requires short { most ≤ 10 }
    ensures { result ≡ number_of radix least most word.now }
{
    if is_numeral(radix, least, most, word) {
        Some(digits_value(radix, word))
    } else {
        None
    }
}

/// The number that at most ten decimal digits spell.
pub(crate) fn decimal_of(word: &[u8]) -> Option<u64>
    ensures { result ≡ plain_decimal_of word.now }
{
    number_of(10, 1, 10, word)
}

/// How many bytes, from 0 to 65,536.
pub(crate) fn count_of(word: &[u8]) -> Option<usize>
    ensures value { result ≡ plain_count_of word.now }
    ensures most { IfSome result (λ count. count ≤ 65536) }
{
    match decimal_of(word) {
        Some(count) if count <= Chunk::GREATEST as u64 => Some(count as usize),
        _ => None,
    }
}

/// The byte of two hexadecimal digits.
pub(crate) fn byte_of(word: &[u8]) -> Option<u8>
    ensures { result ≡ plain_byte_of word.now }
{
    match number_of(16, 2, 2, word) {
        Some(byte) => Some(byte as u8),
        None => None,
    }
}

/// The mode of 1 to 4 octal digits, at most 1777.
pub(crate) fn mode_of(word: &[u8]) -> Option<Mode>
    ensures { result ≡ plain_mode_of word.now }
{
    match number_of(8, 1, 4, word) {
        Some(bits) if bits <= Mode::GREATEST as u64 => Mode::new(bits as u16),
        _ => None,
    }
}
