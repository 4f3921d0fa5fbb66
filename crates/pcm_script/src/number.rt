//! Numbers as a script spells them.

ghost use Rattle.std.specs.Prelude.{◌≡◌, ◌≤◌, IsTrue, length, option_map, IfOk};
ghost use Rattle.std.specs.List.{list_all};
ghost use Rattle.hex.specs.Hex.{hex_digit_value, is_hex_digit};
ghost use Rattle.pcm_script.specs.Numbers.{after_prefix, are_digits, decimal_in, digit_of, digits_value, is_decimal_digit, number_in, number_within};

use crate::ScriptKind;
use crate::hexadecimal::worth_of;

/// How many digits a decimal number has at most.
pub const DECIMAL_DIGITS: usize = 10;

/// How many digits a hexadecimal number has at most, after its `0x`.
pub const HEXADECIMAL_DIGITS: usize = 8;

/// The number of a word of one to ten decimal digits.
pub fn decimal_in(word: &[u8]) -> Option<u64>
    ensures { result ≡ decimal_in word.now }
{
    if !is_decimal(word) {
        return None;
    }
    Some(digits_value(10, word))
}

/// The number that a word spells.
pub fn number_in(word: &[u8]) -> Result<u64, ScriptKind>
    ensures { result ≡ number_in word.now }
{
    match after_prefix(word) {
        Some(digits) if is_hexadecimal(digits) => Ok(digits_value(16, digits)),
        None if is_decimal(word) => Ok(digits_value(10, word)),
        _ => Err(ScriptKind::Number),
    }
}

// The number that a word spells, which must be from `least` to `most`.
pub(crate) fn number_within(least: u32, most: u32, word: &[u8]) -> Result<u32, ScriptKind>
    ensures value { result ≡ number_within least most word.now }
    ensures most { IfOk result (λ number. number ≤ most) }
{
    let number = number_in(word)?;
    if number < u64::from(least) || number > u64::from(most) {
        return Err(ScriptKind::Range);
    }
    Ok(number as u32)
}

// The digits after the prefix of a hexadecimal number.
fn after_prefix(word: &[u8]) -> Option<&[u8]>
    ensures { option_map (λ digits. digits.now) result ≡ after_prefix word.now }
{
    word.strip_prefix(b"0x")
}

fn is_decimal(word: &[u8]) -> bool
    ensures value { result ≡ are_digits is_decimal_digit 10 word.now }
    ensures room { IsTrue result → length word.now ≤ 10 }
{
    !word.is_empty() && word.len() <= DECIMAL_DIGITS && are_decimal(word)
}

fn are_decimal(digits: &[u8]) -> bool
    ensures { result ≡ list_all is_decimal_digit digits.now }
{
    digits.iter().all(|digit| digit.is_ascii_digit())
}

fn is_hexadecimal(digits: &[u8]) -> bool
    ensures value { result ≡ are_digits is_hex_digit 8 digits.now }
    ensures room { IsTrue result → length digits.now ≤ 8 }
{
    !digits.is_empty() && digits.len() <= HEXADECIMAL_DIGITS && are_hexadecimal(digits)
}

fn are_hexadecimal(digits: &[u8]) -> bool
    ensures { result ≡ list_all is_hex_digit digits.now }
{
    digits.iter().all(|digit| digit.is_ascii_hexdigit())
}

fn digits_value(base: u64, digits: &[u8]) -> u64
    requires base { base ≤ 16 }
    requires room { length digits.now ≤ 10 }
    ensures { result ≡ digits_value base digits.now }
{
    let mut value = 0;
    for digit in digits {
        value = value * base + digit_of(*digit);
    }
    value
}

// What a digit of either base stands for.
fn digit_of(digit: u8) -> u64
    ensures value { result ≡ digit_of (hex_digit_value digit) }
    ensures most { result ≤ 15 }
{
    u64::from(worth_of(digit) % 16)
}
