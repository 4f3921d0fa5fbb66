//! Bytes as pairs of hexadecimal digits.

ghost use Rattle.std.specs.Prelude.{◌≡◌, ◌+◌, ◌*◌, ◌<◌, IfOk, None, Some, length, option_map};
ghost use Rattle.std.specs.Bool.{MatchBool};
ghost use Rattle.std.specs.Option.{unwrap_or};
ghost use Rattle.std.specs.Result.{result_ok};
ghost use Rattle.hex.specs.Hex.{decode_of, hex_digit_value};

use std::alloc::{AllocError, Global};

// What each byte is worth as a digit, in either case, and 16 where it is none.
const DIGITS: [u8; 256] = [
    16, 16, 16, 16, 16, 16, 16, 16, 16, 16, 16, 16, 16, 16, 16, 16, 16, 16, 16, 16, 16, 16, 16, 16,
    16, 16, 16, 16, 16, 16, 16, 16, 16, 16, 16, 16, 16, 16, 16, 16, 16, 16, 16, 16, 16, 16, 16, 16,
    0, 1, 2, 3, 4, 5, 6, 7, 8, 9, 16, 16, 16, 16, 16, 16, 16, 10, 11, 12, 13, 14, 15, 16, 16, 16,
    16, 16, 16, 16, 16, 16, 16, 16, 16, 16, 16, 16, 16, 16, 16, 16, 16, 16, 16, 16, 16, 16, 16, 10,
    11, 12, 13, 14, 15, 16, 16, 16, 16, 16, 16, 16, 16, 16, 16, 16, 16, 16, 16, 16, 16, 16, 16, 16,
    16, 16, 16, 16, 16, 16, 16, 16, 16, 16, 16, 16, 16, 16, 16, 16, 16, 16, 16, 16, 16, 16, 16, 16,
    16, 16, 16, 16, 16, 16, 16, 16, 16, 16, 16, 16, 16, 16, 16, 16, 16, 16, 16, 16, 16, 16, 16, 16,
    16, 16, 16, 16, 16, 16, 16, 16, 16, 16, 16, 16, 16, 16, 16, 16, 16, 16, 16, 16, 16, 16, 16, 16,
    16, 16, 16, 16, 16, 16, 16, 16, 16, 16, 16, 16, 16, 16, 16, 16, 16, 16, 16, 16, 16, 16, 16, 16,
    16, 16, 16, 16, 16, 16, 16, 16, 16, 16, 16, 16, 16, 16, 16, 16, 16, 16, 16, 16, 16, 16, 16, 16,
    16, 16, 16, 16, 16, 16, 16, 16, 16, 16, 16, 16, 16, 16,
];

// What a byte is worth as a digit. A worth that no digit has says that it is none.
#[inline]
pub(crate) fn worth_of(byte: u8) -> u8
    ensures { result ≡ unwrap_or (hex_digit_value byte) 16 }
{
    DIGITS[byte as usize]
}

// The byte of two digits. Where one of them is none, it means nothing.
#[inline]
fn byte_of(high: u8, low: u8) -> u8
    ensures { high < 16 → low < 16 → result ≡ high * 16 + low }
{
    high << 4 | low
}

// The bytes of pairs of digits, if a word is that.
pub(crate) fn decode(alloc: Global, word: &[u8]) -> Result<Option<Vec<u8>>, AllocError>
    ensures { IfOk result (λ bytes. option_map (λ b. b.items) bytes ≡ result_ok (decode_of word.now)) }
{
    if word.len() % 2 != 0 {
        return Ok(None);
    }
    let mut bytes = vec![in alloc; 0u8; word.len() / 2]?;
    if decode_into(word, bytes.as_mut_slice()) {
        return Ok(Some(bytes));
    }
    Ok(None)
}

// Writes the bytes of pairs of digits, and returns whether a word is that. No branch depends on a digit: that one was
// none shows in the bits of all of them.
fn decode_into(word: &[u8], bytes: &mut [u8]) -> bool
    requires { length word.now ≡ 2 * length bytes.old }
    ensures { MatchBool result (result_ok (decode_of word.now) ≡ Some bytes.new) (result_ok (decode_of word.now) ≡ None) }
{
    let mut worths = 0;
    for at in 0..bytes.len() {
        let high = worth_of(word[2 * at]);
        let low = worth_of(word[2 * at + 1]);
        worths = worths | high | low;
        bytes[at] = byte_of(high, low);
    }
    worths < 16
}
