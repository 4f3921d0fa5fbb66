//! One sample as bytes, as a value, and as a 32-bit number.

ghost use Rattle.std.specs.Prelude.{◌≡◌, ◌+◌, ◌*◌, ◌-◌, ◌<◌, ◌≤◌, pos, length, reverse};
ghost use Rattle.pcm_num.specs.Limit.{FitsBits};
ghost use Rattle.pcm_format.specs.Formats.{bits_of, bytes_of, is_signed};
ghost use Rattle.pcm_format.specs.Samples.{number_of, low_bytes, in_order, half_of, value_of, number_for, spelled, scale_of, loaded, at_depth, at_full, stored};

use crate::{Format, at_depth};

/// The 32-bit number of a sample's bytes: silence is 0, and each format fills the range.
pub fn load(f: Format, bytes: &[u8]) -> i32
    requires { length bytes.now ≡ bytes_of f }
    ensures { result ≡ loaded f bytes.now }
{
    at_full(f, value_of(f, number_of(f, bytes)))
}

/// Writes the one spelling of a value, which is a number of the format's own bits.
pub fn spell(f: Format, value: i32, out: &mut [u8])
    requires whole { length out.old ≡ bytes_of f }
    requires range { FitsBits (bits_of f) value }
    ensures { out.new ≡ spelled f value }
{
    put_low_bytes(number_for(f, value), out);
    if f.is_big_endian() {
        out.reverse();
    }
}

/// Spells a 32-bit number, rounded down to the format's bits.
pub fn store(f: Format, x: i32, out: &mut [u8])
    requires { length out.old ≡ bytes_of f }
    ensures { out.new ≡ stored f x }
{
    spell(f, at_depth(x, f.bits()), out);
}

// A value of the format's own bits at 32.
pub(crate) fn at_full(f: Format, value: i32) -> i32
    requires { FitsBits (bits_of f) value }
    ensures { result ≡ at_full (bits_of f) value }
{
    value * scale(f)
}

// What one step of the format is at 32 bits.
fn scale(f: Format) -> i32
    ensures { result ≡ pos (scale_of (bits_of f)) }
{
    1 << (32 - f.bits())
}

// Half of the values that a sample of the format has.
fn half(f: Format) -> i64
    ensures value { result ≡ pos (half_of f) }
{
    1 << (f.bits() - 1)
}

// What a number stands for: two's complement, or the distance from the midpoint.
fn value_of(f: Format, number: u32) -> i32
    requires { number < 2 * half_of f }
    ensures value { result ≡ value_of (is_signed f) (half_of f) number }
    ensures range { FitsBits (bits_of f) result }
{
    let half = half(f);
    let number = i64::from(number);
    let value = if !f.is_signed() {
        number - half
    } else if number < half {
        number
    } else {
        number - 2 * half
    };
    value as i32
}

// The number that stands for a value.
fn number_for(f: Format, value: i32) -> u32
    requires { FitsBits (bits_of f) value }
    ensures { result ≡ number_for (is_signed f) (half_of f) value }
{
    let half = half(f);
    let value = i64::from(value);
    let number = if !f.is_signed() {
        value + half
    } else if value < 0 {
        value + 2 * half
    } else {
        value
    };
    number as u32
}

// The number that a sample's bytes spell.
fn number_of(f: Format, bytes: &[u8]) -> u32
    requires { length bytes.now ≡ bytes_of f }
    ensures { result ≡ number_of (in_order f bytes.now) }
{
    if f.is_big_endian() {
        number_of_big_endian(bytes)
    } else {
        number_of_little_endian(bytes)
    }
}

fn number_of_little_endian(bytes: &[u8]) -> u32
    requires { length bytes.now ≤ 4 }
    ensures { result ≡ number_of bytes.now }
{
    match bytes {
        [a] => word(*a, 0, 0, 0),
        [a, b] => word(*a, *b, 0, 0),
        [a, b, c] => word(*a, *b, *c, 0),
        [a, b, c, d] => word(*a, *b, *c, *d),
        _ => 0,
    }
}

fn number_of_big_endian(bytes: &[u8]) -> u32
    requires { length bytes.now ≤ 4 }
    ensures { result ≡ number_of (reverse bytes.now) }
{
    match bytes {
        [a] => word(*a, 0, 0, 0),
        [b, a] => word(*a, *b, 0, 0),
        [c, b, a] => word(*a, *b, *c, 0),
        [d, c, b, a] => word(*a, *b, *c, *d),
        _ => 0,
    }
}

// The number of four bytes, the lowest first.
fn word(a: u8, b: u8, c: u8, d: u8) -> u32
    ensures { result ≡ a + 256 * (b + 256 * (c + 256 * d)) }
{
    u32::from(a) + 256 * (u32::from(b) + 256 * (u32::from(c) + 256 * u32::from(d)))
}

// Writes the low bytes of a number, the lowest first.
fn put_low_bytes(number: u32, out: &mut [u8])
    ensures { out.new ≡ low_bytes (length out.old) number }
{
    let mut rest = number;
    for byte in out.iter_mut() {
        *byte = (rest % 256) as u8;
        rest /= 256;
    }
}
