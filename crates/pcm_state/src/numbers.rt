//! Rows of numbers as bytes.

ghost use Rattle.std.specs.Prelude.{◌≡◌, ◌+◌, ◌*◌, ◌^◌, ◌<◌, All, length};
ghost use Rattle.pcm_format.specs.Samples.{number_of};
ghost use Rattle.pcm_state.specs.OpeningRows.{IsWord};
ghost use Rattle.pcm_state.specs.Numbers.{digits, spelled_number, spelled_numbers, IsNumber};

/// Spells each number.
pub fn put_numbers(numbers: &[u64], out: &mut [u8])
    requires { length out.old ≡ 8 * length numbers.now }
    ensures spelled { out.new ≡ spelled_numbers numbers.now }
    ensures fits { All IsNumber numbers.now }
{
    tell_bits(numbers);
    for i in 0..numbers.len() {
        let at = 8 * i;
        put_number(numbers[i], &mut out[at..at + 8]);
    }
}

/// Loads each number.
pub fn load_numbers(bytes: &[u8], out: &mut [u64])
    requires { length bytes.now ≡ 8 * length out.old }
    ensures spelled { spelled_numbers out.new ≡ bytes.now }
    ensures count { length out.new ≡ length out.old }
    ensures fits { All IsNumber out.new }
{
    for i in 0..out.len() {
        let at = 8 * i;
        out[i] = load_number(&bytes[at..at + 8]);
    }
    tell_bits(out);
}

// Tells that each number has 64 bits, as its type keeps it. Nothing of this is left in the program.
fn tell_bits(numbers: &[u64])
    ensures { All IsNumber numbers.now }
{
    for number in numbers {
        let _value = *number;
    }
}

fn put_number(number: u64, out: &mut [u8])
    requires { length out.old ≡ 8 }
    ensures { out.new ≡ spelled_number number }
{
    out.copy_from_slice(&number.to_le_bytes());
}

fn load_number(bytes: &[u8]) -> u64
    requires { length bytes.now ≡ 8 }
    ensures { spelled_number result ≡ bytes.now }
{
    number_of(bytes)
}

// The number that eight bytes spell.
fn number_of(bytes: &[u8]) -> u64
    requires { length bytes.now ≡ 8 }
    ensures { result ≡ number_of bytes.now }
{
    match bytes {
        [a, b, c, d, e, f, g, h] => word(*a, *b, *c, *d) + 4294967296 * word(*e, *f, *g, *h),
        _ => 0,
    }
}

/// The number that four bytes spell.
pub(crate) fn word_of(bytes: &[u8]) -> u64
    requires { length bytes.now ≡ 4 }
    ensures spelled { digits 3 result ≡ bytes.now }
    ensures below { IsWord result }
{
    match bytes {
        [a, b, c, d] => word(*a, *b, *c, *d),
        _ => 0,
    }
}

// The number of four bytes, the lowest first.
fn word(a: u8, b: u8, c: u8, d: u8) -> u64
    ensures value { result ≡ a + 256 * (b + 256 * (c + 256 * d)) }
    ensures below { result < 2 ^ 32 }
{
    u64::from(a) + 256 * (u64::from(b) + 256 * (u64::from(c) + 256 * u64::from(d)))
}
