//! Samples of 32 bits as bytes.

ghost use Rattle.std.specs.Prelude.{◌≡◌, ◌*◌, ◌<◌, ◌^◌, length};
ghost use Rattle.pcm_state.specs.Samples.{sample_bytes, sample_number, spelled_sample};

use crate::numbers::word_of;

/// Spells each sample.
pub fn put_samples(samples: &[i32], out: &mut [u8])
    requires { length out.old ≡ 4 * length samples.now }
    ensures { out.new ≡ sample_bytes samples.now }
{
    for i in 0..samples.len() {
        let at = 4 * i;
        put_sample(samples[i], &mut out[at..at + 4]);
    }
}

/// Loads each sample.
pub fn load_samples(bytes: &[u8], out: &mut [i32])
    requires { length bytes.now ≡ 4 * length out.old }
    ensures spelled { sample_bytes out.new ≡ bytes.now }
    ensures count { length out.new ≡ length out.old }
{
    for i in 0..out.len() {
        let at = 4 * i;
        out[i] = load_sample(&bytes[at..at + 4]);
    }
}

fn put_sample(sample: i32, out: &mut [u8])
    requires { length out.old ≡ 4 }
    ensures { out.new ≡ spelled_sample sample }
{
    out.copy_from_slice(&sample_number(sample).to_le_bytes());
}

fn load_sample(bytes: &[u8]) -> i32
    requires { length bytes.now ≡ 4 }
    ensures { spelled_sample result ≡ bytes.now }
{
    sample_of(word_of(bytes))
}

// A sample as a number.
fn sample_number(sample: i32) -> u32
    ensures { result ≡ sample_number sample }
{
    if sample >= 0 {
        2 * sample as u32
    } else {
        2 * (-1 - sample) as u32 + 1
    }
}

// The sample that a number is.
fn sample_of(number: u64) -> i32
    requires { number < 2 ^ 32 }
    ensures { sample_number result ≡ number }
{
    let half = (number / 2) as i32;
    if number % 2 == 0 { half } else { -1 - half }
}
