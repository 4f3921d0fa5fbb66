//! Samples of 32 bits at fewer bits, and back.

ghost use Rattle.std.specs.Prelude.{◌≡◌, ◌≤◌, All, length, map};
ghost use Rattle.pcm_num.specs.Limit.{FitsBits};
ghost use Rattle.pcm_format.specs.Formats.{bits_of};
ghost use Rattle.pcm_format.specs.Samples.{at_depth, at_full};

use crate::Format;
use crate::sample::at_full;

/// A sample of 32 bits at `bits` bits, rounded down.
pub fn at_depth(sample: i32, bits: u32) -> i32
    requires least { 1 ≤ bits }
    requires most { bits ≤ 32 }
    ensures value { result ≡ at_depth bits sample }
    ensures range { FitsBits bits result }
{
    sample >> (32 - bits)
}

/// Puts each sample into `out` at `bits` bits, rounded down.
pub fn put_at_depth(samples: &[i32], bits: u32, out: &mut [i32])
    requires lengths { length out.old ≡ length samples.now }
    requires least { 1 ≤ bits }
    requires most { bits ≤ 32 }
    ensures { out.new ≡ map (at_depth bits) samples.now }
{
    for i in 0..samples.len() {
        out[i] = at_depth(samples[i], bits);
    }
}

/// Brings each sample from the format's bits to 32.
pub fn bring_to_full(samples: &mut [i32], format: Format)
    requires { All (FitsBits (bits_of format)) samples.old }
    ensures { samples.new ≡ map (at_full (bits_of format)) samples.old }
{
    for i in 0..samples.len() {
        samples[i] = at_full(format, samples[i]);
    }
}
