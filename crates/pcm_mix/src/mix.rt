//! The sum of two blocks.
ghost use Rattle.std.specs.Prelude.{◌≡◌, ◌≤◌, ◌<◌, length, take, drop, ◌++◌, All};
ghost use Rattle.pcm_num.specs.Limit.{FitsBits};
ghost use Rattle.pcm_mix.specs.Mix.{CanMix, mixed};

use crate::limits::Limits;

/// Adds the samples of `add` to those of `acc`, each sum limited to `bits` bits.
pub fn mix_into(acc: &mut [i32], add: &[i32], bits: u32)
    requires lengths { length acc.old ≡ length add.now }
    requires least { 1 ≤ bits }
    requires most { bits ≤ 32 }
    requires held { All (FitsBits bits) acc.old }
    requires added { All (FitsBits bits) add.now }
    ensures value { acc.new ≡ mixed bits acc.old add.now }
    ensures fits { All (FitsBits bits) acc.new }
{
    if bits < 32 {
        mix_within(acc, add, Limits::of(bits));
    } else {
        mix_within(acc, add, Limits::of(32));
    }
}

// Is copied for both ways to add, so that no loop asks which one it is.
#[inline(always)]
fn mix_within(acc: &mut [i32], add: &[i32], limits: Limits)
    requires { CanMix limits.bits acc.old add.now }
    ensures value { acc.new ≡ mixed limits.bits acc.old add.now }
    ensures fits { All (FitsBits limits.bits) acc.new }
{
    let at = mix_lanes(acc, add, limits);
    mix_samples(&mut acc[at..], &add[at..], limits);
}

// Mixes samples from the front, eight at a time, as many as that takes, and tells how many.
#[inline(always)]
fn mix_lanes(acc: &mut [i32], add: &[i32], limits: Limits) -> usize
    requires { CanMix limits.bits acc.old add.now }
    ensures most { result ≤ length acc.old }
    ensures value { acc.new ≡ mixed limits.bits (take result acc.old) (take result add.now) ++ drop result acc.old }
{
    let mut at = 0;
    while acc.len() - at >= 8 {
        limits.mix_eight(&mut acc[at..], &add[at..]);
        at += 8;
    }
    at
}

// Mixes samples one by one.
#[inline(always)]
fn mix_samples(acc: &mut [i32], add: &[i32], limits: Limits)
    requires { CanMix limits.bits acc.old add.now }
    ensures { acc.new ≡ mixed limits.bits acc.old add.now }
{
    for (at, more) in add.iter().enumerate() {
        acc[at] = limits.sum(acc[at], *more);
    }
}
