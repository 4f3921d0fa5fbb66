//! Sums of products, and the samples that they are scaled down to.

ghost use Rattle.std.specs.Prelude.{◌≡◌, ◌≤◌, ◌-◌, ◌*◌, ◌^◌, pos, neg_ℤ, ◌*ℤ◌, ◌≤ℤ◌};
ghost use Rattle.pcm_feeder.specs.declared.limits.TheConstants.{SHIFT_MOST};
ghost use Rattle.pcm_feeder.specs.Sums.{scaled_down};

use pcm_num::{clamp_bits, floor_shift};

/// A coefficient times a sample.
pub fn product(coef: i32, sample: i32) -> i64
    ensures { result ≡ (coef *ℤ sample) }
{
    i64::from(coef) * i64::from(sample)
}

/// A sum of products divided by `2 ^ shift`, rounded to the nearest and limited to 32 bits.
pub fn scaled_down(shift: u32, sum: i64) -> i32
    requires least_shift { 1 ≤ shift }
    requires most_shift { shift ≤ SHIFT_MOST }
    requires least { neg_ℤ (pos (5 * 2 ^ 60)) ≤ℤ sum }
    requires most { sum ≤ℤ pos (5 * 2 ^ 60) }
    ensures { result ≡ scaled_down shift sum }
{
    clamp_bits(floor_shift(sum + half(shift), shift), 32)
}

// Half of `2 ^ shift`.
fn half(shift: u32) -> i64
    requires least { 1 ≤ shift }
    requires most { shift ≤ SHIFT_MOST }
    ensures { result ≡ pos (2 ^ (shift - 1)) }
{
    1i64 << (shift - 1)
}
