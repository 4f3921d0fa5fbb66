//! Sums of eight samples at once.
ghost use Rattle.std.specs.Prelude.{◌≡◌, ◌<◌, take, drop, ◌++◌};
ghost use Rattle.pcm_mix.specs.Mix.{CanMixFirst, mixed};

use crate::limits::Limits;
use std::simd::i32x8;

impl Limits {
    // Mixes the first eight samples.
    #[inline(always)]
    pub fn mix_eight(self, acc: &mut [i32], add: &[i32])
        requires { CanMixFirst 8 self.bits acc.old add.now }
        ensures { acc.new ≡ mixed self.bits (take 8 acc.old) (take 8 add.now) ++ drop 8 acc.old }
    {
        if self.bits < 32 {
            self.mix_eight_below(acc, add);
        } else {
            mix_eight_whole(acc, add);
        }
    }

    // The same below 32 bits, where two samples have a sum of 32.
    #[inline(always)]
    fn mix_eight_below(self, acc: &mut [i32], add: &[i32])
        requires few { self.bits < 32 }
        requires blocks { CanMixFirst 8 self.bits acc.old add.now }
        ensures { acc.new ≡ mixed self.bits (take 8 acc.old) (take 8 add.now) ++ drop 8 acc.old }
    {
        let sum = i32x8::from_slice(acc) + i32x8::from_slice(add);
        sum.simd_min(i32x8::splat(self.greatest))
            .simd_max(i32x8::splat(self.least))
            .copy_to_slice(acc);
    }
}

// The same at 32 bits. A sum that wrapped is below the first sample where the second isn't below 0,
// or the other way round. The end that it passed is on the side of the second: all its bits are the
// sign of that, but for the first one, which is the other way round.
#[inline(always)]
fn mix_eight_whole(acc: &mut [i32], add: &[i32])
    requires { CanMixFirst 8 32 acc.old add.now }
    ensures { acc.new ≡ mixed 32 (take 8 acc.old) (take 8 add.now) ++ drop 8 acc.old }
{
    let first = i32x8::from_slice(acc);
    let second = i32x8::from_slice(add);
    let sum = first + second;
    let end = (second >> i32x8::splat(31)) ^ i32x8::splat(i32::MAX);
    (sum.simd_lt(first) ^ second.simd_lt(i32x8::splat(0)))
        .select(end, sum)
        .copy_to_slice(acc);
}
