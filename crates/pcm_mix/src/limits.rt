//! The range of a number of bits, and sums within it.
ghost use Rattle.std.specs.Prelude.{◌≡◌, ◌≤◌, ◌<◌};
ghost use Rattle.pcm_num.specs.Limit.{FitsBits, least_of, greatest_of};
ghost use Rattle.pcm_mix.specs.Mix.{limited_sum};

use pcm_num::clamp_bits;

// A number of bits, and the ends of their range.
#[derive(Clone, Copy)]
pub struct Limits {
    pub bits: u32,
    pub least: i32,
    pub greatest: i32,
    ghost some: { 1 ≤ bits },
    ghost most: { bits ≤ 32 },
    ghost least_is: { least ≡ least_of bits },
    ghost greatest_is: { greatest ≡ greatest_of bits },
}

impl Limits {
    #[inline(always)]
    pub fn of(bits: u32) -> Limits
        requires least { 1 ≤ bits }
        requires most { bits ≤ 32 }
        ensures { result.bits ≡ bits }
    {
        Limits {
            bits,
            least: clamp_bits(i64::from(i32::MIN), bits),
            greatest: clamp_bits(i64::from(i32::MAX), bits),
        }
    }

    // The sum of two samples, or the end of the range that it passes.
    #[inline(always)]
    pub fn sum(self, a: i32, b: i32) -> i32
        requires held { FitsBits self.bits a }
        requires added { FitsBits self.bits b }
        ensures { result ≡ limited_sum self.bits a b }
    {
        if self.bits < 32 {
            self.sum_below(a, b)
        } else {
            a.saturating_add(b)
        }
    }

    // The same below 32 bits, where two samples have a sum of 32. It is limited by `min` and `max`,
    // which are an instruction each; `clamp` isn't.
    #[inline(always)]
    fn sum_below(self, a: i32, b: i32) -> i32
        requires few { self.bits < 32 }
        requires held { FitsBits self.bits a }
        requires added { FitsBits self.bits b }
        ensures { result ≡ limited_sum self.bits a b }
    {
        (a + b).min(self.greatest).max(self.least)
    }
}
