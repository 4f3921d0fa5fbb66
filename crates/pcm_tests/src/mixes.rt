//! Sums of blocks, with their limit.

ghost use Rattle.std.specs.Prelude.{◌≤◌, All};
ghost use Rattle.pcm_num.specs.Limit.{FitsBits};

use pcm_mix::mix_into;
use pcm_num::clamp_bits;

// A width and the ends of its range.
const WIDTHS: [(u32, i32, i32); 4] = [
    (8, -128, 127),
    (16, -32768, 32767),
    (24, -8388608, 8388607),
    (32, -2147483648, 2147483647),
];

// The sum of two samples, or the end of a range that it passes.
fn plain_sum(a: i32, b: i32, least: i32, greatest: i32) -> i32 {
    let sum = i64::from(a) + i64::from(b);
    if sum < i64::from(least) {
        least
    } else if sum > i64::from(greatest) {
        greatest
    } else {
        sum as i32
    }
}

// As many samples as a block of the tests has: several vectors, and a rest behind them.
const SAMPLES: usize = 40;

// Two blocks with pairs of the ends of a range, and of samples near them and near silence, another pair at each place.
fn blocks(bits: u32, first: usize) -> ([i32; SAMPLES], [i32; SAMPLES])
    requires least { 1 ≤ bits }
    requires most { bits ≤ 32 }
    ensures acc { All (FitsBits bits) result.0 }
    ensures add { All (FitsBits bits) result.1 }
{
    let least = clamp_bits(i64::MIN, bits);
    let greatest = clamp_bits(i64::MAX, bits);
    let samples = [least, least / 2, -2, -1, 0, 1, greatest / 2, greatest];
    let mut acc = [0; SAMPLES];
    let mut add = [0; SAMPLES];
    for at in 0..SAMPLES {
        let pair = first % 64 + at;
        acc[at] = clamp_bits(i64::from(samples[pair % 8]), bits);
        add[at] = clamp_bits(i64::from(samples[pair / 8 % 8]), bits);
    }
    (acc, add)
}

// Whether a front of this length is mixed as the plain sums say, and the rest stays.
fn is_mixed(bits: u32, least: i32, greatest: i32, length: usize) -> bool {
    if bits == 0 || bits > 32 {
        return false;
    }
    let (before, add) = blocks(bits, length);
    let front = length.min(SAMPLES);
    let mut acc = before;
    mix_into(&mut acc[..front], &add[..front], bits);
    for at in 0..SAMPLES {
        let sum = plain_sum(before[at], add[at], least, greatest);
        if acc[at] != if at < front { sum } else { before[at] } {
            return false;
        }
    }
    true
}

#[test]
fn sums_are_the_plain_ones_at_each_length(rt: HostRuntime) {
    for row in 0..164usize {
        let (bits, least, greatest) = WIDTHS[row % 4];
        assert!(rt;
            is_mixed(bits, least, greatest, row / 4),
            "{bits} bits, {} samples",
            row / 4
        );
    }
}
