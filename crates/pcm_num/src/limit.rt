//! The limit of a sample to a number of bits.
ghost use Rattle.std.specs.Prelude.{◌≡◌, ◌≤◌, ℤ};
ghost use Rattle.pcm_num.specs.Limit.{clamped, FitsBits, distance};

/// The nearest sample that `bits` bits can hold.
pub fn clamp_bits(x: i64, bits: u32) -> i32
    requires least { 1 ≤ bits }
    requires most { bits ≤ 32 }
    ensures value { result ≡ clamped bits x }
    ensures fits { FitsBits bits result }
    ensures nearest { (other : ℤ) → FitsBits bits other → distance x result ≤ distance x other }
{
    let half = 1i64 << (bits - 1);
    x.clamp(-half, half - 1) as i32
}
