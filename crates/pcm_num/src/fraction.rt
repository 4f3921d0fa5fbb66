//! Fractions of two rates.
ghost use Rattle.std.specs.Prelude.{◌<◌};
ghost use Rattle.std.specs.Int.{IsGcd};
ghost use Rattle.pcm_num.specs.Fraction.{HasCommonFactor};

/// The fraction `src` over `dst` in lowest terms.
pub fn reduce(src: u32, dst: u32) -> (u32, u32)
    requires src_above { 0 < src }
    requires dst_above { 0 < dst }
    ensures same { HasCommonFactor src dst result.0 result.1 }
    ensures lowest { IsGcd result.0 result.1 1 }
    ensures src_above { 0 < result.0 }
    ensures dst_above { 0 < result.1 }
{
    let divisor = gcd(src, dst);
    (src / divisor, dst / divisor)
}

// Euclid's algorithm, by remainders.
fn gcd(a: u32, b: u32) -> u32
    requires { 0 < a }
    ensures divisor { IsGcd a b result }
    ensures above { 0 < result }
{
    let mut x = a;
    let mut y = b;
    while y != 0 {
        let rest = x % y;
        x = y;
        y = rest;
    }
    x
}
