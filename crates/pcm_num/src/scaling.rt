//! A count times a fraction of rates: quotient and remainder.
ghost use Rattle.std.specs.Prelude.{◌≡◌, ◌<◌, ◌*◌, ◌/◌, ◌%◌, ◌^◌};

/// `k` times `src` divided by `dst`, rounded down, and the remainder.
pub fn mul_div(k: u64, src: u32, dst: u32) -> (u64, u32)
    requires count { k < 2 ^ 31 }
    requires above { 0 < dst }
    ensures quotient { result.0 ≡ k * src / dst }
    ensures remainder { result.1 ≡ k * src % dst }
{
    let product = k * u64::from(src);
    let dst = u64::from(dst);
    (product / dst, (product % dst) as u32)
}
