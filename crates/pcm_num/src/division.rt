//! Counts of frames divided by a rate.
ghost use Rattle.std.specs.Prelude.{◌≡◌, ◌<◌, ◌/◌};

/// `n` divided by a rate, rounded down. A division of 128 bits takes several times as long as one of 64, which is enough for
/// the counts of all but very long streams.
pub fn quotient(n: u128, divisor: u32) -> u128
    requires { 0 < divisor }
    ensures { result ≡ n / divisor }
{
    match u64::try_from(n) {
        Ok(n) => u128::from(n / u64::from(divisor)),
        Err(_) => n / u128::from(divisor),
    }
}
