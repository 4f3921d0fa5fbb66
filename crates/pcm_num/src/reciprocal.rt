//! Division by a divisor that stays the same, as a product.

ghost use Rattle.std.specs.Prelude.{◌≡◌, ◌<◌, ◌*◌, ◌/◌, ◌^◌};
ghost use Rattle.pcm_num.specs.Reciprocal.{reciprocal_of};

/// A divisor between 32 and 2 to the power 18, and the factor that stands for its reciprocal.
#[derive(Clone, Copy, Debug, PartialEq, Eq)]
pub struct Reciprocal {
    divisor: u32,
    factor: u64,
    ghost least: { 32 < divisor },
    ghost most: { divisor < 2 ^ 18 },
    ghost factor_is: { factor ≡ reciprocal_of divisor },
}

impl Reciprocal {
    /// Takes the reciprocal, by the one division that is left.
    pub fn of(divisor: u32) -> Reciprocal
        requires least { 32 < divisor }
        requires most { divisor < 2 ^ 18 }
        ensures { result.divisor ≡ divisor }
    {
        let factor = ((1u128 << 69) / u128::from(divisor) + 1) as u64;
        Reciprocal { divisor, factor }
    }

    /// The divisor.
    pub fn divisor(self) -> u32
        ensures { result ≡ self.divisor }
    {
        self.divisor
    }

    /// `n` divided by the divisor, rounded down, where the quotient is below 2 to the power 33.
    pub fn quotient(self, n: u64) -> u64
        requires { n < 2 ^ 33 * self.divisor }
        ensures { result ≡ n / self.divisor }
    {
        // The product is past n / divisor by less than one part of the divisor, and n / divisor lies
        // at least one such part below the next whole number.
        ((u128::from(n) * u128::from(self.factor)) >> 69) as u64
    }
}
