//! The arithmetic of sample values and rates: limits, rounding down, fractions.
//! Each function equals its formula in `specs/`.
#![tactic(auto)]

mod division;
mod fraction;
mod limit;
mod reciprocal;
mod scaling;
mod shift;

pub use division::quotient;
pub use fraction::reduce;
pub use limit::clamp_bits;
pub use reciprocal::Reciprocal;
pub use scaling::mul_div;
pub use shift::floor_shift;
