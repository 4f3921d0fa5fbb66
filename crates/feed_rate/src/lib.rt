//! A change of rate, whatever makes an output of the frames around it.
//! The counts, the walk from output to output and what is kept between feeds are here, once for all interpolators.
#![tactic(auto)]

mod fitted;
mod interpolator;
mod point;
mod rate_feeder;

pub use interpolator::Interpolator;
pub use point::Point;
pub use rate_feeder::RateFeeder;
