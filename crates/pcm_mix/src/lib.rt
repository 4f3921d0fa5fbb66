//! Adds one block of samples to another, with a limit at each sample.
//! Sums never wrap: what passes the range of the bits stops at its end.
#![tactic(auto)]

mod lanes;
mod limits;
mod mix;

pub use mix::mix_into;
