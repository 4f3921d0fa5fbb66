//! The counts of a change of rate: how many input frames outputs use, and what frames allow.
//! They are exact for every two rates and every lookahead.
#![tactic(auto)]

mod laws;
mod rate;

pub use laws::counts_are_exact;
pub use rate::{Rate, UNCHANGED};
