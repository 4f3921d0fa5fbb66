//! A change of rate by the line between two input frames.
//! Each output lies on the line from the frame under it to the next, each sample rounded down.
#![tactic(auto)]

mod blend;
mod linear;
mod pairs;

pub use linear::LinearFeeder;
