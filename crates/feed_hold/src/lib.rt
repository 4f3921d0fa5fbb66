//! A change of rate by the last input frame.
//! Each output is the frame under it, which is the same for as many outputs as begin within it.
#![tactic(auto)]

mod hold;

pub use hold::HoldFeeder;
