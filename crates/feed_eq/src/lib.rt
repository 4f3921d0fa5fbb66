//! The equaliser of a chain: sections of two poles and two zeros, one after another, in whole numbers.
//! It gives a frame for each frame that it eats, and keeps the last two of its input and of each section's outputs.
#![tactic(auto)]

mod eq;
mod equaliser;
mod lane;
mod pass;

pub use eq::EqFeeder;
