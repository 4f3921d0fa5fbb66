//! The first stage of a chain: frames of one channel layout in another, by weights.
//! It gives a frame for each frame that it eats, each sample a sum rounded down and limited.
#![tactic(auto)]

mod matrix;
mod weight;

pub use matrix::MatrixFeeder;
