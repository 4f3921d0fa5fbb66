//! The last stage of a chain: samples of 32 bits at the bits of a format.
//! It gives a frame for each frame that it eats, each sample divided and rounded down.
#![tactic(auto)]

mod depth;

pub use depth::DepthFeeder;
