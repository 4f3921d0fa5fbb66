//! The volume stage of a chain: each sample times the gain of its side.
//! It gives a frame for each frame that it eats, each product rounded down.
#![tactic(auto)]

mod volume;

pub use volume::VolumeFeeder;
