//! A chain: the boxes of a rack, driven by a plan. It takes bytes out of a ring and gives frames of the device.
//! What it gives is what the plan makes of all frames that it has eaten, in whatever pieces they came.
#![tactic(auto)]

mod chain;
mod counts;
mod past;
mod stages;
mod staging;

pub use chain::{Chain, ChainOf, PUSHED_FRAMES, Pulled, Pushed};
pub use past::{PAST_SAMPLES, plan_past};
