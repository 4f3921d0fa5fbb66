//! The mixer device: the volume of all that is mixed, and the volume and the mute of each slot.
#![tactic(auto)]

mod acceptance;
mod mixer_device;

pub use mixer_device::MixDev;
