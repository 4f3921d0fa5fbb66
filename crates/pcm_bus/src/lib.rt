//! The way from the channels that play to the device: their mix, the chain that makes the device's frames of it, and the ring that takes these.
#![tactic(auto)]

mod bus;
mod handover;
mod mix;

pub use bus::BusOf;
pub use mix::silent_ring;
