//! What all clients of a device share: the slots, the mix, and the ring that the device takes from.
//! An interrupt gives the oldest frames to the device, mixes what as many new ones need from all slots in order, and makes these of it.
#![tactic(auto)]

mod parent;
mod recorder;
mod settler;
mod slots;
mod starter;
mod walk;

pub use parent::{Parent, ParentOf};
