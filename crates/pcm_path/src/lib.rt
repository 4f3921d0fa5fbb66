//! The path between a client and the device: the ring where the client's bytes wait, and the chain that they go through.
//! Whichever way the sound goes, an opening begins on it and a run ends on it in the same way.
#![tactic(auto)]

mod path;
mod slots;

pub use path::{PathOf, plan_of};
pub use slots::{Channel, Made};
