//! A number by which a device and its filters are known again.
//! It is mixed of each number that they have, one after another.
#![tactic(auto)]

mod digest;

pub use digest::digest_of;
