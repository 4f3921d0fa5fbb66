//! A queue of bytes with a size: what a client or a device has not yet taken.
//! It loses no byte that it accepted, and takes memory only when it is made.
#![tactic(auto)]

mod ring;

pub use ring::ByteRing;
