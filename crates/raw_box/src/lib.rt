//! A `Box` as C holds it: one raw pointer, outside of Rust's ownership.
//! What stands there, and the right to free it, go with the pointer.
#![tactic(auto)]

mod raw;

pub use raw::RawBox;
