//! Lists as contracts see them: those that are read, and then only lent, and those of a fixed length that events fill.
//! Nobody who has one of either kind can get at its allocator.
#![tactic(auto)]

mod fixed;
mod sequence;

pub use fixed::Fixed;
pub use sequence::Sequence;
