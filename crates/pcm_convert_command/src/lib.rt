//! The conversion of a wave into another file: its header, its body at other settings block by block, and its padding.
//! The file is the one of the definitions, or the front of it where a write fails.
#![tactic(auto)]

mod convert;

pub use convert::convert_wave;
