//! The body of a wave at other settings: another format, other channels, another rate.
//! Block by block it is exactly what the body becomes as a whole.
#![tactic(auto)]

mod conversion;
mod count;
mod laws;

pub use conversion::{BLOCK, Conversion, ConversionOf};
pub use count::converted_frames;
pub use laws::blocks_make_the_body;
