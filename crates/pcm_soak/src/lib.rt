//! Long scripts for endurance, each made from one number.
//! A number always makes the same script, whose events fit the device of a run without a configuration.
#![tactic(auto)]

mod draws;
mod events;
mod laws;
mod limits;
mod script;
mod tally;

pub use laws::{soak_scripts_fit, some_numbers_draw_so};
pub use limits::{DRAWN_EVENTS, INLINE_BYTES, SOAK_EVENTS, SOAK_FRAMES};
pub use script::soak_script;
pub use tally::Tally;
