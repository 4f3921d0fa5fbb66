//! The run of a script that a number makes: the engine is stepped through its events, and one line reports their tally.
//! The line is the one of the number, and no event and no line takes memory.
#![tactic(auto)]

mod soak;
mod tally_line;

pub use soak::run_soak;
