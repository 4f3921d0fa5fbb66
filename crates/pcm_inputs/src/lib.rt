//! What a call asks for, and what it works on: its words, and the files that it reads and judges. A refusal is reported in
//! one line, which names the first fault.
#![tactic(auto)]

mod data_files;
mod ending;
mod fault;
mod inputs;
mod loaded;
mod reading;
mod refusals;
mod source;
mod words;

pub use ending::Ending;
pub use fault::{Fault, FileKind, usage_line};
pub use inputs::{Inputs, pool_from};
pub use reading::read_inputs;
pub use source::read_source;
pub use words::{Command, command_in};
