//! Reads the text of a script, and gives its events.
//! A text is accepted exactly where every line is, and refused for its first fault.
#![tactic(auto)]

mod argument;
mod command;
mod draft;
mod fault;
mod hexadecimal;
mod limits;
mod line_event;
mod lines;
mod listed;
mod mixer;
mod names;
mod number;
mod reader;
mod request;
mod script;
mod words;

pub use fault::{Refusal, ScriptFault, ScriptKind};
pub use limits::TEXT_BYTES;
pub use line_event::LineEvent;
pub use names::{Command, Control, join_name, request_name, start_group_name, way_name, way_named};
pub use number::{DECIMAL_DIGITS, HEXADECIMAL_DIGITS, decimal_in, number_in};
pub use reader::script_of;
pub use request::{Named, REQUESTS, Setter, request_named};
pub use script::{Events, Script};
pub use words::first_words;
