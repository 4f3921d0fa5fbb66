//! Writes the text of a script, which the reader of scripts reads back as the same events.
#![tactic(auto)]

mod laws;
mod text;
mod words;

pub use laws::{lines_are_written_so, what_is_written_is_read_back};
pub use text::script_text;
