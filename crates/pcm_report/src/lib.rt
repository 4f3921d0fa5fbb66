//! The lines that state the replies to events, and the texts and numbers that lines are made of.
//! A line is written into bytes that the caller has, and takes no memory.
#![tactic(auto)]

mod line;
mod texts;

pub use line::{LINE_BYTES, write_line};
pub use texts::{DIGITS, put_number, put_text};
