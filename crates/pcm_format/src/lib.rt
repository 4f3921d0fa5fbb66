//! The types of sound that every layer uses: sample formats, channel layouts, settings, and lists of bytes.
//! A sample is defined by its value and its one spelling, for all fourteen formats at once.
#![tactic(auto)]

mod bytes;
mod depth;
mod format;
mod frame;
mod laws;
mod layout;
mod sample;
mod settings;

pub use bytes::Bytes;
pub use depth::{at_depth, bring_to_full, put_at_depth};
pub use format::Format;
pub use frame::{load_frames, spell_frames};
pub use laws::{load_loses_nothing, silence_is_zero, spelling_is_unique, tables_are_one_to_one};
pub use layout::{Layout, Position};
pub use sample::{load, spell, store};
pub use settings::{RATE_LEAST, RATE_MOST, Settings};
