//! What is kept of a state, as rows of numbers, and numbers and samples as bytes.
//! What is loaded is what was put: no two states have one row, and no two rows the same bytes.
#![tactic(auto)]

mod codes;
mod groups;
mod held;
mod laws;
mod map;
mod mixer;
mod numbers;
mod opening;
mod play;
mod record;
mod samples;
mod slots;

pub use groups::{GROUP_NUMBERS, groups_from_row, groups_row};
pub use held::{held_from_number, held_number, load_held, put_held};
pub use laws::{bytes_tell_what_they_spell, rows_tell_what_has_them};
pub use map::{MAP_NUMBERS, map_from_row, map_row};
pub use mixer::{MIXER_NUMBERS, mixer_from_row, mixer_row};
pub use numbers::{load_numbers, put_numbers};
pub use opening::{OPENING_NUMBERS, opening_from_row, opening_row};
pub use play::{PLAY_NUMBERS, play_from_row, play_row};
pub use record::{RECORD_NUMBERS, record_from_row, record_row};
pub use samples::{load_samples, put_samples};
