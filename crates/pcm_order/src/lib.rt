//! Whether a book that came from outside is in order: its counts are such as events leave them.
//! Each answer is yes just where all that is said of such a book holds.
#![tactic(auto)]

mod map;
mod opening;
mod play;
mod record;

pub use map::map_is_in_order;
pub use opening::is_rate;
pub use play::play_is_in_order;
pub use record::record_is_in_order;
