//! What is kept of the channels of a device, of its bus and of its ring, as bytes, and all of them as these bytes tell.
//! Channels of one device that are ready are known by their bytes.
#![tactic(auto)]

mod fault;
mod front;
mod map;
mod output;
mod parent;
mod past;
mod path;
mod planned;
mod play;
mod record;
mod saved;
mod slots;

pub use fault::StateFault;
pub use front::{load_row, part};
pub use parent::{load_parent, parent_size, save_parent};
pub use saved::{STATE_MOST, Saved, Told};
