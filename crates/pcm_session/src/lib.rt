//! A session: an engine for a program of others, which brings its own bytes, call by call, and may ask anything.
//! What the engine can't take is refused here, and changes nothing; what it takes and accepts is one of its steps.
#![tactic(auto)]

mod calls;
mod events;
mod judge;
mod laws;
mod questions;
mod session;
mod state;

pub use calls::{
    ask_mixer, close, discard, interrupt, ioctl, join, open, poke, read, start, write,
};
pub use laws::{life_of_a_session, sessions_run_scripts};
pub use questions::{SettingsNumbers, SlotNumbers};
pub use session::SessionOf;
pub use state::load_fault_number;
