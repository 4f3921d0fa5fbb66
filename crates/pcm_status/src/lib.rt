//! What can be asked of an engine at any time: no question is a step, and none changes anything.
#![tactic(auto)]

mod limits;
mod ready;
mod replies;
mod status;
mod waits;

pub use limits::FRAMES_MOST;
pub use ready::{is_readable, is_writable};
pub use replies::reply_of;
pub use status::{ChannelStatus, RunStatus, SlotState, SlotStatus, client_status, slot_status};
pub use waits::frames_until;
