//! What a script is.

use pcm_format::Bytes;
use pcm_oss::Event;
use pcm_sequence::Sequence;

/// A list of events.
pub type Events = Sequence<Event>;

/// The events of a text, the bytes that its writes and pokes name, and the frames of all its interrupts.
#[derive(Debug, Drop)]
pub struct Script {
    pub events: Events,
    pub inline_bytes: Bytes,
    pub device_frames: u32,
}
