//! What describes a stream of frames.

ghost use Rattle.std.specs.Prelude.{◌≡◌};

use crate::{Format, Layout};

/// The least number of frames per second.
pub const RATE_LEAST: u32 = 4000;

/// The greatest number of frames per second.
pub const RATE_MOST: u32 = 192000;

/// The sample format, the channels and the frames per second of a stream.
#[derive(Clone, Copy, Debug, PartialEq, Eq)]
pub struct Settings {
    pub format: Format,
    pub layout: Layout,
    pub rate: u32,
}

impl Settings {
    ghost use Rattle.pcm_format.specs.Frames.{frame_bytes};

    /// The bytes of a frame.
    pub fn frame_bytes(&self) -> usize
        ensures { result ≡ frame_bytes self.now }
    {
        self.layout.channels() * self.format.bytes()
    }
}
