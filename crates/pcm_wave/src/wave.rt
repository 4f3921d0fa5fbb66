//! What a wave is, and why bytes aren't one.

ghost use Rattle.std.specs.Prelude.{◌≡◌};

use pcm_format::{Format, Layout, Settings};

/// The sound of a wave: its settings, and where its body stands among the bytes.
#[derive(Clone, Copy, Debug, PartialEq, Eq)]
pub struct Wave {
    pub format: Format,
    pub layout: Layout,
    /// Frames per second.
    pub rate: u32,
    /// The first byte of the body.
    pub at: usize,
    /// The bytes of the body. A part of a frame may stand at its end.
    pub len: u32,
}

impl Wave {
    ghost use Rattle.pcm_wave.specs.Waves.{settings_of};

    /// The settings of the frames.
    pub fn settings(&self) -> Settings
        ensures { result ≡ settings_of self.now }
    {
        Settings {
            format: self.format,
            layout: self.layout,
            rate: self.rate,
        }
    }
}

/// Why bytes are no wave that is read here. The first that a walk over the chunks meets counts.
#[derive(Clone, Copy, Debug, PartialEq, Eq)]
pub enum WaveFault {
    /// The bytes don't begin as a RIFF file of the form WAVE does.
    NotRiff,
    /// No "fmt " chunk stands before the "data" chunk.
    NoFormat,
    /// No "data" chunk is there.
    NoData,
    /// The samples aren't integer PCM, or the settings are outside the limits.
    Unsupported,
    /// A body passes the end of the bytes.
    Truncated,
}
