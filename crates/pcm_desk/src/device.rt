//! The device that all channels share, and which channel a descriptor holds.

ghost use Rattle.std.specs.Prelude.{◌≡◌, ◌^◌, ◌≤ℤ◌, pos};

use pcm_format::{Format, Layout, Settings};
use pcm_oss::Way;

/// The settings of an open that names none.
pub const OPENING: Settings = Settings {
    format: Format::U8,
    layout: Layout::One,
    rate: 8000,
};

/// The greatest quality of the converters between the rates of clients and mix: 0 holds the last frame, 1 interpolates on a line, and
/// from 2 on filters are used, where there are some.
pub const QUALITY_MOST: u32 = 4;

/// What is fixed of a device before the first event.
#[derive(Clone, Copy, Debug, PartialEq, Eq)]
pub struct Device {
    /// The frames that the device is given, and captures.
    pub settings: Settings,
    /// The frames that are mixed, of as many bits.
    pub mix: Settings,
    /// Frames that an interrupt takes where a script names no number.
    pub block_frames: u32,
    /// Frames of the device's ring.
    pub ring_frames: u32,
    /// How many channels can play at once.
    pub play_slots: u32,
    /// How many channels can record at once.
    pub record_slots: u32,
    /// How many channels can have a mapped area at once.
    pub map_slots: u32,
    /// How the rates of clients are converted: 0 to `QUALITY_MOST`.
    pub quality: u32,
}

impl Device {
    ghost use Rattle.pcm_desk.specs.Device.{HasRates, IsInLimits, is_straight, mix_frames, passed_for, unfiltered};
    ghost use Rattle.pcm_desk.specs.Usual.{usual_device};

    /// The device of a run without a configuration: 16 bits, stereo, 48 kHz, a ring of four blocks of 256 frames,
    /// four channels that play and four that record, none with a mapped area, and converters that draw lines.
    pub fn usual() -> Device
        ensures value { unfiltered result ≡ usual_device }
        ensures limits { IsInLimits (unfiltered result) }
    {
        let settings = Settings {
            format: Format::S16Le,
            layout: Layout::Two,
            rate: 48000,
        };
        Device {
            settings,
            mix: settings,
            block_frames: 256,
            ring_frames: 1024,
            play_slots: 4,
            record_slots: 4,
            map_slots: 0,
            quality: 1,
        }
    }

    /// Whether the device is given what is mixed as it is.
    pub fn is_straight(&self) -> bool
        ensures { result ≡ is_straight (unfiltered self.now) }
    {
        let (mix, settings) = (self.mix, self.settings);
        mix.layout.channels() == settings.layout.channels()
            && mix.rate == settings.rate
            && mix.format.bits() == settings.format.bits()
    }

    /// How many frames an interrupt mixes at most.
    pub fn mix_frames(&self) -> u64
        requires { HasRates self.now }
        ensures { result ≡ mix_frames (unfiltered self.now) }
    {
        let ring = u64::from(self.ring_frames);
        let (mix, rate) = (u64::from(self.mix.rate), u64::from(self.settings.rate));
        if rate == mix {
            ring
        } else {
            ring * mix / rate + 33
        }
    }

    /// How many frames of the mix have left the ring once the device has been given `handed` frames. It is below 0 until the silence that
    /// the ring began with has left it.
    pub fn passed(&self, handed: u64) -> i64
        requires rates { HasRates self.now }
        requires count { passed_for (unfiltered self.now) handed ≤ℤ pos (2 ^ 62) }
        ensures { result ≡ passed_for (unfiltered self.now) handed }
    {
        let frames = i128::from(handed) - i128::from(self.ring_frames);
        let (mix, rate) = (i128::from(self.mix.rate), i128::from(self.settings.rate));
        (frames * mix).div_euclid(rate) as i64
    }
}

/// The channel that an open descriptor holds.
#[derive(Clone, Copy, Debug, PartialEq, Eq)]
pub struct Held {
    pub way: Way,
    pub slot: usize,
}
