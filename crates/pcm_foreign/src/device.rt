//! A device, the settings of a stream, and a way, each made from numbers.

ghost use Rattle.std.specs.Prelude.{◌≡◌, IfSome};
ghost use Rattle.pcm_desk.specs.Device.{HasRates};
ghost use Rattle.pcm_feeder.specs.Limits.{IsRate};
ghost use Rattle.pcm_foreign.specs.Devices.{KeepsLimits, device_from, device_with, has_limits, is_rate, or_usual, slots_fit, stream_settings, way_from, within_limits};

use pcm_desk::{Device, MIX_FRAMES, QUALITY_MOST, RING_FRAMES};
use pcm_format::{Format, Layout, RATE_LEAST, RATE_MOST, Settings};
use pcm_oss::{SLOTS, Way};

/// A device as numbers.
#[repr(C)]
#[derive(Clone, Copy, Debug, PartialEq, Eq)]
pub struct DeviceNumbers {
    /// The sample format by its code, as `SNDCTL_DSP_SETFMT` has it.
    pub format: u32,
    /// Samples of a frame of the device.
    pub channels: u32,
    /// Frames per second of the device.
    pub rate: u32,
    /// Samples of a frame of the mix, or 0 for as many as the device has.
    pub mix_channels: u32,
    /// Frames per second of the mix, or 0 for as many as the device has.
    pub mix_rate: u32,
    /// Frames of the device's ring.
    pub ring_frames: u32,
    /// How many channels can play at once.
    pub play_slots: u32,
    /// How many channels can record at once.
    pub record_slots: u32,
    /// How many channels can have a mapped area at once.
    pub map_slots: u32,
    /// How the rates of clients are converted: 0 to `QUALITY_MOST`.
    pub quality: u32,
}

/// The device of these numbers, if an engine can have it. An interrupt may take as many frames as the ring has.
#[tactic(auto, unfolding(crate::specs::Devices::device_from))]
pub fn device_from(numbers: &DeviceNumbers) -> Option<Device>
    ensures value { result ≡ device_from numbers.now }
    ensures limits { IfSome result KeepsLimits }
{
    let DeviceNumbers {
        format,
        channels,
        rate,
        ..
    } = *numbers;
    let settings = settings_from(format, channels, rate)?;
    let mix_channels = or_usual(numbers.mix_channels, channels);
    let mix_rate = or_usual(numbers.mix_rate, rate);
    let mix = settings_from(format, mix_channels, mix_rate)?;
    within_limits(device_with(numbers, settings, mix))
}

// A number, or the usual one where it is 0.
fn or_usual(number: u32, usual: u32) -> u32
    ensures { result ≡ or_usual number usual }
{
    if number == 0 { usual } else { number }
}

// These settings, and what else the numbers say.
fn device_with(numbers: &DeviceNumbers, settings: Settings, mix: Settings) -> Device
    ensures { result ≡ device_with numbers.now settings mix }
{
    Device {
        settings,
        mix,
        block_frames: numbers.ring_frames,
        ring_frames: numbers.ring_frames,
        play_slots: numbers.play_slots,
        record_slots: numbers.record_slots,
        map_slots: numbers.map_slots,
        quality: numbers.quality,
    }
}

// The device, if it is within the limits of a run.
fn within_limits(device: Device) -> Option<Device>
    requires rates { HasRates device }
    requires block { device.block_frames ≡ device.ring_frames }
    ensures value { result ≡ within_limits device }
    ensures limits { IfSome result KeepsLimits }
{
    if has_limits(&device) {
        Some(device)
    } else {
        None
    }
}

// Whether what a device has beside its rates is within the limits of a run.
fn has_limits(device: &Device) -> bool
    requires { HasRates device.now }
    ensures { result ≡ has_limits device.now }
{
    1 <= device.ring_frames
        && device.ring_frames <= RING_FRAMES
        && device.mix_frames() <= u64::from(MIX_FRAMES)
        && slots_fit(device)
        && device.quality <= QUALITY_MOST
}

// Whether there are slots for all channels at once, those that are mixed and those that record.
fn slots_fit(device: &Device) -> bool
    ensures { result ≡ slots_fit device.now }
{
    let most = SLOTS as u64;
    u64::from(device.play_slots) + u64::from(device.map_slots) <= most
        && u64::from(device.record_slots) <= most
}

/// The settings of a stream with this code of a format, this many channels and this rate in frames per second.
#[tactic(auto, unfolding(crate::specs::Devices::stream_settings))]
pub fn settings_from(format: u32, channels: u32, rate: u32) -> Option<Settings>
    ensures value { result ≡ stream_settings format channels rate }
    ensures rate { IfSome result (λ settings. IsRate settings.rate) }
{
    let format = Format::from_code(format)?;
    let layout = Layout::of(channels)?;
    if !is_rate(rate) {
        return None;
    }
    Some(Settings {
        format,
        layout,
        rate,
    })
}

/// Whether a stream can have this many frames per second.
pub fn is_rate(rate: u32) -> bool
    ensures { result ≡ is_rate rate }
{
    RATE_LEAST <= rate && rate <= RATE_MOST
}

/// The way of a number: 0 plays, 1 records, and 2 has a mapped area.
pub fn way_from(way: u32) -> Option<Way>
    ensures { result ≡ way_from way }
{
    match way {
        0 => Some(Way::Play),
        1 => Some(Way::Record),
        2 => Some(Way::Map),
        _ => None,
    }
}
