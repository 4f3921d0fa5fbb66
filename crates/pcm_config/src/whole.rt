//! What is settled, put together, and what is judged of the whole.

ghost use Rattle.std.specs.Prelude.{◌≡◌};
ghost use Rattle.pcm_desk.specs.Device.{HasRates};
ghost use Rattle.pcm_config.specs.Configs.{can_hold, can_mix, config_with, has_capture, has_slots};

use crate::files::is_named;
use crate::hardware::Hardware;
use crate::slots::Slots;
use crate::{Config, Container, FilePaths, Name};
use pcm_desk::{Device, MIX_FRAMES};
use pcm_feeder::Tables;
use pcm_oss::SLOTS;
use pcm_wave::is_wave_format;

// All that is settled, put together.
pub(crate) fn config_with(
    hardware: Hardware,
    capture: Option<Name>,
    slots: Slots,
    files: FilePaths,
    tables: Tables,
) -> Config
    ensures { result ≡ config_with hardware capture slots files tables }
{
    Config {
        device: Device {
            settings: hardware.settings,
            mix: slots.mix,
            block_frames: hardware.block_frames,
            ring_frames: hardware.ring_frames,
            play_slots: slots.play,
            record_slots: slots.recording,
            map_slots: slots.mapped,
            quality: slots.quality,
        },
        container: hardware.container,
        capture,
        files,
        tables,
    }
}

// Whether a file of the container's form can have the device's frames.
pub(crate) fn can_hold(config: &Config) -> bool
    ensures { result ≡ can_hold config.now.container config.now.device.settings }
{
    let settings = config.device.settings;
    match config.container {
        Container::Raw => true,
        Container::Wav => is_wave_format(settings.format) && settings.frame_bytes() % 2 == 0,
    }
}

// Whether the file that is recorded from is there, if there is one.
pub(crate) fn has_capture(config: &Config) -> bool
    ensures { result ≡ has_capture config.now.files config.now.capture }
{
    match &config.capture {
        Some(name) => is_named(config.files.as_slice(), name.as_str()),
        None => true,
    }
}

// Whether an interrupt mixes no more frames than it may.
pub(crate) fn can_mix(device: Device) -> bool
    requires { HasRates device }
    ensures { result ≡ can_mix device }
{
    device.mix_frames() <= u64::from(MIX_FRAMES)
}

// Whether the mix has a slot for each channel that plays and for each with a mapped area.
pub(crate) fn has_slots(device: Device) -> bool
    ensures { result ≡ has_slots device }
{
    u64::from(device.play_slots) + u64::from(device.map_slots) <= SLOTS as u64
}
