//! What a configuration settles of the device.

ghost use Rattle.std.specs.Prelude.{◌≡◌, IfOk};
ghost use Rattle.pcm_feeder.specs.Limits.{IsRate};
ghost use Rattle.pcm_config.specs.Lookups.{members_seen};
ghost use Rattle.pcm_config.specs.Rows.{container_named, container_row, format_row};
ghost use Rattle.pcm_config.specs.Values.{IsHardware, hardware_in, settings_in, settled};

use crate::fault::required;
use crate::layout::layout_in;
use crate::lookup::text_at;
use crate::number::{NumberRow, number_in};
use crate::{ConfigKind, ConfigPlace, ConfigRefusal, Container};
use pcm_format::{Format, Layout, RATE_LEAST, RATE_MOST, Settings};
use toml::Table;

// Frames per second.
pub(crate) const RATE: NumberRow = NumberRow {
    place: ConfigPlace::DeviceRate,
    least: RATE_LEAST,
    most: RATE_MOST,
    usual: 48000,
};

// Frames of a block.
pub(crate) const BLOCK: NumberRow = NumberRow {
    place: ConfigPlace::DeviceHwBlock,
    least: 1,
    most: 4096,
    usual: 256,
};

// Blocks of the ring.
pub(crate) const BLOCKS: NumberRow = NumberRow {
    place: ConfigPlace::DeviceHwBlocks,
    least: 2,
    most: 64,
    usual: 4,
};

// What is settled of the device by itself.
#[derive(Clone, Copy)]
pub(crate) struct Hardware {
    pub(crate) settings: Settings,
    pub(crate) block_frames: u32,
    pub(crate) ring_frames: u32,
    pub(crate) container: Container,
}

// What a table settles of the device by itself.
#[tactic(auto, unfolding(crate::specs::Values::hardware_in))]
pub(crate) fn hardware_in(device: Option<&Table>) -> Result<Hardware, ConfigRefusal>
    ensures value { result ≡ hardware_in (members_seen device.entry) }
    ensures limits { IfOk result IsHardware }
{
    let settings = settings_in(device)?;
    let block_frames = number_in(device, BLOCK)?;
    let blocks = number_in(device, BLOCKS)?;
    let container = container_in(device)?;
    Ok(Hardware {
        settings,
        block_frames,
        ring_frames: block_frames * blocks,
        container,
    })
}

#[tactic(auto, unfolding(crate::specs::Values::settings_in))]
fn settings_in(device: Option<&Table>) -> Result<Settings, ConfigRefusal>
    ensures value { result ≡ settings_in (members_seen device.entry) }
    ensures rate { IfOk result (λ settings. IsRate settings.rate) }
{
    let format = format_in(device)?;
    let layout = layout_in(device, ConfigPlace::DeviceChannels, Layout::Two)?;
    let rate = number_in(device, RATE)?;
    Ok(Settings {
        format,
        layout,
        rate,
    })
}

fn format_in(device: Option<&Table>) -> Result<Format, ConfigRefusal>
    ensures { result ≡ settled format_row (members_seen device.entry) }
{
    let place = ConfigPlace::DeviceFormat;
    match text_at(device, place)? {
        None => Ok(Format::S16Le),
        Some(word) => required(ConfigKind::Name, place, Format::from_name(word.as_bytes())),
    }
}

fn container_in(device: Option<&Table>) -> Result<Container, ConfigRefusal>
    ensures { result ≡ settled container_row (members_seen device.entry) }
{
    let place = ConfigPlace::DeviceContainer;
    match text_at(device, place)? {
        None => Ok(Container::Raw),
        Some(word) => required(ConfigKind::Name, place, container_named(word)),
    }
}

// The form of a file that a word names.
fn container_named(word: &str) -> Option<Container>
    ensures { result ≡ container_named word.now }
{
    match word {
        "raw" => Some(Container::Raw),
        "wav" => Some(Container::Wav),
        _ => None,
    }
}
