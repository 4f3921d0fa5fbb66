//! What a configuration settles of the channels of clients.

ghost use Rattle.std.specs.Prelude.{◌≡◌, IfOk};
ghost use Rattle.pcm_feeder.specs.Limits.{IsRate};
ghost use Rattle.pcm_config.specs.Lookups.{members_seen};
ghost use Rattle.pcm_config.specs.Values.{AreSlots, slots_in};

use crate::mix::mix_in;
use crate::number::{NumberRow, number_in};
use crate::{ConfigPlace, ConfigRefusal};
use pcm_desk::QUALITY_MOST;
use pcm_format::Settings;
use pcm_oss::SLOTS;
use toml::Table;

// Channels that play.
pub(crate) const PLAY: NumberRow = NumberRow {
    place: ConfigPlace::VchansPlay,
    least: 1,
    most: SLOTS as u32,
    usual: 4,
};

// Channels that record.
pub(crate) const RECORDING: NumberRow = NumberRow {
    place: ConfigPlace::VchansRecord,
    least: 0,
    most: SLOTS as u32,
    usual: 4,
};

// How rates are converted.
pub(crate) const QUALITY: NumberRow = NumberRow {
    place: ConfigPlace::VchansQuality,
    least: 0,
    most: QUALITY_MOST,
    usual: 1,
};

// Channels with a mapped area.
pub(crate) const MAPPED: NumberRow = NumberRow {
    place: ConfigPlace::VchansMapped,
    least: 0,
    most: SLOTS as u32,
    usual: 0,
};

// How many channels play and record, how rates are converted, which frames are mixed, and how many channels have a mapped area.
#[derive(Clone, Copy)]
pub(crate) struct Slots {
    pub(crate) play: u32,
    pub(crate) recording: u32,
    pub(crate) quality: u32,
    pub(crate) mix: Settings,
    pub(crate) mapped: u32,
}

// What a table settles of the channels of clients over a device with these settings.
#[tactic(auto, unfolding(crate::specs::Values::slots_in))]
pub(crate) fn slots_in(device: Settings, vchans: Option<&Table>) -> Result<Slots, ConfigRefusal>
    requires rate { IsRate device.rate }
    ensures value { result ≡ slots_in device (members_seen vchans.entry) }
    ensures limits { IfOk result AreSlots }
{
    let play = number_in(vchans, PLAY)?;
    let recording = number_in(vchans, RECORDING)?;
    let quality = number_in(vchans, QUALITY)?;
    let mix = mix_in(device, vchans)?;
    let mapped = number_in(vchans, MAPPED)?;
    Ok(Slots {
        play,
        recording,
        quality,
        mix,
        mapped,
    })
}
