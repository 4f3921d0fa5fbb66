//! What a configuration settles of the mix.

ghost use Rattle.std.specs.Prelude.{◌≡◌, IfOk};
ghost use Rattle.pcm_feeder.specs.Limits.{IsRate};
ghost use Rattle.pcm_config.specs.Lookups.{members_seen};
ghost use Rattle.pcm_config.specs.Values.{mix_in};

use crate::layout::layout_in;
use crate::number::{NumberRow, number_in};
use crate::{ConfigPlace, ConfigRefusal};
use pcm_format::{RATE_LEAST, RATE_MOST, Settings};
use toml::Table;

// What a table settles of the mix over a device with these settings, which stand where it says nothing.
#[tactic(auto, unfolding(crate::specs::Values::mix_in))]
pub(crate) fn mix_in(device: Settings, vchans: Option<&Table>) -> Result<Settings, ConfigRefusal>
    requires rate { IsRate device.rate }
    ensures value { result ≡ mix_in device (members_seen vchans.entry) }
    ensures rate { IfOk result (λ mix. IsRate mix.rate) }
{
    let row = NumberRow {
        place: ConfigPlace::VchansRate,
        least: RATE_LEAST,
        most: RATE_MOST,
        usual: device.rate,
    };
    let rate = number_in(vchans, row)?;
    let layout = layout_in(vchans, ConfigPlace::VchansChannels, device.layout)?;
    Ok(Settings {
        format: device.format,
        layout,
        rate,
    })
}
