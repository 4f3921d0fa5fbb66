//! The sets of a configuration's numbers.

ghost use Rattle.std.specs.Prelude.{◌≡◌};
ghost use Rattle.pcm_config.specs.Rows.{range_at};

use crate::ConfigPlace;
use crate::hardware::{BLOCK, BLOCKS, RATE};
use crate::slots::{MAPPED, PLAY, QUALITY, RECORDING};

/// The least and the greatest number that may stand at a place, where all between them may too. A rate of the mix is one that a device
/// may have.
pub fn range_at(place: ConfigPlace) -> Option<(u32, u32)>
    ensures { result ≡ range_at place }
{
    let row = match place {
        ConfigPlace::DeviceRate | ConfigPlace::VchansRate => RATE,
        ConfigPlace::DeviceHwBlock => BLOCK,
        ConfigPlace::DeviceHwBlocks => BLOCKS,
        ConfigPlace::VchansPlay => PLAY,
        ConfigPlace::VchansRecord => RECORDING,
        ConfigPlace::VchansQuality => QUALITY,
        ConfigPlace::VchansMapped => MAPPED,
        _ => return None,
    };
    Some((row.least, row.most))
}
