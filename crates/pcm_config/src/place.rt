//! The places of a configuration.

ghost use Rattle.std.specs.Prelude.{◌≡◌};

/// Where a fault of a configuration stands.
#[derive(Clone, Copy, Debug, PartialEq, Eq)]
pub enum ConfigPlace {
    /// The whole text, or a key at its top.
    Top,
    /// The table of what is played on.
    Device,
    /// The table of the channels of clients.
    Vchans,
    /// The table of files by their names.
    Files,
    /// The tables of filters.
    Tables,
    /// The tables of the equaliser's sections.
    Eq,
    /// The sample format of the device.
    DeviceFormat,
    /// The samples of a frame of the device.
    DeviceChannels,
    /// The frames of the device per second.
    DeviceRate,
    /// The frames of a block of the device.
    DeviceHwBlock,
    /// The blocks of the device's ring.
    DeviceHwBlocks,
    /// The form of the file that is played to.
    DeviceContainer,
    /// The name of the file that is recorded from.
    DeviceCapture,
    /// How many channels play.
    VchansPlay,
    /// How many channels record.
    VchansRecord,
    /// How rates are converted.
    VchansQuality,
    /// The frames of the mix per second.
    VchansRate,
    /// The samples of a frame of the mix.
    VchansChannels,
    /// How many channels have a mapped area.
    VchansMapped,
}

impl ConfigPlace {
    ghost use Rattle.pcm_config.specs.Places.{key_of, place_word};

    /// The words that name the place: its table, and its key in that.
    pub fn word(self) -> &'static str
        ensures { result.now ≡ place_word self }
    {
        match self {
            ConfigPlace::Top => "top",
            ConfigPlace::Device => "device",
            ConfigPlace::Vchans => "vchans",
            ConfigPlace::Files => "files",
            ConfigPlace::Tables => "tables",
            ConfigPlace::Eq => "eq",
            ConfigPlace::DeviceFormat => "device.format",
            ConfigPlace::DeviceChannels => "device.channels",
            ConfigPlace::DeviceRate => "device.rate",
            ConfigPlace::DeviceHwBlock => "device.hw_block",
            ConfigPlace::DeviceHwBlocks => "device.hw_blocks",
            ConfigPlace::DeviceContainer => "device.container",
            ConfigPlace::DeviceCapture => "device.capture",
            ConfigPlace::VchansPlay => "vchans.play",
            ConfigPlace::VchansRecord => "vchans.record",
            ConfigPlace::VchansQuality => "vchans.quality",
            ConfigPlace::VchansRate => "vchans.rate",
            ConfigPlace::VchansChannels => "vchans.channels",
            ConfigPlace::VchansMapped => "vchans.mapped",
        }
    }

    /// The key at which the place stands in its table. The top stands in none.
    pub fn key(self) -> &'static str
        ensures { result.now ≡ key_of self }
    {
        match self {
            ConfigPlace::Top => "",
            ConfigPlace::Device => "device",
            ConfigPlace::Vchans => "vchans",
            ConfigPlace::Files => "files",
            ConfigPlace::Tables => "tables",
            ConfigPlace::Eq => "eq",
            ConfigPlace::DeviceFormat => "format",
            ConfigPlace::DeviceChannels => "channels",
            ConfigPlace::DeviceRate => "rate",
            ConfigPlace::DeviceHwBlock => "hw_block",
            ConfigPlace::DeviceHwBlocks => "hw_blocks",
            ConfigPlace::DeviceContainer => "container",
            ConfigPlace::DeviceCapture => "capture",
            ConfigPlace::VchansPlay => "play",
            ConfigPlace::VchansRecord => "record",
            ConfigPlace::VchansQuality => "quality",
            ConfigPlace::VchansRate => "rate",
            ConfigPlace::VchansChannels => "channels",
            ConfigPlace::VchansMapped => "mapped",
        }
    }
}
