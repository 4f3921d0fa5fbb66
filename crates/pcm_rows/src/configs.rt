//! Configurations: what is settled, and each refusal at least once.
#![tactic(auto, unfolding(crate::proofs::Computing::row))]

ghost use Rattle.std.specs.Prelude.{◌≡◌, ◌++◌, codes, Ok, [], ◌∷◌};
ghost use Rattle.pcm_config.specs.declared.fault.ConfigKind.TheVariants.{Capture, Coef, Container, Count, Key, Kind, Missing, Name, Range, Shape, Toml};
ghost use Rattle.pcm_config.specs.declared.place.ConfigPlace.TheVariants.{Device, DeviceCapture, DeviceChannels, DeviceContainer, DeviceFormat, DeviceHwBlock, DeviceHwBlocks, DeviceRate, Eq, Files, Tables, Top, Vchans, VchansChannels, VchansMapped, VchansPlay, VchansQuality, VchansRate, VchansRecord};
ghost use Rattle.pcm_config.specs.Configs.{config_read, usual_config};
ghost use Rattle.pcm_config.specs.Judgements.{fault_at};
ghost use Rattle.pcm_rows.specs.Calls.{times};
ghost use Rattle.pcm_rows.specs.Configurations.{config_in, config_of_filters, config_of_ring, config_of_sections, filter_of, filter_keyed, furthest, furthest_text, half_way, half_way_text, keyless_text, ring_text, rowless_text, section_keyed, wave_and_rowless_text, wave_with_keys, whole_config, whole_text, widest, widest_text};

/// All that may be settled, and nothing.
pub fn configuration_that_settles_all()
    ensures all { config_read whole_text ≡ Ok whole_config }
    ensures none { config_in "# nothing\n[files]\n[device]\n" ≡ Ok usual_config }
{}

/// What TOML doesn't read: no value, a key twice, a number beyond 64 bits, and bytes that aren't UTF-8.
pub fn configurations_that_are_no_toml()
    ensures value { config_in "[device]\nrate =\n" ≡ fault_at Toml Top }
    ensures twice { config_in "[files]\na = \"x\"\na = \"y\"\n" ≡ fault_at Toml Top }
    ensures beyond { config_in "[device]\nrate = 9223372036854775808\n" ≡ fault_at Toml Top }
    ensures bytes { config_read (35 ∷ 255 ∷ []) ≡ fault_at Toml Top }
{}

/// Keys that aren't there, and tables that are none, in the order in which they are judged.
pub fn keys_and_tables_of_a_configuration()
    ensures top { config_in "device = 1\nnosuch = 1\n" ≡ fault_at Key Top }
    ensures device { config_in "vchans = 1\ndevice = []\n" ≡ fault_at Kind Device }
    ensures vchans { config_in "files = 1\nvchans = 1\n" ≡ fault_at Kind Vchans }
    ensures files { config_in "files = 1\n[device]\nnosuch = 1\n" ≡ fault_at Kind Files }
    ensures filters { config_in "tables = 1\n[device]\nnosuch = 1\n" ≡ fault_at Kind Tables }
    ensures filter { config_in "tables = [1]\n[device]\nnosuch = 1\n" ≡ fault_at Kind Tables }
    ensures sections { config_in "eq = {}\ntables = []\n[device]\nnosuch = 1\n" ≡ fault_at Kind Eq }
    ensures device_key { config_in "vchans.nosuch = 1\n[device]\nnosuch = 1\n" ≡ fault_at Key Device }
    ensures filter_key { config_in "[device]\nrate = 1\n[[tables]]\ntaps = 2\n" ≡ fault_at Key Tables }
    ensures section_key { config_in "[device]\nrate = 1\n[[eq]]\nb3 = 1\n" ≡ fault_at Key Eq }
    ensures vchans_key { config_in "vchans.nosuch = 1\n[device]\nrate = 1\n" ≡ fault_at Key Vchans }
{}

/// A filter for any rates, and one for two.
pub fn filters_that_are_settled()
    ensures any { config_read half_way_text ≡ Ok (config_of_filters (half_way ∷ [])) }
    ensures both { config_read (widest_text ++ half_way_text) ≡ Ok (config_of_filters (widest ∷ half_way ∷ [])) }
    ensures none { config_in "tables = []\n" ≡ Ok usual_config }
{}

/// What is wrong with a filter, in the order in which it is judged.
pub fn filters_that_are_refused()
    ensures count { config_read (times 5 (codes "[[tables]]\n")) ≡ fault_at Count Tables }
    ensures no_shift { config_in "[[tables]]\nrows = 1\n" ≡ fault_at Missing Tables }
    ensures no_rows { config_in "[[tables]]\nshift = \"1\"\n" ≡ fault_at Missing Tables }
    ensures one_rate { config_read (filter_keyed "dst = 48000\n" "[[1, 1]]") ≡ fault_at Missing Tables }
    ensures kind { config_in "[[tables]]\nshift = 0\nrows = [[1], 1]\n" ≡ fault_at Kind Tables }
    ensures number { config_in "[[tables]]\nshift = 0\nrows = [[1.0]]\n" ≡ fault_at Kind Tables }
    ensures shift { config_in "[[tables]]\nshift = 31\nrows = []\n" ≡ fault_at Range Tables }
    ensures rate { config_read (filter_keyed "src = 0\ndst = 0\n" "[]") ≡ fault_at Range Tables }
    ensures no_row { config_read (filter_of "[]") ≡ fault_at Shape Tables }
    ensures odd { config_read (filter_of "[[99999999]]") ≡ fault_at Shape Tables }
    ensures unequal { config_read (filter_of "[[1, 1], [1, 1, 1, 1]]") ≡ fault_at Shape Tables }
    ensures coef { config_read (filter_of "[[16777217, 0]]") ≡ fault_at Coef Tables }
    ensures negative { config_read (filter_of "[[0, -16777217]]") ≡ fault_at Coef Tables }
    // A filter is judged wholly before the next, and all of them before the container.
    ensures first { config_read (filter_of "[[16777217, 0]]" ++ rowless_text) ≡ fault_at Coef Tables }
    ensures container { config_read wave_and_rowless_text ≡ fault_at Missing Tables }
{}

/// A section at its limits, and none.
pub fn sections_that_are_settled()
    ensures one { config_read furthest_text ≡ Ok (config_of_sections (furthest ∷ [])) }
    ensures none { config_in "eq = []\n" ≡ Ok usual_config }
{}

/// What is wrong with a section, in the order in which it is judged.
pub fn sections_that_are_refused()
    ensures count { config_read (times 5 keyless_text) ≡ fault_at Count Eq }
    ensures missing { config_read (section_keyed "shift = \"1\"\n" "") ≡ fault_at Missing Eq }
    ensures kind { config_read (section_keyed "shift = 0\n" "a2 = 1.0\n") ≡ fault_at Kind Eq }
    ensures least { config_read (section_keyed "shift = 0\n" "a2 = 536870913\n") ≡ fault_at Range Eq }
    ensures most { config_read (section_keyed "shift = 29\n" "a2 = 1\n") ≡ fault_at Range Eq }
    ensures coef { config_read (section_keyed "shift = 1\n" "a2 = 536870913\n") ≡ fault_at Coef Eq }
    ensures negative { config_read (section_keyed "shift = 1\n" "a2 = -536870913\n") ≡ fault_at Coef Eq }
    // A section is judged wholly before the next, the filters before all of them, and the container after them.
    ensures first { config_read (section_keyed "shift = 0\n" "a2 = 1\n" ++ keyless_text) ≡ fault_at Range Eq }
    ensures filter { config_read (keyless_text ++ rowless_text) ≡ fault_at Missing Tables }
    ensures container { config_read (wave_with_keys "format = \"s16be\"\n" ++ keyless_text) ≡ fault_at Missing Eq }
{}

/// A value of another kind is refused, whatever it holds.
pub fn kinds_of_the_device()
    ensures format { config_in "device.format = 1" ≡ fault_at Kind DeviceFormat }
    ensures channels { config_in "device.channels = \"2\"" ≡ fault_at Kind DeviceChannels }
    ensures rate { config_in "device.rate = 48000.0" ≡ fault_at Kind DeviceRate }
    ensures block { config_in "device.hw_block = true" ≡ fault_at Kind DeviceHwBlock }
    ensures blocks { config_in "device.hw_blocks = 1979-05-27" ≡ fault_at Kind DeviceHwBlocks }
    ensures container { config_in "device.container = [\"raw\"]" ≡ fault_at Kind DeviceContainer }
    ensures capture { config_in "device.capture = 1" ≡ fault_at Kind DeviceCapture }
{}

/// The same of the channels and the files.
pub fn kinds_of_channels_and_files()
    ensures play { config_in "vchans.play = \"4\"" ≡ fault_at Kind VchansPlay }
    ensures recording { config_in "vchans.record = 0.0" ≡ fault_at Kind VchansRecord }
    ensures quality { config_in "vchans.quality = {}" ≡ fault_at Kind VchansQuality }
    ensures rate { config_in "vchans.rate = \"24000\"" ≡ fault_at Kind VchansRate }
    ensures channels { config_in "vchans.channels = 1.0" ≡ fault_at Kind VchansChannels }
    ensures files { config_in "files.A = \"x\"\nfiles.b = 1\n" ≡ fault_at Kind Files }
{}

/// The words of the device, and how many channels a frame has.
pub fn words_and_channels_of_the_device()
    ensures format { config_in "device.format = \"S16LE\"" ≡ fault_at Name DeviceFormat }
    ensures container { config_in "device.container = \"wave\"" ≡ fault_at Name DeviceContainer }
    ensures three { config_in "device.channels = 3" ≡ fault_at Range DeviceChannels }
    ensures negative { config_in "device.channels = -2" ≡ fault_at Range DeviceChannels }
{}

/// Numbers of the device, one outside their sets at each end.
pub fn numbers_of_the_device()
    ensures rate_least { config_in "device.rate = 3999" ≡ fault_at Range DeviceRate }
    ensures rate_most { config_in "device.rate = 192001" ≡ fault_at Range DeviceRate }
    ensures block_least { config_in "device.hw_block = 0" ≡ fault_at Range DeviceHwBlock }
    ensures block_most { config_in "device.hw_block = 4097" ≡ fault_at Range DeviceHwBlock }
    ensures blocks_least { config_in "device.hw_blocks = 1" ≡ fault_at Range DeviceHwBlocks }
    ensures blocks_most { config_in "device.hw_blocks = 65" ≡ fault_at Range DeviceHwBlocks }
{}

/// Numbers of the channels, one outside their sets at each end.
pub fn numbers_of_the_channels()
    ensures play_least { config_in "vchans.play = 0" ≡ fault_at Range VchansPlay }
    ensures play_most { config_in "vchans.play = 17" ≡ fault_at Range VchansPlay }
    ensures record_least { config_in "vchans.record = -1" ≡ fault_at Range VchansRecord }
    ensures record_most { config_in "vchans.record = 17" ≡ fault_at Range VchansRecord }
    ensures quality_least { config_in "vchans.quality = -1" ≡ fault_at Range VchansQuality }
    ensures quality_most { config_in "vchans.quality = 5" ≡ fault_at Range VchansQuality }
    ensures rate_least { config_in "vchans.rate = 3999" ≡ fault_at Range VchansRate }
    ensures rate_most { config_in "vchans.rate = 192001" ≡ fault_at Range VchansRate }
    ensures three { config_in "vchans.channels = 3" ≡ fault_at Range VchansChannels }
    ensures negative { config_in "vchans.channels = -1" ≡ fault_at Range VchansChannels }
    ensures mapped_least { config_in "vchans.mapped = -1" ≡ fault_at Range VchansMapped }
    ensures mapped_most { config_in "vchans.mapped = 17" ≡ fault_at Range VchansMapped }
    ensures mixed_most { config_in "vchans.mapped = 13" ≡ fault_at Range VchansMapped }
{}

/// An interrupt mixes at most 262144 frames: 131072 * 95988 / 48000 and 33 are as many, and a rate more
/// makes 262146. At one rate they are those of the ring, of which the greatest has 262144 too.
pub fn mixed_frames_of_a_configuration()
    ensures most { config_read (ring_text "32" "95988") ≡ Ok (config_of_ring 32 95988) }
    ensures more { config_read (ring_text "32" "95989") ≡ fault_at Range VchansRate }
    ensures equal { config_read (ring_text "64" "48000") ≡ Ok (config_of_ring 64 48000) }
    ensures lower { config_read (ring_text "64" "47999") ≡ fault_at Range VchansRate }
{}

/// A file's name is 1 to 32 small letters, digits and `_`, and its path isn't empty.
pub fn names_of_files()
    ensures large { config_in "files.Room = \"x\"" ≡ fault_at Name Files }
    ensures dash { config_in "files.a-b = \"x\"" ≡ fault_at Name Files }
    ensures empty { config_in "files.\"\" = \"x\"" ≡ fault_at Name Files }
    ensures long { config_in "files.abcdefghijklmnopqrstuvwxyz0123456 = \"x\"" ≡ fault_at Name Files }
    ensures path { config_in "files.room = \"\"" ≡ fault_at Name Files }
{}

/// What is judged of the whole: a wave has a format of its own and an even frame, and the file that is recorded from is there.
pub fn containers_and_captures()
    ensures format { config_read (wave_with_keys "format = \"s16be\"\n" ++ codes "capture = \"room\"\n") ≡ fault_at Container DeviceContainer }
    ensures odd { config_read (wave_with_keys "format = \"s24le\"\nchannels = 1\n") ≡ fault_at Container DeviceContainer }
    ensures bytes { config_read (wave_with_keys "format = \"u8\"\nchannels = 1\n") ≡ fault_at Container DeviceContainer }
    ensures capture { config_in "[device]\ncapture = \"room\"\n[files]\nrooms = \"x\"\n" ≡ fault_at Capture DeviceCapture }
{}

/// The first fault that applies is reported: the values in their order, then the whole.
pub fn first_fault_of_a_configuration()
    ensures rate { config_in "[device]\ncontainer = 1\nrate = 1\nhw_block = 0\n" ≡ fault_at Range DeviceRate }
    ensures capture { config_in "[device]\ncapture = 1\n[vchans]\nplay = 0\n" ≡ fault_at Kind DeviceCapture }
    ensures play { config_in "[device]\ncapture = \"room\"\n[vchans]\nplay = 0\n[files]\nA = \"x\"\n" ≡ fault_at Range VchansPlay }
    ensures files { config_in "[device]\ncapture = \"room\"\n[files]\nA = \"x\"\n" ≡ fault_at Name Files }
{}
