//! Reads a configuration, one judgement after another.

ghost use Rattle.std.specs.Prelude.{◌≡◌, IfOk, option_copied};
ghost use Rattle.pcm_desk.specs.Device.{IsInLimits};
ghost use Rattle.toml.specs.View.{table_view};
ghost use Rattle.pcm_config.specs.declared.fault.ConfigKind.TheVariants.{Toml};
ghost use Rattle.pcm_config.specs.declared.place.ConfigPlace.TheVariants.{Top};
ghost use Rattle.pcm_config.specs.Answers.{Reads};
ghost use Rattle.pcm_config.specs.Configs.{AreInOrder, HasCapture, IsHeld, config_read, device_seen, document_of};
ghost use Rattle.pcm_config.specs.Judgements.{as_seen, required};

use crate::fault::{must_hold, refused};
use crate::files::files_in;
use crate::filter::FILTER_KEYS;
use crate::hardware::hardware_in;
use crate::lists::{have_only, tables_at};
use crate::lookup::{has_only, table_in, text_at};
use crate::section::SECTION_KEYS;
use crate::slots::slots_in;
use crate::tables::{filters_in, sections_in};
use crate::whole::{can_hold, can_mix, config_with, has_capture, has_slots};
use crate::{CONFIG_BYTES, Config, ConfigFault, ConfigKind as Kind, ConfigPlace as Place, Name};
use pcm_feeder::Tables;
use std::alloc::{AllocError, Global};
use toml::Table;

/// The keys of the top.
pub const TOP_KEYS: [Place; 5] = [
    Place::Device,
    Place::Vchans,
    Place::Files,
    Place::Tables,
    Place::Eq,
];

/// The keys of the device's table.
pub const DEVICE_KEYS: [Place; 7] = [
    Place::DeviceFormat,
    Place::DeviceChannels,
    Place::DeviceRate,
    Place::DeviceHwBlock,
    Place::DeviceHwBlocks,
    Place::DeviceContainer,
    Place::DeviceCapture,
];

/// The keys of the table of channels.
pub const VCHANS_KEYS: [Place; 6] = [
    Place::VchansPlay,
    Place::VchansRecord,
    Place::VchansQuality,
    Place::VchansRate,
    Place::VchansChannels,
    Place::VchansMapped,
];

/// Reads a configuration: all that it settles, or the first fault that applies. Its lines are those of `config_read`.
#[tactic(auto, unfolding(crate::specs::Configs::config_read))]
pub fn config_of(alloc: Global, bytes: &[u8]) -> Result<Config, ConfigFault>
    // Only whether memory runs out is open: else the text determines the result.
    ensures read { Reads result (config_read bytes.now) }

    // What a configuration keeps.
    ensures limits { IfOk result (λ config. IsInLimits (device_seen config)) }
    ensures order { IfOk result (λ config. AreInOrder config.files) }
    ensures container { IfOk result IsHeld }
    ensures capture { IfOk result HasCapture }
{
    must_hold(bytes.len() <= CONFIG_BYTES, Kind::Long, Place::Top)?;
    let top = document_of(alloc, bytes)?;
    must_hold(has_only(Some(&top), &TOP_KEYS), Kind::Key, Place::Top)?;
    let device = table_in(&top, Place::Device)?;
    let vchans = table_in(&top, Place::Vchans)?;
    let table = table_in(&top, Place::Files)?;
    let tables = tables_at(&top, Place::Tables)?;
    let eq = tables_at(&top, Place::Eq)?;
    must_hold(has_only(device, &DEVICE_KEYS), Kind::Key, Place::Device)?;
    must_hold(has_only(vchans, &VCHANS_KEYS), Kind::Key, Place::Vchans)?;
    must_hold(have_only(tables, &FILTER_KEYS), Kind::Key, Place::Tables)?;
    must_hold(have_only(eq, &SECTION_KEYS), Kind::Key, Place::Eq)?;
    let hardware = hardware_in(device)?;
    let capture = name_of(alloc, text_at(device, Place::DeviceCapture)?)?;
    let slots = slots_in(hardware.settings, vchans)?;
    let files = files_in(alloc, table)?;
    let filters = filters_in(alloc, tables)?;
    let sections = sections_in(alloc, eq)?;
    let both = Tables::new(filters, sections);
    let config = config_with(hardware, capture, slots, files, both);
    must_hold(can_hold(&config), Kind::Container, Place::DeviceContainer)?;
    must_hold(has_capture(&config), Kind::Capture, Place::DeviceCapture)?;
    must_hold(can_mix(config.device), Kind::Range, Place::VchansRate)?;
    must_hold(has_slots(config.device), Kind::Range, Place::VchansMapped)?;
    Ok(config)
}

// The document that bytes are.
fn document_of(alloc: Global, bytes: &[u8]) -> Result<Table, ConfigFault>
    ensures { Reads (as_seen table_view result) (required Toml Top (document_of bytes.now)) }
{
    match toml::table_from_slice(alloc, bytes) {
        Ok(table) => Ok(table),
        Err(error) => {
            if error.is_memory() {
                Err(ConfigFault::Memory)
            } else {
                Err(refused(Kind::Toml, Place::Top))
            }
        }
    }
}

fn name_of(alloc: Global, text: Option<&str>) -> Result<Option<Name>, AllocError>
    ensures { IfOk result (λ name. name ≡ option_copied text.entry) }
{
    match text {
        Some(text) => Ok(Some(Name::new(alloc, text)?)),
        None => Ok(None),
    }
}
