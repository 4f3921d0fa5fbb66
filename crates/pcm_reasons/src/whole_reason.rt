//! Which values of a configuration don't go together.

use crate::listed;
use crate::of_config::{text_at, value_at};
use crate::showing::{list, quoted};
use pcm_config::ConfigPlace;
use pcm_desk::{Device, MIX_FRAMES};
use pcm_format::Format;
use pcm_oss::SLOTS;
use pcm_wave::is_wave_format;
use std::alloc::{AllocError, Global};
use toml::Table;

// Which frames a wave can't have.
pub(crate) fn container_reason(alloc: Global, top: &Table) -> Option<String> {
    let format = format_in(top)?;
    if is_wave_format(format) {
        return frame_said(alloc, format).ok();
    }
    let name = std::str::from_utf8(format.name()).ok()?;
    let formats = listed::wave_formats(alloc).ok()?;
    format!(in alloc; "device.container: a wave has no {name}, but {formats}").ok()
}

fn format_in(top: &Table) -> Option<Format> {
    match text_at(top, ConfigPlace::DeviceFormat) {
        Some(word) => Format::from_name(word.as_bytes()),
        None => Some(Device::usual().settings.format),
    }
}

// Only frames of one sample have an odd number of bytes.
fn frame_said(alloc: Global, format: Format) -> Result<String, AllocError> {
    let bytes = format.bytes();
    format!(in alloc;
        "device.container: a wave has no frames of {bytes} bytes, but of an even number"
    )
}

// Which file isn't there, and which are.
pub(crate) fn capture_reason(alloc: Global, top: &Table) -> Option<String> {
    let word = text_at(top, ConfigPlace::DeviceCapture)?;
    let word = quoted(alloc, word.as_bytes()).ok()?;
    let files = match value_at(top, ConfigPlace::Files) {
        Some(files) => keys_of(alloc, files.as_table()?).ok()?,
        None => String::new(alloc),
    };
    if files.as_str().is_empty() {
        return format!(in alloc; "device.capture: {word} is no file: files has none").ok();
    }
    format!(in alloc; "device.capture: {word} is no file: {files}").ok()
}

// The first keys of a table.
fn keys_of(alloc: Global, table: &Table) -> Result<String, AllocError> {
    let mut text = String::new(alloc);
    for (key, _) in table.iter().take(listed::FILES_LISTED) {
        list(&mut text, key.as_str().as_bytes())?;
    }
    if table.len() > listed::FILES_LISTED {
        text.push_str(" ..")?;
    }
    Ok(text)
}

// That a rate of the mix makes an interrupt of the whole ring mix too many frames.
pub(crate) fn mixed_reason(alloc: Global, rate: i64) -> Option<String> {
    let most = MIX_FRAMES;
    format!(in alloc;
        "vchans.rate: at {rate} an interrupt of the whole ring mixes more than {most} frames"
    ).ok()
}

// That the mapped channels and those that play are too many.
pub(crate) fn mapped_reason(alloc: Global, top: &Table, mapped: i64) -> Option<String> {
    let play = match value_at(top, ConfigPlace::VchansPlay) {
        Some(play) => play.as_integer()?,
        None => i64::from(Device::usual().play_slots),
    };
    let most = SLOTS;
    format!(in alloc; "vchans.mapped: {mapped} and the {play} that play are more than {most}").ok()
}
