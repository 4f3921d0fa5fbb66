//! Which value of a configuration is outside its set.

use crate::listed;
use crate::of_config::{text_at, value_at};
use crate::showing::quoted;
use crate::whole_reason::{mapped_reason, mixed_reason};
use pcm_config::{ConfigPlace, FILE_NAME_BYTES, range_at};
use std::alloc::{AllocError, Global};
use toml::Table;

// Which number stands at a place, and which may stand there. One that may by itself is too great beside others.
pub(crate) fn range_reason(alloc: Global, top: &Table, place: ConfigPlace) -> Option<String> {
    let number = value_at(top, place)?.as_integer()?;
    match range_at(place) {
        None => channels_said(alloc, place, number).ok(),
        Some((least, most)) if number < i64::from(least) || number > i64::from(most) => {
            outside_said(alloc, place.word(), number, least.into(), most.into()).ok()
        }
        Some(_) if place == ConfigPlace::VchansRate => mixed_reason(alloc, number),
        Some(_) if place == ConfigPlace::VchansMapped => mapped_reason(alloc, top, number),
        Some(_) => None,
    }
}

fn channels_said(alloc: Global, place: ConfigPlace, number: i64) -> Result<String, AllocError> {
    let place = place.word();
    let layouts = listed::layouts(alloc)?;
    format!(in alloc; "{place}: {number} is none of {layouts}")
}

// That a number isn't in its set.
pub(crate) fn outside_said(
    alloc: Global,
    place: &str,
    number: i64,
    least: i64,
    most: i64,
) -> Result<String, AllocError> {
    format!(in alloc; "{place}: {number} is not {least} to {most}")
}

// Which name stands at a place, and which there are.
pub(crate) fn name_reason(alloc: Global, top: &Table, place: ConfigPlace) -> Option<String> {
    match place {
        ConfigPlace::DeviceFormat => {
            let word = quoted(alloc, text_at(top, place)?.as_bytes()).ok()?;
            let formats = listed::formats(alloc).ok()?;
            format!(in alloc; "device.format: {word} is no format: {formats}").ok()
        }
        ConfigPlace::DeviceContainer => {
            let word = quoted(alloc, text_at(top, place)?.as_bytes()).ok()?;
            format!(in alloc; "device.container: {word} is neither raw nor wav").ok()
        }
        _ => file_reason(alloc, value_at(top, place)?.as_table()?),
    }
}

// The first file whose name or path isn't allowed.
fn file_reason(alloc: Global, files: &Table) -> Option<String> {
    for (name, path) in files {
        if !is_file_name(name.as_str().as_bytes()) {
            return name_said(alloc, name.as_str()).ok();
        }
        if path.as_str()?.is_empty() {
            let name = name.as_str();
            return format!(in alloc; "files.{name}: its path is empty").ok();
        }
    }
    None
}

fn name_said(alloc: Global, name: &str) -> Result<String, AllocError> {
    let name = quoted(alloc, name.as_bytes())?;
    let most = FILE_NAME_BYTES;
    format!(in alloc; "files: {name} is no name of 1 to {most} of a to z, 0 to 9 and _")
}

fn is_file_name(name: &[u8]) -> bool {
    for byte in name {
        if !byte.is_ascii_lowercase() && !byte.is_ascii_digit() && *byte != b'_' {
            return false;
        }
    }
    !name.is_empty() && name.len() <= FILE_NAME_BYTES
}
