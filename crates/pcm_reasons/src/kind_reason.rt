//! Which value of a configuration is of another kind.

use crate::of_config::value_at;
use crate::showing::quoted;
use pcm_config::{ConfigPlace, range_at};
use std::alloc::{AllocError, Global};
use toml::{Table, Value};

// What stands at a place, and what is wanted there.
pub(crate) fn kind_reason(alloc: Global, top: &Table, place: ConfigPlace) -> Option<String> {
    let value = value_at(top, place)?;
    match (place, value.as_table()) {
        (ConfigPlace::Files, Some(files)) => path_kind(alloc, files),
        (_, Some(_)) if is_table(place) => None,
        _ => kind_said(alloc, place.word(), value, wanted_at(place)).ok(),
    }
}

fn is_table(place: ConfigPlace) -> bool {
    matches!(
        place,
        ConfigPlace::Device | ConfigPlace::Vchans | ConfigPlace::Files
    )
}

// What is wanted at a place.
fn wanted_at(place: ConfigPlace) -> &'static str {
    match place {
        ConfigPlace::DeviceChannels | ConfigPlace::VchansChannels => "a whole number",
        _ if range_at(place).is_some() => "a whole number",
        _ if is_table(place) => "a table",
        _ => "a string",
    }
}

// The first path that is no text.
fn path_kind(alloc: Global, files: &Table) -> Option<String> {
    for (name, path) in files {
        if path.as_str().is_none() {
            let name = quoted(alloc, name.as_str().as_bytes()).ok()?;
            let found = article_of(path);
            return format!(in alloc; "files: {name} is {found}, and not a string").ok();
        }
    }
    None
}

// What a value is, and what is wanted in its place.
pub(crate) fn kind_said(
    alloc: Global,
    place: &str,
    value: &Value,
    wanted: &str,
) -> Result<String, AllocError> {
    let found = article_of(value);
    format!(in alloc; "{place} is {found}, and not {wanted}")
}

// The kind of a value.
pub(crate) fn article_of(value: &Value) -> &'static str {
    match value.type_str() {
        "string" => "a string",
        "integer" => "an integer",
        "float" => "a float",
        "boolean" => "a boolean",
        "datetime" => "a date or a time",
        "array" => "an array",
        _ => "a table",
    }
}
