//! Why a configuration is refused.

use crate::array_reason::{array_reason, count_reason};
use crate::key_reason::key_reason;
use crate::kind_reason::kind_reason;
use crate::value_reason::{name_reason, range_reason};
use crate::whole_reason::{capture_reason, container_reason};
use pcm_config::{ConfigKind, ConfigPlace, ConfigRefusal};
use std::alloc::Global;
use toml::{Table, Value};

/// What is wrong in a text, which is refused for this, and what would be right.
pub fn config_reason(alloc: Global, text: &[u8], refusal: ConfigRefusal) -> Option<String> {
    let top = toml::table_from_slice(alloc, text).ok()?;
    let place = refusal.place;
    match refusal.kind {
        ConfigKind::Key => key_reason(alloc, &top, place),
        ConfigKind::Count => count_reason(alloc, &top, place),
        ConfigKind::Container => container_reason(alloc, &top),
        ConfigKind::Capture => capture_reason(alloc, &top),
        ConfigKind::Long | ConfigKind::Toml => None,
        _ => place_reason(alloc, &top, refusal),
    }
}

// What is wrong at a place, or of a table of an array.
fn place_reason(alloc: Global, top: &Table, refusal: ConfigRefusal) -> Option<String> {
    let place = refusal.place;
    match (refusal.kind, place) {
        (_, ConfigPlace::Tables | ConfigPlace::Eq) => array_reason(alloc, top, refusal),
        (ConfigKind::Kind, _) => kind_reason(alloc, top, place),
        (ConfigKind::Range, _) => range_reason(alloc, top, place),
        _ => name_reason(alloc, top, place),
    }
}

// The value at a place.
pub(crate) fn value_at(top: &Table, place: ConfigPlace) -> Option<&Value> {
    match place.word().split_once(".") {
        Some((table, key)) => top.get(table)?.as_table()?.get(key),
        None => top.get(place.word()),
    }
}

// The text at a place.
pub(crate) fn text_at(top: &Table, place: ConfigPlace) -> Option<&str> {
    value_at(top, place)?.as_str()
}
