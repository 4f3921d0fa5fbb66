//! Which key of a configuration isn't known.

use crate::listed;
use crate::showing::{list, quoted};
use pcm_config::{ConfigPlace, DEVICE_KEYS, FILTER_KEYS, SECTION_KEYS, TOP_KEYS, VCHANS_KEYS};
use std::alloc::{AllocError, Global};
use toml::{Table, Value};

// Which key isn't known at a place, and which there are.
pub(crate) fn key_reason(alloc: Global, top: &Table, place: ConfigPlace) -> Option<String> {
    let key = match place {
        ConfigPlace::Top => other_key(top, place)?,
        ConfigPlace::Tables | ConfigPlace::Eq => {
            other_key_of(top.get(place.word())?.as_array()?.as_slice(), place)?
        }
        _ => other_key(top.get(place.word())?.as_table()?, place)?,
    };
    let key = quoted(alloc, key.as_bytes()).ok()?;
    let known = known_keys(alloc, place).ok()?;
    if place == ConfigPlace::Top {
        return format!(in alloc; "{key} is no key at the top: {known}").ok();
    }
    let place = place.word();
    format!(in alloc; "{key} is no key of {place}: {known}").ok()
}

// The first key of tables that isn't known.
fn other_key_of(tables: &[Value], place: ConfigPlace) -> Option<&str> {
    for table in tables {
        if let Some(key) = other_key(table.as_table()?, place) {
            return Some(key);
        }
    }
    None
}

// The first key of a table that isn't known.
fn other_key(table: &Table, place: ConfigPlace) -> Option<&str> {
    for (key, _) in table {
        if !is_known(place, key.as_str()) {
            return Some(key.as_str());
        }
    }
    None
}

fn is_known(place: ConfigPlace, key: &str) -> bool {
    match place {
        ConfigPlace::Tables => is_word(&FILTER_KEYS, key),
        ConfigPlace::Eq => is_word(&SECTION_KEYS, key),
        _ => is_key(keys_of(place), key),
    }
}

fn is_word(words: &[&str], key: &str) -> bool {
    for word in words {
        if *word == key {
            return true;
        }
    }
    false
}

fn is_key(places: &[ConfigPlace], key: &str) -> bool {
    for place in places {
        if place.key() == key {
            return true;
        }
    }
    false
}

// The places whose keys a table has.
fn keys_of(place: ConfigPlace) -> &'static [ConfigPlace] {
    match place {
        ConfigPlace::Top => &TOP_KEYS,
        ConfigPlace::Device => &DEVICE_KEYS,
        ConfigPlace::Vchans => &VCHANS_KEYS,
        _ => &[],
    }
}

fn known_keys(alloc: Global, place: ConfigPlace) -> Result<String, AllocError> {
    match place {
        ConfigPlace::Tables => listed::words(alloc, &FILTER_KEYS),
        ConfigPlace::Eq => listed::words(alloc, &SECTION_KEYS),
        _ => keys(alloc, keys_of(place)),
    }
}

fn keys(alloc: Global, places: &[ConfigPlace]) -> Result<String, AllocError> {
    let mut text = String::new(alloc);
    for place in places {
        list(&mut text, place.key().as_bytes())?;
    }
    Ok(text)
}
