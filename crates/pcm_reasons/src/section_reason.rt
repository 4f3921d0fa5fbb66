//! What is wrong in a section of the equaliser.

use crate::kind_reason::kind_said;
use crate::listed;
use crate::value_reason::outside_said;
use pcm_config::{ConfigKind, SECTION_KEYS};
use pcm_feeder::{SECTION_COEF_MOST, SECTION_SHIFT_MOST};
use std::alloc::{AllocError, Global};
use toml::{Table, Value};

// What fault of this kind a section has, if it has one.
pub(crate) fn section_reason(alloc: Global, section: &Table, kind: ConfigKind) -> Option<String> {
    for key in SECTION_KEYS {
        if is_wrong(kind, key, section.get(key)) {
            return wrong_said(alloc, key, section.get(key)).ok();
        }
    }
    None
}

// Whether what stands at a key has a fault of this kind. A wrong shift is out of range, and any other wrong number a wrong coefficient.
fn is_wrong(kind: ConfigKind, key: &str, value: Option<&Value>) -> bool {
    let Some(value) = value else {
        return kind == ConfigKind::Missing;
    };
    match (kind, value.as_integer()) {
        (ConfigKind::Kind, number) => number.is_none(),
        (ConfigKind::Range, Some(number)) => key == "shift" && is_outside(key, number),
        (ConfigKind::Coef, Some(number)) => key != "shift" && is_outside(key, number),
        _ => false,
    }
}

fn is_outside(key: &str, number: i64) -> bool {
    let (least, most) = range_of(key);
    number < least || number > most
}

// The least and the greatest number of a key.
fn range_of(key: &str) -> (i64, i64) {
    match key {
        "shift" => (1, i64::from(SECTION_SHIFT_MOST)),
        _ => (-i64::from(SECTION_COEF_MOST), i64::from(SECTION_COEF_MOST)),
    }
}

fn wrong_said(alloc: Global, key: &str, value: Option<&Value>) -> Result<String, AllocError> {
    let Some(value) = value else {
        let keys = listed::words(alloc, &SECTION_KEYS)?;
        return format!(in alloc; "eq: {key} is missing: a section has {keys}");
    };
    let place = format!(in alloc; "eq.{key}")?;
    match value.as_integer() {
        Some(number) => {
            let (least, most) = range_of(key);
            outside_said(alloc, place.as_str(), number, least, most)
        }
        None => kind_said(alloc, place.as_str(), value, "a whole number"),
    }
}
