//! Which key of a filter or a section has a wrong value.

use crate::definition::WORK;
use crate::lines::line_end;
use pcm_config::{ConfigKind, ConfigPlace, ConfigRefusal};
use pcm_feeder::{SECTION_COEF_MOST, SECTION_SHIFT_MOST, SHIFT_MOST};
use pcm_format::{RATE_LEAST, RATE_MOST};
use std::alloc::Global;
use toml::{Table, Value};

// Where the definition begins, in the filter or section that begins at a place, of a value for which it is refused; else where
// it begins itself. None where memory runs out.
pub(crate) fn wrong_key_at(
    alloc: Global,
    text: &[u8],
    begun: usize,
    refusal: ConfigRefusal,
) -> Option<usize> {
    let mut left = WORK;
    let mut read = begun;
    let mut place = begun;
    for _ in begun..text.len() {
        place = line_end(text, place);
        if left < place {
            return Some(begun);
        }
        left -= place;
        match is_wrong_so_far(alloc, text.get(..place)?, refusal) {
            Ok(true) => return Some(read),
            Ok(false) => read = place,
            Err(fault) if fault.is_memory() => return None,
            Err(_) => {}
        }
        if place == text.len() {
            return Some(begun);
        }
    }
    None
}

// Whether a text is read, and its last filter or section has a value for which it is refused.
fn is_wrong_so_far(
    alloc: Global,
    text: &[u8],
    refusal: ConfigRefusal,
) -> Result<bool, toml::de::Error> {
    let top = toml::table_from_slice(alloc, text)?;
    Ok(has_wrong_value(&top, refusal))
}

// Whether the last filter or section has a value for which it is refused, or is no table, or the whole is no array.
fn has_wrong_value(top: &Table, refusal: ConfigRefusal) -> bool {
    let Some(value) = top.get(refusal.place.word()) else {
        return false;
    };
    let Some(tables) = value.as_array() else {
        return refusal.kind == ConfigKind::Kind;
    };
    let mut has_wrong = false;
    for table in tables {
        has_wrong = is_wrong_table(table, refusal);
    }
    has_wrong
}

fn is_wrong_table(table: &Value, refusal: ConfigRefusal) -> bool {
    let Some(table) = table.as_table() else {
        return refusal.kind == ConfigKind::Kind;
    };
    for (key, value) in table {
        if is_wrong(refusal, key.as_str(), value) {
            return true;
        }
    }
    false
}

fn is_wrong(refusal: ConfigRefusal, key: &str, value: &Value) -> bool {
    match refusal.kind {
        ConfigKind::Kind if key == "rows" => !are_rows(value),
        ConfigKind::Kind => value.as_integer().is_none(),
        ConfigKind::Range => is_outside(refusal.place, key, value),
        ConfigKind::Shape => key == "rows",
        ConfigKind::Coef => is_far(key, value),
        _ => false,
    }
}

// Whether a coefficient is past its limit, where it stands by itself. In rows there is no look for which it is.
fn is_far(key: &str, value: &Value) -> bool {
    match (key, value.as_integer()) {
        ("rows", _) => true,
        ("shift", _) => false,
        (_, Some(coef)) => coef.unsigned_abs() > u64::from(SECTION_COEF_MOST.unsigned_abs()),
        (_, None) => false,
    }
}

// Whether a value is an array of arrays of whole numbers.
fn are_rows(value: &Value) -> bool {
    let Some(rows) = value.as_array() else {
        return false;
    };
    for row in rows {
        if !is_row(row) {
            return false;
        }
    }
    true
}

fn is_row(value: &Value) -> bool {
    let Some(numbers) = value.as_array() else {
        return false;
    };
    for number in numbers {
        if number.as_integer().is_none() {
            return false;
        }
    }
    true
}

// Whether a number is outside the set of its key.
fn is_outside(place: ConfigPlace, key: &str, value: &Value) -> bool {
    match (key, value.as_integer()) {
        ("src" | "dst", Some(rate)) => rate < i64::from(RATE_LEAST) || rate > i64::from(RATE_MOST),
        ("shift", Some(shift)) => shift < 1 || shift > i64::from(shift_most(place)),
        _ => false,
    }
}

fn shift_most(place: ConfigPlace) -> u32 {
    match place {
        ConfigPlace::Eq => SECTION_SHIFT_MOST,
        _ => SHIFT_MOST,
    }
}
