//! What is wrong in a filter.

use crate::kind_reason::{article_of, kind_said};
use crate::shape_reason::{far_reason, shape_reason};
use crate::value_reason::outside_said;
use pcm_config::{ConfigKind, FILTER_KEYS};
use pcm_feeder::SHIFT_MOST;
use pcm_format::{RATE_LEAST, RATE_MOST};
use std::alloc::{AllocError, Global};
use toml::{Table, Value};

// What fault of this kind a filter has, if it has one.
pub(crate) fn filter_reason(alloc: Global, filter: &Table, kind: ConfigKind) -> Option<String> {
    match kind {
        ConfigKind::Missing => String::from_str(alloc, missing(filter)?).ok(),
        ConfigKind::Kind => other_kind(alloc, filter),
        ConfigKind::Range => outside(alloc, filter),
        ConfigKind::Shape => shape_reason(alloc, rows_of(filter)?),
        ConfigKind::Coef => far_reason(alloc, rows_of(filter)?),
        _ => None,
    }
}

fn rows_of(filter: &Table) -> Option<&[Value]> {
    Some(filter.get("rows")?.as_array()?.as_slice())
}

fn missing(filter: &Table) -> Option<&'static str> {
    let has_src = filter.get("src").is_some();
    let has_dst = filter.get("dst").is_some();
    if filter.get("shift").is_none() {
        Some("tables: a filter has a shift, which is missing")
    } else if filter.get("rows").is_none() {
        Some("tables: a filter has rows, which are missing")
    } else if has_src && !has_dst {
        Some("tables: src stands without dst: a filter has both or neither")
    } else if has_dst && !has_src {
        Some("tables: dst stands without src: a filter has both or neither")
    } else {
        None
    }
}

// The first value of another kind.
fn other_kind(alloc: Global, filter: &Table) -> Option<String> {
    for key in FILTER_KEYS {
        if let Some(value) = filter.get(key)
            && let Some(found) = stranger(key, value)
        {
            return other_kind_said(alloc, key, found).ok();
        }
    }
    None
}

fn other_kind_said(alloc: Global, key: &str, found: &Value) -> Result<String, AllocError> {
    if key == "rows" {
        let found = article_of(found);
        return format!(in alloc; "tables.rows: {found}, where arrays of whole numbers are wanted");
    }
    let place = format!(in alloc; "tables.{key}")?;
    kind_said(alloc, place.as_str(), found, "a whole number")
}

// A value of another kind: what stands at a key, or a value in that.
fn stranger<'a>(key: &str, value: &'a Value) -> Option<&'a Value> {
    match key {
        "rows" => stranger_in_rows(value),
        _ if value.as_integer().is_none() => Some(value),
        _ => None,
    }
}

fn stranger_in_rows(value: &Value) -> Option<&Value> {
    let Some(rows) = value.as_array() else {
        return Some(value);
    };
    for row in rows {
        let found = stranger_in_row(row);
        if found.is_some() {
            return found;
        }
    }
    None
}

fn stranger_in_row(value: &Value) -> Option<&Value> {
    let Some(numbers) = value.as_array() else {
        return Some(value);
    };
    for number in numbers {
        if number.as_integer().is_none() {
            return Some(number);
        }
    }
    None
}

// The first number that isn't in its set.
fn outside(alloc: Global, filter: &Table) -> Option<String> {
    for key in FILTER_KEYS {
        let number = filter.get(key).and_then(Value::as_integer);
        if let (Some(number), Some((least, most))) = (number, range_of(key))
            && (number < i64::from(least) || number > i64::from(most))
        {
            let place = format!(in alloc; "tables.{key}").ok()?;
            return outside_said(alloc, place.as_str(), number, least.into(), most.into()).ok();
        }
    }
    None
}

// The least and the greatest number of a key.
fn range_of(key: &str) -> Option<(u32, u32)> {
    match key {
        "src" | "dst" => Some((RATE_LEAST, RATE_MOST)),
        "shift" => Some((1, SHIFT_MOST)),
        _ => None,
    }
}
