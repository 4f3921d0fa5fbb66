//! What is wrong in the rows of a filter.

use crate::value_reason::outside_said;
use pcm_feeder::{COEF_MOST, PHASES, TABLE_COEFS, TAPS};
use std::alloc::{AllocError, Global};
use toml::Value;

// Which shape rows have, where a filter has none of that.
pub(crate) fn shape_reason(alloc: Global, rows: &[Value]) -> Option<String> {
    let taps = taps_of(rows.first());
    if rows.is_empty() || rows.len() > PHASES {
        return phases_said(alloc, rows.len()).ok();
    }
    if taps < 2 || taps > TAPS || taps % 2 != 0 {
        return taps_said(alloc, taps).ok();
    }
    if rows.len().saturating_mul(taps) > TABLE_COEFS {
        return coefs_said(alloc, rows.len(), taps).ok();
    }
    unequal(alloc, rows, taps)
}

// How many numbers a row has.
fn taps_of(row: Option<&Value>) -> usize {
    match row.and_then(Value::as_array) {
        Some(numbers) => numbers.len(),
        None => 0,
    }
}

fn phases_said(alloc: Global, phases: usize) -> Result<String, AllocError> {
    let most = PHASES;
    format!(in alloc; "tables.rows: {phases} rows, and not 1 to {most}")
}

fn taps_said(alloc: Global, taps: usize) -> Result<String, AllocError> {
    let most = TAPS;
    format!(in alloc; "tables.rows: {taps} numbers in a row, and not an even number of 2 to {most}")
}

fn coefs_said(alloc: Global, phases: usize, taps: usize) -> Result<String, AllocError> {
    let most = TABLE_COEFS;
    format!(in alloc; "tables.rows: {phases} rows of {taps} numbers, and not up to {most} in all")
}

// The first row that has more or fewer numbers than the first.
fn unequal(alloc: Global, rows: &[Value], taps: usize) -> Option<String> {
    let mut place = 0usize;
    for row in rows {
        place = place.saturating_add(1);
        let found = taps_of(Some(row));
        if found != taps {
            return format!(in alloc;
                "tables.rows: {found} numbers in row {place}, and {taps} in the first"
            ).ok();
        }
    }
    None
}

// The first coefficient that is past its limit.
pub(crate) fn far_reason(alloc: Global, rows: &[Value]) -> Option<String> {
    for row in rows {
        if let Some(coef) = far_in(row.as_array()?.as_slice()) {
            let most = i64::from(COEF_MOST);
            return outside_said(alloc, "tables.rows", coef, -most, most).ok();
        }
    }
    None
}

fn far_in(numbers: &[Value]) -> Option<i64> {
    for number in numbers {
        let coef = number.as_integer()?;
        if coef.unsigned_abs() > u64::from(COEF_MOST.unsigned_abs()) {
            return Some(coef);
        }
    }
    None
}
