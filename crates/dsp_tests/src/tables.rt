//! All tables, each judged by the same loop.

use crate::calls::{Row, first_wrong, first_wrong_fault};
use crate::{faults, recordings, scripts, usage, waves};
use std::alloc::{AllocError, Global};
use std::test::Fail;

const TABLES: [&[Row]; 6] = [
    &scripts::ROWS,
    &usage::ROWS,
    &waves::RUNS,
    &waves::JUDGED,
    &waves::CONVERTED,
    &recordings::ROWS,
];

// The first row with another outcome, after the number of its table.
fn first_wrong_row(alloc: Global) -> Result<Option<(usize, usize)>, AllocError> {
    for (table, rows) in TABLES.iter().enumerate() {
        if let Some(row) = first_wrong(alloc, rows)? {
            return Ok(Some((table, row)));
        }
    }
    Ok(None)
}

#[test]
fn calls_come_to_what_is_told(rt: HostRuntime) -> Result<(), Fail> {
    assert_eq!(rt; first_wrong_row(rt.alloc())?, None);
    Ok(())
}

// The first fault by which a call has another outcome, after the number of the call.
fn first_wrong_call(alloc: Global) -> Result<Option<(usize, usize)>, AllocError> {
    for (call, (held, words, rows)) in faults::TABLES.iter().enumerate() {
        if let Some(row) = first_wrong_fault(alloc, held, words, rows)? {
            return Ok(Some((call, row)));
        }
    }
    Ok(None)
}

#[test]
fn each_outer_call_fails(rt: HostRuntime) -> Result<(), Fail> {
    assert_eq!(rt; first_wrong_call(rt.alloc())?, None);
    Ok(())
}
