//! Filters and sections of numbers, once there is memory for them.

use pcm_feeder::{Section, Table, Tables};
use pcm_foreign::{FilterNumbers, NumbersFault, SectionNumbers, tables_from};
use std::alloc::Global;
use std::test::Fail;

// The coefficients of all filters.
const COEFS: [i32; 6] = [5, -6, 7, 16777216, -16777216, 16777217];

// A section of which each number differs from the others.
const SECTION: SectionNumbers = SectionNumbers {
    shift: 28,
    b0: 1,
    b1: -2,
    b2: 3,
    a1: -536870912,
    a2: 536870912,
};

const SETTLED: Section = Section {
    shift: 28,
    b0: 1,
    b1: -2,
    b2: 3,
    a1: -536870912,
    a2: 536870912,
};

// A filter's rates, its rows, its taps, and where its coefficients begin.
type Row = (u32, u32, u32, u32, u32);

fn filter_of(row: &Row) -> FilterNumbers {
    let (src, dst, phases, taps, first) = *row;
    FilterNumbers {
        src,
        dst,
        phases,
        taps,
        shift: 15,
        first,
    }
}

// What comes of one filter beside a section: its coefficients.
fn outcome(alloc: Global, row: &Row) -> Result<Tables, NumbersFault> {
    tables_from(alloc, &[filter_of(row)], &COEFS, &[SECTION])
}

// Whether tables have this filter alone, with these coefficients, and that section.
fn have(tables: &Tables, row: &Row, coefs: &[i32]) -> bool {
    let [table] = tables.list() else {
        return false;
    };
    is_filter(table, row, coefs) && tables.sections() == [SETTLED].as_slice()
}

fn is_filter(table: &Table, row: &Row, coefs: &[i32]) -> bool {
    let (src, dst, phases, taps, _) = *row;
    let counts = (table.phases, table.taps);
    (table.src, table.dst, table.shift) == (src, dst, 15)
        && counts == (phases as usize, taps as usize)
        && table.coefs.as_slice() == coefs
}

// Filters, each with the coefficients that come of it, or none where it is refused.
const ROWS: [(Row, Option<&[i32]>); 8] = [
    ((0, 0, 1, 2, 0), Some(&[5, -6])),
    ((44100, 48000, 2, 2, 1), Some(&[-6, 7, 16777216, -16777216])),
    // The last two, of which one is too great, and one past the end.
    ((0, 0, 1, 2, 4), None),
    ((0, 0, 1, 2, 5), None),
    ((0, 48000, 1, 2, 0), None),
    ((0, 0, 1, 3, 0), None),
    ((0, 0, 0, 2, 0), None),
    // A product past 32 bits.
    ((0, 0, 65536, 65536, 0), None),
];

// Whether the outcome of a filter is the one expected.
fn is_right(alloc: Global, row: &Row, expected: Option<&[i32]>) -> bool {
    match (outcome(alloc, row), expected) {
        (Ok(tables), Some(coefs)) => have(&tables, row, coefs),
        (Err(fault), None) => fault == NumbersFault::Argument,
        _ => false,
    }
}

// The first filter with another outcome.
fn first_wrong(alloc: Global) -> Option<usize> {
    ROWS.iter()
        .position(|(row, expected)| !is_right(alloc, row, *expected))
}

#[test]
fn filters_of_numbers(rt: HostRuntime) -> Result<(), Fail> {
    assert_eq!(rt; first_wrong(rt.alloc()), None);
    Ok(())
}
