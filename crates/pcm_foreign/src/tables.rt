//! The filters and the sections of a run, made from numbers.

ghost use Rattle.std.specs.Prelude.{◌≡◌};
ghost use Rattle.pcm_foreign.specs.Tables.{ComesOf, are_tables, tables_from};

use crate::filters::{are_filters, filters_with};
use crate::sections::{are_sections, sections_with};
use crate::{FilterNumbers, NumbersFault, SectionNumbers};
use pcm_feeder::{FILTERS, SECTIONS, Tables};
use std::alloc::Global;

/// The filters and the sections of these numbers. `coefs` are the coefficients of all filters; a filter may share some with another.
///
/// # Errors
///
/// `Argument` where one isn't within its limits, where there are too many, or where a filter's coefficients aren't all in `coefs`: then
/// no memory was asked for. `Memory` where the allocator refuses, for right numbers alone.
pub fn tables_from(
    alloc: Global,
    filters: &[FilterNumbers],
    coefs: &[i32],
    sections: &[SectionNumbers],
) -> Result<Tables, NumbersFault>
    ensures { ComesOf result (tables_from filters.now coefs.now sections.now) }
{
    if !are_tables(filters, coefs, sections) {
        return Err(NumbersFault::Argument);
    }
    let list = filters_with(alloc, filters, coefs)?;
    let sections = sections_with(alloc, sections)?;
    Ok(Tables::new(list, sections))
}

// Whether these are few enough, and each is within its limits.
fn are_tables(filters: &[FilterNumbers], coefs: &[i32], sections: &[SectionNumbers]) -> bool
    ensures { result ≡ are_tables filters.now coefs.now sections.now }
{
    filters.len() <= FILTERS
        && are_filters(filters, coefs)
        && sections.len() <= SECTIONS
        && are_sections(sections)
}
