//! The shape of a filter's rows, and its coefficients.

ghost use Rattle.std.specs.Prelude.{◌≡◌, ◌==◌, length, IfOk};
ghost use Rattle.std.specs.List.{flat_map, list_all};
ghost use Rattle.pcm_config.specs.Answers.{Reads};
ghost use Rattle.pcm_config.specs.Judgements.{required};
ghost use Rattle.pcm_config.specs.Lookups.{each_as};
ghost use Rattle.pcm_config.specs.Filters.{coefs_in, filter_coef, has_filter_shape, is_phases, is_taps, taps_of};
ghost use Rattle.pcm_config.specs.declared.fault.ConfigKind.TheVariants.{Coef};
ghost use Rattle.pcm_config.specs.declared.place.ConfigPlace.TheVariants.{Tables};

use crate::fault::refused;
use crate::number::as_coef;
use crate::rows::Row;
use crate::{ConfigFault, ConfigKind, ConfigPlace};
use pcm_feeder::{COEF_MOST, Coefs, PHASES, TABLE_COEFS, TAPS};
use std::alloc::{AllocError, Global};

// Whether rows are of one length, as many and as long as they may be.
pub(crate) fn has_filter_shape(rows: &[Row]) -> bool
    ensures { result ≡ has_filter_shape rows.now }
{
    let taps = taps_of(rows);
    is_phases(rows.len())
        && is_taps(taps)
        && have_length(rows, taps)
        && rows.len() * taps <= TABLE_COEFS
}

// The numbers of the first row.
pub(crate) fn taps_of(rows: &[Row]) -> usize
    ensures { result ≡ taps_of rows.now }
{
    match rows.first() {
        Some(row) => row.as_slice().len(),
        None => 0,
    }
}

fn is_phases(phases: usize) -> bool
    ensures { result ≡ is_phases phases }
{
    1 <= phases && phases <= PHASES
}

fn is_taps(taps: usize) -> bool
    ensures { result ≡ is_taps taps }
{
    2 <= taps && taps <= TAPS && taps % 2 == 0
}

fn have_length(rows: &[Row], taps: usize) -> bool
    ensures { result ≡ list_all (λ row. length row == taps) rows.now }
{
    rows.iter().all(|row| row.as_slice().len() == taps)
}

// The coefficients of rows, one row after another.
pub(crate) fn coefs_in(alloc: Global, rows: &[Row]) -> Result<Coefs, ConfigFault>
    ensures { Reads result (required Coef Tables (coefs_in rows.now)) }
{
    let numbers = end_to_end(alloc, rows)?;
    each_coef(alloc, numbers.as_slice())
}

fn end_to_end(alloc: Global, rows: &[Row]) -> Result<Vec<i64>, AllocError>
    ensures { IfOk result (λ numbers. numbers.items ≡ flat_map (λ row. row) rows.now) }
{
    let mut numbers = Vec::new(alloc);
    for row in rows {
        numbers.extend_from_slice(row.as_slice())?;
    }
    Ok(numbers)
}

fn each_coef(alloc: Global, numbers: &[i64]) -> Result<Coefs, ConfigFault>
    ensures { Reads result (required Coef Tables (each_as filter_coef numbers.now)) }
{
    let mut coefs = Vec::new(alloc);
    for number in numbers {
        let Some(coef) = as_coef(COEF_MOST, *number) else {
            return Err(refused(ConfigKind::Coef, ConfigPlace::Tables));
        };
        coefs.push(coef)?;
    }
    Ok(Coefs::new(coefs))
}
