//! Filters made from numbers, which are judged before a coefficient is copied.

ghost use Rattle.std.specs.Prelude.{◌≡◌, IfOk, map, true};
ghost use Rattle.std.specs.List.{list_all};
ghost use Rattle.pcm_foreign.specs.Filters.{IsThere, are_filter_rates, are_phases, are_taps, coefs_of, filter_from, filter_size, has_coefs, is_coef, is_filter, is_filter_shape, is_shift};

use crate::device::is_rate;
use pcm_feeder::{COEF_MOST, Coefs, PHASES, SHIFT_MOST, TABLE_COEFS, TAPS, Table};
use std::alloc::{AllocError, Global};

/// A filter as numbers, with its coefficients among those of all filters: a row of `taps` for each of `phases`, one row after another.
#[repr(C)]
#[derive(Clone, Copy, Debug, PartialEq, Eq)]
pub struct FilterNumbers {
    /// Frames per second that it takes, or 0 beside another 0 for a filter of every change of rate.
    pub src: u32,
    /// Frames per second that it gives, or 0.
    pub dst: u32,
    /// Rows of coefficients.
    pub phases: u32,
    /// Coefficients of a row, an even number.
    pub taps: u32,
    /// A coefficient counts as divided by `2 ^ shift`.
    pub shift: u32,
    /// How many coefficients of all stand before its own.
    pub first: u32,
}

// Whether each of these is a filter within its limits, with its coefficients among these.
pub(crate) fn are_filters(filters: &[FilterNumbers], coefs: &[i32]) -> bool
    ensures { result ≡ list_all (is_filter coefs.now) filters.now }
{
    filters.iter().all(|filter| is_filter(filter, coefs))
}

// Whether a filter is within its limits, with its coefficients among these.
fn is_filter(filter: &FilterNumbers, coefs: &[i32]) -> bool
    ensures { result ≡ is_filter coefs.now filter.now }
{
    is_filter_shape(filter) && has_coefs(filter, coefs) && are_coefs(coefs_of(filter, coefs))
}

// Whether all that a filter has beside its coefficients is within its limits.
fn is_filter_shape(filter: &FilterNumbers) -> bool
    ensures { result ≡ is_filter_shape filter.now }
{
    are_filter_rates(filter.src, filter.dst)
        && are_phases(filter.phases)
        && are_taps(filter.taps)
        && filter_size(filter) <= TABLE_COEFS
        && is_shift(filter.shift)
}

// Whether a filter has two rates, or none.
fn are_filter_rates(src: u32, dst: u32) -> bool
    ensures { result ≡ are_filter_rates src dst }
{
    (src == 0 && dst == 0) || (is_rate(src) && is_rate(dst))
}

fn are_phases(phases: u32) -> bool
    ensures { result ≡ are_phases phases }
{
    1 <= phases && phases as usize <= PHASES
}

fn are_taps(taps: u32) -> bool
    ensures { result ≡ are_taps taps }
{
    2 <= taps && taps as usize <= TAPS && taps % 2 == 0
}

fn is_shift(shift: u32) -> bool
    ensures { result ≡ is_shift shift }
{
    1 <= shift && shift <= SHIFT_MOST
}

// How many coefficients a filter has.
fn filter_size(filter: &FilterNumbers) -> usize
    ensures { result ≡ filter_size filter.now }
{
    filter.phases as usize * filter.taps as usize
}

// Whether a filter's coefficients are all there.
fn has_coefs(filter: &FilterNumbers, coefs: &[i32]) -> bool
    ensures { result ≡ has_coefs coefs.now filter.now }
{
    filter.first as usize <= coefs.len()
        && filter_size(filter) <= coefs.len() - filter.first as usize
}

// The coefficients of a filter.
fn coefs_of<'a>(filter: &FilterNumbers, coefs: &'a [i32]) -> &'a [i32]
    requires { IsThere coefs.now filter.now }
    ensures { result.now ≡ coefs_of coefs.now filter.now }
{
    &coefs[filter.first as usize..][..filter_size(filter)]
}

fn are_coefs(coefs: &[i32]) -> bool
    ensures { result ≡ list_all is_coef coefs.now }
{
    coefs.iter().all(|coef| is_coef(*coef))
}

// Whether a coefficient is at most `COEF_MOST` from 0.
fn is_coef(coef: i32) -> bool
    ensures { result ≡ is_coef coef }
{
    -COEF_MOST <= coef && coef <= COEF_MOST
}

// The filters of numbers, with copies of their coefficients.
pub(crate) fn filters_with(
    alloc: Global,
    filters: &[FilterNumbers],
    coefs: &[i32],
) -> Result<Vec<Table>, AllocError>
    requires { list_all (is_filter coefs.now) filters.now ≡ true }
    ensures { IfOk result (λ list. list.items ≡ map (filter_from coefs.now) filters.now) }
{
    let mut list = Vec::new(alloc);
    for filter in filters {
        list.push(filter_from(alloc, filter, coefs)?)?;
    }
    Ok(list)
}

// The filter of numbers, with a copy of its coefficients.
fn filter_from(alloc: Global, filter: &FilterNumbers, coefs: &[i32]) -> Result<Table, AllocError>
    requires { IsThere coefs.now filter.now }
    ensures { IfOk result (λ table. table ≡ filter_from coefs.now filter.now) }
{
    let mut copied = Vec::new(alloc);
    copied.extend_from_slice(coefs_of(filter, coefs))?;
    Ok(Table {
        src: filter.src,
        dst: filter.dst,
        phases: filter.phases as usize,
        taps: filter.taps as usize,
        shift: filter.shift,
        coefs: Coefs::new(copied),
    })
}
