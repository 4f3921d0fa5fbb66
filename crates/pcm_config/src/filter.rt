//! A filter of a configuration.

ghost use Rattle.std.specs.Prelude.{◌≡◌};
ghost use Rattle.toml.specs.Data.{as_integer};
ghost use Rattle.toml.specs.View.{view};
ghost use Rattle.pcm_config.specs.Answers.{Reads};
ghost use Rattle.pcm_config.specs.Judgements.{required};
ghost use Rattle.pcm_config.specs.Lookups.{members_seen, of_kind, value_seen};
ghost use Rattle.pcm_config.specs.Filters.{come_together, filter_held, filter_in, filter_rate, settled_filter, shaped, spelled_held};
ghost use Rattle.pcm_config.specs.declared.fault.ConfigKind.TheVariants.{Kind, Range};
ghost use Rattle.pcm_config.specs.declared.place.ConfigPlace.TheVariants.{Tables};

use crate::fault::{refused, required};
use crate::lookup::member_of;
use crate::number::in_range;
use crate::rows::{Row, rows_in};
use crate::shape::{coefs_in, has_filter_shape, taps_of};
use crate::tables::Entry;
use crate::{ConfigFault, ConfigKind, ConfigPlace, ConfigRefusal};
use pcm_feeder::{SHIFT_MOST, Table as Filter};
use pcm_format::{RATE_LEAST, RATE_MOST};
use pcm_sequence::Sequence;
use std::alloc::Global;
use toml::{Table, Value};

/// The keys that a filter's table may have.
pub const FILTER_KEYS: [&str; 4] = ["src", "dst", "shift", "rows"];

// What the table of a filter spells, each value of its kind.
#[derive(Drop)]
pub(crate) struct Spelled {
    pub(crate) src: Option<i64>,
    pub(crate) dst: Option<i64>,
    pub(crate) shift: i64,
    pub(crate) rows: Sequence<Row>,
}

impl Entry for Filter {
    ghost read = { filter_in };

    fn read(alloc: Global, table: Option<&Table>) -> Result<Filter, ConfigFault> {
        filter_in(alloc, table)
    }
}

// The filter of a table.
#[tactic(auto, unfolding(crate::specs::Filters::filter_in))]
fn filter_in(alloc: Global, table: Option<&Table>) -> Result<Filter, ConfigFault>
    ensures { Reads result (filter_in (members_seen table.entry)) }
{
    let src = member_of(table, "src");
    let dst = member_of(table, "dst");
    let shift = member_of(table, "shift");
    let rows = member_of(table, "rows");
    filter_with(alloc, src, dst, shift, rows)
}

// The filter of what stands at the four keys, if that is there which must be.
fn filter_with(
    alloc: Global,
    src: Option<&Value>,
    dst: Option<&Value>,
    shift: Option<&Value>,
    rows: Option<&Value>,
) -> Result<Filter, ConfigFault>
    ensures { Reads result (filter_held src.entry dst.entry shift.entry rows.entry) }
{
    match (shift, rows) {
        (Some(shift), Some(rows)) if come_together(src, dst) => {
            let spelled = spelled_in(alloc, src, dst, shift, rows)?;
            settled_filter(alloc, &spelled)
        }
        _ => Err(refused(ConfigKind::Missing, ConfigPlace::Tables)),
    }
}

// Whether both of two values are there, or neither.
fn come_together(src: Option<&Value>, dst: Option<&Value>) -> bool
    ensures { result ≡ come_together (value_seen src.entry) (value_seen dst.entry) }
{
    src.is_some() == dst.is_some()
}

// The rates and the shift, and then the rows, each of its kind.
#[tactic(auto, unfolding(crate::specs::Filters::spelled_in))]
fn spelled_in(
    alloc: Global,
    src: Option<&Value>,
    dst: Option<&Value>,
    shift: &Value,
    rows: &Value,
) -> Result<Spelled, ConfigFault>
    ensures { Reads result (spelled_held src.entry dst.entry shift.now rows.now) }
{
    let src = integer_of(src)?;
    let dst = integer_of(dst)?;
    let shift = integer_in(shift)?;
    let rows = rows_in(alloc, rows)?;
    Ok(Spelled {
        src,
        dst,
        shift,
        rows,
    })
}

fn integer_of(value: Option<&Value>) -> Result<Option<i64>, ConfigRefusal>
    ensures { result ≡ of_kind as_integer Tables (value_seen value.entry) }
{
    match value {
        Some(value) => Ok(Some(integer_in(value)?)),
        None => Ok(None),
    }
}

fn integer_in(value: &Value) -> Result<i64, ConfigRefusal>
    ensures { result ≡ required Kind Tables (as_integer (view value.now)) }
{
    required(ConfigKind::Kind, ConfigPlace::Tables, value.as_integer())
}

// What is spelled, as a filter.
#[tactic(auto, unfolding(crate::specs::Filters::settled_filter))]
fn settled_filter(alloc: Global, spelled: &Spelled) -> Result<Filter, ConfigFault>
    ensures { Reads result (settled_filter spelled.now) }
{
    let src = ranged(filter_rate(spelled.src))?;
    let dst = ranged(filter_rate(spelled.dst))?;
    let shift = ranged(in_range(1, SHIFT_MOST, spelled.shift))?;
    shaped(alloc, src, dst, shift, spelled.rows.as_slice())
}

// A rate of a filter, which is 0 where it is left out.
fn filter_rate(rate: Option<i64>) -> Option<u32>
    ensures { result ≡ filter_rate rate }
{
    match rate {
        None => Some(0),
        Some(rate) => in_range(RATE_LEAST, RATE_MOST, rate),
    }
}

fn ranged(number: Option<u32>) -> Result<u32, ConfigRefusal>
    ensures { result ≡ required Range Tables number }
{
    required(ConfigKind::Range, ConfigPlace::Tables, number)
}

// A filter with these rates, this shift and these rows.
#[tactic(auto, unfolding(crate::specs::Filters::shaped))]
fn shaped(
    alloc: Global,
    src: u32,
    dst: u32,
    shift: u32,
    rows: &[Row],
) -> Result<Filter, ConfigFault>
    ensures { Reads result (shaped src dst shift rows.now) }
{
    if !has_filter_shape(rows) {
        return Err(refused(ConfigKind::Shape, ConfigPlace::Tables));
    }
    let coefs = coefs_in(alloc, rows)?;
    Ok(Filter {
        src,
        dst,
        phases: rows.len(),
        taps: taps_of(rows),
        shift,
        coefs,
    })
}
