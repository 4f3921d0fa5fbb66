//! Rows of whole numbers.

ghost use Rattle.toml.specs.View.{view};
ghost use Rattle.pcm_config.specs.Answers.{Reads};
ghost use Rattle.pcm_config.specs.Judgements.{required};
ghost use Rattle.pcm_config.specs.Lookups.{each_in};
ghost use Rattle.pcm_config.specs.Filters.{numbers_in, rows_in};
ghost use Rattle.pcm_config.specs.declared.fault.ConfigKind.TheVariants.{Kind};
ghost use Rattle.pcm_config.specs.declared.place.ConfigPlace.TheVariants.{Tables};
ghost use Rattle.toml.specs.Data.{as_integer};

use crate::fault::refused;
use crate::{ConfigFault, ConfigKind, ConfigPlace};
use pcm_sequence::Sequence;
use std::alloc::Global;
use toml::Value;

// A row of whole numbers.
pub(crate) type Row = Sequence<i64>;

// A value as rows of whole numbers.
pub(crate) fn rows_in(alloc: Global, value: &Value) -> Result<Sequence<Row>, ConfigFault>
    ensures { Reads result (required Kind Tables (rows_in (view value.now))) }
{
    match value.as_array() {
        Some(rows) => each_row(alloc, rows.as_slice()),
        None => Err(refused(ConfigKind::Kind, ConfigPlace::Tables)),
    }
}

fn each_row(alloc: Global, values: &[Value]) -> Result<Sequence<Row>, ConfigFault>
    ensures { Reads result (required Kind Tables (each_in numbers_in values.now)) }
{
    let mut rows = Vec::new(alloc);
    for value in values {
        rows.push(numbers_in(alloc, value)?)?;
    }
    Ok(Sequence::new(rows))
}

// A value as whole numbers.
fn numbers_in(alloc: Global, value: &Value) -> Result<Row, ConfigFault>
    ensures { Reads result (required Kind Tables (numbers_in (view value.now))) }
{
    match value.as_array() {
        Some(numbers) => each_number(alloc, numbers.as_slice()),
        None => Err(refused(ConfigKind::Kind, ConfigPlace::Tables)),
    }
}

fn each_number(alloc: Global, values: &[Value]) -> Result<Row, ConfigFault>
    ensures { Reads result (required Kind Tables (each_in as_integer values.now)) }
{
    let mut numbers = Vec::new(alloc);
    for value in values {
        let Some(number) = value.as_integer() else {
            return Err(refused(ConfigKind::Kind, ConfigPlace::Tables));
        };
        numbers.push(number)?;
    }
    Ok(Sequence::new(numbers))
}
