//! What is read of the arrays of tables: the filters, and the sections of the equaliser.

ghost use Rattle.std.specs.Prelude.{IfOk};
ghost use Rattle.pcm_feeder.specs.Limits.{IsSection, IsTable};
ghost use Rattle.pcm_feeder.specs.declared.limits.TheConstants.{FILTERS, SECTIONS};
ghost use Rattle.pcm_config.specs.Answers.{Reads};
ghost use Rattle.pcm_config.specs.Lists.{AreFew, each_read};
ghost use Rattle.pcm_config.specs.Judgements.{as_seen};
ghost use Rattle.pcm_config.specs.Lookups.{table_seen, tables_seen};
ghost use Rattle.pcm_config.specs.Sections.{sections_in};
ghost use Rattle.pcm_config.specs.Filters.{filters_in};

use crate::lists::few;
use crate::{ConfigFault, ConfigPlace};
use pcm_feeder::{FILTERS, SECTIONS, Section, Table as Filter};
use std::alloc::Global;
use toml::Value;

// What a table of an array stands for.
pub(crate) trait Entry: Drop {
    ghost use Rattle.std.specs.Prelude.{Result};
    ghost use Rattle.toml.specs.Data.{Members};
    ghost use Rattle.pcm_config.specs.declared.fault.ConfigRefusal.{ConfigRefusal};
    ghost use Rattle.pcm_config.specs.Answers.{Reads};
    ghost use Rattle.pcm_config.specs.Lookups.{members_seen};

    ghost read: { Members → Result Self ConfigRefusal };

    fn read(alloc: Global, table: Option<&toml::Table>) -> Result<Self, ConfigFault>
        ensures { Reads result (read (members_seen table.entry)) };
}

// The filters of tables, of which there are no more than `FILTERS`.
pub(crate) fn filters_in(alloc: Global, tables: &[Value]) -> Result<Vec<Filter>, ConfigFault>
    ensures read { Reads (as_seen (λ filters. filters.items) result) (filters_in (tables_seen tables.now)) }
    ensures limits { IfOk result (λ filters. AreFew FILTERS IsTable filters.items) }
{
    each_of(alloc, few(tables, FILTERS, ConfigPlace::Tables)?)
}

// The sections of tables, of which there are no more than `SECTIONS`.
pub(crate) fn sections_in(alloc: Global, tables: &[Value]) -> Result<Vec<Section>, ConfigFault>
    ensures read { Reads (as_seen (λ sections. sections.items) result) (sections_in (tables_seen tables.now)) }
    ensures limits { IfOk result (λ sections. AreFew SECTIONS IsSection sections.items) }
{
    each_of(alloc, few(tables, SECTIONS, ConfigPlace::Eq)?)
}

fn each_of<T: Entry>(alloc: Global, tables: &[Value]) -> Result<Vec<T>, ConfigFault>
    ensures { Reads (as_seen (λ entries. entries.items) result) (each_read T.read (tables_seen tables.now)) }
{
    let mut entries = Vec::new(alloc);
    for table in tables {
        entries.push(entry_of::<T>(alloc, table)?)?;
    }
    Ok(entries)
}

fn entry_of<T: Entry>(alloc: Global, table: &Value) -> Result<T, ConfigFault>
    ensures { Reads result (T.read (table_seen table.now)) }
{
    T::read(alloc, table.as_table())
}
