//! Arrays of tables at the top of a configuration.

ghost use Rattle.std.specs.Prelude.{◌≡◌, is_some, option_map};
ghost use Rattle.std.specs.List.{list_all};
ghost use Rattle.toml.specs.Data.{as_table};
ghost use Rattle.toml.specs.View.{table_view, view};
ghost use Rattle.pcm_config.specs.Lists.{few, has_each, has_no_other, is_one_of, keys_seen, tables_at};
ghost use Rattle.pcm_config.specs.Judgements.{as_seen};
ghost use Rattle.pcm_config.specs.Lookups.{as_array_of, borrowed_tables, members_seen, table_seen, tables_seen};

use crate::fault::required;
use crate::lookup::{member_at, member_of};
use crate::{ConfigKind, ConfigPlace, ConfigRefusal};
use toml::{Table, Value};

// The tables of the array at a place of the top: each of these values is a table.
pub(crate) fn tables_at(top: &Table, place: ConfigPlace) -> Result<&[Value], ConfigRefusal>
    ensures { as_seen borrowed_tables result ≡ tables_at place (table_view top.now) }
{
    match member_at(Some(top), place) {
        None => Ok(&[]),
        Some(value) => required(ConfigKind::Kind, place, tables_in(value)),
    }
}

// The tables of an array, if it is one and has nothing else.
fn tables_in(value: &Value) -> Option<&[Value]>
    ensures { option_map borrowed_tables result ≡ as_array_of as_table (view value.now) }
{
    match value.as_array() {
        Some(values) if are_tables(values) => Some(values.as_slice()),
        _ => None,
    }
}

fn are_tables(values: &[Value]) -> bool
    ensures { result ≡ list_all (λ value. is_some (as_table (view value))) values.now }
{
    values.iter().all(|value| value.is_table())
}

// Whether no table has a key but these.
pub(crate) fn have_only(tables: &[Value], keys: &[&str]) -> bool
    ensures { result ≡ list_all (has_no_other (keys_seen keys.now)) (tables_seen tables.now) }
{
    each_has_no_other(tables, keys)
}

fn each_has_no_other(tables: &[Value], keys: &[&str]) -> bool
    ensures { result ≡ list_all (λ table. has_no_other (keys_seen keys.now) (table_seen table)) tables.now }
{
    tables.iter().all(|table| has_no_other(table, keys))
}

fn has_no_other(table: &Value, keys: &[&str]) -> bool
    ensures { result ≡ has_no_other (keys_seen keys.now) (table_seen table.now) }
{
    match table.as_table() {
        Some(table) => have_names(table, keys),
        None => true,
    }
}

fn have_names(table: &Table, keys: &[&str]) -> bool
    ensures { result ≡ has_no_other (keys_seen keys.now) (table_view table.now) }
{
    table.keys().all(|key| is_one_of(keys, key.as_str()))
}

// Whether a key is one of these.
fn is_one_of(keys: &[&str], key: &str) -> bool
    ensures { result ≡ is_one_of (keys_seen keys.now) key.now }
{
    keys.iter().any(|known| *known == key)
}

// Whether a table has each of these keys.
pub(crate) fn has_each(table: Option<&Table>, keys: &[&str]) -> bool
    ensures { result ≡ has_each (keys_seen keys.now) (members_seen table.entry) }
{
    keys.iter().all(|key| member_of(table, key).is_some())
}

// Tables, of which there are at most `most` at a place.
pub(crate) fn few(
    tables: &[Value],
    most: usize,
    place: ConfigPlace,
) -> Result<&[Value], ConfigRefusal>
    ensures { as_seen borrowed_tables result ≡ few most place (tables_seen tables.now) }
{
    if tables.len() > most {
        return Err(ConfigRefusal {
            kind: ConfigKind::Count,
            place,
        });
    }
    Ok(tables)
}
