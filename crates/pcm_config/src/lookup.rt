//! What stands in a table of TOML.

ghost use Rattle.std.specs.Prelude.{◌≡◌, option_copied};
ghost use Rattle.toml.specs.Data.{as_integer, as_str, get_member};
ghost use Rattle.toml.specs.View.{table_view};
ghost use Rattle.pcm_config.specs.Judgements.{as_seen};
ghost use Rattle.pcm_config.specs.Lookups.{has_only, is_key_of, member_at, members_seen, table_in, value_at, value_seen};

use crate::fault::required;
use crate::{ConfigKind, ConfigPlace, ConfigRefusal};
use toml::{Table, Value};

// Whether a table has no key but those of these places.
pub(crate) fn has_only(table: Option<&Table>, places: &[ConfigPlace]) -> bool
    ensures { result ≡ has_only places.now (members_seen table.entry) }
{
    match table {
        Some(table) => table.keys().all(|key| is_key_of(places, key.as_str())),
        None => true,
    }
}

// The table at a place of the top, if it is there.
pub(crate) fn table_in(top: &Table, place: ConfigPlace) -> Result<Option<&Table>, ConfigRefusal>
    ensures { as_seen members_seen result ≡ table_in place (table_view top.now) }
{
    match member_at(Some(top), place) {
        None => Ok(None),
        Some(value) => Ok(Some(required(ConfigKind::Kind, place, value.as_table())?)),
    }
}

// The text at a place, if there is one.
pub(crate) fn text_at(
    table: Option<&Table>,
    place: ConfigPlace,
) -> Result<Option<&str>, ConfigRefusal>
    ensures { as_seen option_copied result ≡ value_at as_str place (members_seen table.entry) }
{
    match member_at(table, place) {
        None => Ok(None),
        Some(value) => Ok(Some(required(ConfigKind::Kind, place, value.as_str())?)),
    }
}

// The whole number at a place, if there is one.
pub(crate) fn integer_at(
    table: Option<&Table>,
    place: ConfigPlace,
) -> Result<Option<i64>, ConfigRefusal>
    ensures { result ≡ value_at as_integer place (members_seen table.entry) }
{
    match member_at(table, place) {
        None => Ok(None),
        Some(value) => Ok(Some(required(ConfigKind::Kind, place, value.as_integer())?)),
    }
}

// The value at a place of a table, if both are there.
pub(crate) fn member_at(table: Option<&Table>, place: ConfigPlace) -> Option<&Value>
    ensures { value_seen result ≡ member_at place (members_seen table.entry) }
{
    member_of(table, place.key())
}

// The value at a key of a table, if both are there.
pub(crate) fn member_of<'a>(table: Option<&'a Table>, key: &str) -> Option<&'a Value>
    ensures { value_seen result ≡ get_member key.now (members_seen table.entry) }
{
    match table {
        Some(table) => value_of(table, key),
        None => None,
    }
}

fn value_of<'a>(table: &'a Table, key: &str) -> Option<&'a Value>
    ensures { value_seen result ≡ get_member key.now (table_view table.now) }
{
    table.get(key)
}

// Whether a key is that of one of these places.
fn is_key_of(places: &[ConfigPlace], key: &str) -> bool
    ensures { result ≡ is_key_of places.now key.now }
{
    places.iter().any(|place| place.key() == key)
}
