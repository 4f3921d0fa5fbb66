//! Numbers of a configuration.

ghost use Rattle.std.specs.Prelude.{◌≡◌, ◌≤◌, IfOk, IfSome};
ghost use Rattle.pcm_config.specs.Lookups.{members_seen};
ghost use Rattle.pcm_config.specs.Rows.{as_coef, in_range};
ghost use Rattle.pcm_config.specs.Values.{number_row, settled};

use crate::fault::required;
use crate::lookup::integer_at;
use crate::{ConfigKind, ConfigPlace, ConfigRefusal};
use toml::Table;

// A number that may be settled: where it stands, its set, and what it is where it is left out.
#[derive(Clone, Copy)]
pub(crate) struct NumberRow {
    pub(crate) place: ConfigPlace,
    pub(crate) least: u32,
    pub(crate) most: u32,
    pub(crate) usual: u32,
}

// What a table settles of a row.
pub(crate) fn number_in(table: Option<&Table>, row: NumberRow) -> Result<u32, ConfigRefusal>
    requires least { row.least ≤ row.usual }
    requires most { row.usual ≤ row.most }
    ensures value { result ≡ settled (number_row row) (members_seen table.entry) }
    ensures least { IfOk result (λ number. row.least ≤ number) }
    ensures most { IfOk result (λ number. number ≤ row.most) }
{
    match integer_at(table, row.place)? {
        None => Ok(row.usual),
        Some(number) => required(
            ConfigKind::Range,
            row.place,
            in_range(row.least, row.most, number),
        ),
    }
}

// A number, if it is in a set.
pub(crate) fn in_range(least: u32, most: u32, number: i64) -> Option<u32>
    ensures value { result ≡ in_range least most number }
    ensures least { IfSome result (λ number. least ≤ number) }
    ensures most { IfSome result (λ number. number ≤ most) }
{
    match u32::try_from(number) {
        Ok(number) if least <= number && number <= most => Some(number),
        _ => None,
    }
}

// A coefficient, if it is at most `most` from 0.
pub(crate) fn as_coef(most: i32, number: i64) -> Option<i32>
    ensures { result ≡ as_coef most number }
{
    match i32::try_from(number) {
        Ok(coef) if -i64::from(most) <= number && number <= i64::from(most) => Some(coef),
        _ => None,
    }
}
