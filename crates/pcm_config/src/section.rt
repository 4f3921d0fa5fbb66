//! A section of a configuration's equaliser.

ghost use Rattle.std.specs.Prelude.{◌≡◌};
ghost use Rattle.pcm_config.specs.Lookups.{members_seen};
ghost use Rattle.pcm_config.specs.Sections.{numbers_of, section_coef, section_in, section_shift, settled_section, spelled_at};

use crate::fault::required;
use crate::lists::has_each;
use crate::lookup::member_of;
use crate::number::{as_coef, in_range};
use crate::tables::Entry;
use crate::{ConfigFault, ConfigKind, ConfigPlace, ConfigRefusal};
use pcm_feeder::{SECTION_COEF_MOST, SECTION_SHIFT_MOST, Section};
use std::alloc::Global;
use toml::{Table, Value};

/// The keys of a section, each of which must be there.
pub const SECTION_KEYS: [&str; 6] = ["shift", "b0", "b1", "b2", "a1", "a2"];

// What the table of a section spells.
#[derive(Clone, Copy)]
pub(crate) struct Numbers {
    pub(crate) shift: i64,
    pub(crate) b0: i64,
    pub(crate) b1: i64,
    pub(crate) b2: i64,
    pub(crate) a1: i64,
    pub(crate) a2: i64,
}

impl Entry for Section {
    ghost read = { section_in };

    fn read(_: Global, table: Option<&Table>) -> Result<Section, ConfigFault> {
        Ok(section_in(table)?)
    }
}

// The section of a table.
#[tactic(auto, unfolding(crate::specs::Sections::section_in))]
fn section_in(table: Option<&Table>) -> Result<Section, ConfigRefusal>
    ensures { result ≡ section_in (members_seen table.entry) }
{
    if !has_each(table, &SECTION_KEYS) {
        return Err(ConfigRefusal {
            kind: ConfigKind::Missing,
            place: ConfigPlace::Eq,
        });
    }
    settled_section(numbers_of(table)?)
}

// What stands at the keys, each a whole number.
#[tactic(auto, unfolding(crate::specs::Sections::numbers_of))]
fn numbers_of(table: Option<&Table>) -> Result<Numbers, ConfigRefusal>
    ensures { result ≡ numbers_of (members_seen table.entry) }
{
    Ok(Numbers {
        shift: spelled_at(table, "shift")?,
        b0: spelled_at(table, "b0")?,
        b1: spelled_at(table, "b1")?,
        b2: spelled_at(table, "b2")?,
        a1: spelled_at(table, "a1")?,
        a2: spelled_at(table, "a2")?,
    })
}

fn spelled_at(table: Option<&Table>, key: &str) -> Result<i64, ConfigRefusal>
    ensures { result ≡ spelled_at key.now (members_seen table.entry) }
{
    let number = member_of(table, key).and_then(Value::as_integer);
    required(ConfigKind::Kind, ConfigPlace::Eq, number)
}

// What is spelled, as a section.
#[tactic(auto, unfolding(crate::specs::Sections::settled_section))]
fn settled_section(numbers: Numbers) -> Result<Section, ConfigRefusal>
    ensures { result ≡ settled_section numbers }
{
    Ok(Section {
        shift: shift_of(numbers.shift)?,
        b0: coef_of(numbers.b0)?,
        b1: coef_of(numbers.b1)?,
        b2: coef_of(numbers.b2)?,
        a1: coef_of(numbers.a1)?,
        a2: coef_of(numbers.a2)?,
    })
}

#[tactic(auto, unfolding(crate::specs::Sections::section_shift))]
fn shift_of(number: i64) -> Result<u32, ConfigRefusal>
    ensures { result ≡ section_shift number }
{
    required(
        ConfigKind::Range,
        ConfigPlace::Eq,
        in_range(1, SECTION_SHIFT_MOST, number),
    )
}

#[tactic(auto, unfolding(crate::specs::Sections::section_coef))]
fn coef_of(number: i64) -> Result<i32, ConfigRefusal>
    ensures { result ≡ section_coef number }
{
    required(
        ConfigKind::Coef,
        ConfigPlace::Eq,
        as_coef(SECTION_COEF_MOST, number),
    )
}
