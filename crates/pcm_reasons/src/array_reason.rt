//! What is wrong in the filters or the sections of a configuration.

use crate::filter_reason::filter_reason;
use crate::kind_reason::kind_said;
use crate::section_reason::section_reason;
use pcm_config::{ConfigKind, ConfigPlace, ConfigRefusal};
use pcm_feeder::{FILTERS, SECTIONS};
use std::alloc::Global;
use toml::{Table, Value};

// How many tables there are, and may be.
pub(crate) fn count_reason(alloc: Global, top: &Table, place: ConfigPlace) -> Option<String> {
    let found = top.get(place.word())?.as_array()?.len();
    match place {
        ConfigPlace::Eq => {
            let most = SECTIONS;
            format!(in alloc; "eq: {found} sections, and not up to {most}").ok()
        }
        _ => {
            let most = FILTERS;
            format!(in alloc; "tables: {found} filters, and not up to {most}").ok()
        }
    }
}

// What is wrong in the first table that has a fault of this kind, or with the array itself.
pub(crate) fn array_reason(alloc: Global, top: &Table, refusal: ConfigRefusal) -> Option<String> {
    let place = refusal.place.word();
    let value = top.get(place)?;
    let Some(tables) = value.as_array() else {
        return kind_said(alloc, place, value, "an array of tables").ok();
    };
    for table in tables {
        let reason = table_reason(alloc, table, refusal);
        if reason.is_some() {
            return reason;
        }
    }
    None
}

fn table_reason(alloc: Global, value: &Value, refusal: ConfigRefusal) -> Option<String> {
    match (value.as_table(), refusal.place) {
        (Some(section), ConfigPlace::Eq) => section_reason(alloc, section, refusal.kind),
        (Some(filter), _) => filter_reason(alloc, filter, refusal.kind),
        (None, place) if refusal.kind == ConfigKind::Kind => {
            kind_said(alloc, place.word(), value, "a table").ok()
        }
        (None, _) => None,
    }
}
