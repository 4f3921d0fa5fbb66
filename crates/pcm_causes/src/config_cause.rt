//! Where a configuration has its fault.

use crate::again::{content, reopened};
use crate::definition::definition_at;
use crate::judged::judged_text;
use crate::lines::{column_behind, line_from, number_behind};
use crate::said::said_of_line;
use crate::wrong_key::wrong_key_at;
use pcm_config::{CONFIG_BYTES, ConfigFault, ConfigKind, ConfigPlace, ConfigRefusal, config_of};
use pcm_reasons::{config_reason, shown};
use std::alloc::Global;
use std::rt;

/// The line of the text with the fault that was printed as `line`, or how long the text is.
pub(crate) fn config_cause<R: rt::Files>(
    rt: &R,
    alloc: Global,
    words: &[String],
    line: &str,
) -> Option<String> {
    let name = words.last()?.as_str();
    let told = line.strip_prefix("bad configuration: ")?;
    if told == "long top" {
        return long_configuration(rt, alloc, name);
    }
    let text = content(rt, alloc, name)?;
    match config_of(alloc, &text) {
        Err(ConfigFault::Refused(refusal)) if is_told(refusal, told) => {
            fault_in(alloc, &text, refusal)
        }
        _ => None,
    }
}

fn long_configuration<R: rt::Files>(rt: &R, alloc: Global, name: &str) -> Option<String> {
    let (_, size) = reopened(rt, name)?;
    let most = CONFIG_BYTES;
    format!(in alloc; "configuration of {size} bytes: a configuration has {most} at most").ok()
}

// Whether a refusal has these words.
fn is_told(refusal: ConfigRefusal, told: &str) -> bool {
    match told.split_once(" ") {
        Some((kind, place)) => kind == refusal.kind.word() && place == refusal.place.word(),
        None => false,
    }
}

fn fault_in(alloc: Global, text: &[u8], refusal: ConfigRefusal) -> Option<String> {
    match refusal.kind {
        ConfigKind::Toml => syntax_fault(alloc, text),
        _ => definition_fault(alloc, text, refusal),
    }
}

// Where a text is no TOML, and what is wrong there.
fn syntax_fault(alloc: Global, text: &[u8]) -> Option<String> {
    let fault = toml::table_from_slice(alloc, text).err()?;
    let before = text.get(..fault.span()?.start)?;
    let line = number_behind(before);
    let column = column_behind(before);
    let said = fault.message();
    format!(in alloc; "configuration line {line}, column {column}: {said}").ok()
}

// The first line of the definition that brings a fault, and why that is one.
fn definition_fault(alloc: Global, text: &[u8], refusal: ConfigRefusal) -> Option<String> {
    let place = place_of(alloc, text, refusal)?;
    let line = number_behind(text.get(..place)?);
    let wrong = shown(alloc, line_from(text, place)?).ok()?;
    let judged = judged_text(alloc, text, place, refusal);
    let place = format!(in alloc; "configuration line {line}").ok()?;
    let reason = judged.and_then(|judged| config_reason(alloc, judged, refusal));
    let reason = reason.as_ref().map(String::as_str);
    said_of_line(alloc, place.as_str(), wrong.as_str(), reason).ok()
}

// Where the definition begins that brings a fault: of a filter or a section that of the wrong key, if there is one.
fn place_of(alloc: Global, text: &[u8], refusal: ConfigRefusal) -> Option<usize> {
    let begun = definition_at(alloc, text, refusal)?;
    match refusal.place {
        ConfigPlace::Tables | ConfigPlace::Eq => wrong_key_at(alloc, text, begun, refusal),
        _ => Some(begun),
    }
}
