//! Which line of a script is wrong, and why.

use crate::again::{content, reopened};
use crate::line_reason::line_reason;
use crate::lines::{line_at, place_of_line};
use crate::said::said_of_line;
use pcm_reasons::shown;
use pcm_script::TEXT_BYTES;
use std::alloc::Global;
use std::rt;

/// The text of the wrong line, and why it is wrong.
pub(crate) fn script_cause<R: rt::Files>(
    rt: &R,
    alloc: Global,
    words: &[String],
    line: &str,
) -> Option<String> {
    let script = words.get(1)?.as_str();
    let (number, kind) = line.strip_prefix("bad script: line ")?.split_once(": ")?;
    let number = number.parse::<usize>().ok()?;
    if number == 0 {
        return long_script(rt, alloc, script);
    }
    let text = content(rt, alloc, script)?;
    let wrong = line_at(&text, number)?;
    let before = text.get(..place_of_line(&text, number))?;
    let said = shown(alloc, wrong).ok()?;
    let place = format!(in alloc; "script line {number}").ok()?;
    let reason = line_reason(rt, alloc, words, kind, before, wrong);
    let reason = reason.as_ref().map(String::as_str);
    said_of_line(alloc, place.as_str(), said.as_str(), reason).ok()
}

fn long_script<R: rt::Files>(rt: &R, alloc: Global, script: &str) -> Option<String> {
    let (_, size) = reopened(rt, script)?;
    let most = TEXT_BYTES;
    format!(in alloc; "script of {size} bytes: a script has {most} at most").ok()
}
