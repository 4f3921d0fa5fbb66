//! Why a line of a script is wrong.

use crate::again::content;
use crate::lines::{line_end, line_from};
use crate::settled::settled;
use pcm_config::Config;
use pcm_desk::{DEVICE_BYTES, Device, EVENTS};
use pcm_reasons::{commands, forms_of, quoted, word_reason};
use pcm_script::{Command, ScriptFault, ScriptKind, first_words, script_of};
use pcm_wave::read_wave;
use std::alloc::Global;
use std::rt;

const KINDS: [ScriptKind; 7] = [
    ScriptKind::Word,
    ScriptKind::Count,
    ScriptKind::Number,
    ScriptKind::Name,
    ScriptKind::Hex,
    ScriptKind::Range,
    ScriptKind::Long,
];

// Why a line of a text is refused for the kind that this word names, and what would be right. None where that can't be found,
// as of files that were changed since.
pub(crate) fn line_reason<R: rt::Files>(
    rt: &R,
    alloc: Global,
    words: &[String],
    told: &str,
    before: &[u8],
    line: &[u8],
) -> Option<String> {
    let kind = kind_named(told)?;
    let parts = first_words(line);
    let (first, arguments) = parts.as_slice().split_first()?;
    let Some(command) = Command::from_name(first) else {
        return command_reason(alloc, kind, first);
    };
    match kind {
        ScriptKind::Word => None,
        ScriptKind::Count => count_reason(alloc, line, command, arguments),
        ScriptKind::Long => long_reason(alloc, before),
        _ => {
            let config = settled(rt, alloc, words)?;
            let body = body_bytes(rt, alloc, &config, command, arguments);
            word_reason(alloc, &config, kind, command, arguments, body)
        }
    }
}

// The kind of a word.
fn kind_named(word: &str) -> Option<ScriptKind> {
    for kind in KINDS {
        if kind.word() == word {
            return Some(kind);
        }
    }
    None
}

fn command_reason(alloc: Global, kind: ScriptKind, word: &[u8]) -> Option<String> {
    if kind != ScriptKind::Word {
        return None;
    }
    let word = quoted(alloc, word).ok()?;
    let all = commands(alloc).ok()?;
    format!(in alloc; "{word} is no command: {all}").ok()
}

// Words are counted before all else that a device or files could decide, so the line is judged without them.
fn count_reason(
    alloc: Global,
    line: &[u8],
    command: Command,
    arguments: &[&[u8]],
) -> Option<String> {
    match script_of(alloc, line, &Device::usual(), &[]) {
        Err(ScriptFault::Refused(refusal)) if refusal.kind == ScriptKind::Count => {
            forms_of(alloc, command, arguments).ok()
        }
        _ => None,
    }
}

// Which limit a line passes: that of the events, or that of the device's bytes.
fn long_reason(alloc: Global, before: &[u8]) -> Option<String> {
    if events_of(before) < EVENTS {
        let most = DEVICE_BYTES;
        return format!(in alloc; "with it the device takes more than {most} bytes").ok();
    }
    let most = EVENTS;
    format!(in alloc; "{most} events stand before it, and a script has no more").ok()
}

// How many lines of a text ask for something.
fn events_of(text: &[u8]) -> usize {
    let mut events = 0usize;
    let mut place = 0;
    for _ in 0..text.len() {
        if asks(line_from(text, place)) {
            events = events.saturating_add(1);
        }
        place = line_end(text, place);
        if place == text.len() {
            return events;
        }
    }
    events
}

// Whether a line has words.
fn asks(line: Option<&[u8]>) -> bool {
    match line {
        Some(line) => !first_words(line).as_slice().is_empty(),
        None => false,
    }
}

// How many bytes the file has that a send names.
fn body_bytes<R: rt::Files>(
    rt: &R,
    alloc: Global,
    config: &Config,
    command: Command,
    arguments: &[&[u8]],
) -> Option<u32> {
    let (Command::Send, [_, name, ..]) = (command, arguments) else {
        return None;
    };
    let bytes = content(rt, alloc, path_of(config, name)?)?;
    Some(read_wave(&bytes).ok()?.len)
}

fn path_of<'a>(config: &'a Config, name: &[u8]) -> Option<&'a str> {
    for file in config.files.as_slice() {
        if file.name.as_str().as_bytes() == name {
            return Some(file.path.as_str());
        }
    }
    None
}
