//! Why a word of a line is wrong.

use crate::listed;
use crate::showing::{quoted, shown};
use crate::wanted::{Wanted, is_wrong, set_of, wanted_of};
use pcm_config::Config;
use pcm_desk::WRITE_BYTES;
use pcm_script::{Command, DECIMAL_DIGITS, HEXADECIMAL_DIGITS, ScriptKind};
use std::alloc::{AllocError, Global};

// A word, and what it should be.
#[derive(Clone, Copy)]
struct WrongWord<'a> {
    wanted: Wanted,
    word: &'a [u8],
}

/// What is wrong with the first word after a command that has a fault of this kind, and what would be right. `body` is how long
/// the file is that a send names.
pub fn word_reason(
    alloc: Global,
    config: &Config,
    kind: ScriptKind,
    command: Command,
    arguments: &[&[u8]],
    body: Option<u32>,
) -> Option<String> {
    let wrong = wrong_word(config, kind, command, arguments)?;
    let said = match kind {
        ScriptKind::Number => number_said(alloc, wrong.word),
        ScriptKind::Name => name_said(alloc, config, wrong),
        ScriptKind::Hex => bytes_said(alloc, wrong.word),
        ScriptKind::Range if wrong.wanted == Wanted::Length => length_said(alloc, arguments, body?),
        _ => range_said(alloc, config, wrong),
    };
    said.ok()
}

fn wrong_word<'a>(
    config: &Config,
    kind: ScriptKind,
    command: Command,
    arguments: &[&'a [u8]],
) -> Option<WrongWord<'a>> {
    let all = wanted_of(command, arguments);
    for at in 0..arguments.len() {
        let wanted = *all.get(at)?;
        let word = arguments[at];
        if is_wrong(config, kind, wanted, word) {
            return Some(WrongWord { wanted, word });
        }
    }
    None
}

fn number_said(alloc: Global, word: &[u8]) -> Result<String, AllocError> {
    let word = quoted(alloc, word)?;
    let decimal = DECIMAL_DIGITS;
    let digits = HEXADECIMAL_DIGITS;
    format!(in alloc;
        "{word} is no number: up to {decimal} digits, or 0x and up to {digits} hexadecimal ones"
    )
}

fn name_said(alloc: Global, config: &Config, wrong: WrongWord<'_>) -> Result<String, AllocError> {
    let word = quoted(alloc, wrong.word)?;
    match wrong.wanted {
        Wanted::Way => {
            let ways = listed::ways(alloc)?;
            format!(in alloc; "{word} is no direction: {ways}")
        }
        Wanted::File => {
            let files = listed::files(alloc, &config.files)?;
            file_said(alloc, word.as_str(), files.as_str())
        }
        Wanted::PlainRequest | Wanted::FullRequest => {
            request_said(alloc, word.as_str(), wrong.wanted == Wanted::FullRequest)
        }
        Wanted::Control => {
            let controls = listed::controls(alloc)?;
            format!(in alloc; "{word} is nothing of the mixer device: {controls}")
        }
        _ => format_said(alloc, word.as_str(), wrong.wanted == Wanted::Code),
    }
}

fn file_said(alloc: Global, word: &str, files: &str) -> Result<String, AllocError> {
    if files.is_empty() {
        format!(in alloc; "{word} is no file: the configuration has none")
    } else {
        format!(in alloc; "{word} is no file: {files}")
    }
}

fn request_said(alloc: Global, word: &str, has_argument: bool) -> Result<String, AllocError> {
    let requests = listed::requests(alloc, has_argument)?;
    if has_argument {
        format!(in alloc; "{word} is no request with a number: {requests}")
    } else {
        format!(in alloc; "{word} is no request without a number: {requests}")
    }
}

fn format_said(alloc: Global, word: &str, has_code: bool) -> Result<String, AllocError> {
    let formats = listed::formats(alloc)?;
    if has_code {
        format!(in alloc; "{word} is no format: {formats}, or the code of one")
    } else {
        format!(in alloc; "{word} is no format: {formats}")
    }
}

fn bytes_said(alloc: Global, word: &[u8]) -> Result<String, AllocError> {
    let digits = word.len();
    let most = WRITE_BYTES;
    if digits > 2 * WRITE_BYTES {
        format!(in alloc; "{digits} hexadecimal digits are more than {most} bytes")
    } else if has_other(word) {
        let word = quoted(alloc, word)?;
        format!(in alloc; "{word} is neither pairs of hexadecimal digits nor \"-\"")
    } else {
        format!(in alloc; "{digits} hexadecimal digits are no pairs")
    }
}

// Whether a word has a byte that is no hexadecimal digit.
fn has_other(word: &[u8]) -> bool {
    for byte in word {
        if !byte.is_ascii_hexdigit() {
            return true;
        }
    }
    false
}

fn length_said(alloc: Global, arguments: &[&[u8]], body: u32) -> Result<String, AllocError> {
    let [_, file, place, length] = arguments else {
        return String::from_str(alloc, "the length passes the end of the file");
    };
    let file = quoted(alloc, file)?;
    let place = shown(alloc, place)?;
    let length = shown(alloc, length)?;
    format!(in alloc;
        "{length} bytes from byte {place} on pass the end of {file}, which has {body}"
    )
}

fn range_said(alloc: Global, config: &Config, wrong: WrongWord<'_>) -> Result<String, AllocError> {
    let word = shown(alloc, wrong.word)?;
    match set_of(config, wrong.wanted) {
        Some(set) => {
            let (least, most, of) = (set.least, set.most, set.of);
            format!(in alloc; "{word} is not {least} to {most} ({of})")
        }
        None => {
            let layouts = listed::layouts(alloc)?;
            format!(in alloc; "{word} is none of {layouts} (channels)")
        }
    }
}
