//! What is said of a wave, and of a line.

use std::alloc::{AllocError, Global};

// The characters that a place, its line and a reason have together at most: with the program's name they fill 200 columns.
const ROOM: usize = 184;

// Words, with up to three numbers between them.
#[derive(Clone, Copy)]
pub(crate) enum Said {
    Words(&'static str),
    One(&'static str, u64, &'static str),
    Two(&'static str, u64, &'static str, u64, &'static str),
    Three(&'static str, u64, &'static str, u64, &'static str, u64, &'static str),
}

// What is said of a file, after its name.
pub(crate) fn said_of(alloc: Global, name: &str, said: Said) -> Option<String> {
    match said {
        Said::Words(words) => format!(in alloc; "{name}: {words}").ok(),
        Said::One(a, n, b) => format!(in alloc; "{name}: {a}{n}{b}").ok(),
        Said::Two(a, n, b, m, c) => format!(in alloc; "{name}: {a}{n}{b}{m}{c}").ok(),
        Said::Three(a, n, b, m, c, o, d) => {
            format!(in alloc; "{name}: {a}{n}{b}{m}{c}{o}{d}").ok()
        }
    }
}

// What is said of a line at a place: the line and the reason, or what there is room for.
pub(crate) fn said_of_line(
    alloc: Global,
    place: &str,
    line: &str,
    reason: Option<&str>,
) -> Result<String, AllocError> {
    match reason {
        Some(reason) if has_room(place, line, reason) => {
            format!(in alloc; "{place}: {line}: {reason}")
        }
        Some(reason) => format!(in alloc; "{place}: {reason}"),
        None => format!(in alloc; "{place}: {line}"),
    }
}

fn has_room(place: &str, line: &str, reason: &str) -> bool {
    let both = line.len().saturating_add(reason.len());
    both.saturating_add(place.len()) <= ROOM
}
