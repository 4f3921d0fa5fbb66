//! The cause of each status that a fault ends with.

use crate::config_cause::config_cause;
use crate::script_cause::script_cause;
use crate::unread_cause::unread_cause;
use crate::wave_cause::wave_cause;
use std::alloc::Global;
use std::rt;

/// The cause of a status and of the line that was printed with it, under these words. None where nothing more is known, and
/// where memory runs out.
pub fn cause_of<R: rt::Files>(
    rt: &R,
    alloc: Global,
    words: &[String],
    status: u8,
    line: &[u8],
) -> Option<String> {
    let line = std::str::from_utf8(line).ok()?;
    let line = line.strip_prefix("dsp_replay: ")?.strip_suffix("\n")?;
    match status {
        3 => unread_cause(rt, alloc, line),
        4 => config_cause(rt, alloc, words, line),
        5 => script_cause(rt, alloc, words, line),
        6 => wave_cause(rt, alloc, words, line),
        _ => None,
    }
}
