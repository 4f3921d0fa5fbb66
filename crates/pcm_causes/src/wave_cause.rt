//! What is refused of a wave.

use crate::again::reopened;
use crate::chunk::{chunk_named, fills};
use crate::said::{Said, said_of};
use crate::settled::settled;
use crate::wave_format::{FORMAT_BYTES, format_fault, shape_of};
use pcm_reasons::shown;
use pcm_wave::DATA_BYTES;
use std::alloc::Global;
use std::io::{Read, Seek};
use std::rt;

/// What is refused of the wave that a line names.
pub(crate) fn wave_cause<R: rt::Files>(
    rt: &R,
    alloc: Global,
    words: &[String],
    line: &str,
) -> Option<String> {
    let (name, kind) = line.strip_prefix("bad wave: ")?.rsplit_once(": ")?;
    let (mut file, size) = reopened(rt, name)?;
    match kind {
        "notriff" if size >= 12 => other_form(alloc, name, &mut file),
        "shape" => {
            let format = format_in(&mut file)?;
            shape_said(rt, alloc, words, name, shape_of(&format.bytes))
        }
        _ => said_of(alloc, name, kind_said(kind, &mut file, size)?),
    }
}

// How a file begins that is no RIFF file of the form WAVE.
fn other_form<F: Read + Seek>(alloc: Global, name: &str, file: &mut F) -> Option<String> {
    let mut head = [0; 12];
    if !fills(file, 0, &mut head) {
        return None;
    }
    if head.starts_with(b"RIFF") {
        let form = shown(alloc, &head[8..]).ok()?;
        format!(in alloc; "{name}: \"{form}\" stands where \"WAVE\" is wanted").ok()
    } else {
        let word = shown(alloc, &head[..4]).ok()?;
        format!(in alloc; "{name}: \"{word}\" stands where \"RIFF\" is wanted").ok()
    }
}

// What is said of a file of `size` bytes, by the kind of its fault.
fn kind_said<F: Read + Seek>(kind: &str, file: &mut F, size: u64) -> Option<Said> {
    match kind {
        "notriff" => Some(Said::One("", size, " bytes, and a wave has more")),
        "noformat" => Some(Said::Words("no \"fmt \" chunk stands before its sound")),
        "nodata" => Some(Said::Words("it has no \"data\" chunk")),
        "truncated" => cut_short(file, size),
        "unsupported" => {
            let format = format_in(file)?;
            Some(format_fault(&format.bytes, format.size))
        }
        "long" => Some(long_said(size)),
        _ => None,
    }
}

// Which chunk passes the end of a file.
fn cut_short<F: Read + Seek>(file: &mut F, size: u64) -> Option<Said> {
    let format = chunk_named(file, *b"fmt ")?;
    let there = size.saturating_sub(format.body);
    if there < u64::from(format.size) {
        let words = " bytes of its \"fmt \" chunk are there, of ";
        return Some(Said::Two("", there, words, format.size.into(), ""));
    }
    let sound = chunk_named(file, *b"data")?;
    let there = size.saturating_sub(sound.body);
    let words = " bytes of its \"data\" chunk are there, of ";
    Some(Said::Two("", there, words, sound.size.into(), ""))
}

fn long_said(size: u64) -> Said {
    let words = " bytes; all data files together have ";
    Said::Two(
        "too long, with its ",
        size,
        words,
        DATA_BYTES as u64,
        " at most",
    )
}

// The first bytes of a format, and how many its chunk states.
#[derive(Drop)]
struct FormatBytes {
    bytes: [u8; FORMAT_BYTES],
    size: u32,
}

fn format_in<F: Read + Seek>(file: &mut F) -> Option<FormatBytes> {
    let chunk = chunk_named(file, *b"fmt ")?;
    let size = chunk.size;
    let mut bytes = [0; FORMAT_BYTES];
    let there = FORMAT_BYTES.min(size as usize);
    if fills(file, chunk.body, &mut bytes[..there]) {
        Some(FormatBytes { bytes, size })
    } else {
        None
    }
}

// The rate and the channels of a wave, and those of the device.
fn shape_said<R: rt::Files>(
    rt: &R,
    alloc: Global,
    words: &[String],
    name: &str,
    told: (u32, u32),
) -> Option<String> {
    let (rate, channels) = told;
    match settled(rt, alloc, words) {
        Some(config) => {
            let settings = config.device.settings;
            let (right, many) = (settings.rate, settings.layout.channels());
            format!(in alloc;
                "{name}: rate {rate} and channels {channels}; the device has {right} and {many}"
            ).ok()
        }
        None => format!(in alloc;
            "{name}: rate {rate} and channels {channels}, which aren't those of the device"
        ).ok(),
    }
}
