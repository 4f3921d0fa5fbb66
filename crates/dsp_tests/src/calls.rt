//! One call over the forms in memory, and its expected outcome.

use crate::boxes::boxes;
use pcm_feeder::Racks;
use pcm_outside::{MemFiles, MemSink};
use pcm_replay::dsp_main;
use std::alloc::{AllocError, Global};

/// Bytes of room that are enough for each call here.
pub const ROOM: usize = 16384;

/// A client that plays four frames.
pub const FOUR_FRAMES: &[u8] =
    b"open 0 play s16le 2 48000\nwrite 0 01000200030004000500060007000800\nclose 0\nintr 1024\nintr 4\n";

/// What is printed of it.
pub const FOUR_FRAMES_PRINTED: &[u8] = b"1: ok 0\n2: ok 16\n3: ok\n4: ok 1024\n5: ok 4\n";

/// What is heard of it.
pub const FOUR_FRAMES_HEARD: &[u8] = b"\x01\0\x02\0\x03\0\x04\0\x05\0\x06\0\x07\0\x08\0";

/// What the device file holds: a head, bytes of silence, and what is heard after them.
pub type Content = (&'static [u8], usize, &'static [u8]);

/// The expected outcome of a call: the status, what is printed, and the device file, if it is there.
pub type Expected = (u8, &'static [u8], Option<Content>);

/// Files by their names.
pub type Held = &'static [(&'static str, &'static [u8])];

/// The files that are there, the words, and the expected outcome of the call.
pub type Row = (Held, &'static [&'static str], Expected);

/// The room of the files and of the sink, and the call of each that fails, where 0 is none.
pub type Fault = (usize, usize, u32, u32);

/// A call by its files and words, and what each fault makes of it.
pub type Faults = (Held, &'static [&'static str], &'static [(Fault, Expected)]);

// Room that is enough for each run here, and no call that fails.
const NO_FAULT: Fault = (ROOM, ROOM, 0, 0);

/// The first row whose call has another outcome.
pub fn first_wrong(alloc: Global, rows: &[Row]) -> Result<Option<usize>, AllocError> {
    for (at, (held, words, expected)) in rows.iter().enumerate() {
        if !comes_to(alloc, held, words, NO_FAULT, *expected)? {
            return Ok(Some(at));
        }
    }
    Ok(None)
}

/// The first fault by which a call has another outcome than the one beside it.
pub fn first_wrong_fault(
    alloc: Global,
    held: Held,
    words: &[&str],
    rows: &[(Fault, Expected)],
) -> Result<Option<usize>, AllocError> {
    for (at, (fault, expected)) in rows.iter().enumerate() {
        if !comes_to(alloc, held, words, *fault, *expected)? {
            return Ok(Some(at));
        }
    }
    Ok(None)
}

// Whether a call has that outcome.
fn comes_to(
    alloc: Global,
    held: Held,
    words: &[&str],
    fault: Fault,
    expected: Expected,
) -> Result<bool, AllocError> {
    let (files_room, sink_room, call, put) = fault;
    let (status, printed, content) = expected;
    let mut files = folder(alloc, held, files_room, call)?;
    let mut out = sink(alloc, sink_room, put)?;
    let handed = handed_by(held, words, status);
    let has_ended = ends_with(alloc, words, &mut files, &mut out, status, handed)?;
    Ok(has_ended && out.bytes() == printed && has_file(&files, content))
}

// A folder with these files, whose listed call fails.
fn folder(alloc: Global, held: Held, room: usize, call: u32) -> Result<MemFiles, AllocError> {
    let mut files = MemFiles::new(alloc, room)?;
    for (name, bytes) in held {
        files.add(name, bytes)?;
    }
    files.fail_at(call)?;
    Ok(files)
}

// A sink whose listed put fails.
fn sink(alloc: Global, room: usize, put: u32) -> Result<MemSink, AllocError> {
    let mut out = MemSink::new(alloc, room)?;
    out.fail_at(put)?;
    Ok(out)
}

// How many frames the engine that a call leaves has handed over: those of the script's interrupts, or those in the line of a soak.
// A call that ends with another status than 0 leaves no engine, and neither do the other commands.
fn handed_by(held: Held, words: &[&str], status: u8) -> Option<u64> {
    if status != 0 {
        None
    } else if words.first() == Some(&"run") {
        Some(interrupted(script_in(held)))
    } else if words.first() == Some(&"soak") {
        Some(644_627)
    } else {
        None
    }
}

// The script of a run: the file named so.
fn script_in(held: Held) -> &'static [u8] {
    for (name, bytes) in held {
        if *name == "s" {
            return bytes;
        }
    }
    &[]
}

// The frames of a script's interrupts.
fn interrupted(script: &[u8]) -> u64 {
    let mut frames = 0u64;
    for at in 0..script.len() {
        if script[at..].starts_with(b"intr ") {
            frames = frames.saturating_add(number_in(&script[at..]));
        }
    }
    frames
}

// The number that a line's digits spell.
fn number_in(line: &[u8]) -> u64 {
    let mut number = 0u64;
    for byte in line {
        if *byte == b'\n' {
            return number;
        }
        if byte.is_ascii_digit() {
            number = number
                .saturating_mul(10)
                .saturating_add(u64::from(byte.saturating_sub(b'0')));
        }
    }
    number
}

// Whether a call with these words ends with that status, and leaves an engine that has handed over `handed` frames, or none.
fn ends_with(
    alloc: Global,
    words: &[&str],
    files: &mut MemFiles,
    out: &mut MemSink,
    status: u8,
    handed: Option<u64>,
) -> Result<bool, AllocError> {
    let Ok(racks) = Racks::of_boxes(alloc, boxes(alloc)?) else {
        return Ok(false);
    };
    let words = owned(alloc, words)?;
    let mut ran = None;
    let found = dsp_main(alloc, &words, files, out, racks, &mut ran);
    Ok(found == status && ran.map(|engine| engine.handed()) == handed)
}

/// Words of their own memory.
pub fn owned(alloc: Global, words: &[&str]) -> Result<Vec<String>, AllocError> {
    let mut owned = Vec::new(alloc);
    for word in words {
        owned.push(String::from_str(alloc, word)?)?;
    }
    Ok(owned)
}

// Whether the device file `o` holds exactly that, or isn't there.
fn has_file(files: &MemFiles, content: Option<Content>) -> bool {
    match (files.content("o"), content) {
        (Some(bytes), Some(wanted)) => holds(bytes, wanted),
        (found, wanted) => found.is_none() && wanted.is_none(),
    }
}

// Whether bytes are a head, so much silence, and what is heard.
fn holds(bytes: &[u8], content: Content) -> bool {
    let (head, silent, heard) = content;
    let Some(body) = bytes.strip_prefix(head) else {
        return false;
    };
    match body.split_at_checked(silent) {
        Some((silence, rest)) => silence.iter().all(|byte| *byte == 0) && rest == heard,
        None => false,
    }
}
