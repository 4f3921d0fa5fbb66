//! Texts to events, once there is memory for them: words, numbers, kinds of faults, and the limits.

use pcm_desk::Device;
use pcm_format::{Format, Layout, Settings};
use pcm_oss::{Event, MixRequest, Request, Way};
use pcm_script::{Script, ScriptFault, script_of};
use pcm_wave::Source;
use std::alloc::{AllocError, Global};
use std::test::Fail;

// How many events a text gives, or the line that is refused and why.
type Outcome = Result<usize, (u32, &'static str)>;

// The outcome of a text.
fn outcome(alloc: Global, text: &[u8]) -> Outcome {
    match script_of(alloc, text, &Device::usual(), &[]) {
        Ok(script) => Ok(script.events.as_slice().len()),
        Err(ScriptFault::Refused(refusal)) => Err((refusal.line, refusal.kind.word())),
        Err(ScriptFault::Memory) => Err((0, "memory")),
    }
}

// A text, and its outcome.
type Row = (&'static [u8], Outcome);

const TEXTS: [Row; 53] = [
    // Lines and their words.
    (b" \t intr \t 7 \r\n", Ok(1)),
    (b"\r\nintr\r\n\r", Ok(1)),
    (b"intr\r\r\n", Err((1, "word"))),
    (b"intr\x0b7", Err((1, "word"))),
    (b"intr 7 # \xff\xfe and more", Ok(1)),
    (b"#intr\n  # intr 0\nintr #0", Ok(1)),
    (b"intr# 7", Err((1, "word"))),
    (b"\n\nintr\n\nintr 0\nnosuch", Err((5, "range"))),
    // Numbers of either base.
    (b"close 0000000063", Ok(1)),
    (b"close 00000000063", Err((1, "number"))),
    (b"close 9999999999", Err((1, "range"))),
    (b"close 0x0000003f", Ok(1)),
    (b"close 0x00000003f", Err((1, "number"))),
    (b"close 0x", Err((1, "number"))),
    (b"close -1", Err((1, "number"))),
    (b"ioctl 0 speed 4294967295", Ok(1)),
    (b"ioctl 0 syncgroup 4294967295", Ok(1)),
    (b"ioctl 0 syncstart 4294967296", Err((1, "range"))),
    (b"ioctl 0 setfmt 00000000016", Err((1, "name"))),
    // A wrong count of words comes before any other fault, and the words are judged from left to right.
    (b"open x no s16le 2", Err((1, "count"))),
    (b"open 64 no", Err((1, "range"))),
    (b"open 0 rec u8 x x", Err((1, "number"))),
    (b"write 0 -", Ok(1)),
    (b"write 64 0", Err((1, "range"))),
    (b"read 64 x", Err((1, "range"))),
    (b"open 0 map", Ok(1)),
    (b"open 63 map s32le 8 192000", Ok(1)),
    (b"open 0 maps", Err((1, "name"))),
    (b"open 0 map u8", Err((1, "count"))),
    (b"poke 63 4294967295 -", Ok(1)),
    (b"poke 0 0xffffffff 00fF", Ok(1)),
    (b"poke 0 0", Err((1, "count"))),
    (b"poke 64 x 0", Err((1, "range"))),
    (b"poke 0 x 0", Err((1, "number"))),
    (b"poke 0 4294967296 0", Err((1, "range"))),
    (b"poke 0 4294967295 0", Err((1, "hex"))),
    (b"ioctl x nosuch 1 2", Err((1, "count"))),
    (b"ioctl x syncgroup", Err((1, "count"))),
    (b"ioctl x syncstart 1 2", Err((1, "count"))),
    (b"ioctl 64 syncgroup x", Err((1, "range"))),
    (b"ioctl 63 syncstart x", Err((1, "number"))),
    (b"ioctl 0 syncgroups 0", Err((1, "name"))),
    (b"mixer master 4294967295", Ok(1)),
    (b"mixer slot 0xffffffff", Ok(1)),
    (b"mixer mute 4294967295 0x2", Ok(1)),
    (b"mixer", Err((1, "count"))),
    (b"mixer master 1 2", Err((1, "count"))),
    (b"mixer slot", Err((1, "count"))),
    (b"mixer mute 1", Err((1, "count"))),
    (b"mixer volume 1", Err((1, "name"))),
    (b"mixer slot x 4294967296", Err((1, "number"))),
    (b"mixer slot 4294967296 x", Err((1, "range"))),
    (b"mixer mute 0 -1", Err((1, "number"))),
];

// The first text with another outcome.
fn first_wrong(alloc: Global) -> Option<usize> {
    for (at, (text, expected)) in TEXTS.iter().enumerate() {
        if outcome(alloc, text) != *expected {
            return Some(at);
        }
    }
    None
}

#[test]
fn texts(rt: HostRuntime) {
    assert_eq!(rt; first_wrong(rt.alloc()), None);
}

// How a text begins, a part and how often it follows, how the text ends, and the outcome.
type LongRow = (&'static [u8], usize, &'static [u8], &'static [u8], Outcome);

// The greatest number of events and the longest text are cases of corpus/.
const LIMITS: [LongRow; 7] = [
    // Each interrupt takes 1024 frames of four bytes.
    (b"", 65536, b"intr 1024\n", b"", Ok(65536)),
    (b"", 65536, b"intr 1024\n", b"intr 1", Err((65537, "long"))),
    // A line is judged by itself before it is found to be too much.
    (
        b"",
        65536,
        b"intr 1024\n",
        b"intr 1025",
        Err((65537, "range")),
    ),
    // The bytes of a write and of a poke.
    (b"write 0 ", 4096, b"5a", b"", Ok(1)),
    (b"write 0 ", 4097, b"5a", b"", Err((1, "hex"))),
    (b"poke 0 0 ", 4096, b"5a", b"", Ok(1)),
    (b"poke 0 0 ", 4097, b"5a", b"", Err((1, "hex"))),
];

// The text of a row.
fn text_of(alloc: Global, row: &LongRow) -> Result<Vec<u8>, AllocError> {
    let (first, times, part, last, _) = row;
    let mut text = Vec::from_slice(alloc, first)?;
    for _ in 0..*times {
        text.extend_from_slice(part)?;
    }
    text.extend_from_slice(last)?;
    Ok(text)
}

// The first long text with another outcome.
fn first_wrong_limit(alloc: Global) -> Result<Option<usize>, AllocError> {
    for (at, row) in LIMITS.iter().enumerate() {
        let text = text_of(alloc, row)?;
        if outcome(alloc, &text) != row.4 {
            return Ok(Some(at));
        }
    }
    Ok(None)
}

#[test]
fn limits(rt: HostRuntime) -> Result<(), Fail> {
    assert_eq!(rt; first_wrong_limit(rt.alloc())?, None);
    Ok(())
}

const TEXT: &[u8] = b"open 4 rec u24be 4 96000\n\
    write 3 0102\n\
    open 5 map\n\
    poke 5 0x10 0405\n\
    write 3 03\n\
    poke 5 4294967295 -\n\
    ioctl 3 setplayvol 0x3264\n\
    ioctl 4 syncgroup 0\n\
    ioctl 3 syncgroup 4294967295\n\
    ioctl 4 syncstart 0x8\n\
    mixer master 0x3232\n\
    mixer master\n\
    mixer slot 4 0x3264\n\
    mixer slot 15\n\
    mixer mute 4294967295 1\n\
    intr\n\
    read 4 4096\n\
    close 3\n";

const EVENTS: [Event; 18] = [
    Event::Open {
        fd: 4,
        way: Way::Record,
        settings: Settings {
            format: Format::U24Be,
            layout: Layout::Four,
            rate: 96000,
        },
    },
    Event::Write {
        fd: 3,
        source: Source::Inline,
        at: 0,
        len: 2,
    },
    Event::Open {
        fd: 5,
        way: Way::Map,
        settings: Settings {
            format: Format::U8,
            layout: Layout::One,
            rate: 8000,
        },
    },
    Event::Poke {
        fd: 5,
        offset: 16,
        at: 2,
        len: 2,
    },
    Event::Write {
        fd: 3,
        source: Source::Inline,
        at: 4,
        len: 1,
    },
    Event::Poke {
        fd: 5,
        offset: 4294967295,
        at: 5,
        len: 0,
    },
    Event::Ioctl {
        fd: 3,
        request: Request::SetPlayVol(12900),
    },
    Event::Join { fd: 4, group: 0 },
    Event::Join {
        fd: 3,
        group: 4294967295,
    },
    Event::StartGroup { fd: 4, group: 8 },
    Event::Mixer {
        request: MixRequest::SetMaster(12850),
    },
    Event::Mixer {
        request: MixRequest::GetMaster,
    },
    Event::Mixer {
        request: MixRequest::SetSlot {
            slot: 4,
            volume: 12900,
        },
    },
    Event::Mixer {
        request: MixRequest::GetSlot(15),
    },
    Event::Mixer {
        request: MixRequest::Mute {
            slot: 4294967295,
            on: 1,
        },
    },
    Event::Intr { frames: 256 },
    Event::Read { fd: 4, len: 4096 },
    Event::Close { fd: 3 },
];

// Whether a script has these events, and the bytes and frames that they name.
fn has_events(script: &Script) -> bool {
    script.events.as_slice() == EVENTS.as_slice()
        && script.inline_bytes.as_slice() == b"\x01\x02\x04\x05\x03".as_slice()
        && script.device_frames == 256
}

#[test]
fn a_script_has_its_events_in_order(rt: HostRuntime) -> Result<(), Fail> {
    let script = script_of(rt.alloc(), TEXT, &Device::usual(), &[])?;
    assert!(rt; has_events(&script));
    Ok(())
}
