//! Configurations, data files and conversions, with their exact output.

use crate::calls::Row;

/// One frame of two channels of 16 bits at 48000 frames each second, after a header.
pub const ONE_FRAME: &[u8] =
    b"RIFF\x28\0\0\0WAVEfmt \x10\0\0\0\x01\0\x02\0\x80\xbb\0\0\0\xee\x02\0\x04\0\x10\0data\x04\0\0\0\x01\0\x02\0";

/// Two frames at 24000 frames each second, from nothing to 100.
pub const STEP: &[u8] =
    b"RIFF\x2c\0\0\0WAVEfmt \x10\0\0\0\x01\0\x02\0\xc0\x5d\0\0\0\x77\x01\0\x04\0\x10\0data\x08\0\0\0\0\0\0\0\x64\0\x64\0";

/// The same at twice the rate.
pub const STEP_DOUBLED: &[u8] =
    b"RIFF\x34\0\0\0WAVEfmt \x10\0\0\0\x01\0\x02\0\x80\xbb\0\0\0\xee\x02\0\x04\0\x10\0data\x10\0\0\0\0\0\0\0\x32\0\x32\0\x64\0\x64\0\x32\0\x32\0";

// And as one channel of bytes, of which there is an odd number with a byte of padding after it.
const ONE_FRAME_IN_BYTES: &[u8] =
    b"RIFF\x26\0\0\0WAVEfmt \x10\0\0\0\x01\0\x01\0\x80\xbb\0\0\x80\xbb\0\0\x01\0\x08\0data\x01\0\0\0\x80\0";

// Eight frames of silence after a header.
const SILENT_WAVE: &[u8] =
    b"RIFF\x44\0\0\0WAVEfmt \x10\0\0\0\x01\0\x02\0\x80\xbb\0\0\0\xee\x02\0\x04\0\x10\0data\x20\0\0\0\0\0\0\0\0\0\0\0\0\0\0\0\0\0\0\0\0\0\0\0\0\0\0\0\0\0\0\0\0\0\0\0";

const RUN: &[&str] = &["run", "s", "o", "c"];

const CHECK: &[&str] = &["check", "s", "c"];

/// The words of a conversion.
pub const CONVERT: &[&str] = &["convert", "w", "o", "48000", "s16le", "2"];

// A configuration with one data file, and with one more that is recorded from.
const SONG: &[u8] = b"[files]\nsong = \"w\"\n";

const MICROPHONE: &[u8] = b"[device]\ncapture = \"song\"\n[files]\nsong = \"w\"\n";

/// Runs, and what each leaves.
pub const RUNS: [Row; 4] = [
    // A converter of quality 0 holds each frame.
    (
        &[
            (
                "s",
                b"open 0 play s16le 2 24000\nwrite 0 0100020003000400\nioctl 0 sync\nintr 1024\nintr 4\n",
            ),
            ("c", b"[vchans]\nquality = 0\n"),
        ],
        RUN,
        (
            0,
            b"1: ok 0\n2: ok 8\n3: ok\n4: ok 1024\n5: ok 4\n",
            Some((
                b"",
                4096,
                b"\x01\0\x02\0\x01\0\x02\0\x03\0\x04\0\x03\0\x04\0",
            )),
        ),
    ),
    // The frames stand after a header.
    (
        &[
            ("s", b"intr 4\nintr 4\n"),
            ("c", b"[device]\ncontainer = \"wav\"\n"),
        ],
        RUN,
        (0, b"1: ok 4\n2: ok 4\n", Some((b"", 0, SILENT_WAVE))),
    ),
    // The bytes of a wave's body are sent, from the body's begin on.
    (
        &[
            (
                "s",
                b"open 0 play s16le 2 48000\nsend 0 song 0 2\nsend 0 song 2 2\nclose 0\nintr 1024\nintr 1\n",
            ),
            ("c", SONG),
            ("w", ONE_FRAME),
        ],
        RUN,
        (
            0,
            b"1: ok 0\n2: ok 2\n3: ok 2\n4: ok\n5: ok 1024\n6: ok 1\n",
            Some((b"", 4096, b"\x01\0\x02\0")),
        ),
    ),
    // One slot alone: it is free again once the closed channel was played.
    (
        &[
            ("s", b"open 0 play\nopen 1 play\n"),
            ("c", b"[vchans]\nplay = 1\n"),
        ],
        RUN,
        (0, b"1: ok 0\n2: refused busy\n", Some((b"", 0, b""))),
    ),
];

/// Scripts that are judged alone, and calls that are refused.
pub const JUDGED: [Row; 8] = [
    (
        &[("s", b""), ("c", SONG), ("w", ONE_FRAME)],
        CHECK,
        (0, b"events 0 frames 0\n", None),
    ),
    (
        &[("s", b"intr 4\nclose 5\nintr\n"), ("c", b"")],
        CHECK,
        (0, b"events 3 frames 260\n", None),
    ),
    (
        &[("s", b""), ("c", b"[device]\nrate = 3999\n")],
        RUN,
        (
            4,
            b"dsp_replay: bad configuration: range device.rate\n",
            None,
        ),
    ),
    (
        &[("s", b"x"), ("c", SONG), ("w", b"RIFF\x28\0\0\0WAV")],
        CHECK,
        (6, b"dsp_replay: bad wave: w: notriff\n", None),
    ),
    // The data files are judged before the script is read.
    (
        &[("c", SONG), ("w", b"")],
        CHECK,
        (6, b"dsp_replay: bad wave: w: notriff\n", None),
    ),
    (
        &[("s", b""), ("c", MICROPHONE), ("w", STEP)],
        CHECK,
        (6, b"dsp_replay: bad wave: w: shape\n", None),
    ),
    (
        &[("s", b""), ("c", MICROPHONE), ("w", ONE_FRAME)],
        CHECK,
        (0, b"events 0 frames 0\n", None),
    ),
    (
        &[
            ("s", b"open 0 play\nsend 0 song 3 2\n"),
            ("c", SONG),
            ("w", ONE_FRAME),
        ],
        CHECK,
        (5, b"dsp_replay: bad script: line 2: range\n", None),
    ),
];

/// Waves at other settings.
pub const CONVERTED: [Row; 3] = [
    (
        &[("w", STEP)],
        CONVERT,
        (0, b"frames 4\n", Some((b"", 0, STEP_DOUBLED))),
    ),
    // 1 and 2 in 16 bits are nothing in 8: the byte is the midpoint.
    (
        &[("w", ONE_FRAME)],
        &["convert", "w", "o", "48000", "u8", "1"],
        (0, b"frames 1\n", Some((b"", 0, ONE_FRAME_IN_BYTES))),
    ),
    (
        &[("w", b"RIFF")],
        CONVERT,
        (6, b"dsp_replay: bad wave: w: notriff\n", None),
    ),
];
