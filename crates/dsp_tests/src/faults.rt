//! Each outer call of each command fails in turn, and its room is just enough or too small.

use crate::calls::{
    Content, Expected, FOUR_FRAMES, FOUR_FRAMES_HEARD, FOUR_FRAMES_PRINTED, Fault, Faults, ROOM,
};
use crate::recordings::{MICROPHONE, TEN_FRAMES};
use crate::waves::{CONVERT, ONE_FRAME, STEP, STEP_DOUBLED};

// What is printed of the first three events of the four frames, and of the first four.
const THREE_LINES: &[u8] = b"1: ok 0\n2: ok 16\n3: ok\n";

const FOUR_LINES: &[u8] = b"1: ok 0\n2: ok 16\n3: ok\n4: ok 1024\n";

const RUN: &[&str] = &["run", "s", "o"];

const RUN_CONFIGURED: &[&str] = &["run", "s", "o", "c"];

// A file that was created, and no more.
const EMPTY: Option<Content> = Some((b"", 0, b""));

// The frames of a run: all of them, and those of its first interrupt.
const WHOLE: Option<Content> = Some((b"", 4096, FOUR_FRAMES_HEARD));

const SILENCE: Option<Content> = Some((b"", 4096, b""));

// A run that plays four frames.
const OF_FRAMES: [(Fault, Expected); 18] = [
    ((ROOM, ROOM, 0, 0), (0, FOUR_FRAMES_PRINTED, WHOLE)),
    // The read, the create, and the appends of the fourth event and of the fifth.
    (
        (ROOM, ROOM, 1, 0),
        (3, b"dsp_replay: cannot read s\n", None),
    ),
    ((ROOM, ROOM, 2, 0), (7, b"", None)),
    ((ROOM, ROOM, 3, 0), (7, THREE_LINES, EMPTY)),
    ((ROOM, ROOM, 4, 0), (7, FOUR_LINES, SILENCE)),
    ((ROOM, ROOM, 5, 0), (0, FOUR_FRAMES_PRINTED, WHOLE)),
    // The lines.
    ((ROOM, ROOM, 0, 1), (7, b"", EMPTY)),
    ((ROOM, ROOM, 0, 2), (7, b"1: ok 0\n", EMPTY)),
    ((ROOM, ROOM, 0, 3), (7, b"1: ok 0\n2: ok 16\n", EMPTY)),
    ((ROOM, ROOM, 0, 4), (7, THREE_LINES, SILENCE)),
    ((ROOM, ROOM, 0, 5), (7, FOUR_LINES, WHOLE)),
    ((ROOM, ROOM, 0, 6), (0, FOUR_FRAMES_PRINTED, WHOLE)),
    ((ROOM, ROOM, 1, 1), (7, b"", None)),
    // The room is just enough, or one byte too small.
    ((4112, 42, 0, 0), (0, FOUR_FRAMES_PRINTED, WHOLE)),
    ((4111, 42, 0, 0), (7, FOUR_LINES, SILENCE)),
    ((4112, 41, 0, 0), (7, FOUR_LINES, WHOLE)),
    ((4095, 42, 0, 0), (7, THREE_LINES, EMPTY)),
    ((0, 42, 0, 0), (7, b"", None)),
];

// The header of a wave of 1028 frames of two channels of 16 bits, at 48000 frames each second.
const HEADER: &[u8] =
    b"RIFF\x34\x10\0\0WAVEfmt \x10\0\0\0\x01\0\x02\0\x80\xbb\0\0\0\xee\x02\0\x04\0\x10\0data\x10\x10\0\0";

const WAVE_HEADER: Option<Content> = Some((HEADER, 0, b""));

const WAVE_SILENCE: Option<Content> = Some((HEADER, 4096, b""));

const WAVE: Option<Content> = Some((HEADER, 4096, FOUR_FRAMES_HEARD));

// The same run into a wave, with a data file.
const OF_A_WAVE: [(Fault, Expected); 19] = [
    // The configuration, the data file, and the script.
    (
        (ROOM, ROOM, 1, 0),
        (3, b"dsp_replay: cannot read c\n", None),
    ),
    (
        (ROOM, ROOM, 2, 0),
        (3, b"dsp_replay: cannot read w\n", None),
    ),
    (
        (ROOM, ROOM, 3, 0),
        (3, b"dsp_replay: cannot read s\n", None),
    ),
    // The create, the header, and the appends of the fourth event and of the fifth.
    ((ROOM, ROOM, 4, 0), (7, b"", None)),
    ((ROOM, ROOM, 5, 0), (7, b"", EMPTY)),
    ((ROOM, ROOM, 6, 0), (7, THREE_LINES, WAVE_HEADER)),
    ((ROOM, ROOM, 7, 0), (7, FOUR_LINES, WAVE_SILENCE)),
    ((ROOM, ROOM, 8, 0), (0, FOUR_FRAMES_PRINTED, WAVE)),
    // The lines.
    ((ROOM, ROOM, 0, 1), (7, b"", WAVE_HEADER)),
    ((ROOM, ROOM, 0, 2), (7, b"1: ok 0\n", WAVE_HEADER)),
    ((ROOM, ROOM, 0, 3), (7, b"1: ok 0\n2: ok 16\n", WAVE_HEADER)),
    ((ROOM, ROOM, 0, 4), (7, THREE_LINES, WAVE_SILENCE)),
    ((ROOM, ROOM, 0, 5), (7, FOUR_LINES, WAVE)),
    ((ROOM, ROOM, 0, 6), (0, FOUR_FRAMES_PRINTED, WAVE)),
    // The line of a file that can't be read.
    ((ROOM, ROOM, 1, 1), (7, b"", None)),
    // The room is just enough for the header, or for nothing.
    ((44, ROOM, 0, 0), (7, THREE_LINES, WAVE_HEADER)),
    ((43, ROOM, 0, 0), (7, b"", EMPTY)),
    ((4156, 0, 0, 0), (7, b"", WAVE_HEADER)),
    ((4156, 42, 0, 0), (0, FOUR_FRAMES_PRINTED, WAVE)),
];

// A client that records, and reads what was captured.
const READER: &[u8] = b"open 0 rec s16le 2 48000\nioctl 0 post\nintr 4\nread 0 16\nintr 4\n";

const TWO_READER_LINES: &[u8] = b"1: ok 0\n2: ok\n";

const THREE_READER_LINES: &[u8] = b"1: ok 0\n2: ok\n3: ok 4\n";

const FOUR_READER_LINES: &[u8] =
    b"1: ok 0\n2: ok\n3: ok 4\n4: ok 16 01000100020002000300030004000400\n";

const READER_PRINTED: &[u8] =
    b"1: ok 0\n2: ok\n3: ok 4\n4: ok 16 01000100020002000300030004000400\n5: ok 4\n";

// Nobody plays meanwhile.
const ONE_BLOCK: Option<Content> = Some((b"", 16, b""));

const TWO_BLOCKS: Option<Content> = Some((b"", 32, b""));

const OF_A_RECORDING: [(Fault, Expected); 14] = [
    // The configuration, the wave that is captured, and the script.
    (
        (ROOM, ROOM, 1, 0),
        (3, b"dsp_replay: cannot read c\n", None),
    ),
    (
        (ROOM, ROOM, 2, 0),
        (3, b"dsp_replay: cannot read w\n", None),
    ),
    (
        (ROOM, ROOM, 3, 0),
        (3, b"dsp_replay: cannot read s\n", None),
    ),
    // The create, and the appends of both interrupts.
    ((ROOM, ROOM, 4, 0), (7, b"", None)),
    ((ROOM, ROOM, 5, 0), (7, TWO_READER_LINES, EMPTY)),
    ((ROOM, ROOM, 6, 0), (7, FOUR_READER_LINES, ONE_BLOCK)),
    ((ROOM, ROOM, 7, 0), (0, READER_PRINTED, TWO_BLOCKS)),
    // The lines, that of the read among them.
    ((ROOM, ROOM, 0, 1), (7, b"", EMPTY)),
    ((ROOM, ROOM, 0, 3), (7, TWO_READER_LINES, ONE_BLOCK)),
    ((ROOM, ROOM, 0, 4), (7, THREE_READER_LINES, ONE_BLOCK)),
    ((ROOM, ROOM, 0, 5), (7, FOUR_READER_LINES, TWO_BLOCKS)),
    ((ROOM, ROOM, 0, 6), (0, READER_PRINTED, TWO_BLOCKS)),
    // The room for the line of the read is one byte too small.
    ((ROOM, 63, 0, 0), (7, THREE_READER_LINES, ONE_BLOCK)),
    ((ROOM, 64, 0, 0), (7, FOUR_READER_LINES, TWO_BLOCKS)),
];

// The header of the converted wave, of four frames.
const CONVERTED_HEADER: &[u8] =
    b"RIFF\x34\0\0\0WAVEfmt \x10\0\0\0\x01\0\x02\0\x80\xbb\0\0\0\xee\x02\0\x04\0\x10\0data\x10\0\0\0";

const CONVERTED: Option<Content> = Some((STEP_DOUBLED, 0, b""));

const OF_A_CONVERSION: [(Fault, Expected); 10] = [
    // The read, the create, the header, and the body.
    (
        (ROOM, ROOM, 1, 0),
        (3, b"dsp_replay: cannot read w\n", None),
    ),
    ((ROOM, ROOM, 2, 0), (7, b"", None)),
    ((ROOM, ROOM, 3, 0), (7, b"", EMPTY)),
    (
        (ROOM, ROOM, 4, 0),
        (7, b"", Some((CONVERTED_HEADER, 0, b""))),
    ),
    ((ROOM, ROOM, 5, 0), (0, b"frames 4\n", CONVERTED)),
    // The line.
    ((ROOM, ROOM, 0, 1), (7, b"", CONVERTED)),
    ((ROOM, ROOM, 1, 1), (7, b"", None)),
    // The room is just enough, or one byte too small.
    ((60, 9, 0, 0), (0, b"frames 4\n", CONVERTED)),
    ((59, 9, 0, 0), (7, b"", Some((CONVERTED_HEADER, 0, b"")))),
    ((60, 8, 0, 0), (7, b"", CONVERTED)),
];

// The line of a soak of one number.
const SOAKED: &[u8] =
    b"events 20000 frames 644627 accepted 10594078 read 1901843 refused 4619 errors 6225 sum 302785944\n";

// It reads and writes no file, and puts one line.
const OF_A_SOAK: [(Fault, Expected); 4] = [
    ((0, ROOM, 1, 0), (0, SOAKED, None)),
    ((0, ROOM, 0, 1), (7, b"", None)),
    ((0, 97, 0, 0), (0, SOAKED, None)),
    ((0, 96, 0, 0), (7, b"", None)),
];

/// All calls, with what each fault makes of them.
pub const TABLES: [Faults; 5] = [
    (&[("s", FOUR_FRAMES)], RUN, &OF_FRAMES),
    (
        &[
            ("c", b"[device]\ncontainer = \"wav\"\n[files]\nw = \"w\"\n"),
            ("w", ONE_FRAME),
            ("s", FOUR_FRAMES),
        ],
        RUN_CONFIGURED,
        &OF_A_WAVE,
    ),
    (
        &[("c", MICROPHONE), ("w", TEN_FRAMES), ("s", READER)],
        RUN_CONFIGURED,
        &OF_A_RECORDING,
    ),
    (&[("w", STEP)], CONVERT, &OF_A_CONVERSION),
    (&[], &["soak", "7"], &OF_A_SOAK),
];
