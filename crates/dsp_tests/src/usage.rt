//! Words that match no form, and files that aren't there.

use crate::calls::Row;

const USAGE: &[u8] =
    b"dsp_replay: usage: run SCRIPT OUT [CONFIG] | check SCRIPT [CONFIG] | convert IN OUT RATE FORMAT CHANNELS | soak N\n";

/// There is no file.
pub const ROWS: [Row; 25] = [
    (&[], &[], (2, USAGE, None)),
    (&[], &["run", "s"], (2, USAGE, None)),
    (&[], &["run", "", "o"], (2, USAGE, None)),
    (&[], &["run", "s", ""], (2, USAGE, None)),
    (&[], &["run", "s", "o", ""], (2, USAGE, None)),
    (&[], &["run", "s", "o", "c", "x"], (2, USAGE, None)),
    (&[], &["check"], (2, USAGE, None)),
    (&[], &["check", "s", "c", "x"], (2, USAGE, None)),
    (&[], &["soak"], (2, USAGE, None)),
    (&[], &["soak", ""], (2, USAGE, None)),
    (&[], &["soak", "x"], (2, USAGE, None)),
    (&[], &["soak", "4294967296"], (2, USAGE, None)),
    (&[], &["soak", "7", "7"], (2, USAGE, None)),
    (&[], &["--help"], (2, USAGE, None)),
    (
        &[],
        &["convert", "w", "o", "48000", "s16le"],
        (2, USAGE, None),
    ),
    (
        &[],
        &["convert", "w", "o", "3999", "s16le", "2"],
        (2, USAGE, None),
    ),
    (
        &[],
        &["convert", "w", "o", "192001", "s16le", "2"],
        (2, USAGE, None),
    ),
    (
        &[],
        &["convert", "w", "o", "0xbb80", "s16le", "2"],
        (2, USAGE, None),
    ),
    (
        &[],
        &["convert", "w", "o", "48000", "s16be", "2"],
        (2, USAGE, None),
    ),
    (
        &[],
        &["convert", "w", "o", "48000", "s16le", "3"],
        (2, USAGE, None),
    ),
    (
        &[],
        &["run", "s", "o"],
        (3, b"dsp_replay: cannot read s\n", None),
    ),
    (
        &[],
        &["run", "s", "o", "c"],
        (3, b"dsp_replay: cannot read c\n", None),
    ),
    (
        &[],
        &["check", "s"],
        (3, b"dsp_replay: cannot read s\n", None),
    ),
    (
        &[],
        &["check", "s", "c"],
        (3, b"dsp_replay: cannot read c\n", None),
    ),
    (
        &[],
        &["convert", "w", "o", "0000048000", "s16le", "2"],
        (3, b"dsp_replay: cannot read w\n", None),
    ),
];
