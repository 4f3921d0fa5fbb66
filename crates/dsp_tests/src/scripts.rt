//! Scripts with their exact output.

use crate::calls::{FOUR_FRAMES, FOUR_FRAMES_HEARD, FOUR_FRAMES_PRINTED, Row};

// Three clients with one frame each, and what is printed of them.
const THREE: &[u8] =
    b"open 0 play s16le 2 48000\nopen 1 play s16le 2 48000\nopen 2 play s16le 2 48000\nwrite 0 30753075\nclose 0\nwrite 1 10271027\nclose 1\nwrite 2 f0d8f0d8\nclose 2\nintr 1024\nintr 1\n";

const THREE_PRINTED: &[u8] =
    b"1: ok 0\n2: ok 1\n3: ok 2\n4: ok 4\n5: ok\n6: ok 4\n7: ok\n8: ok 4\n9: ok\n10: ok 1024\n11: ok 1\n";

// A client at half the rate with two frames, and what is printed and heard of it.
const HALF: &[u8] =
    b"open 0 play s16le 2 24000\nwrite 0 0000000064006400\nclose 0\nintr 1024\nintr 4\n";

const HALF_PRINTED: &[u8] = b"1: ok 0\n2: ok 8\n3: ok\n4: ok 1024\n5: ok 4\n";

const HALF_HEARD: &[u8] = b"\0\0\0\0\x32\0\x32\0\x64\0\x64\0\x32\0\x32\0";

const RUN: &[&str] = &["run", "s", "o"];

pub const ROWS: [Row; 5] = [
    (&[("s", b"")], RUN, (0, b"", Some((b"", 0, b"")))),
    (
        &[("s", FOUR_FRAMES)],
        RUN,
        (0, FOUR_FRAMES_PRINTED, Some((b"", 4096, FOUR_FRAMES_HEARD))),
    ),
    // The limit acts after each addition: 30000 + 10000 - 10000 is 22767.
    (
        &[("s", THREE)],
        RUN,
        (0, THREE_PRINTED, Some((b"", 4096, b"\xef\x58\xef\x58"))),
    ),
    // Lines between 0, 100 and the silence after them.
    (
        &[("s", HALF)],
        RUN,
        (0, HALF_PRINTED, Some((b"", 4096, HALF_HEARD))),
    ),
    // An interrupt above the ring.
    (
        &[("s", b"intr 1025\n")],
        RUN,
        (5, b"dsp_replay: bad script: line 1: range\n", None),
    ),
];
