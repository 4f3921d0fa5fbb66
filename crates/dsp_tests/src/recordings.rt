//! Recordings and the soak, with their exact output.

use crate::calls::Row;

/// Ten frames of two channels of 16 bits at 48000 frames each second: frame j, from 1 on, has the sample j on both sides.
pub const TEN_FRAMES: &[u8] =
    b"RIFFL\0\0\0WAVEfmt \x10\0\0\0\x01\0\x02\0\x80\xbb\0\0\0\xee\x02\0\x04\0\x10\0data(\0\0\0\x01\0\x01\0\x02\0\x02\0\x03\0\x03\0\x04\0\x04\0\x05\0\x05\0\x06\0\x06\0\x07\0\x07\0\x08\0\x08\0\x09\0\x09\0\x0a\0\x0a\0";

/// That wave is what is recorded.
pub const MICROPHONE: &[u8] = b"[device]\ncapture = \"mic\"\n[files]\nmic = \"w\"\n";

const RUN: &[&str] = &["run", "s", "o", "c"];

pub const ROWS: [Row; 4] = [
    // A full ring keeps the first frames, and an interrupt that brings more is an overrun.
    (
        &[
            (
                "s",
                b"open 0 rec s16le 2 48000\nioctl 0 setfragment 0x00020004\nioctl 0 settrigger 1\nintr 6\nintr 4\nioctl 0 geterror\nioctl 0 getispace\nread 0 64\nread 0 1\nread 0 0\nioctl 0 getiptr\n",
            ),
            ("c", MICROPHONE),
            ("w", TEN_FRAMES),
        ],
        RUN,
        (
            0,
            b"1: ok 0\n2: ok 131076\n3: ok\n4: ok 6\n5: ok 4\n6: ok underruns=0 overruns=1\n7: ok fragments=2 fragstotal=2 fragsize=16 bytes=32\n8: ok 32 0100010002000200030003000400040005000500060006000700070008000800\n9: refused again\n10: ok 0 -\n11: ok bytes=32 blocks=2 ptr=0\n",
            Some((b"", 40, b"")),
        ),
    ),
    // One channel is the mean of both.
    (
        &[
            (
                "s",
                b"open 0 rec s16le 1 48000\nioctl 0 setfragment 0x00020004\nioctl 0 post\nintr 2\nread 0 64\n",
            ),
            ("c", MICROPHONE),
            ("w", TEN_FRAMES),
        ],
        RUN,
        (
            0,
            b"1: ok 0\n2: ok 131076\n3: ok\n4: ok 2\n5: ok 4 01000200\n",
            Some((b"", 8, b"")),
        ),
    ),
    // What goes the other way is refused.
    (
        &[
            (
                "s",
                b"open 0 play\nopen 0 rec\nread 0 4\nioctl 0 getiptr\nioctl 0 settrigger 4\nioctl 0 getfmts\nioctl 0 getcaps\n",
            ),
            ("c", b""),
        ],
        RUN,
        (
            0,
            b"1: ok 0\n2: refused exist\n3: refused inval\n4: refused inval\n5: refused inval\n6: ok 1044984\n7: ok 4608\n",
            Some((b"", 0, b"")),
        ),
    ),
    // A long script plays and records at once, and writes no file.
    (
        &[],
        &["soak", "7"],
        (
            0,
            b"events 20000 frames 644627 accepted 10594078 read 1901843 refused 4619 errors 6225 sum 302785944\n",
            None,
        ),
    ),
];
