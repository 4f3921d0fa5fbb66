//! Configurations, once there is memory for them, and the limit of their length.

use pcm_config::{Config, ConfigFault, config_of, default_config};
use std::alloc::{AllocError, Global};
use std::test::Fail;

// The frames per second, the frames of the ring, and how many files and filters a text settles, or the words of its
// refusal.
type Outcome = Result<(u32, u32, usize, usize), (&'static str, &'static str)>;

const USUAL: Outcome = Ok((48000, 1024, 0, 0));

// What a configuration settles.
fn settled(config: &Config) -> Outcome {
    Ok((
        config.device.settings.rate,
        config.device.ring_frames,
        config.files.as_slice().len(),
        config.tables.list().len(),
    ))
}

// What is settled without a text.
fn usual(alloc: Global) -> Outcome {
    settled(&default_config(alloc))
}

// The outcome of a text.
fn outcome(alloc: Global, text: &[u8]) -> Outcome {
    match config_of(alloc, text) {
        Ok(config) => settled(&config),
        Err(ConfigFault::Refused(refusal)) => Err((refusal.kind.word(), refusal.place.word())),
        Err(ConfigFault::Memory) => Err(("memory", "")),
    }
}

// How many copies of a text, one text more, and their outcome.
type Row = (usize, &'static [u8], &'static [u8], Outcome);

const ROWS: [Row; 19] = [
    (1, b"", b"", USUAL),
    (
        1,
        b"\xef\xbb\xbf# a byte order mark, and lines with a return\r\n",
        b"",
        USUAL,
    ),
    (
        1,
        b"device = { hw_block = 4096, hw_blocks = 64, rate = 0x1_0000 } # 65536 frames\n",
        b"",
        Ok((65536, 262144, 0, 0)),
    ),
    (
        1,
        b"device.capture = \"a\"\nvchans.quality = 4\nfiles.b = \"y\"\nfiles.a = 'x'\n",
        b"[[tables]]\nshift = 1\nrows = [[2, 0], [1, 1]]\n",
        Ok((48000, 1024, 2, 1)),
    ),
    (
        1,
        b"[files]\nabcdefghijklmnopqrstuvwxyz012345 = \"a name of 32\"",
        b"",
        Ok((48000, 1024, 1, 0)),
    ),
    (1, b"#\xff", b"", Err(("toml", "top"))),
    (1, b"Device = {}", b"", Err(("key", "top"))),
    (1, b"[[device]]\n", b"", Err(("kind", "device"))),
    (1, b"vchans.rec = 1", b"", Err(("key", "vchans"))),
    // Sixteen channels are mixed at most: those that play, and those that are mapped.
    (1, b"vchans = { play = 1, mapped = 15 }", b"", USUAL),
    (1, b"vchans.mapped = 12", b"", USUAL),
    (
        1,
        b"vchans.mapped = 13",
        b"",
        Err(("range", "vchans.mapped")),
    ),
    (
        1,
        b"vchans = { mapped = 17, channels = 3 }",
        b"",
        Err(("range", "vchans.channels")),
    ),
    (
        1,
        b"vchans.mapped = true",
        b"",
        Err(("kind", "vchans.mapped")),
    ),
    (
        1,
        b"device.rate = -48000",
        b"",
        Err(("range", "device.rate")),
    ),
    (
        1,
        b"[files]\n\"\\u00e4\" = \"x\"",
        b"",
        Err(("name", "files")),
    ),
    (1, b"[[tables]]\n", b"", Err(("missing", "tables"))),
    // 2097152 bytes, and one more.
    (65536, b"# a comment that has 32 bytes..\n", b"", USUAL),
    (
        65536,
        b"# a comment that has 32 bytes..\n",
        b"#",
        Err(("long", "top")),
    ),
];

// A text `times` times, and another after it.
fn repeated(alloc: Global, times: usize, text: &[u8], last: &[u8]) -> Result<Vec<u8>, AllocError> {
    let mut texts = Vec::new(alloc);
    for _ in 0..times {
        texts.extend_from_slice(text)?;
    }
    texts.extend_from_slice(last)?;
    Ok(texts)
}

// Whether the outcome of a row's text is the one expected.
fn is_right(alloc: Global, row: &Row) -> Result<bool, AllocError> {
    let (times, text, last, expected) = row;
    let text = repeated(alloc, *times, text, last)?;
    Ok(outcome(alloc, &text) == *expected)
}

// The first row with another outcome.
fn first_wrong(alloc: Global) -> Result<Option<usize>, AllocError> {
    for (at, row) in ROWS.iter().enumerate() {
        if !is_right(alloc, row)? {
            return Ok(Some(at));
        }
    }
    Ok(None)
}

#[test]
fn configurations(rt: HostRuntime) -> Result<(), Fail> {
    assert_eq!(rt; first_wrong(rt.alloc())?, None);
    Ok(())
}

#[test]
fn without_a_configuration(rt: HostRuntime) {
    assert!(rt; usual(rt.alloc()) == USUAL);
}
