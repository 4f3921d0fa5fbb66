//! Waves as other programs write them, once there is memory for them.

use pcm_wave::DataFile;
use std::alloc::{AllocError, Global};
use std::test::Fail;

// Two frames of one channel of 8 bits at 8000 frames each second.
const MONO: &[u8] =
    b"RIFF\x26\0\0\0WAVEfmt \x10\0\0\0\x01\0\x01\0\x40\x1f\0\0\x40\x1f\0\0\x01\0\x08\0data\x02\0\0\0\x80\xff";

// One frame of six channels of 24 bits at 48000 frames each second, as an extensible format, after a text of three bytes.
const SURROUND: &[u8] =
    b"RIFF\x58\0\0\0WAVELIST\x03\0\0\0abc\0fmt \x28\0\0\0\xfe\xff\x06\0\x80\xbb\0\0\0\x2f\x0d\0\x12\0\x18\0\x16\0\x18\0\x3f\0\0\0\x01\0\0\0\0\0\x10\0\x80\0\0\xaa\0\x38\x9b\x71data\x12\0\0\0abcdefghijklmnopqr";

// One frame of two channels of 16 bits at 44100 frames each second, whose sizes weren't known when it was written.
const PIPED: &[u8] =
    b"RIFF\xff\xff\xff\xffWAVEfmt \x10\0\0\0\x01\0\x02\0\x44\xac\0\0\x10\xb1\x02\0\x04\0\x10\0data\xff\xff\xff\xff\x01\0\x02\0";

// The bytes of a file, and of its body.
const ROWS: [(&[u8], &[u8]); 3] = [
    (MONO, b"\x80\xff"),
    (SURROUND, b"abcdefghijklmnopqr"),
    (PIPED, b"\x01\0\x02\0"),
];

// Whether a file of these bytes lends that body.
fn lends(alloc: Global, bytes: &[u8], body: &[u8]) -> Result<bool, AllocError> {
    let name = String::from_str(alloc, "a.wav")?;
    let bytes = Vec::from_slice(alloc, bytes)?;
    match DataFile::read(name, bytes) {
        Ok(file) => Ok(file.body() == body),
        Err(_) => Ok(false),
    }
}

// The first file that lends something else.
fn first_wrong(alloc: Global) -> Result<Option<usize>, AllocError> {
    for (at, (bytes, body)) in ROWS.iter().enumerate() {
        if !lends(alloc, bytes, body)? {
            return Ok(Some(at));
        }
    }
    Ok(None)
}

#[test]
fn files_lend_their_bodies(rt: HostRuntime) -> Result<(), Fail> {
    assert_eq!(rt; first_wrong(rt.alloc())?, None);
    Ok(())
}
