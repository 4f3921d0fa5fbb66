//! What isn't supported of a wave's format.

use crate::numbers::{four_at, two_at};
use crate::said::Said;
use pcm_format::{RATE_LEAST, RATE_MOST};

// The bytes of a format that are looked at, which an extensible one has.
pub(crate) const FORMAT_BYTES: usize = 40;

// The bytes that every format has.
const PLAIN_BYTES: u32 = 16;

// The tag of integer samples, and that of an extensible format, which names a tag further down.
const PCM_TAG: u32 = 1;

const EXTENSIBLE_TAG: u32 = 0xFFFE;

// The first number of a format that isn't supported, in the order in which they are judged. Its chunk states `size` bytes.
pub(crate) fn format_fault(format: &[u8; FORMAT_BYTES], size: u32) -> Said {
    let tag = two_at(format, 0);
    if size < PLAIN_BYTES {
        let words = " bytes; it has at least ";
        Said::Two(
            "a \"fmt \" chunk of ",
            size.into(),
            words,
            PLAIN_BYTES.into(),
            "",
        )
    } else if tag == EXTENSIBLE_TAG && size < FORMAT_BYTES as u32 {
        let words = " bytes; it has at least ";
        Said::Two(
            "an extensible \"fmt \" chunk of ",
            size.into(),
            words,
            FORMAT_BYTES as u64,
            "",
        )
    } else if tag == EXTENSIBLE_TAG {
        tag_fault(format, two_at(format, 24))
    } else {
        tag_fault(format, tag)
    }
}

fn tag_fault(format: &[u8; FORMAT_BYTES], tag: u32) -> Said {
    if tag == PCM_TAG {
        number_fault(format)
    } else {
        let words = ") or extensible with PCM is read";
        Said::Two(
            "format tag ",
            tag.into(),
            coding(tag),
            PCM_TAG.into(),
            words,
        )
    }
}

// The names of codings that are often met, and what is read.
fn coding(tag: u32) -> &'static str {
    match tag {
        2 => " (Microsoft ADPCM); PCM (",
        3 => " (floating point); PCM (",
        6 => " (A-law); PCM (",
        7 => " (mu-law); PCM (",
        17 => " (IMA ADPCM); PCM (",
        85 => " (MP3); PCM (",
        _ => "; PCM (",
    }
}

fn number_fault(format: &[u8; FORMAT_BYTES]) -> Said {
    let channels = two_at(format, 2);
    let rate = four_at(format, 4);
    let frame = two_at(format, 12);
    let bits = two_at(format, 14);
    if !matches!(bits, 8 | 16 | 24 | 32) {
        Said::One("", bits.into(), " bits; 8, 16, 24 and 32 are read")
    } else if !matches!(channels, 1 | 2 | 4 | 6 | 8) {
        Said::One("", channels.into(), " channels; 1, 2, 4, 6 and 8 are read")
    } else if rate < RATE_LEAST || rate > RATE_MOST {
        rate_said(rate)
    } else {
        frame_said(bits, frame, channels)
    }
}

fn rate_said(rate: u32) -> Said {
    Said::Three(
        "rate ",
        rate.into(),
        "; ",
        RATE_LEAST.into(),
        " to ",
        RATE_MOST.into(),
        " are read",
    )
}

// A frame has the bytes of its samples, and no others.
fn frame_said(bits: u32, frame: u32, channels: u32) -> Said {
    Said::Three(
        "",
        bits.into(),
        " bits in frames of ",
        frame.into(),
        " bytes; frames of ",
        u64::from(bits / 8).saturating_mul(u64::from(channels)),
        " are read",
    )
}

// The rate and the channels that a format states.
pub(crate) fn shape_of(format: &[u8; FORMAT_BYTES]) -> (u32, u32) {
    (four_at(format, 4), two_at(format, 2))
}
